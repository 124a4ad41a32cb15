//! What a read makes of a stored cell.
ghost use Rattle.resin_eval_queries.specs.Cells.{IsReadAs, damage};
ghost use Rattle.resin_eval_writes.specs.Under.base.FileStore.{entry_of};
ghost use Rattle.resin_eval_writes.specs.Under.base.declared.cell.Cell.TheVariants as cell;
ghost use Rattle.resin_eval_writes.specs.Under.eval_nested.Nested.{Nests, means};
ghost use Rattle.resin_eval_writes.specs.Under.eval_nested.Running.{Performs};
ghost use Rattle.resin_eval_writes.specs.Under.meaning_forms.Cells.{cell_context, cell_value, entry_for, first_set};
ghost use Rattle.resin_eval_writes.specs.Under.meaning_forms.Cells.{marks_of_cells, read_text, read_value, whole_marks};
ghost use Rattle.resin_eval_writes.specs.Under.meaning_forms.Keeping.{thaw_entry};
ghost use Rattle.resin_eval_writes.specs.Under.meaning_forms.Runs.{Runs, on_ok};
ghost use Rattle.resin_eval_writes.specs.Under.store.Entries.{lift};
ghost use Rattle.resin_eval_writes.specs.Under.value.Seen.{tree_of};
ghost use Rattle.std.specs.Prelude.{IfOk, OnOk, [], ◌++◌, ◌≡◌};

use resin_eval_writes::leaving::{context_of, text_key, with_text};
use resin_eval_writes::reading::Reader;
use resin_eval_writes::under::base::{Cell, Entry, Files, StoredCell, Tables};
use resin_eval_writes::under::bytes::Bytes;
use resin_eval_writes::under::eval_nested::nested::{Evaluator, Nested, Outcome};
use resin_eval_writes::under::eval_nested::run::Run;
use resin_eval_writes::under::journal::Channel;
use resin_eval_writes::under::label::PSet;
use resin_eval_writes::under::lstr::{LONGEST, LText};
use resin_eval_writes::under::machine::{Machine, Stop};
use resin_eval_writes::under::meaning_tables::under::sql_more::is_null;
use resin_eval_writes::under::scalar::ScriptFault;
use resin_eval_writes::under::step_parts::reads::plain;
use resin_eval_writes::under::store::policies_of;
use resin_eval_writes::under::value::Value;
use resin_shadow::FrozenRuns;
use resin_step_keeping::thawing::thaw_entry;
use std::alloc::{AllocError, Global};

/// What the filters of a cell are told: the channel, and the column as the answer names it.
pub(crate) fn cell_context(alloc: Global, column: &[u8]) -> Result<Value, AllocError>
    ensures { IfOk result (λ v. v ≡ cell_context column.now) }
{
    let context = context_of(alloc, b"sql")?;
    let key = text_key(alloc, b"column")?;
    Ok(Value::Arr(with_text(context, &key, plain(alloc, column)?)?))
}

// Bytes beside a shadow text, as an entry.
fn entry_of(alloc: Global, bytes: &[u8], shadow: &[u8]) -> Result<Entry, AllocError>
    ensures { IfOk result (λ e. e ≡ entry_of bytes.now shadow.now) }
{
    let bytes = Bytes::from_slice(alloc, bytes)?;
    let shadow = Bytes::from_slice(alloc, shadow)?;
    Ok(Entry { bytes, shadow })
}

// The entry that a value is read as beside a shadow text; NULL is none.
fn entry_beside(alloc: Global, value: &Cell, shadow: &[u8]) -> Result<Option<Entry>, AllocError>
    ensures { IfOk result (λ found. IsReadAs (record { value = value.now; shadow = cell.Text shadow.now }) found) }
{
    match value {
        Cell::Text(bytes) => Ok(Some(entry_of(alloc, bytes.as_slice(), shadow)?)),
        Cell::Int(_) => Ok(Some(entry_of(alloc, &[0], shadow)?)),
        Cell::Null => Ok(None),
    }
}

// The entry that a cell is read as, which is none where there is no shadow text beside it.
fn entry_for(alloc: Global, cell: &StoredCell) -> Result<Option<Entry>, AllocError>
    ensures { IfOk result (λ found. IsReadAs cell.now found) }
{
    match &cell.shadow {
        Cell::Text(shadow) => entry_beside(alloc, &cell.value, shadow.as_slice()),
        _ => Ok(None),
    }
}

// The fault of a damaged cell. TextTooLong comes before its shadow is looked at.
fn damage(value: &Cell) -> ScriptFault
    ensures { result ≡ damage value.now }
{
    match value {
        Cell::Text(bytes) if bytes.as_slice().len() > LONGEST => ScriptFault::TextTooLong,
        _ => ScriptFault::BadShadow,
    }
}

// What is read of a cell: its bytes with objects for their policies. An integer is one byte.
fn thaw_cell(alloc: Global, m: &mut Machine, cell: &StoredCell) -> Result<LText, Stop>
    ensures { Runs (thaw_entry (entry_for cell.now.value cell.now.shadow)) m.old result m.new }
{
    match entry_for(alloc, cell)? {
        Some(entry) => thaw_entry(alloc, m, &entry),
        None => Err(m.fault(damage(&cell.value))),
    }
}

// The policy texts of the bytes of an entry.
fn entry_marks(alloc: Global, m: &Machine, entry: &Entry) -> Result<FrozenRuns, Stop>
    ensures { Runs (whole_marks (lift entry.now)) m.now result m.now }
{
    if entry.bytes.as_slice().len() > LONGEST {
        return Err(m.fault(ScriptFault::TextTooLong));
    }
    match policies_of(alloc, entry)? {
        Some(marks) => Ok(marks),
        None => Err(m.fault(ScriptFault::BadShadow)),
    }
}

// Those of a cell.
fn cell_marks(alloc: Global, m: &Machine, cell: &StoredCell) -> Result<FrozenRuns, Stop>
    ensures { Runs (whole_marks (entry_for cell.now.value cell.now.shadow)) m.now result m.now }
{
    match entry_for(alloc, cell)? {
        Some(entry) => entry_marks(alloc, m, &entry),
        None => Err(m.fault(damage(&cell.value))),
    }
}

// Puts the policy texts of some bytes behind those of others. More bytes than a number of 64 bits counts find no memory.
fn put_marks(all: &mut FrozenRuns, more: &FrozenRuns) -> Result<(), AllocError>
    ensures { OnOk result (all.new ≡ all.old ++ more.now) }
{
    if all.len().checked_add(more.len()).is_none() {
        return Err(AllocError);
    }
    all.append(more)?;
    Ok(())
}

/// The policy texts of the bytes of cells one behind the other, an integer being one byte.
///
/// # Errors
///
/// `TextTooLong` and `BadShadow` of the first cell that isn't read.
pub(crate) fn marks_of_cells(
    alloc: Global,
    m: &Machine,
    cells: &[StoredCell],
) -> Result<FrozenRuns, Stop>
    ensures { Runs (marks_of_cells cells.now []) m.now result m.now }
{
    let mut all = FrozenRuns::new(alloc);
    for cell in cells {
        let marks = cell_marks(alloc, m, cell)?;
        put_marks(&mut all, &marks)?;
    }
    Ok(all)
}

// The set of the first byte.
fn first_set(text: &LText) -> Result<PSet, AllocError>
    ensures { IfOk result (λ set. set ≡ first_set text.now) }
{
    if text.is_empty() {
        return Ok(PSet::empty());
    }
    text.set_at(0).clone()
}

/// Reads cells, in an evaluation.
#[derive(Drop)]
pub(crate) struct CellReader<'e, F, T, N> {
    pub(crate) by: &'e Evaluator<F, T, N>,
}

impl<
    F: Files,
    T: Tables,
    N: Fn(Global, u32, Nested<'_>, &mut Run<F, T>) -> Result<Outcome, Stop> + Copy,
> CellReader<'_, F, T, N> {
    /// A text of a column behind its filters.
    ///
    /// # Errors
    ///
    /// How a filter stops.
    pub(crate) fn text(
        &self,
        run: &mut Run<F, T>,
        column: &[u8],
        text: LText,
    ) -> Result<Value, Stop>
        requires { Nests F.Files T.Tables N.pre N.post self.now.by.now }
        ensures { Performs F.Files T.Tables (read_text (means self.now.by.now) column.now text) run.old (on_ok tree_of result) run.new }
    {
        let context = cell_context(self.by.alloc, column)?;
        let read = Reader { by: self.by }.read_through(run, Channel::Sql, &context, text)?;
        Ok(Value::Text(read))
    }

    // An integer with what its byte carries; a text behind its filters.
    fn value(
        &self,
        run: &mut Run<F, T>,
        column: &[u8],
        value: &Cell,
        text: LText,
    ) -> Result<Value, Stop>
        requires { Nests F.Files T.Tables N.pre N.post self.now.by.now }
        ensures { Performs F.Files T.Tables (read_value (means self.now.by.now) column.now value.now text) run.old (on_ok tree_of result) run.new }
    {
        match value {
            Cell::Int(n) => Ok(Value::Int(*n, first_set(&text)?)),
            _ => self.text(run, column, text),
        }
    }

    /// What is answered of a stored cell of a column.
    ///
    /// # Errors
    ///
    /// `TextTooLong`, `BadShadow`; `FuelSpent` where its policies take more ticks than are left; how a filter stops.
    pub(crate) fn cell(
        &self,
        run: &mut Run<F, T>,
        column: &[u8],
        cell: &StoredCell,
    ) -> Result<Value, Stop>
        requires { Nests F.Files T.Tables N.pre N.post self.now.by.now }
        ensures { Performs F.Files T.Tables (cell_value (means self.now.by.now) column.now cell.now) run.old (on_ok tree_of result) run.new }
    {
        if is_null(cell) {
            return Ok(Value::Null);
        }
        let text = thaw_cell(self.by.alloc, &mut run.machine, cell)?;
        self.value(run, column, &cell.value, text)
    }
}
