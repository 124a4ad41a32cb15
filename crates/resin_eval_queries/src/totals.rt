//! Totals: the value of each item, with what the cells carry that it was made of.
ghost use Rattle.resin_eval_writes.specs.Under.base.declared.stored.StoredCell.{StoredCell as AnyStored};
ghost use Rattle.resin_eval_writes.specs.Under.eval_nested.Nested.{Nests, means};
ghost use Rattle.resin_eval_writes.specs.Under.eval_nested.Running.{Performs};
ghost use Rattle.resin_eval_queries.specs.Items.{item_by, item_of};
ghost use Rattle.resin_eval_writes.specs.Under.meaning_forms.Queries.{totalled};
ghost use Rattle.resin_eval_writes.specs.Under.meaning_forms.Runs.{Runs, on_ok};
ghost use Rattle.resin_eval_writes.specs.Under.meaning_forms.Totals.{item_or_fault, item_total, items_on, total_value, with_item};
ghost use Rattle.resin_eval_writes.specs.Under.value.Changes.{empty};
ghost use Rattle.resin_eval_writes.specs.Under.value.Seen.{tree_of};
ghost use Rattle.resin_eval_writes.specs.Under.lstr.Texts.{carrying};
ghost use Rattle.resin_eval_writes.specs.Under.meaning_tables.Under.sql_more.Totals.{item_name};
ghost use Rattle.resin_eval_writes.specs.Under.meaning_tables.Under.sql_more.Values.{item_value};
ghost use Rattle.std.specs.Prelude.{IfOk, map, ◌≡◌};

use crate::cells::{CellReader, marks_of_cells};
use crate::rows::{least, with_last, with_named};
use resin_eval_functions::under::eval_merges::merges::Merger;
use resin_eval_writes::under::base::{Cell, Files, Stored, StoredCell, Tables};
use resin_eval_writes::under::eval_nested::nested::{Evaluator, Nested, Outcome};
use resin_eval_writes::under::eval_nested::run::Run;
use resin_eval_writes::under::label::PSet;
use resin_eval_writes::under::lstr::LText;
use resin_eval_writes::under::machine::{Machine, Stop};
use resin_eval_writes::under::meaning_tables::under::rows::copied_or_null;
use resin_eval_writes::under::meaning_tables::under::sql_more::{
    MoreAnswer, TotalFault, TotalItem, first_items, item_name, item_value,
};
use resin_eval_writes::under::scalar::ScriptFault;
use resin_eval_writes::under::value::{Arr, Value};
use resin_shadow::FrozenRuns;
use resin_step_keeping::thawing::thaw_sets;
use std::alloc::{AllocError, Global};

/// How many rows there can be at most.
const MOST: u64 = 9_223_372_036_854_775_807;

// The values of stored cells.
fn values_of(alloc: Global, cells: &[StoredCell]) -> Result<Vec<Cell>, AllocError>
    ensures { IfOk result (λ values. values.items ≡ map (λ (v : AnyStored). v.value) cells.now) }
{
    let mut values = Vec::new(alloc);
    for cell in cells {
        values.push(copied_or_null(alloc, Some(&cell.value))?)?;
    }
    Ok(values)
}

// The value of an item, without labels. More rows than a keeper can hold find no memory.
fn value_of(
    alloc: Global,
    m: &Machine,
    item: &TotalItem,
    chosen: u64,
    cells: &[StoredCell],
) -> Result<Cell, Stop>
    ensures { Runs (item_or_fault (item_value item.now chosen (map (λ (v : AnyStored). v.value) cells.now))) m.now result m.now }
{
    if chosen > MOST {
        return Err(Stop::Memory);
    }
    let values = values_of(alloc, cells)?;
    match item_value(alloc, item, chosen, values.as_slice()) {
        Ok(value) => Ok(value),
        Err(TotalFault::IntegerOverflow) => Err(m.fault(ScriptFault::IntegerOverflow)),
        Err(TotalFault::TextTooLong) => Err(m.fault(ScriptFault::TextTooLong)),
        Err(TotalFault::Memory) => Err(Stop::Memory),
    }
}

// Bytes that all carry a set. There may be too many for a text, and then they find no memory.
fn carrying(alloc: Global, set: &PSet, bytes: &[u8]) -> Result<LText, AllocError>
    ensures { IfOk result (λ t. t ≡ carrying set.now bytes.now) }
{
    match LText::with_set(alloc, bytes, set) {
        Ok(text) => Ok(text),
        Err(_) => Err(AllocError),
    }
}

/// Makes totals, in an evaluation.
#[derive(Drop)]
pub(crate) struct Totaller<'e, F, T, N> {
    pub(crate) by: &'e Evaluator<F, T, N>,
}

impl<
    F: Files,
    T: Tables,
    N: Fn(Global, u32, Nested<'_>, &mut Run<F, T>) -> Result<Outcome, Stop> + Copy,
> Totaller<'_, F, T, N> {
    // A value with a set: on an integer, or on every byte of a text, which passes the filters of its column.
    fn labelled(
        &self,
        run: &mut Run<F, T>,
        name: &[u8],
        set: PSet,
        value: Cell,
    ) -> Result<Value, Stop>
        requires { Nests F.Files T.Tables N.pre N.post self.now.by.now }
        ensures { Performs F.Files T.Tables (total_value (means self.now.by.now) name.now set value) run.old (on_ok tree_of result) run.new }
    {
        match value {
            Cell::Null => Ok(Value::Null),
            Cell::Int(n) => Ok(Value::Int(n, set)),
            Cell::Text(bytes) => {
                let text = carrying(self.by.alloc, &set, bytes.as_slice())?;
                CellReader { by: self.by }.text(run, name, text)
            }
        }
    }

    // An item over the sets that its cells carry.
    fn of_sets(
        &self,
        run: &mut Run<F, T>,
        item: &TotalItem,
        name: &[u8],
        chosen: u64,
        cells: &[StoredCell],
        sets: &[PSet],
    ) -> Result<Value, Stop>
        requires nests { Nests F.Files T.Tables N.pre N.post self.now.by.now }
        requires named { name.now ≡ item_name item.now }
        ensures { Performs F.Files T.Tables (item_of (means self.now.by.now) item.now chosen cells.now sets.now)
            run.old (on_ok tree_of result) run.new }
    {
        let value = value_of(self.by.alloc, &run.machine, item, chosen, cells)?;
        let set = Merger { by: self.by }.fold_sets(run, sets)?;
        self.labelled(run, name, set, value)
    }

    // The same where the policy texts of the cells are known.
    fn of_marks(
        &self,
        run: &mut Run<F, T>,
        item: &TotalItem,
        name: &[u8],
        chosen: u64,
        cells: &[StoredCell],
        marks: &FrozenRuns,
    ) -> Result<Value, Stop>
        requires nests { Nests F.Files T.Tables N.pre N.post self.now.by.now }
        requires named { name.now ≡ item_name item.now }
        ensures { Performs F.Files T.Tables (item_by (means self.now.by.now) item.now chosen cells.now marks.now)
            run.old (on_ok tree_of result) run.new }
    {
        let sets = thaw_sets(self.by.alloc, &mut run.machine, marks)?;
        self.of_sets(run, item, name, chosen, cells, sets.as_slice())
    }

    // An item over its cells.
    fn item(
        &self,
        run: &mut Run<F, T>,
        item: &TotalItem,
        name: &[u8],
        chosen: u64,
        cells: &[StoredCell],
    ) -> Result<Value, Stop>
        requires nests { Nests F.Files T.Tables N.pre N.post self.now.by.now }
        requires named { name.now ≡ item_name item.now }
        ensures { Performs F.Files T.Tables (item_total (means self.now.by.now) item.now chosen cells.now) run.old (on_ok tree_of result) run.new }
    {
        let marks = marks_of_cells(self.by.alloc, &run.machine, cells)?;
        self.of_marks(run, item, name, chosen, cells, &marks)
    }

    // An item is put into a row under its name.
    fn with_item(
        &self,
        run: &mut Run<F, T>,
        row: Arr,
        item: &TotalItem,
        chosen: u64,
        cells: &[StoredCell],
    ) -> Result<Arr, Stop>
        requires { Nests F.Files T.Tables N.pre N.post self.now.by.now }
        ensures { Performs F.Files T.Tables (with_item (means self.now.by.now) chosen item.now cells.now row) run.old result run.new }
    {
        let name = item_name(self.by.alloc, item)?;
        let v = self.item(run, item, name.as_slice(), chosen, cells)?;
        with_named(self.by.alloc, &mut run.machine, row, name.as_slice(), v)
    }

    // The items one after the other.
    fn items(
        &self,
        run: &mut Run<F, T>,
        items: &[TotalItem],
        chosen: u64,
        rows: &[Stored],
    ) -> Result<Arr, Stop>
        requires { Nests F.Files T.Tables N.pre N.post self.now.by.now }
        ensures { Performs F.Files T.Tables (items_on (means self.now.by.now) chosen items.now rows.now empty) run.old result run.new }
    {
        let mut row = Arr::new(self.by.alloc)?;
        for i in 0..least(items.len(), rows.len()) {
            row = self.with_item(run, row, &items[i], chosen, rows[i].as_slice())?;
        }
        Ok(row)
    }

    /// The one row of a total, as a list.
    ///
    /// # Errors
    ///
    /// `TextTooLong` and `BadShadow` of a cell; `FuelSpent` where their policies take more ticks than are left; `IntegerOverflow` of a sum;
    /// `TextTooLong` of cells that are joined; how a merge and a filter stop.
    pub(crate) fn total(
        &self,
        run: &mut Run<F, T>,
        items: &[TotalItem],
        answer: &MoreAnswer,
    ) -> Result<Value, Stop>
        requires { Nests F.Files T.Tables N.pre N.post self.now.by.now }
        ensures { Performs F.Files T.Tables (totalled (means self.now.by.now) items.now answer.now) run.old (on_ok tree_of result) run.new }
    {
        let first = first_items(self.by.alloc, items)?;
        let row = self.items(run, first.as_slice(), answer.chosen, answer.rows.as_slice())?;
        let list = with_last(&mut run.machine, Arr::new(self.by.alloc)?, row)?;
        Ok(Value::Arr(list))
    }
}
