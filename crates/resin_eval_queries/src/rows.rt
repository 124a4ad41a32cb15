//! Rows that are answered: a list of arrays from the names of columns to their cells.
ghost use Rattle.resin_eval_writes.specs.Under.eval_nested.Nested.{Nests, means};
ghost use Rattle.resin_eval_writes.specs.Under.eval_nested.Running.{Performs};
ghost use Rattle.resin_eval_writes.specs.Under.meaning_forms.Parts.{computed};
ghost use Rattle.resin_eval_writes.specs.Under.meaning_forms.Queries.{row_list, row_on, rows_on, with_cell};
ghost use Rattle.resin_eval_writes.specs.Under.meaning_forms.Runs.{Runs, on_ok};
ghost use Rattle.resin_eval_writes.specs.Under.meaning_forms.Inputs.{as_tree};
ghost use Rattle.resin_eval_writes.specs.Under.meaning_forms.Under.array_fn.Filled.{added_at};
ghost use Rattle.resin_eval_writes.specs.Under.value.Arrays.{Array};
ghost use Rattle.resin_eval_writes.specs.Under.value.Changes.{empty};
ghost use Rattle.resin_eval_writes.specs.Under.value.Keys.{text_key};
ghost use Rattle.resin_eval_writes.specs.Under.value.Seen.{tree_of};
ghost use Rattle.std.specs.Prelude.{None, Some, min, ◌≡◌};

use crate::cells::CellReader;
use resin_eval_writes::under::base::{Bytes, Files, Stored, StoredCell, Tables};
use resin_eval_writes::under::eval_nested::nested::{Evaluator, Nested, Outcome};
use resin_eval_writes::under::eval_nested::run::Run;
use resin_eval_writes::under::machine::{Machine, Stop};
use resin_eval_writes::under::step_parts::reads::with_entry;
use resin_eval_writes::under::value::{Arr, Key, Value};
use std::alloc::Global;

/// The lesser of two counts.
pub(crate) fn least(a: usize, b: usize) -> usize
    ensures { result ≡ min a b }
{
    if a <= b { a } else { b }
}

/// An array with a value put at the key that a name counts as.
pub(crate) fn with_named(
    alloc: Global,
    m: &mut Machine,
    a: Arr,
    name: &[u8],
    v: Value,
) -> Result<Arr, Stop>
    ensures { Runs (computed (added_at (Some (text_key name.now)) (tree_of v) a)) m.old result m.new }
{
    let key = Some(Key::from_text(alloc, name)?);
    m.settle(with_entry(a, &key, v))
}

/// An array with another put last.
pub(crate) fn with_last(m: &mut Machine, a: Arr, row: Arr) -> Result<Arr, Stop>
    ensures { Runs (computed (added_at None (as_tree row) a)) m.old result m.new }
{
    m.settle(with_entry(a, &None, Value::Arr(row)))
}

/// Makes rows of stored cells, in an evaluation.
#[derive(Drop)]
pub(crate) struct RowReader<'e, F, T, N> {
    pub(crate) by: &'e Evaluator<F, T, N>,
}

impl<
    F: Files,
    T: Tables,
    N: Fn(Global, u32, Nested<'_>, &mut Run<F, T>) -> Result<Outcome, Stop> + Copy,
> RowReader<'_, F, T, N> {
    // A cell is read and put into a row under the name of its column.
    fn with_cell(
        &self,
        run: &mut Run<F, T>,
        row: Arr,
        column: &[u8],
        cell: &StoredCell,
    ) -> Result<Arr, Stop>
        requires { Nests F.Files T.Tables N.pre N.post self.now.by.now }
        ensures { Performs F.Files T.Tables (with_cell (means self.now.by.now) column.now cell.now row) run.old result run.new }
    {
        let v = CellReader { by: self.by }.cell(run, column, cell)?;
        with_named(self.by.alloc, &mut run.machine, row, column, v)
    }

    // The cells of a row, one after the other.
    fn row(&self, run: &mut Run<F, T>, columns: &[Bytes], cells: &[StoredCell]) -> Result<Arr, Stop>
        requires { Nests F.Files T.Tables N.pre N.post self.now.by.now }
        ensures { Performs F.Files T.Tables (row_on (means self.now.by.now) columns.now cells.now empty) run.old result run.new }
    {
        let mut row = Arr::new(self.by.alloc)?;
        for i in 0..least(columns.len(), cells.len()) {
            row = self.with_cell(run, row, columns[i].as_slice(), &cells[i])?;
        }
        Ok(row)
    }

    /// The rows as a list: the cells are read row by row, and a text passes its filters before the next cell is read.
    ///
    /// # Errors
    ///
    /// As the cells stop.
    pub(crate) fn rows(
        &self,
        run: &mut Run<F, T>,
        columns: &[Bytes],
        rows: &[Stored],
    ) -> Result<Value, Stop>
        requires { Nests F.Files T.Tables N.pre N.post self.now.by.now }
        ensures { Performs F.Files T.Tables (row_list (means self.now.by.now) columns.now rows.now) run.old (on_ok tree_of result) run.new }
    {
        let list = self.list(run, columns, rows)?;
        Ok(Value::Arr(list))
    }

    // The same as an array.
    fn list(&self, run: &mut Run<F, T>, columns: &[Bytes], rows: &[Stored]) -> Result<Arr, Stop>
        requires { Nests F.Files T.Tables N.pre N.post self.now.by.now }
        ensures { Performs F.Files T.Tables (rows_on (means self.now.by.now) columns.now rows.now empty) run.old result run.new }
    {
        let mut list = Arr::new(self.by.alloc)?;
        for cells in rows {
            let row = self.row(run, columns, cells.as_slice())?;
            list = with_last(&mut run.machine, list, row)?;
        }
        Ok(list)
    }
}
