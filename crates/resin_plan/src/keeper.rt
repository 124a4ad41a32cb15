//! Numbered keeper calls on tables. Each stops by `Keeper` exactly where the keeper failed, and by `Spent` exactly where no number is left. After
//! want of memory neither the tables nor the numbers are changed.

ghost use Rattle.std.specs.Prelude.{◌≡◌, ◌-◌, ◌^◌, ◌<◌, length, OnOk};
ghost use Rattle.resin_base.specs.Numbering.{Settles};
ghost use Rattle.resin_plan.specs.TableCalls.{MakeTable, AskColumns, AskRows, AddRow, SetRow, TakeRow, Makes, keeping, Asks, ended};

use resin_base::{Calls, Cells, Columns, KeepFault, Rows, Tables};
use resin_sql::SqlStop;

/// Lists the number of the next call. It is `Spent` exactly where no number is left.
fn ask(calls: &mut Calls) -> Result<(), SqlStop>
    ensures asks { Asks calls.old result calls.new }
    ensures listed { OnOk result (0 < length calls.new.failed) }
{
    if calls.made == u64::MAX {
        return Err(SqlStop::Spent);
    }
    calls.failed.push(calls.made + 1)?;
    Ok(())
}

/// Counts the call that was listed, by its answer, and takes its number off unless it failed.
fn settle<A>(calls: &mut Calls, answer: Result<A, KeepFault>) -> Result<A, SqlStop>
    requires room { calls.old.made < 2 ^ 64 - 1 }
    requires listed { 0 < length calls.old.failed }
    ensures settled { Settles calls.old answer calls.new }
    ensures answer { result ≡ ended answer }
{
    calls.count(&answer);
    match answer {
        Ok(value) => Ok(value),
        Err(KeepFault::Failed) => Err(SqlStop::Keeper),
        Err(KeepFault::Memory) => Err(SqlStop::Memory),
    }
}

/// Makes a table without rows, and says whether it did: it does nothing where the table is there.
pub(crate) fn create_table<T: Tables>(
    tables: &mut T,
    calls: &mut Calls,
    name: &[u8],
    columns: &Columns,
) -> Result<bool, SqlStop>
    ensures { Makes (MakeTable name.now columns.now)
        (keeping (T.stored tables.old) (T.faults tables.old) (T.answers tables.old) calls.old) result
        (keeping (T.stored tables.new) (T.faults tables.new) (T.answers tables.new) calls.new) }
{
    ask(calls)?;
    let answer = tables.create(name, columns);
    settle(calls, answer)
}

/// The columns of a table, `None` exactly where it is not there.
pub fn table_columns<T: Tables>(
    tables: &mut T,
    calls: &mut Calls,
    name: &[u8],
) -> Result<Option<Columns>, SqlStop>
    ensures { Makes (AskColumns name.now)
        (keeping (T.stored tables.old) (T.faults tables.old) (T.answers tables.old) calls.old) result
        (keeping (T.stored tables.new) (T.faults tables.new) (T.answers tables.new) calls.new) }
{
    ask(calls)?;
    let answer = tables.columns(name);
    settle(calls, answer)
}

/// The rows of a table, none where it is not there.
pub fn table_rows<T: Tables>(
    tables: &mut T,
    calls: &mut Calls,
    name: &[u8],
) -> Result<Rows, SqlStop>
    ensures { Makes (AskRows name.now)
        (keeping (T.stored tables.old) (T.faults tables.old) (T.answers tables.old) calls.old) result
        (keeping (T.stored tables.new) (T.faults tables.new) (T.answers tables.new) calls.new) }
{
    ask(calls)?;
    let answer = tables.rows(name);
    settle(calls, answer)
}

/// Puts a row last, and tells its number; `None` where the table takes it not.
pub(crate) fn insert_row<T: Tables>(
    tables: &mut T,
    calls: &mut Calls,
    name: &[u8],
    cells: &Cells,
) -> Result<Option<u64>, SqlStop>
    ensures { Makes (AddRow name.now cells.now)
        (keeping (T.stored tables.old) (T.faults tables.old) (T.answers tables.old) calls.old) result
        (keeping (T.stored tables.new) (T.faults tables.new) (T.answers tables.new) calls.new) }
{
    ask(calls)?;
    let answer = tables.insert(name, cells);
    settle(calls, answer)
}

/// Sets the cells of a row, and says whether it was there and they fit.
pub(crate) fn update_row<T: Tables>(
    tables: &mut T,
    calls: &mut Calls,
    name: &[u8],
    row: u64,
    cells: &Cells,
) -> Result<bool, SqlStop>
    ensures { Makes (SetRow name.now row cells.now)
        (keeping (T.stored tables.old) (T.faults tables.old) (T.answers tables.old) calls.old) result
        (keeping (T.stored tables.new) (T.faults tables.new) (T.answers tables.new) calls.new) }
{
    ask(calls)?;
    let answer = tables.update(name, row, cells);
    settle(calls, answer)
}

/// Takes a row out, and says whether it was there.
pub(crate) fn delete_row<T: Tables>(
    tables: &mut T,
    calls: &mut Calls,
    name: &[u8],
    row: u64,
) -> Result<bool, SqlStop>
    ensures { Makes (TakeRow name.now row)
        (keeping (T.stored tables.old) (T.faults tables.old) (T.answers tables.old) calls.old) result
        (keeping (T.stored tables.new) (T.faults tables.new) (T.answers tables.new) calls.new) }
{
    ask(calls)?;
    let answer = tables.delete(name, row);
    settle(calls, answer)
}
