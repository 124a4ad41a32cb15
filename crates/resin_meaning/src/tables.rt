//! Keeper calls on tables. Each is the next numbered call: it fails with a keeper stop exactly where the keeper failed, and is the fault FuelSpent
//! exactly where no number is left. After want of memory neither the keeper nor the numbers are changed.
ghost use Rattle.resin_meaning.specs.Runs.{Does, Seen, seen, world};
ghost use Rattle.resin_store.specs.Files.{LabelledFiles};
ghost use Rattle.resin_meaning.specs.KeeperCalls as asked;

use crate::numbers::{ask, settle};
use resin_base::{Calls, Cells, Columns, Rows, Tables};
use resin_machine::{Machine, Stop};

/// Makes a table without rows, and says whether it did: it does nothing where the table is there.
pub fn create_table<T: Tables>(
    m: &Machine,
    tables: &mut T,
    calls: &mut Calls,
    name: &[u8],
    columns: &Columns,
) -> Result<bool, Stop>
    ensures { (f : Seen LabelledFiles) → Does (asked.create_table name.now columns.now)
        (world m.now f (seen (T.stored tables.old) (T.faults tables.old) (T.answers tables.old)) calls.old) result
        (world m.now f (seen (T.stored tables.new) (T.faults tables.new) (T.answers tables.new)) calls.new) }
{
    ask(m, calls)?;
    let answer = tables.create(name, columns);
    settle(calls, answer)
}

/// The columns of a table, `None` exactly where it is not there.
pub fn table_columns<T: Tables>(
    m: &Machine,
    tables: &mut T,
    calls: &mut Calls,
    name: &[u8],
) -> Result<Option<Columns>, Stop>
    ensures { (f : Seen LabelledFiles) → Does (asked.table_columns name.now)
        (world m.now f (seen (T.stored tables.old) (T.faults tables.old) (T.answers tables.old)) calls.old) result
        (world m.now f (seen (T.stored tables.new) (T.faults tables.new) (T.answers tables.new)) calls.new) }
{
    ask(m, calls)?;
    let answer = tables.columns(name);
    settle(calls, answer)
}

/// The rows of a table, none where it is not there.
pub fn table_rows<T: Tables>(
    m: &Machine,
    tables: &mut T,
    calls: &mut Calls,
    name: &[u8],
) -> Result<Rows, Stop>
    ensures { (f : Seen LabelledFiles) → Does (asked.table_rows name.now)
        (world m.now f (seen (T.stored tables.old) (T.faults tables.old) (T.answers tables.old)) calls.old) result
        (world m.now f (seen (T.stored tables.new) (T.faults tables.new) (T.answers tables.new)) calls.new) }
{
    ask(m, calls)?;
    let answer = tables.rows(name);
    settle(calls, answer)
}

/// Puts a row last, and tells its number; `None` exactly where the table is not there, the cells do not fit it, or no number is left for a row.
pub fn insert_row<T: Tables>(
    m: &Machine,
    tables: &mut T,
    calls: &mut Calls,
    name: &[u8],
    cells: &Cells,
) -> Result<Option<u64>, Stop>
    ensures { (f : Seen LabelledFiles) → Does (asked.insert_row name.now cells.now)
        (world m.now f (seen (T.stored tables.old) (T.faults tables.old) (T.answers tables.old)) calls.old) result
        (world m.now f (seen (T.stored tables.new) (T.faults tables.new) (T.answers tables.new)) calls.new) }
{
    ask(m, calls)?;
    let answer = tables.insert(name, cells);
    settle(calls, answer)
}

/// Sets the cells of a row, and says whether it was there and they fit.
pub fn update_row<T: Tables>(
    m: &Machine,
    tables: &mut T,
    calls: &mut Calls,
    name: &[u8],
    row: u64,
    cells: &Cells,
) -> Result<bool, Stop>
    ensures { (f : Seen LabelledFiles) → Does (asked.update_row name.now row cells.now)
        (world m.now f (seen (T.stored tables.old) (T.faults tables.old) (T.answers tables.old)) calls.old) result
        (world m.now f (seen (T.stored tables.new) (T.faults tables.new) (T.answers tables.new)) calls.new) }
{
    ask(m, calls)?;
    let answer = tables.update(name, row, cells);
    settle(calls, answer)
}

/// Takes a row out, and says whether it was there.
pub fn delete_row<T: Tables>(
    m: &Machine,
    tables: &mut T,
    calls: &mut Calls,
    name: &[u8],
    row: u64,
) -> Result<bool, Stop>
    ensures { (f : Seen LabelledFiles) → Does (asked.delete_row name.now row)
        (world m.now f (seen (T.stored tables.old) (T.faults tables.old) (T.answers tables.old)) calls.old) result
        (world m.now f (seen (T.stored tables.new) (T.faults tables.new) (T.answers tables.new)) calls.new) }
{
    ask(m, calls)?;
    let answer = tables.delete(name, row);
    settle(calls, answer)
}
