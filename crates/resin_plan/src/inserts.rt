//! INSERT.

ghost use Rattle.std.specs.Prelude.{◌≡◌};
ghost use Rattle.resin_plan.specs.Plans.{Ends};
ghost use Rattle.resin_rows.specs.Rows.{inserted};
ghost use Rattle.resin_plan.specs.Statements as plan;
ghost use Rattle.resin_plan.specs.TableCalls.{keeping};

use crate::answer::SqlAnswer;
use crate::creates::counted;
use crate::keeper::insert_row;
use crate::table::{opened, pass};
use resin_base::{Bytes, Calls, Column, StoredCell, Tables};
use resin_items::Items;
use resin_rows::{blank, changed, earlier, names_of, once_cause, rows_cause, split};
use resin_sql::{Insert, Literal, SqlRefusal, SqlStop};
use std::alloc::Global;

/// Adds the rows of an INSERT into the columns of these names, one by one.
fn insert_rows<T: Tables>(
    alloc: Global,
    table: &[u8],
    columns: &[Column],
    names: &[Bytes],
    rows: &[Items<Literal>],
    values: &[StoredCell],
    tables: &mut T,
    calls: &mut Calls,
) -> Result<SqlAnswer, SqlStop>
    ensures { Ends (plan.insert_rows table.now (inserted columns.now names.now rows.now values.now) 0)
        (keeping (T.stored tables.old) (T.faults tables.old) (T.answers tables.old) calls.old) result
        (keeping (T.stored tables.new) (T.faults tables.new) (T.answers tables.new) calls.new) }
{
    let blank = blank(alloc, columns)?;
    let mut left = values;
    let mut count = 0u64;
    for row in rows {
        let (own, others) = split(left, row.len());
        let cells = changed(alloc, columns, names, own, blank.as_slice())?;
        if insert_row(tables, calls, table, &cells)?.is_none() {
            return Err(SqlStop::Refused(SqlRefusal::Full));
        }
        count += 1;
        left = others;
    }
    Ok(counted(0, count))
}

/// What follows the table's columns.
fn insert_into<T: Tables>(
    alloc: Global,
    statement: &Insert,
    columns: &[Column],
    names: &[Bytes],
    values: &[StoredCell],
    tables: &mut T,
    calls: &mut Calls,
) -> Result<SqlAnswer, SqlStop>
    ensures { Ends (plan.insert_into statement.now values.now columns.now names.now)
        (keeping (T.stored tables.old) (T.faults tables.old) (T.answers tables.old) calls.old) result
        (keeping (T.stored tables.new) (T.faults tables.new) (T.answers tables.new) calls.new) }
{
    let rows = statement.rows.as_slice();
    let named = once_cause(columns, names);
    let valued = rows_cause(columns, names, rows, values);
    pass(earlier(named, valued))?;
    insert_rows(
        alloc,
        statement.table.as_slice(),
        columns,
        names,
        rows,
        values,
        tables,
        calls,
    )
}

pub(crate) fn insert<T: Tables>(
    alloc: Global,
    statement: &Insert,
    values: &[StoredCell],
    tables: &mut T,
    calls: &mut Calls,
) -> Result<SqlAnswer, SqlStop>
    ensures { Ends (plan.insert statement.now values.now)
        (keeping (T.stored tables.old) (T.faults tables.old) (T.answers tables.old) calls.old) result
        (keeping (T.stored tables.new) (T.faults tables.new) (T.answers tables.new) calls.new) }
{
    let columns = opened(alloc, tables, calls, statement.table.as_slice())?;
    let all;
    let names = match &statement.columns {
        Some(names) => names,
        None => {
            all = names_of(alloc, columns.as_slice())?;
            &all
        }
    };
    insert_into(
        alloc,
        statement,
        columns.as_slice(),
        names.as_slice(),
        values,
        tables,
        calls,
    )
}
