//! UPDATE and DELETE.

ghost use Rattle.std.specs.Prelude.{◌≡◌, ◌^◌, ◌-◌, ◌+◌, ◌<◌, ◌≤◌, ◌++◌, ◌∷◌, [], map, IfOk, OnOk, if◌then◌else◌};
ghost use Rattle.resin_plan.specs.Plans.{Ends};
ghost use Rattle.resin_plan.specs.Statements as plan;
ghost use Rattle.resin_plan.specs.TableCalls.{keeping};

use crate::answer::SqlAnswer;
use crate::creates::counted;
use crate::keeper::{delete_row, table_rows, update_row};
use crate::table::{opened, pass};
use resin_base::{Bytes, Calls, Column, Row, Rows, StoredCell, Tables};
use resin_rows::{
    changed, changed_names, earlier, once_cause, split, values_cause, where_cause, where_holds,
};
use resin_sql::{Condition, Delete, SqlRefusal, SqlStop, Update};
use std::alloc::{AllocError, Global};

/// One more, if the row was there.
fn one_more(count: u64, was: bool) -> u64
    requires { count < 2 ^ 64 - 1 }
    ensures is { result ≡ plan.one_more count was }
    ensures most { result ≤ count + 1 }
{
    if was { count + 1 } else { count }
}

/// Puts a row with changed cells last, if it is chosen.
fn push_changed(
    alloc: Global,
    out: &mut Rows,
    columns: &[Column],
    names: &[Bytes],
    values: &[StoredCell],
    row: &Row,
    is: bool,
) -> Result<(), AllocError>
    ensures { OnOk result (out.new ≡ (if is then out.old ++ plan.changed_row columns.now names.now values.now row.now ∷ [] else out.old)) }
{
    if is {
        let cells = changed(alloc, columns, names, values, row.cells.as_slice())?;
        out.push(Row {
            number: row.number,
            cells,
        })?;
    }
    Ok(())
}

/// The chosen rows with their changed cells.
fn changed_rows(
    alloc: Global,
    statement: &Update,
    columns: &[Column],
    names: &[Bytes],
    values: &[StoredCell],
    rows: &[Row],
) -> Result<Rows, AllocError>
    ensures { IfOk result (λ out. out ≡ plan.changed_rows statement.now values.now columns.now names.now rows.now) }
{
    let (own, others) = split(values, statement.changes.len());
    let mut out = Rows::new(alloc);
    for row in rows {
        let is = where_holds(columns, &statement.condition, others, row.cells.as_slice());
        push_changed(alloc, &mut out, columns, names, own, row, is)?;
    }
    Ok(out)
}

/// Sets these rows of a table, and counts those that were there.
fn update_rows<T: Tables>(
    table: &[u8],
    rows: &[Row],
    scanned: usize,
    tables: &mut T,
    calls: &mut Calls,
) -> Result<SqlAnswer, SqlStop>
    ensures { Ends (plan.update_rows scanned table.now rows.now 0)
        (keeping (T.stored tables.old) (T.faults tables.old) (T.answers tables.old) calls.old) result
        (keeping (T.stored tables.new) (T.faults tables.new) (T.answers tables.new) calls.new) }
{
    let mut count = 0u64;
    for row in rows {
        let held = update_row(tables, calls, table, row.number, &row.cells)?;
        count = one_more(count, held);
    }
    Ok(counted(scanned as u64, count))
}

/// Why an UPDATE is refused.
fn update_cause(
    statement: &Update,
    columns: &[Column],
    names: &[Bytes],
    values: &[StoredCell],
) -> Option<SqlRefusal>
    ensures { result ≡ plan.update_cause statement.now values.now columns.now names.now }
{
    let (own, others) = split(values, statement.changes.len());
    let named = once_cause(columns, names);
    let valued = values_cause(columns, names, own);
    let condition = where_cause(columns, &statement.condition, others);
    earlier(named, earlier(valued, condition))
}

/// What follows the table's columns.
fn update_in<T: Tables>(
    alloc: Global,
    statement: &Update,
    columns: &[Column],
    names: &[Bytes],
    values: &[StoredCell],
    tables: &mut T,
    calls: &mut Calls,
) -> Result<SqlAnswer, SqlStop>
    ensures { Ends (plan.update_in statement.now values.now columns.now names.now)
        (keeping (T.stored tables.old) (T.faults tables.old) (T.answers tables.old) calls.old) result
        (keeping (T.stored tables.new) (T.faults tables.new) (T.answers tables.new) calls.new) }
{
    pass(update_cause(statement, columns, names, values))?;
    let rows = table_rows(tables, calls, statement.table.as_slice())?;
    let out = changed_rows(alloc, statement, columns, names, values, rows.as_slice())?;
    update_rows(
        statement.table.as_slice(),
        out.as_slice(),
        rows.as_slice().len(),
        tables,
        calls,
    )
}

pub(crate) fn update<T: Tables>(
    alloc: Global,
    statement: &Update,
    values: &[StoredCell],
    tables: &mut T,
    calls: &mut Calls,
) -> Result<SqlAnswer, SqlStop>
    ensures { Ends (plan.update statement.now values.now)
        (keeping (T.stored tables.old) (T.faults tables.old) (T.answers tables.old) calls.old) result
        (keeping (T.stored tables.new) (T.faults tables.new) (T.answers tables.new) calls.new) }
{
    let names = changed_names(alloc, statement.changes.as_slice())?;
    let columns = opened(alloc, tables, calls, statement.table.as_slice())?;
    update_in(
        alloc,
        statement,
        columns.as_slice(),
        names.as_slice(),
        values,
        tables,
        calls,
    )
}

/// Puts a number last, if its row is chosen.
fn push_number(numbers: &mut Vec<u64>, number: u64, is: bool) -> Result<(), AllocError>
    ensures { OnOk result (numbers.new.items ≡ (if is then numbers.old.items ++ number ∷ [] else numbers.old.items)) }
{
    if is {
        numbers.push(number)?;
    }
    Ok(())
}

/// The numbers of the chosen rows.
fn chosen_numbers(
    alloc: Global,
    columns: &[Column],
    condition: &Option<Condition>,
    values: &[StoredCell],
    rows: &[Row],
) -> Result<Vec<u64>, AllocError>
    ensures { IfOk result (λ numbers. numbers.items ≡ plan.chosen_numbers columns.now condition.now values.now rows.now) }
{
    let mut numbers = Vec::new(alloc);
    for row in rows {
        let is = where_holds(columns, condition, values, row.cells.as_slice());
        push_number(&mut numbers, row.number, is)?;
    }
    Ok(numbers)
}

/// Takes the rows of these numbers out of a table, and counts those that were there.
fn delete_rows<T: Tables>(
    table: &[u8],
    numbers: &[u64],
    scanned: usize,
    tables: &mut T,
    calls: &mut Calls,
) -> Result<SqlAnswer, SqlStop>
    ensures { Ends (plan.delete_rows scanned table.now numbers.now 0)
        (keeping (T.stored tables.old) (T.faults tables.old) (T.answers tables.old) calls.old) result
        (keeping (T.stored tables.new) (T.faults tables.new) (T.answers tables.new) calls.new) }
{
    let mut count = 0u64;
    for number in numbers {
        let held = delete_row(tables, calls, table, *number)?;
        count = one_more(count, held);
    }
    Ok(counted(scanned as u64, count))
}

/// What follows the table's columns.
fn delete_in<T: Tables>(
    alloc: Global,
    statement: &Delete,
    columns: &[Column],
    values: &[StoredCell],
    tables: &mut T,
    calls: &mut Calls,
) -> Result<SqlAnswer, SqlStop>
    ensures { Ends (plan.delete_in statement.now values.now columns.now)
        (keeping (T.stored tables.old) (T.faults tables.old) (T.answers tables.old) calls.old) result
        (keeping (T.stored tables.new) (T.faults tables.new) (T.answers tables.new) calls.new) }
{
    pass(where_cause(columns, &statement.condition, values))?;
    let rows = table_rows(tables, calls, statement.table.as_slice())?;
    let numbers = chosen_numbers(
        alloc,
        columns,
        &statement.condition,
        values,
        rows.as_slice(),
    )?;
    delete_rows(
        statement.table.as_slice(),
        numbers.as_slice(),
        rows.as_slice().len(),
        tables,
        calls,
    )
}

pub(crate) fn delete<T: Tables>(
    alloc: Global,
    statement: &Delete,
    values: &[StoredCell],
    tables: &mut T,
    calls: &mut Calls,
) -> Result<SqlAnswer, SqlStop>
    ensures { Ends (plan.delete statement.now values.now)
        (keeping (T.stored tables.old) (T.faults tables.old) (T.answers tables.old) calls.old) result
        (keeping (T.stored tables.new) (T.faults tables.new) (T.answers tables.new) calls.new) }
{
    let columns = opened(alloc, tables, calls, statement.table.as_slice())?;
    delete_in(alloc, statement, columns.as_slice(), values, tables, calls)
}
