//! Totals.

ghost use Rattle.std.specs.Prelude.{◌≡◌, map, IfOk, OnOk, if◌then◌else◌, ◌++◌, ◌∷◌, []};
ghost use Rattle.resin_rows.specs.Columns.{is_among};
ghost use Rattle.resin_rows.specs.Rows.{cells_of, row_at};
ghost use Rattle.resin_sql_more.specs.Totals as spec;
ghost use Rattle.resin_sql_more.specs.Plans.{Ends, Comes, Blames, Stays};
ghost use Rattle.resin_plan.specs.TableCalls.{keeping};

use crate::answer::MoreAnswer;
use crate::items::{item_cells, item_name, items_cause};
use crate::joins::shape_of;
use resin_base::{Calls, Column, Names, Row, Stored, StoredCell, StoredRows, Tables};
use resin_joint::{TotalItem, TotalStmt};
use resin_plan::parts::{table_columns, table_rows};
use resin_rows::{chosen_places, earlier, is_among, where_cause};
use resin_sql::{SqlRefusal, SqlStop};
use std::alloc::{AllocError, Global};

/// Puts the name of an item and its cells in the rows at these places last, if no item before it has the name.
fn push_item(
    alloc: Global,
    names: &mut Names,
    cells: &mut StoredRows,
    columns: &[Column],
    item: &TotalItem,
    rows: &[Row],
    places: &[usize],
) -> Result<(), AllocError>
    ensures names { OnOk result (names.new
        ≡ (if is_among (spec.item_name item.now) names.old then names.old else names.old ++ spec.item_name item.now ∷ [])) }
    ensures cells { OnOk result (cells.new ≡ (if is_among (spec.item_name item.now) names.old then cells.old
        else cells.old ++ spec.column_cells columns.now (map (row_at (cells_of rows.now)) places.now) (spec.item_column item.now) ∷ [])) }
{
    let name = item_name(alloc, item)?;
    if !is_among(name.as_slice(), names.as_slice()) {
        let row = item_cells(alloc, columns, item, rows, places)?;
        names.push(name)?;
        cells.push(row)?;
    }
    Ok(())
}

/// The names of items, each once, with their cells in the rows at these places.
fn named_cells(
    alloc: Global,
    columns: &[Column],
    items: &[TotalItem],
    rows: &[Row],
    places: &[usize],
) -> Result<(Names, StoredRows), AllocError>
    ensures names { IfOk result (λ r. r.0 ≡ map spec.item_name (spec.first_items items.now)) }
    ensures cells { IfOk result (λ r. r.1
        ≡ map (λ it. spec.column_cells columns.now (map (row_at (cells_of rows.now)) places.now) (spec.item_column it))
        (spec.first_items items.now)) }
{
    let mut names = Names::new(alloc);
    let mut cells = StoredRows::new(alloc);
    for item in items {
        push_item(alloc, &mut names, &mut cells, columns, item, rows, places)?;
    }
    Ok((names, cells))
}

/// The answer, by the rows that the keeper gave.
fn total_answer(
    alloc: Global,
    statement: &TotalStmt,
    values: &[StoredCell],
    columns: &[Column],
    rows: &[Row],
) -> Result<MoreAnswer, AllocError>
    ensures { IfOk result (λ answer. answer ≡ spec.total_answer statement.now values.now columns.now rows.now) }
{
    let places = chosen_places(alloc, columns, &statement.condition, values, rows)?;
    let (names, cells) = named_cells(
        alloc,
        columns,
        statement.items.as_slice(),
        rows,
        places.as_slice(),
    )?;
    Ok(MoreAnswer {
        scanned: rows.len() as u64,
        names,
        rows: cells,
        chosen: places.len() as u64,
    })
}

/// What follows the table's rows.
fn total_end(
    alloc: Global,
    statement: &TotalStmt,
    values: &[StoredCell],
    left: u64,
    columns: &[Column],
    rows: &[Row],
) -> Result<MoreAnswer, SqlStop>
    ensures { Comes (spec.total_end statement.now values.now left columns.now rows.now) result }
{
    if left < rows.len() as u64 {
        return Err(SqlStop::Spent);
    }
    Ok(total_answer(alloc, statement, values, columns, rows)?)
}

/// Why a total is refused.
fn total_cause(
    statement: &TotalStmt,
    values: &[StoredCell],
    columns: &[Column],
) -> Option<SqlRefusal>
    ensures { result ≡ spec.total_cause statement.now values.now columns.now }
{
    let items = items_cause(columns, statement.items.as_slice());
    let condition = where_cause(columns, &statement.condition, values);
    earlier(items, condition)
}

/// What follows the table's columns.
fn total_rows<T: Tables>(
    alloc: Global,
    statement: &TotalStmt,
    values: &[StoredCell],
    left: u64,
    columns: &[Column],
    tables: &mut T,
    calls: &mut Calls,
) -> Result<MoreAnswer, SqlStop>
    ensures { Ends (spec.total_rows statement.now values.now left columns.now)
        (keeping (T.stored tables.old) (T.faults tables.old) (T.answers tables.old) calls.old) result
        (keeping (T.stored tables.new) (T.faults tables.new) (T.answers tables.new) calls.new) }
{
    if let Some(cause) = total_cause(statement, values, columns) {
        return Err(SqlStop::Refused(cause));
    }
    let rows = table_rows(tables, calls, statement.table.as_slice())?;
    total_end(alloc, statement, values, left, columns, rows.as_slice())
}

fn carry_out<T: Tables>(
    alloc: Global,
    statement: &TotalStmt,
    values: &[StoredCell],
    left: u64,
    tables: &mut T,
    calls: &mut Calls,
) -> Result<MoreAnswer, SqlStop>
    ensures { Ends (spec.total_plan statement.now values.now left)
        (keeping (T.stored tables.old) (T.faults tables.old) (T.answers tables.old) calls.old) result
        (keeping (T.stored tables.new) (T.faults tables.new) (T.answers tables.new) calls.new) }
{
    let kept = table_columns(tables, calls, statement.table.as_slice())?;
    match shape_of(alloc, kept)? {
        Some(columns) => total_rows(
            alloc,
            statement,
            values,
            left,
            columns.as_slice(),
            tables,
            calls,
        ),
        None => Err(SqlStop::Refused(SqlRefusal::NoTable)),
    }
}

/// Carries out a total. `cells` and `left` are as in [`exec_join`](crate::exec_join), and so is how it may end.
pub fn exec_total<T: Tables>(
    alloc: Global,
    statement: &TotalStmt,
    cells: &Stored,
    left: u64,
    tables: &mut T,
    calls: &mut Calls,
) -> Result<MoreAnswer, SqlStop>
    ensures plan { Ends (spec.total_plan statement.now cells.now left)
        (keeping (T.stored tables.old) (T.faults tables.old) (T.answers tables.old) calls.old) result
        (keeping (T.stored tables.new) (T.faults tables.new) (T.answers tables.new) calls.new) }
    ensures cause { Blames result (keeping (T.stored tables.old) (T.faults tables.old) (T.answers tables.old) calls.old)
        (keeping (T.stored tables.new) (T.faults tables.new) (T.answers tables.new) calls.new) }
    ensures same { Stays (keeping (T.stored tables.old) (T.faults tables.old) (T.answers tables.old) calls.old)
        (keeping (T.stored tables.new) (T.faults tables.new) (T.answers tables.new) calls.new) }
{
    carry_out(alloc, statement, cells.as_slice(), left, tables, calls)
}
