//! SELECT.

ghost use Rattle.std.specs.Prelude.{◌≡◌, map, IfOk};
ghost use Rattle.resin_plan.specs.Plans.{Ends};
ghost use Rattle.resin_rows.specs.Rows.{answered_at, answered_row, cells_of, row_at};
ghost use Rattle.resin_plan.specs.Statements as plan;
ghost use Rattle.resin_plan.specs.TableCalls.{keeping};

use crate::answer::{SqlAnswer, SqlResult};
use crate::keeper::table_rows;
use crate::table::{opened, pass};
use resin_base::{Bytes, Calls, Cell, Column, Row, Stored, StoredCell, StoredRows, Tables};
use resin_rows::{
    Place, RowCells, cells_at, chosen_places, copied_or_null, earlier, first_named, fits_or_null,
    found, limit_places, name_cause, names_cause, names_of, order_places, where_cause,
};
use resin_sql::{Order, Select, SqlRefusal, SqlStop};
use std::alloc::{AllocError, Global};

/// A cell as it is answered.
pub fn answered_at(
    alloc: Global,
    cells: &RowCells<'_>,
    place: Option<Place>,
) -> Result<StoredCell, AllocError>
    ensures { IfOk result (λ cell. cell ≡ answered_at cells.now place) }
{
    match place {
        Some(place) if fits_or_null(place.kind, cells.value_at(place.at)) => {
            let value = copied_or_null(alloc, cells.value_at(place.at))?;
            let shadow = copied_or_null(alloc, cells.shadow_at(place.at))?;
            Ok(StoredCell { value, shadow })
        }
        _ => Ok(StoredCell {
            value: Cell::Null,
            shadow: Cell::Null,
        }),
    }
}

/// A row as it is answered: the cells of the columns of these names.
pub fn answered_row(
    alloc: Global,
    columns: &[Column],
    names: &[Bytes],
    cells: &RowCells<'_>,
) -> Result<Stored, AllocError>
    ensures { IfOk result (λ row. row ≡ answered_row columns.now names.now cells.now) }
{
    let mut row = Stored::new(alloc);
    for name in names {
        let cell = answered_at(alloc, cells, found(columns, name.as_slice()))?;
        row.push(cell)?;
    }
    Ok(row)
}

/// The rows at these places as they are answered.
fn answered_rows(
    alloc: Global,
    columns: &[Column],
    names: &[Bytes],
    rows: &[Row],
    places: &[usize],
) -> Result<StoredRows, AllocError>
    ensures { IfOk result (λ answer. answer ≡ map (λ i. answered_row columns.now names.now (row_at (cells_of rows.now) i)) places.now) }
{
    let mut answer = StoredRows::new(alloc);
    for place in places {
        let row = answered_row(
            alloc,
            columns,
            names,
            &RowCells::one(cells_at(rows, *place)),
        )?;
        answer.push(row)?;
    }
    Ok(answer)
}

/// A column of an ORDER BY that may be left out.
fn order_cause(columns: &[Column], order: &Option<Order>) -> Option<SqlRefusal>
    ensures { result ≡ plan.order_cause columns.now order.now }
{
    match order {
        None => None,
        Some(order) => name_cause(columns, order.column.as_slice()),
    }
}

/// The answer, by the rows that the keeper gave.
fn select_answer(
    alloc: Global,
    statement: &Select,
    columns: &[Column],
    names: &[Bytes],
    values: &[StoredCell],
    rows: &[Row],
) -> Result<SqlAnswer, AllocError>
    ensures { IfOk result (λ answer. answer ≡ plan.selection statement.now values.now columns.now names.now rows.now) }
{
    let mut places = chosen_places(alloc, columns, &statement.condition, values, rows)?;
    order_places(&mut places, columns, rows, &statement.order)?;
    limit_places(&mut places, statement.limit);
    let names = first_named(alloc, names)?;
    let answer = answered_rows(alloc, columns, names.as_slice(), rows, places.as_slice())?;
    Ok(SqlAnswer {
        scanned: rows.len() as u64,
        result: SqlResult::Rows(names, answer),
    })
}

/// What follows the table's columns.
fn select_from<T: Tables>(
    alloc: Global,
    statement: &Select,
    columns: &[Column],
    names: &[Bytes],
    values: &[StoredCell],
    tables: &mut T,
    calls: &mut Calls,
) -> Result<SqlAnswer, SqlStop>
    ensures { Ends (plan.select_from statement.now values.now columns.now names.now)
        (keeping (T.stored tables.old) (T.faults tables.old) (T.answers tables.old) calls.old) result
        (keeping (T.stored tables.new) (T.faults tables.new) (T.answers tables.new) calls.new) }
{
    let named = names_cause(columns, names);
    let condition = where_cause(columns, &statement.condition, values);
    let order = order_cause(columns, &statement.order);
    pass(earlier(named, earlier(condition, order)))?;
    let rows = table_rows(tables, calls, statement.table.as_slice())?;
    Ok(select_answer(alloc, statement, columns, names, values, rows.as_slice())?)
}

pub(crate) fn select<T: Tables>(
    alloc: Global,
    statement: &Select,
    values: &[StoredCell],
    tables: &mut T,
    calls: &mut Calls,
) -> Result<SqlAnswer, SqlStop>
    ensures { Ends (plan.select statement.now values.now)
        (keeping (T.stored tables.old) (T.faults tables.old) (T.answers tables.old) calls.old) result
        (keeping (T.stored tables.new) (T.faults tables.new) (T.answers tables.new) calls.new) }
{
    let columns = opened(alloc, tables, calls, statement.table.as_slice())?;
    let all;
    let names = match &statement.columns {
        Some(names) => names,
        None => {
            all = names_of(alloc, columns.as_slice())?;
            &all
        }
    };
    select_from(
        alloc,
        statement,
        columns.as_slice(),
        names.as_slice(),
        values,
        tables,
        calls,
    )
}
