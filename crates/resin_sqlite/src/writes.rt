//! Calls that write: each is one transaction, which a fault undoes.

use crate::cells::{cell_value, kind_value, number_value, text_value};
use crate::fault::DatabaseFault;
use crate::reads::{fits, has_row, has_table, last_row};
use crate::statements::{ADD_CELL, ADD_COLUMN, ADD_TABLE, DELETE_ROW, SET_CELL};
use resin_base::{Cells, Columns};
use sqlite::types::ValueRef;
use sqlite::{Alter, Connection, Transaction};

// The columns of a new table, numbered from 1.
fn add_columns<'x, S: Alter>(
    group: &mut Transaction<'_, S>,
    name: &'x [u8],
    columns: &'x Columns,
) -> Result<(), DatabaseFault> {
    for (i, column) in columns.as_slice().iter().enumerate() {
        group.execute(
            ADD_COLUMN,
            &[
                text_value(name),
                number_value(i.saturating_add(1)),
                text_value(column.name.as_slice()),
                kind_value(column.kind),
            ],
        )?;
    }
    Ok(())
}

/// Makes a table without rows, unless it is there.
pub(crate) fn create<S: Alter>(
    conn: &mut Connection<S>,
    name: &[u8],
    columns: &Columns,
) -> Result<bool, DatabaseFault> {
    if has_table(conn, name)? {
        return Ok(false);
    }
    if !conn.is_autocommit() {
        return Err(DatabaseFault::Refused);
    }
    let mut group = conn.transaction();
    group.execute(ADD_TABLE, &[text_value(name)])?;
    add_columns(&mut group, name, columns)?;
    group.commit()?;
    Ok(true)
}

// Adds a cell.
fn add_cell<'x, S: Alter>(
    group: &mut Transaction<'_, S>,
    name: &'x [u8],
    number: i64,
    column: usize,
    value: ValueRef<'x>,
) -> Result<(), DatabaseFault> {
    group.execute(
        ADD_CELL,
        &[
            text_value(name),
            ValueRef::Int(number),
            number_value(column),
            value,
        ],
    )?;
    Ok(())
}

// The cells of a new row, by columns from 1. A row without cells has one in the place of a column 0.
fn add_cells<'x, S: Alter>(
    group: &mut Transaction<'_, S>,
    name: &'x [u8],
    number: i64,
    cells: &'x Cells,
) -> Result<(), DatabaseFault> {
    if cells.as_slice().is_empty() {
        return add_cell(group, name, number, 0, ValueRef::Null);
    }
    for (i, cell) in cells.as_slice().iter().enumerate() {
        add_cell(group, name, number, i.saturating_add(1), cell_value(cell))?;
    }
    Ok(())
}

// The number of a new row, if one is left.
fn next_number(last: u64) -> Option<i64> {
    i64::try_from(last).ok()?.checked_add(1)
}

/// Puts a row last, and answers its number.
pub(crate) fn insert<S: Alter>(
    conn: &mut Connection<S>,
    name: &[u8],
    cells: &Cells,
) -> Result<Option<u64>, DatabaseFault> {
    if !fits(conn, name, cells)? {
        return Ok(None);
    }
    let last = last_row(conn, name)?;
    let Some(number) = next_number(last) else {
        return Ok(None);
    };
    if !conn.is_autocommit() {
        return Err(DatabaseFault::Refused);
    }
    let mut group = conn.transaction();
    add_cells(&mut group, name, number, cells)?;
    group.commit()?;
    Ok(Some(last.saturating_add(1)))
}

// Sets the cells of a row.
fn set_cells<'x, S: Alter>(
    group: &mut Transaction<'_, S>,
    name: &'x [u8],
    number: i64,
    cells: &'x Cells,
) -> Result<(), DatabaseFault> {
    for (i, cell) in cells.as_slice().iter().enumerate() {
        let changed = group.execute(
            SET_CELL,
            &[
                text_value(name),
                ValueRef::Int(number),
                number_value(i.saturating_add(1)),
                cell_value(cell),
            ],
        )?;
        if changed != 1 {
            return Err(DatabaseFault::NotARow);
        }
    }
    Ok(())
}

/// Sets the cells of a row, and answers whether it was there and they fit.
pub(crate) fn update<S: Alter>(
    conn: &mut Connection<S>,
    name: &[u8],
    row: u64,
    cells: &Cells,
) -> Result<bool, DatabaseFault> {
    let Ok(number) = i64::try_from(row) else {
        return Ok(false);
    };
    if !has_row(conn, name, number)? || !fits(conn, name, cells)? {
        return Ok(false);
    }
    if !conn.is_autocommit() {
        return Err(DatabaseFault::Refused);
    }
    let mut group = conn.transaction();
    set_cells(&mut group, name, number, cells)?;
    group.commit()?;
    Ok(true)
}

/// Takes a row out, and answers whether it was there.
pub(crate) fn delete<S: Alter>(
    conn: &mut Connection<S>,
    name: &[u8],
    row: u64,
) -> Result<bool, DatabaseFault> {
    let Ok(number) = i64::try_from(row) else {
        return Ok(false);
    };
    let count = conn.execute(DELETE_ROW, &[text_value(name), ValueRef::Int(number)])?;
    Ok(count > 0)
}
