//! Calls that read.

use crate::cells::{cell_of, kind_of, text_of, text_value};
use crate::fault::DatabaseFault;
use crate::statements::{COUNT_COLUMNS, FIND_ROW, FIND_TABLE, LAST_ROW, LIST_CELLS, LIST_COLUMNS};
use resin_base::{Cells, Column, Columns, Row, Rows};
use sqlite::types::ValueRef;
use sqlite::{Alter, Connection, Row as Record};
use std::alloc::Global;

// Whether a query has a row.
fn is_found<S: Alter>(
    conn: &mut Connection<S>,
    query: &str,
    params: &[ValueRef<'_>],
) -> Result<bool, DatabaseFault> {
    let rows = conn.query_all(query, params)?;
    Ok(!rows.is_empty())
}

// The number in the first row of a query, if it has one.
fn number<S: Alter>(
    conn: &mut Connection<S>,
    query: &str,
    params: &[ValueRef<'_>],
) -> Result<Option<u64>, DatabaseFault> {
    let rows = conn.query_all(query, params)?;
    match rows.first() {
        Some(row) => Ok(Some(row.get::<u64>(0)?)),
        None => Ok(None),
    }
}

/// Whether a table is there.
pub(crate) fn has_table<S: Alter>(
    conn: &mut Connection<S>,
    name: &[u8],
) -> Result<bool, DatabaseFault> {
    is_found(conn, FIND_TABLE, &[text_value(name)])
}

/// Whether a table has a row.
pub(crate) fn has_row<S: Alter>(
    conn: &mut Connection<S>,
    name: &[u8],
    number: i64,
) -> Result<bool, DatabaseFault> {
    is_found(conn, FIND_ROW, &[text_value(name), ValueRef::Int(number)])
}

/// How many columns a table has, 0 where it isn't there.
pub(crate) fn width<S: Alter>(conn: &mut Connection<S>, name: &[u8]) -> Result<u64, DatabaseFault> {
    Ok(number(conn, COUNT_COLUMNS, &[text_value(name)])?.unwrap_or(0))
}

/// Whether a table is there that these cells fit.
pub(crate) fn fits<S: Alter>(
    conn: &mut Connection<S>,
    name: &[u8],
    cells: &Cells,
) -> Result<bool, DatabaseFault> {
    if !has_table(conn, name)? {
        return Ok(false);
    }
    let width = width(conn, name)?;
    Ok(u64::try_from(cells.as_slice().len()) == Ok(width))
}

/// The largest number of a row, 0 where there is none.
pub(crate) fn last_row<S: Alter>(
    conn: &mut Connection<S>,
    name: &[u8],
) -> Result<u64, DatabaseFault> {
    Ok(number(conn, LAST_ROW, &[text_value(name)])?.unwrap_or(0))
}

// The column that a record is.
fn column_of(alloc: Global, record: &Record) -> Result<Column, DatabaseFault> {
    Ok(Column {
        name: text_of(alloc, record.get_ref(0)?)?,
        kind: kind_of(record.get_ref(1)?)?,
    })
}

/// The columns of a table, None exactly where it isn't there.
pub(crate) fn columns<S: Alter>(
    alloc: Global,
    conn: &mut Connection<S>,
    name: &[u8],
) -> Result<Option<Columns>, DatabaseFault> {
    if !has_table(conn, name)? {
        return Ok(None);
    }
    let mut columns = Columns::new(alloc);
    for record in &conn.query_all(LIST_COLUMNS, &[text_value(name)])? {
        columns.push(column_of(alloc, record)?)?;
    }
    Ok(Some(columns))
}

// Rows that come cell by cell.
#[derive(Drop)]
struct Gathering {
    alloc: Global,
    width: u64,
    rows: Rows,
    // The row under way; number 0 for none.
    number: u64,
    cells: Cells,
}

impl Gathering {
    // Ends the row under way.
    fn end_row(&mut self) -> Result<(), DatabaseFault> {
        if self.number == 0 {
            return Ok(());
        }
        if u64::try_from(self.cells.as_slice().len()) != Ok(self.width) {
            return Err(DatabaseFault::NotARow);
        }
        let cells = std::mem::replace(&mut self.cells, Cells::new(self.alloc));
        let number = std::mem::replace(&mut self.number, 0);
        self.rows.push(Row { number, cells })?;
        Ok(())
    }

    // Takes the next cell, in the order of rows and columns.
    fn take(&mut self, record: &Record) -> Result<(), DatabaseFault> {
        let number = record.get::<u64>(0)?;
        if number != self.number {
            self.end_row()?;
            self.number = number;
        }
        let column = record.get::<u64>(1)?;
        if column == 0 && self.width == 0 {
            return Ok(());
        }
        if u64::try_from(self.cells.as_slice().len().saturating_add(1)) != Ok(column) {
            return Err(DatabaseFault::NotARow);
        }
        self.cells.push(cell_of(self.alloc, record.get_ref(2)?)?)?;
        Ok(())
    }
}

// Takes all cells of a table.
fn gather<S: Alter>(
    conn: &mut Connection<S>,
    name: &[u8],
    gathering: &mut Gathering,
) -> Result<(), DatabaseFault> {
    let mut records = conn.query(LIST_CELLS, &[text_value(name)])?;
    for _ in 0..u64::MAX {
        match records.next()? {
            Some(record) => gathering.take(record)?,
            None => return Ok(()),
        }
    }
    Ok(())
}

/// The rows of a table in rising number, none where the table isn't there.
pub(crate) fn rows<S: Alter>(
    alloc: Global,
    conn: &mut Connection<S>,
    name: &[u8],
) -> Result<Rows, DatabaseFault> {
    let mut gathering = Gathering {
        alloc,
        width: width(conn, name)?,
        rows: Rows::new(alloc),
        number: 0,
        cells: Cells::new(alloc),
    };
    gather(conn, name, &mut gathering)?;
    gathering.end_row()?;
    let Gathering { rows, .. } = gathering;
    Ok(rows)
}
