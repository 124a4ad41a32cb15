//! Copies of what tables hold.
ghost use Rattle.std.specs.Prelude.{◌≡◌, IfOk};

use resin_base::{Bytes, Cell, Cells, Column, Columns, Row, Rows};
use std::alloc::{AllocError, Global};

/// A copy of columns.
pub(crate) fn copy_columns(alloc: Global, columns: &Columns) -> Result<Columns, AllocError>
    ensures { IfOk result (λ copy. copy ≡ columns.now) }
{
    let mut copy = Columns::new(alloc);
    for column in columns.as_slice() {
        copy.push(copy_column(alloc, column)?)?;
    }
    Ok(copy)
}

// A copy of a column.
fn copy_column(alloc: Global, column: &Column) -> Result<Column, AllocError>
    ensures { IfOk result (λ copy. copy ≡ column.now) }
{
    Ok(Column {
        name: Bytes::from_slice(alloc, column.name.as_slice())?,
        kind: column.kind,
    })
}

/// A copy of rows.
pub(crate) fn copy_rows(alloc: Global, rows: &Rows) -> Result<Rows, AllocError>
    ensures { IfOk result (λ copy. copy ≡ rows.now) }
{
    let mut copy = Rows::new(alloc);
    for row in rows.as_slice() {
        copy.push(copy_row(alloc, row)?)?;
    }
    Ok(copy)
}

// A copy of a row.
fn copy_row(alloc: Global, row: &Row) -> Result<Row, AllocError>
    ensures { IfOk result (λ copy. copy ≡ row.now) }
{
    Ok(Row {
        number: row.number,
        cells: copy_cells(alloc, &row.cells)?,
    })
}

/// A copy of cells.
pub(crate) fn copy_cells(alloc: Global, cells: &Cells) -> Result<Cells, AllocError>
    ensures { IfOk result (λ copy. copy ≡ cells.now) }
{
    let mut copy = Cells::new(alloc);
    for cell in cells.as_slice() {
        copy.push(copy_cell(alloc, cell)?)?;
    }
    Ok(copy)
}

// A copy of a cell.
fn copy_cell(alloc: Global, cell: &Cell) -> Result<Cell, AllocError>
    ensures { IfOk result (λ copy. copy ≡ cell.now) }
{
    match cell {
        Cell::Null => Ok(Cell::Null),
        Cell::Int(number) => Ok(Cell::Int(*number)),
        Cell::Text(bytes) => Ok(Cell::Text(Bytes::from_slice(alloc, bytes.as_slice())?)),
    }
}
