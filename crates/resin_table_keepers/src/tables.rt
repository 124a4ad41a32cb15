//! Tables and rows as fields spell them.

use resin_base::{Bytes, Cell, Cells, Column, Columns, Kind, Tables};
use resin_table_rows::cut;
use std::alloc::{AllocError, Global};

// A column, by its name and perhaps `:INTEGER`; without it its cells are texts.
fn column_in(alloc: Global, word: &str) -> Result<Column, AllocError> {
    let (name, kind) = match word.strip_suffix(":INTEGER") {
        Some(name) => (name, Kind::Integer),
        None => (word, Kind::Text),
    };
    let name = Bytes::from_slice(alloc, name.as_bytes())?;
    Ok(Column { name, kind })
}

fn columns_in(alloc: Global, words: &str) -> Result<Columns, AllocError> {
    let mut columns = Columns::new(alloc);
    for word in words.split(' ') {
        columns.push(column_in(alloc, word)?)?;
    }
    Ok(columns)
}

/// Makes the table of a field: its name and its columns, with spaces between them. `:INTEGER` may stand behind a column's name; without it
/// its cells are texts. A table that is there already stays as it is.
///
/// # Errors
///
/// Want of memory, which a call that fails counts as.
pub fn make_table<T: Tables>(alloc: Global, tables: &mut T, field: &str) -> Result<(), AllocError> {
    let (name, words) = cut(field, ' ');
    let columns = columns_in(alloc, words)?;
    match tables.create(name.as_bytes(), &columns) {
        Ok(_) => Ok(()),
        Err(_) => Err(AllocError),
    }
}

fn integer_in(digits: &str) -> Cell {
    match digits.parse::<i64>() {
        Ok(number) => Cell::Int(number),
        Err(_) => Cell::Null,
    }
}

// A cell: `i` and an integer, `t` and a text; all else is NULL.
fn cell_in(alloc: Global, word: &str) -> Result<Cell, AllocError> {
    if let Some(text) = word.strip_prefix("t") {
        return Ok(Cell::Text(Bytes::from_slice(alloc, text.as_bytes())?));
    }
    match word.strip_prefix("i") {
        Some(digits) => Ok(integer_in(digits)),
        None => Ok(Cell::Null),
    }
}

fn cells_in(alloc: Global, words: &str) -> Result<Cells, AllocError> {
    let mut cells = Cells::new(alloc);
    for word in words.split('~') {
        cells.push(cell_in(alloc, word)?)?;
    }
    Ok(cells)
}

/// Puts the row of a field last into its table: the table's name, a space, and the cells with `~` between them. A cell is `i` and an
/// integer, `t` and a text, or else NULL.
///
/// # Errors
///
/// Want of memory, which a call that fails counts as.
pub fn put_row<T: Tables>(alloc: Global, tables: &mut T, field: &str) -> Result<(), AllocError> {
    let (name, words) = cut(field, ' ');
    let cells = cells_in(alloc, words)?;
    match tables.insert(name.as_bytes(), &cells) {
        Ok(_) => Ok(()),
        Err(_) => Err(AllocError),
    }
}
