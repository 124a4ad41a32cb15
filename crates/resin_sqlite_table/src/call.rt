//! Calls of a keeper of tables, as lines of the input have them.

use percent_encoding::percent_decode;
use resin_base::{Bytes, Cell, Cells, Column, Columns, Kind};
use std::alloc::{AllocError, Global};

/// A call, with the name of the table.
#[derive(Drop)]
pub(crate) enum Call {
    Create(Bytes, Columns),
    Columns(Bytes),
    Rows(Bytes),
    Insert(Bytes, Cells),
    Update(Bytes, u64, Cells),
    Delete(Bytes, u64),
}

/// The words of a line.
pub(crate) fn words(alloc: Global, line: &str) -> Result<Vec<Vec<u8>>, AllocError> {
    let mut words = Vec::new(alloc);
    for word in line.split(' ') {
        let mut bytes = Vec::new(alloc);
        percent_decode(word.as_bytes()).append_to(&mut bytes)?;
        words.push(bytes)?;
    }
    Ok(words)
}

fn column_of(alloc: Global, word: &[u8]) -> Result<Column, AllocError> {
    let (kind, name) = match word {
        [b'I', b':', name @ ..] => (Kind::Integer, name),
        [b'T', b':', name @ ..] => (Kind::Text, name),
        name => (Kind::Text, name),
    };
    Ok(Column {
        name: Bytes::from_slice(alloc, name)?,
        kind,
    })
}

fn columns_of(alloc: Global, words: &[Vec<u8>]) -> Result<Columns, AllocError> {
    let mut columns = Columns::new(alloc);
    for word in words {
        columns.push(column_of(alloc, word.as_slice())?)?;
    }
    Ok(columns)
}

fn cell_of(alloc: Global, word: &[u8]) -> Result<Cell, AllocError> {
    if let [b'\'', text @ ..] = word {
        return Ok(Cell::Text(Bytes::from_slice(alloc, text)?));
    }
    match str::from_utf8(word) {
        Ok(digits) => match digits.parse::<i64>() {
            Ok(number) => Ok(Cell::Int(number)),
            Err(_) => Ok(Cell::Null),
        },
        Err(_) => Ok(Cell::Null),
    }
}

fn cells_of(alloc: Global, words: &[Vec<u8>]) -> Result<Cells, AllocError> {
    let mut cells = Cells::new(alloc);
    for word in words {
        cells.push(cell_of(alloc, word.as_slice())?)?;
    }
    Ok(cells)
}

// A number of a row, 0 where the word is none.
fn row_of(words: &[Vec<u8>]) -> u64 {
    match words.first() {
        Some(word) => match str::from_utf8(word.as_slice()) {
            Ok(digits) => digits.parse::<u64>().unwrap_or(0),
            Err(_) => 0,
        },
        None => 0,
    }
}

impl Call {
    /// The call that the words are, if they are one.
    pub(crate) fn of_words(alloc: Global, words: &[Vec<u8>]) -> Result<Option<Call>, AllocError> {
        let [verb, name, rest @ ..] = words else {
            return Ok(None);
        };
        let name = Bytes::from_slice(alloc, name.as_slice())?;
        let row = row_of(rest);
        let more = rest.split_at(rest.len().min(1)).1;
        Ok(match verb.as_slice() {
            b"create" => Some(Call::Create(name, columns_of(alloc, rest)?)),
            b"columns" => Some(Call::Columns(name)),
            b"rows" => Some(Call::Rows(name)),
            b"insert" => Some(Call::Insert(name, cells_of(alloc, rest)?)),
            b"update" => Some(Call::Update(name, row, cells_of(alloc, more)?)),
            b"delete" => Some(Call::Delete(name, row)),
            _ => None,
        })
    }
}
