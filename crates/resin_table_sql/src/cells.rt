//! The cells that a statement is carried out with, and how cells and numbered calls are printed.

use resin_base::{Bytes, Calls, Cell, Stored, StoredCell};
use resin_lstr::{LText, TextFault};
use resin_sql::{Literal, SqlStop, literal_text};
use resin_table_rows::Line;
use std::alloc::{AllocError, Global};

/// A text without labels. One that is too long counts as want of memory.
pub fn plain_text(alloc: Global, text: &str) -> Result<LText, AllocError> {
    match LText::plain(alloc, text.as_bytes()) {
        Ok(text) => Ok(text),
        Err(TextFault::TooLong | TextFault::Memory) => Err(AllocError),
    }
}

fn text_cell(alloc: Global, bytes: &[u8]) -> Result<Cell, AllocError> {
    Ok(Cell::Text(Bytes::from_slice(alloc, bytes)?))
}

/// The cell that a word spells: an integer, a text behind `'`, or else NULL.
pub fn cell_in(alloc: Global, word: &str) -> Result<Cell, AllocError> {
    if let Some(text) = word.strip_prefix('\'') {
        return text_cell(alloc, text.as_bytes());
    }
    match word.parse::<i64>() {
        Ok(n) => Ok(Cell::Int(n)),
        Err(_) => Ok(Cell::Null),
    }
}

/// A copy of a cell.
pub fn copied(alloc: Global, cell: &Cell) -> Result<Cell, AllocError> {
    match cell {
        Cell::Null => Ok(Cell::Null),
        Cell::Int(n) => Ok(Cell::Int(*n)),
        Cell::Text(text) => text_cell(alloc, text.as_slice()),
    }
}

// What a literal of a text stands for.
fn value_of(alloc: Global, text: &LText, literal: Literal) -> Result<Cell, AllocError> {
    match literal {
        Literal::Null => Ok(Cell::Null),
        Literal::Integer(n, _) => Ok(Cell::Int(n)),
        Literal::Text(_) => text_cell(alloc, literal_text(alloc, text, literal)?.bytes()),
    }
}

// The shadow of the literal of this number.
fn shadow_of(alloc: Global, literal: Literal, number: usize) -> Result<Cell, AllocError> {
    match literal {
        Literal::Null => text_cell(alloc, b""),
        _ => text_cell(alloc, format!(in alloc; "s{number}")?.as_bytes()),
    }
}

/// The cells of literals that stand in a text. The shadow of the Kth is the text `sK`, that of NULL is empty.
pub fn stored_of(alloc: Global, text: &LText, literals: &[Literal]) -> Result<Stored, AllocError> {
    let mut stored = Stored::new(alloc);
    let mut number = 0usize;
    for literal in literals {
        number = number.saturating_add(1);
        let value = value_of(alloc, text, *literal)?;
        let shadow = shadow_of(alloc, *literal, number)?;
        stored.push(StoredCell { value, shadow })?;
    }
    Ok(stored)
}

/// Puts a cell last: `N` for NULL, an integer, or a text behind `'`.
pub fn push_cell(out: &mut Line, cell: &Cell) {
    match cell {
        Cell::Null => out.push('N'),
        Cell::Int(n) => out.push_integer(*n),
        Cell::Text(text) => {
            out.push('\'');
            out.push_text_bytes(text.as_slice());
        }
    }
}

/// Puts a row last between brackets, each cell with its shadow behind `~`.
pub fn push_stored(out: &mut Line, row: &Stored) {
    out.push_str(" [");
    for (i, cell) in row.as_slice().iter().enumerate() {
        out.push_str(if i > 0 { "," } else { "" });
        push_cell(out, &cell.value);
        out.push('~');
        push_cell(out, &cell.shadow);
    }
    out.push(']');
}

/// Puts last how a statement ended without an answer.
pub fn push_stop(out: &mut Line, stop: SqlStop) {
    out.push_str(match stop {
        SqlStop::Refused(refusal) => refusal.message(),
        SqlStop::Keeper => "keeper",
        SqlStop::Spent => "spent",
        SqlStop::Memory => "memory",
    });
}

/// Puts last how many calls were made, and which are listed as failed.
pub fn push_calls(out: &mut Line, calls: &Calls) {
    out.tell(" # ", calls.made, "");
    for number in calls.failed.as_slice() {
        out.tell(" failed ", *number, "");
    }
}
