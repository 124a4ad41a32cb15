//! How what is kept is printed.

use crate::texts::{push_part, push_shown};
use resin_base::{Cell, Columns, Row, Rows};
use resin_table_rows::Line;
use std::alloc::Global;

/// Puts a path last, and what a keeper of files holds there: the bytes and the shadow text.
pub fn push_entry(alloc: Global, out: &mut Line, path: &str, entry: Option<(&[u8], &[u8])>) {
    out.push_str(path);
    match entry {
        Some((bytes, shadow)) => {
            out.push_str(" | ");
            push_shown(alloc, out, bytes);
            push_part(alloc, out, shadow);
        }
        None => out.push_str(" isn't there"),
    }
}

fn push_cell(alloc: Global, out: &mut Line, cell: &Cell) {
    match cell {
        Cell::Null => out.push_str("NULL"),
        Cell::Int(number) => {
            out.push('i');
            out.push_integer(*number);
        }
        Cell::Text(text) => {
            out.push('t');
            push_shown(alloc, out, text.as_slice());
        }
    }
}

fn push_row(alloc: Global, out: &mut Line, row: &Row) {
    out.tell(" | ", row.number, " ");
    for (i, cell) in row.cells.as_slice().iter().enumerate() {
        out.push_str(if i > 0 { "~" } else { "" });
        push_cell(alloc, out, cell);
    }
}

/// Puts a name last, and the rows of the table that a keeper of tables holds by it, each with its number and with its cells as a field spells them.
pub fn push_table(alloc: Global, out: &mut Line, name: &str, table: Option<(&Columns, &Rows)>) {
    out.push_str(name);
    match table {
        Some((_, rows)) => {
            for row in rows.as_slice() {
                push_row(alloc, out, row);
            }
        }
        None => out.push_str(" isn't there"),
    }
}
