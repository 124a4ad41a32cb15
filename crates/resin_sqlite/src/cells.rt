//! Cells as values of the database, and back.

use crate::fault::DatabaseFault;
use resin_base::{Bytes, Cell, Kind};
use sqlite::types::ValueRef;
use std::alloc::Global;

/// A text as a value: a TEXT where it is UTF-8 without a NUL byte, so that others read it as one, and else a BLOB. So two texts are one
/// exactly where their values are.
pub(crate) fn text_value(text: &[u8]) -> ValueRef<'_> {
    match str::from_utf8(text) {
        Ok(_) if !text.contains(&0) => ValueRef::Text(text),
        _ => ValueRef::Blob(text),
    }
}

/// A count or a place as a value.
pub(crate) fn number_value(number: usize) -> ValueRef<'static> {
    ValueRef::Int(i64::try_from(number).unwrap_or(i64::MAX))
}

/// A cell as a value.
pub(crate) fn cell_value(cell: &Cell) -> ValueRef<'_> {
    match cell {
        Cell::Null => ValueRef::Null,
        Cell::Int(number) => ValueRef::Int(*number),
        Cell::Text(text) => text_value(text.as_slice()),
    }
}

/// A kind of cells as a value.
pub(crate) fn kind_value(kind: Kind) -> ValueRef<'static> {
    match kind {
        Kind::Integer => ValueRef::Text(b"INTEGER"),
        Kind::Text => ValueRef::Text(b"TEXT"),
    }
}

/// The text that a value is.
pub(crate) fn text_of(alloc: Global, value: ValueRef<'_>) -> Result<Bytes, DatabaseFault> {
    match value {
        ValueRef::Text(text) | ValueRef::Blob(text) => Ok(Bytes::from_slice(alloc, text)?),
        _ => Err(DatabaseFault::NotARow),
    }
}

/// The cell that a value is.
pub(crate) fn cell_of(alloc: Global, value: ValueRef<'_>) -> Result<Cell, DatabaseFault> {
    match value {
        ValueRef::Null => Ok(Cell::Null),
        ValueRef::Int(number) => Ok(Cell::Int(number)),
        ValueRef::Text(_) | ValueRef::Blob(_) => Ok(Cell::Text(text_of(alloc, value)?)),
        ValueRef::Real(_) => Err(DatabaseFault::NotARow),
    }
}

/// The kind that a value is.
pub(crate) fn kind_of(value: ValueRef<'_>) -> Result<Kind, DatabaseFault> {
    match value {
        ValueRef::Text(b"INTEGER") => Ok(Kind::Integer),
        ValueRef::Text(b"TEXT") => Ok(Kind::Text),
        _ => Err(DatabaseFault::NotARow),
    }
}
