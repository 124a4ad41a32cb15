//! Sets and labelled texts.

use resin_table_rows::{bytes_in, cut};
use resin_value::under::label::PSet;
use resin_value::under::lstr::{Builder, LText};
use std::alloc::{AllocError, Global};

/// The set of the digits of a text, put together in their order.
pub fn digits_in(alloc: Global, digits: &str) -> Result<PSet, AllocError> {
    let mut set = PSet::empty();
    for digit in digits.as_bytes() {
        set = set.with(alloc, u32::from(digit.saturating_sub(b'0')))?;
    }
    Ok(set)
}

/// The set that stands between braces.
pub fn set_in(alloc: Global, field: &str) -> Result<PSet, AllocError> {
    let inside = field.strip_prefix('{').unwrap_or(field);
    digits_in(alloc, inside.strip_suffix('}').unwrap_or(inside))
}

/// What stands before a set between braces, and the set; the empty one where there is none.
pub fn cut_set(alloc: Global, field: &str) -> Result<(&str, PSet), AllocError> {
    let (front, digits) = cut(field, '{');
    let set = digits_in(alloc, digits.strip_suffix('}').unwrap_or(digits))?;
    Ok((front, set))
}

/// Bytes and the set that they carry.
struct Piece {
    bytes: Vec<u8>,
    set: PSet,
}

impl Drop for Piece {
    fn drop(self) {
        let Piece { bytes: _, set: _ } = self;
    }
}

fn piece_in(alloc: Global, piece: &str) -> Result<Piece, AllocError> {
    let (field, digits) = cut(piece, '{');
    let bytes = bytes_in(alloc, field)?;
    let set = digits_in(alloc, digits)?;
    Ok(Piece { bytes, set })
}

fn append_piece(alloc: Global, out: Builder, piece: &str) -> Result<Builder, AllocError> {
    let piece = piece_in(alloc, piece)?;
    match out.append_bytes(&piece.bytes, &piece.set) {
        Ok(out) => Ok(out),
        Err(_) => Err(AllocError),
    }
}

/// The labelled text that a field spells. A text that is too long counts as want of memory.
pub fn text_in(alloc: Global, field: &str) -> Result<LText, AllocError> {
    let mut out = Builder::new(alloc);
    for piece in field.split('}') {
        out = append_piece(alloc, out, piece)?;
    }
    out.finish()
}
