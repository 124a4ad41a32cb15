//! The columns of a keeper's table, and those of a statement's.

ghost use Rattle.std.specs.Prelude.{◌≡◌, ◌≤◌, ◌+◌, ◌++◌, ◌∷◌, [], true, length, drop, IfOk, OnOk};
ghost use Rattle.resin_rows.specs.Columns.{shadow_name, is_text, is_shadow_of, begins_pair, paired, unpaired, shape, found};

use crate::names::{is_repeated, names_of};
use resin_base::{Bytes, Column, Columns, Kind};
use std::alloc::{AllocError, Global};

/// Where a column stands among the columns of a statement, and its kind.
#[derive(Clone, Copy)]
pub struct Place {
    pub at: usize,
    pub kind: Kind,
}

const SHADOW: &[u8] = b"__resin";

/// The name of the column that holds the shadows of a column of this name.
fn shadow_name(alloc: Global, name: &[u8]) -> Result<Bytes, AllocError>
    ensures { IfOk result (λ shadow. shadow ≡ shadow_name name.now) }
{
    let mut shadow = Bytes::from_slice(alloc, name)?;
    shadow.push_slice(SHADOW)?;
    Ok(shadow)
}

/// Whether a kind is TEXT.
pub fn is_text(kind: Kind) -> bool
    ensures { result ≡ is_text kind }
{
    match kind {
        Kind::Text => true,
        Kind::Integer => false,
    }
}

/// Puts a copy of a column last.
fn push_column(alloc: Global, columns: &mut Columns, column: &Column) -> Result<(), AllocError>
    ensures { OnOk result (columns.new ≡ columns.old ++ column.now ∷ []) }
{
    let name = Bytes::from_slice(alloc, column.name.as_slice())?;
    columns.push(Column {
        name,
        kind: column.kind,
    })
}

/// The keeper's columns for a statement's: each with the one that holds its shadows.
pub fn paired(alloc: Global, columns: &[Column]) -> Result<Columns, AllocError>
    ensures { IfOk result (λ kept. kept ≡ paired columns.now) }
{
    let mut kept = Columns::new(alloc);
    for column in columns {
        push_column(alloc, &mut kept, column)?;
        let name = shadow_name(alloc, column.name.as_slice())?;
        kept.push(Column {
            name,
            kind: Kind::Text,
        })?;
    }
    Ok(kept)
}

/// Whether a column holds the shadows of another.
fn is_shadow_of(alloc: Global, column: &Column, shadow: &Column) -> Result<bool, AllocError>
    ensures { IfOk result (λ is. is ≡ is_shadow_of column.now shadow.now) }
{
    let name = shadow_name(alloc, column.name.as_slice())?;
    Ok(shadow.name.as_slice() == name.as_slice() && is_text(shadow.kind))
}

/// Whether a pair stands at a place.
fn is_pair(alloc: Global, kept: &[Column], at: usize) -> Result<bool, AllocError>
    requires { at ≤ length kept.now }
    ensures is { IfOk result (λ is. is ≡ begins_pair (drop at kept.now)) }
    ensures room { IfOk result (λ is. is ≡ true → at + 2 ≤ length kept.now) }
{
    if kept.len() - at < 2 {
        return Ok(false);
    }
    is_shadow_of(alloc, &kept[at], &kept[at + 1])
}

/// The columns of pairs, without those that hold shadows; `None` where they are no pairs.
fn unpaired(alloc: Global, kept: &[Column]) -> Result<Option<Columns>, AllocError>
    ensures { IfOk result (λ columns. columns ≡ unpaired kept.now) }
{
    let mut columns = Columns::new(alloc);
    let mut at = 0;
    while at < kept.len() {
        if !is_pair(alloc, kept, at)? {
            return Ok(None);
        }
        push_column(alloc, &mut columns, &kept[at])?;
        at += 2;
    }
    Ok(Some(columns))
}

/// The columns of a keeper's table of this project's shape: one or more pairs, and no name twice. There are few, as CREATE makes 64 at most.
pub fn shape(alloc: Global, kept: &[Column]) -> Result<Option<Columns>, AllocError>
    ensures { IfOk result (λ columns. columns ≡ shape kept.now) }
{
    if kept.is_empty() {
        return Ok(None);
    }
    let names = names_of(alloc, kept)?;
    if is_repeated(names.as_slice()) {
        return Ok(None);
    }
    unpaired(alloc, kept)
}

/// The column of a name.
pub fn found(columns: &[Column], name: &[u8]) -> Option<Place>
    ensures { result ≡ found columns.now name.now }
{
    for at in 0..columns.len() {
        if columns[at].name.as_slice() == name {
            return Some(Place {
                at,
                kind: columns[at].kind,
            });
        }
    }
    None
}
