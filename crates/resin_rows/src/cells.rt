//! Cells: kinds, tests, order and copies.

ghost use Rattle.std.specs.Prelude.{◌≡◌, IfOk};
ghost use Rattle.std.specs.Option.{option_copied};
ghost use Rattle.resin_rows.specs.Cells.{is_null, is_of_kind, fits, meets, meets_null, allows, are_equal, cell_order, or_null, value_at, shadow_at};

use resin_base::{Bytes, Cell, Kind};
use resin_sql::Comparison;
use std::alloc::{AllocError, Global};
use std::cmp::Ordering;

/// A copy of a cell.
pub(crate) fn copied(alloc: Global, cell: &Cell) -> Result<Cell, AllocError>
    ensures { IfOk result (λ copy. copy ≡ cell.now) }
{
    match cell {
        Cell::Null => Ok(Cell::Null),
        Cell::Int(n) => Ok(Cell::Int(*n)),
        Cell::Text(text) => Ok(Cell::Text(Bytes::from_slice(alloc, text.as_slice())?)),
    }
}

fn is_null(cell: &Cell) -> bool
    ensures { result ≡ is_null cell.now }
{
    match cell {
        Cell::Null => true,
        _ => false,
    }
}

/// Whether a cell has a value of a kind.
fn is_of_kind(kind: Kind, cell: &Cell) -> bool
    ensures { result ≡ is_of_kind kind cell.now }
{
    match (kind, cell) {
        (Kind::Integer, Cell::Int(_)) | (Kind::Text, Cell::Text(_)) => true,
        _ => false,
    }
}

/// Whether a cell has a value of a kind or is NULL.
pub(crate) fn fits(kind: Kind, cell: &Cell) -> bool
    ensures { result ≡ fits kind cell.now }
{
    match cell {
        Cell::Null => true,
        _ => is_of_kind(kind, cell),
    }
}

fn allows(comparison: Comparison, order: Ordering) -> bool
    ensures { result ≡ allows comparison order }
{
    match comparison {
        Comparison::Equal => order.is_eq(),
        Comparison::NotEqual => order.is_ne(),
        Comparison::Less => order.is_lt(),
        Comparison::LessOrEqual => order.is_le(),
        Comparison::Greater => order.is_gt(),
        Comparison::GreaterOrEqual => order.is_ge(),
    }
}

/// Whether a cell meets a test against a value.
pub fn meets(comparison: Comparison, cell: &Cell, value: &Cell) -> bool
    ensures { result ≡ meets comparison cell.now value.now }
{
    match (cell, value) {
        (Cell::Int(a), Cell::Int(b)) => allows(comparison, a.cmp(b)),
        (Cell::Text(a), Cell::Text(b)) => allows(comparison, a.as_slice().cmp(b.as_slice())),
        _ => false,
    }
}

/// Whether a cell of a column of a kind is NULL, or where `negated` is not.
fn meets_null(negated: bool, kind: Kind, cell: &Cell) -> bool
    ensures { result ≡ meets_null negated kind cell.now }
{
    if negated {
        is_of_kind(kind, cell)
    } else {
        is_null(cell)
    }
}

/// The order of two cells of a column of a kind.
fn cell_order(kind: Kind, a: &Cell, b: &Cell) -> Ordering
    ensures { result ≡ cell_order kind a.now b.now }
{
    match (kind, a, b) {
        (Kind::Integer, Cell::Int(x), Cell::Int(y)) => x.cmp(y),
        (Kind::Text, Cell::Text(x), Cell::Text(y)) => x.as_slice().cmp(y.as_slice()),
        _ => is_of_kind(kind, a).cmp(&is_of_kind(kind, b)),
    }
}

/// The value of the column at a place, if the row has one.
pub fn value_at<'a>(cells: &'a [Cell], at: usize) -> Option<&'a Cell>
    ensures { or_null (option_copied result) ≡ value_at cells.now at }
{
    if at < cells.len() {
        cells.get(2 * at)
    } else {
        None
    }
}

/// The shadow of the column at a place, if the row has one.
pub fn shadow_at<'a>(cells: &'a [Cell], at: usize) -> Option<&'a Cell>
    ensures { or_null (option_copied result) ≡ shadow_at cells.now at }
{
    if at < cells.len() {
        cells.get(2 * at + 1)
    } else {
        None
    }
}

/// A copy of a cell, NULL where there is none.
pub fn copied_or_null(alloc: Global, cell: Option<&Cell>) -> Result<Cell, AllocError>
    ensures { IfOk result (λ copy. copy ≡ or_null (option_copied cell.entry)) }
{
    match cell {
        Some(cell) => copied(alloc, cell),
        None => Ok(Cell::Null),
    }
}

/// Whether a cell has a value of a kind or is NULL, or there is none.
pub fn fits_or_null(kind: Kind, cell: Option<&Cell>) -> bool
    ensures { result ≡ fits kind (or_null (option_copied cell.entry)) }
{
    match cell {
        Some(cell) => fits(kind, cell),
        None => true,
    }
}

/// Whether there is a cell that meets a test against a value.
pub(crate) fn meets_or_null(comparison: Comparison, cell: Option<&Cell>, value: &Cell) -> bool
    ensures { result ≡ meets comparison (or_null (option_copied cell.entry)) value.now }
{
    match cell {
        Some(cell) => meets(comparison, cell, value),
        None => false,
    }
}

/// Whether a cell of a column of a kind is NULL or isn't there, or where `negated` has a value.
pub(crate) fn is_null_or_none(negated: bool, kind: Kind, cell: Option<&Cell>) -> bool
    ensures { result ≡ meets_null negated kind (or_null (option_copied cell.entry)) }
{
    match cell {
        Some(cell) => meets_null(negated, kind, cell),
        None => !negated,
    }
}

/// Whether there is a cell with a value of a kind.
fn has_kind(kind: Kind, cell: Option<&Cell>) -> bool
    ensures { result ≡ is_of_kind kind (or_null (option_copied cell.entry)) }
{
    match cell {
        Some(cell) => is_of_kind(kind, cell),
        None => false,
    }
}

/// The order of two cells of a column of a kind, of which one that isn't there is NULL.
pub(crate) fn order_or_null(kind: Kind, a: Option<&Cell>, b: Option<&Cell>) -> Ordering
    ensures { result ≡ cell_order kind (or_null (option_copied a.entry)) (or_null (option_copied b.entry)) }
{
    match (a, b) {
        (Some(a), Some(b)) => cell_order(kind, a, b),
        _ => has_kind(kind, a).cmp(&has_kind(kind, b)),
    }
}

/// Whether two cells, where there are any, have values of a kind that are equal.
pub fn equal_or_null(kind: Kind, first: Option<&Cell>, last: Option<&Cell>) -> bool
    ensures { result ≡ are_equal kind (or_null (option_copied first.entry)) (or_null (option_copied last.entry)) }
{
    match last {
        Some(last) => has_kind(kind, first) && meets_or_null(Comparison::Equal, first, last),
        None => false,
    }
}
