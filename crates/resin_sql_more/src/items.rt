//! The items of a total: their names, why they are refused, and their cells.

ghost use Rattle.std.specs.Prelude.{◌≡◌, ◌++◌, ◌∷◌, [], Some, map, not, IfOk, OnOk, if◌then◌else◌};
ghost use Rattle.resin_rows.specs.Columns.{is_among};
ghost use Rattle.resin_rows.specs.Rows.{cells_of, row_at};
ghost use Rattle.resin_sql_more.specs.Totals as spec;

use resin_base::{Bytes, Cell, Column, Names, Row, Stored, StoredCell};
use resin_joint::TotalItem;
use resin_plan::parts::answered_at;
use resin_rows::{Place, RowCells, cells_at, earlier, found, is_among, is_text, name_cause};
use resin_sql::SqlRefusal;
use std::alloc::{AllocError, Global};

/// `FUNCTION(column)`
fn called(alloc: Global, function: &[u8], column: &[u8]) -> Result<Bytes, AllocError>
    ensures { IfOk result (λ name. name ≡ spec.called function.now column.now) }
{
    let mut name = Bytes::from_slice(alloc, function)?;
    name.push(b'(')?;
    name.push_slice(column)?;
    name.push(b')')?;
    Ok(name)
}

/// The name of an item in the answer: its function in upper case and without blanks.
pub fn item_name(alloc: Global, item: &TotalItem) -> Result<Bytes, AllocError>
    ensures { IfOk result (λ name. name ≡ spec.item_name item.now) }
{
    match item {
        TotalItem::Count => Bytes::from_slice(alloc, b"COUNT(*)"),
        TotalItem::Sum(column) => called(alloc, b"SUM", column.as_slice()),
        TotalItem::Min(column) => called(alloc, b"MIN", column.as_slice()),
        TotalItem::Max(column) => called(alloc, b"MAX", column.as_slice()),
        TotalItem::GroupConcat(column) => called(alloc, b"GROUP_CONCAT", column.as_slice()),
    }
}

/// SUM of a column of texts.
fn sum_cause(place: Option<Place>) -> Option<SqlRefusal>
    ensures { result ≡ spec.sum_cause place }
{
    match place {
        Some(place) if is_text(place.kind) => Some(SqlRefusal::WrongKind),
        _ => None,
    }
}

fn item_cause(columns: &[Column], item: &TotalItem) -> Option<SqlRefusal>
    ensures { result ≡ spec.item_cause columns.now item.now }
{
    match item {
        TotalItem::Count => None,
        TotalItem::Sum(column) => earlier(
            name_cause(columns, column.as_slice()),
            sum_cause(found(columns, column.as_slice())),
        ),
        TotalItem::Min(column) => name_cause(columns, column.as_slice()),
        TotalItem::Max(column) => name_cause(columns, column.as_slice()),
        TotalItem::GroupConcat(column) => name_cause(columns, column.as_slice()),
    }
}

/// Why the items are refused.
pub(crate) fn items_cause(columns: &[Column], items: &[TotalItem]) -> Option<SqlRefusal>
    ensures { result ≡ spec.items_cause columns.now items.now }
{
    let mut cause = None;
    for item in items {
        cause = earlier(cause, item_cause(columns, item));
    }
    cause
}

/// Whether a cell is NULL with the empty shadow.
pub fn is_null(cell: &StoredCell) -> bool
    ensures { result ≡ spec.is_null cell.now }
{
    match (&cell.value, &cell.shadow) {
        (Cell::Null, Cell::Text(shadow)) => shadow.as_slice().is_empty(),
        _ => false,
    }
}

/// A copy of an item.
fn copied(alloc: Global, item: &TotalItem) -> Result<TotalItem, AllocError>
    ensures { IfOk result (λ copy. copy ≡ item.now) }
{
    match item {
        TotalItem::Count => Ok(TotalItem::Count),
        TotalItem::Sum(column) => Ok(TotalItem::Sum(Bytes::from_slice(alloc, column.as_slice())?)),
        TotalItem::Min(column) => Ok(TotalItem::Min(Bytes::from_slice(alloc, column.as_slice())?)),
        TotalItem::Max(column) => Ok(TotalItem::Max(Bytes::from_slice(alloc, column.as_slice())?)),
        TotalItem::GroupConcat(column) => {
            Ok(TotalItem::GroupConcat(Bytes::from_slice(alloc, column.as_slice())?))
        }
    }
}

/// Puts an item last, if none before it has its name.
fn push_first(
    alloc: Global,
    names: &mut Names,
    first: &mut Vec<TotalItem>,
    item: &TotalItem,
) -> Result<(), AllocError>
    ensures names { OnOk result (names.new
        ≡ (if is_among (spec.item_name item.now) names.old then names.old else names.old ++ spec.item_name item.now ∷ [])) }
    ensures items { OnOk result (first.new.items
        ≡ (if is_among (spec.item_name item.now) names.old then first.old.items else first.old.items ++ item.now ∷ [])) }
{
    let name = item_name(alloc, item)?;
    if !is_among(name.as_slice(), names.as_slice()) {
        names.push(name)?;
        first.push(copied(alloc, item)?)?;
    }
    Ok(())
}

/// The items of a total, each once, in the order in which they are first named. An answer has a row of cells for each.
pub fn first_items(alloc: Global, items: &[TotalItem]) -> Result<Vec<TotalItem>, AllocError>
    ensures { IfOk result (λ first. first.items ≡ spec.first_items items.now) }
{
    let mut names = Names::new(alloc);
    let mut first = Vec::new(alloc);
    for item in items {
        push_first(alloc, &mut names, &mut first, item)?;
    }
    Ok(first)
}

/// Puts a cell last, if it isn't NULL.
fn push_cell(row: &mut Stored, cell: StoredCell) -> Result<(), AllocError>
    ensures { OnOk result (row.new ≡ (if not (spec.is_null cell) then row.old ++ cell ∷ [] else row.old)) }
{
    if !is_null(&cell) {
        row.push(cell)?;
    }
    Ok(())
}

/// The cells of a column in the rows at these places, without those that are NULL.
fn cells_of_column(
    alloc: Global,
    columns: &[Column],
    column: &Bytes,
    rows: &[Row],
    places: &[usize],
) -> Result<Stored, AllocError>
    ensures { IfOk result (λ cells. cells ≡ spec.column_cells columns.now (map (row_at (cells_of rows.now)) places.now) (Some column.now)) }
{
    let mut cells = Stored::new(alloc);
    let place = found(columns, column.as_slice());
    for at in places {
        let cell = answered_at(alloc, &RowCells::one(cells_at(rows, *at)), place)?;
        push_cell(&mut cells, cell)?;
    }
    Ok(cells)
}

/// The cells of an item in the rows at these places.
pub(crate) fn item_cells(
    alloc: Global,
    columns: &[Column],
    item: &TotalItem,
    rows: &[Row],
    places: &[usize],
) -> Result<Stored, AllocError>
    ensures { IfOk result (λ cells. cells ≡ spec.column_cells columns.now (map (row_at (cells_of rows.now)) places.now) (spec.item_column item.now)) }
{
    match item {
        TotalItem::Count => Ok(Stored::new(alloc)),
        TotalItem::Sum(column) => cells_of_column(alloc, columns, column, rows, places),
        TotalItem::Min(column) => cells_of_column(alloc, columns, column, rows, places),
        TotalItem::Max(column) => cells_of_column(alloc, columns, column, rows, places),
        TotalItem::GroupConcat(column) => cells_of_column(alloc, columns, column, rows, places),
    }
}
