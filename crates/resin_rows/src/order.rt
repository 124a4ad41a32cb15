//! Which rows are answered, in which order, and how many.

ghost use Rattle.std.specs.Prelude.{◌≡◌, ◌++◌, ◌∷◌, [], map, filter, IfOk, OnOk, if◌then◌else◌};
ghost use Rattle.resin_rows.specs.Conditions.{where_holds};
ghost use Rattle.resin_rows.specs.Rows.{cells_of, row_at, row_order, comes_before, in_order, ordered, limited};

use crate::cells::{order_or_null, value_at};
use crate::columns::{Place, found};
use crate::conditions::where_holds;
use resin_base::{Cell, Column, Row, StoredCell};
use resin_sql::{Condition, Order};
use std::alloc::{AllocError, Global};
use std::cmp::Ordering;

/// The cells of the row at a place, none behind the end.
pub fn cells_at(rows: &[Row], at: usize) -> &[Cell]
    ensures { result.now ≡ row_at (cells_of rows.now) at }
{
    match rows.get(at) {
        Some(row) => row.cells.as_slice(),
        None => &[],
    }
}

/// Puts a place last, if it is to be.
fn push_if(places: &mut Vec<usize>, place: usize, is: bool) -> Result<(), AllocError>
    ensures { OnOk result (places.new.items ≡ (if is then places.old.items ++ place ∷ [] else places.old.items)) }
{
    if is {
        places.push(place)?;
    }
    Ok(())
}

/// The places of the rows that meet a condition.
pub fn chosen_places(
    alloc: Global,
    columns: &[Column],
    condition: &Option<Condition>,
    values: &[StoredCell],
    rows: &[Row],
) -> Result<Vec<usize>, AllocError>
    ensures { IfOk result (λ places.
        map (row_at (cells_of rows.now)) places.items ≡ filter (where_holds columns.now condition.now values.now) (cells_of rows.now)) }
{
    let mut places = Vec::new(alloc);
    for i in 0..rows.len() {
        let is = where_holds(columns, condition, values, rows[i].cells.as_slice());
        push_if(&mut places, i, is)?;
    }
    Ok(places)
}

fn row_order(place: Place, descending: bool, a: &[Cell], b: &[Cell]) -> Ordering
    ensures { result ≡ row_order place descending a.now b.now }
{
    let first = value_at(a, place.at);
    let second = value_at(b, place.at);
    if descending {
        order_or_null(place.kind, second, first)
    } else {
        order_or_null(place.kind, first, second)
    }
}

/// Puts places of rows in the order of a column; ties stay as they are.
fn sort_places(
    places: &mut Vec<usize>,
    rows: &[Row],
    place: Place,
    descending: bool,
) -> Result<(), AllocError>
    ensures { OnOk result (map (row_at (cells_of rows.now)) places.new.items
        ≡ in_order (comes_before place descending) (map (row_at (cells_of rows.now)) places.old.items)) }
{
    places.sort_by(|a, b| row_order(place, descending, cells_at(rows, *a), cells_at(rows, *b)))?;
    Ok(())
}

/// Puts places of rows in the order of an ORDER BY that may be left out.
pub fn order_places(
    places: &mut Vec<usize>,
    columns: &[Column],
    rows: &[Row],
    order: &Option<Order>,
) -> Result<(), AllocError>
    ensures { OnOk result (map (row_at (cells_of rows.now)) places.new.items
        ≡ ordered columns.now order.now (map (row_at (cells_of rows.now)) places.old.items)) }
{
    match order {
        None => Ok(()),
        Some(order) => match found(columns, order.column.as_slice()) {
            None => Ok(()),
            Some(place) => sort_places(places, rows, place, order.descending),
        },
    }
}

/// Keeps as many places as a LIMIT allows that may be left out.
pub fn limit_places(places: &mut Vec<usize>, limit: Option<u64>)
    ensures { places.new.items ≡ limited limit places.old.items }
{
    match limit {
        Some(limit) if limit < places.len() as u64 => places.truncate(limit as usize),
        _ => {}
    }
}
