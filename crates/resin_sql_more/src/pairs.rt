//! Pairs of rows: which are chosen, and what of them is answered.

ghost use Rattle.std.specs.Prelude.{◌≡◌, ◌++◌, ◌∷◌, [], map, filter, IfOk, OnOk, if◌then◌else◌};
ghost use Rattle.resin_rows.specs.Cells.{beside};
ghost use Rattle.resin_rows.specs.Rows.{cells_of, row_at, limited, answered_row};
ghost use Rattle.resin_sql_more.specs.Joins as spec;

use resin_base::{Bytes, Column, Row, StoredCell, StoredRows};
use resin_joint::JoinStmt;
use resin_plan::parts::answered_row;
use resin_rows::{Place, RowCells, cells_at, equal_or_null, found, where_holds_in};
use std::alloc::{AllocError, Global};

/// Whether the cells of ON are equal in a pair.
fn equal_at(cells: &RowCells<'_>, first: Option<Place>, last: Option<Place>) -> bool
    ensures { result ≡ spec.equal_at cells.now first last }
{
    match (first, last) {
        (Some(first), Some(last)) => {
            equal_or_null(
                first.kind,
                cells.value_at(first.at),
                cells.value_at(last.at),
            )
        }
        _ => false,
    }
}

/// Whether a pair is chosen.
fn pair_holds(
    statement: &JoinStmt,
    values: &[StoredCell],
    columns: &[Column],
    cells: &RowCells<'_>,
) -> bool
    ensures { result ≡ spec.pair_holds statement.now values.now columns.now cells.now }
{
    let first = found(columns, statement.on.0.as_slice());
    let last = found(columns, statement.on.1.as_slice());
    equal_at(cells, first, last) && where_holds_in(columns, &statement.condition, values, cells)
}

/// Puts a pair last, if it is to be.
fn push_if(
    pairs: &mut Vec<(usize, usize)>,
    pair: (usize, usize),
    is: bool,
) -> Result<(), AllocError>
    ensures { OnOk result (pairs.new.items ≡ (if is then pairs.old.items ++ pair ∷ [] else pairs.old.items)) }
{
    if is {
        pairs.push(pair)?;
    }
    Ok(())
}

/// Puts the chosen pairs of one row of the first table last, which has so many columns.
fn push_pairs(
    pairs: &mut Vec<(usize, usize)>,
    statement: &JoinStmt,
    values: &[StoredCell],
    columns: &[Column],
    width: usize,
    firsts: &[Row],
    at: usize,
    lasts: &[Row],
) -> Result<(), AllocError>
    ensures { OnOk result (map (spec.pair_at width (cells_of firsts.now) (cells_of lasts.now)) pairs.new.items
        ≡ map (spec.pair_at width (cells_of firsts.now) (cells_of lasts.now)) pairs.old.items
        ++ filter (spec.pair_holds statement.now values.now columns.now)
        (map (beside width (row_at (cells_of firsts.now) at)) (cells_of lasts.now))) }
{
    for i in 0..lasts.len() {
        let cells = RowCells::beside(width, cells_at(firsts, at), cells_at(lasts, i));
        let is = pair_holds(statement, values, columns, &cells);
        push_if(pairs, (at, i), is)?;
    }
    Ok(())
}

/// The chosen pairs, by the places of their rows. `columns` are those of both tables, of which the first has `width`.
fn chosen_places(
    alloc: Global,
    statement: &JoinStmt,
    values: &[StoredCell],
    columns: &[Column],
    width: usize,
    firsts: &[Row],
    lasts: &[Row],
) -> Result<Vec<(usize, usize)>, AllocError>
    ensures { IfOk result (λ pairs. map (spec.pair_at width (cells_of firsts.now) (cells_of lasts.now)) pairs.items
        ≡ filter (spec.pair_holds statement.now values.now columns.now) (spec.pairs width (cells_of firsts.now) (cells_of lasts.now))) }
{
    let mut pairs = Vec::new(alloc);
    for at in 0..firsts.len() {
        push_pairs(
            &mut pairs, statement, values, columns, width, firsts, at, lasts,
        )?;
    }
    Ok(pairs)
}

/// Keeps as many pairs as a LIMIT allows that may be left out.
fn limit_pairs(pairs: &mut Vec<(usize, usize)>, limit: Option<u64>)
    ensures { pairs.new.items ≡ limited limit pairs.old.items }
{
    match limit {
        Some(limit) if limit < pairs.len() as u64 => pairs.truncate(limit as usize),
        _ => {}
    }
}

/// The chosen pairs that a LIMIT leaves, by the places of their rows.
pub(crate) fn limited_places(
    alloc: Global,
    statement: &JoinStmt,
    values: &[StoredCell],
    columns: &[Column],
    width: usize,
    firsts: &[Row],
    lasts: &[Row],
) -> Result<Vec<(usize, usize)>, AllocError>
    ensures { IfOk result (λ pairs. map (spec.pair_at width (cells_of firsts.now) (cells_of lasts.now)) pairs.items
        ≡ limited statement.now.limit
        (filter (spec.pair_holds statement.now values.now columns.now) (spec.pairs width (cells_of firsts.now) (cells_of lasts.now)))) }
{
    let mut pairs = chosen_places(alloc, statement, values, columns, width, firsts, lasts)?;
    limit_pairs(&mut pairs, statement.limit);
    Ok(pairs)
}

/// The pairs at these places as they are answered.
pub(crate) fn answered_pairs(
    alloc: Global,
    columns: &[Column],
    names: &[Bytes],
    width: usize,
    firsts: &[Row],
    lasts: &[Row],
    pairs: &[(usize, usize)],
) -> Result<StoredRows, AllocError>
    ensures { IfOk result (λ rows. rows
        ≡ map (λ p. answered_row columns.now names.now (spec.pair_at width (cells_of firsts.now) (cells_of lasts.now) p)) pairs.now) }
{
    let mut rows = StoredRows::new(alloc);
    for pair in pairs {
        let cells = RowCells::beside(width, cells_at(firsts, pair.0), cells_at(lasts, pair.1));
        let row = answered_row(alloc, columns, names, &cells)?;
        rows.push(row)?;
    }
    Ok(rows)
}
