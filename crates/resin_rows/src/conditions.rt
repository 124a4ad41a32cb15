//! Conditions: which rows meet them, and when their tests are refused.

ghost use Rattle.std.specs.Prelude.{◌≡◌, ◌&&◌, ◌||◌, drop, map};
ghost use Rattle.resin_rows.specs.declared.columns.Place.{Place};
ghost use Rattle.resin_rows.specs.Cells.{meets, meets_null, value_at};
ghost use Rattle.resin_rows.specs.Columns.{found};
ghost use Rattle.resin_rows.specs.Conditions.{front_value, place_meets, test_holds, holds, all_hold, any_holds};
ghost use Rattle.resin_rows.specs.Conditions.{test_cause, condition_cause, parts_cause, where_holds, where_cause};

use crate::cells::{is_null_or_none, meets_or_null};
use crate::columns::found;
use crate::refusals::{earlier, name_cause, value_cause};
use crate::row_cells::RowCells;
use resin_base::{Cell, Column, StoredCell};
use resin_sql::{Comparison, Condition, SqlRefusal, Test};

/// Whether the value of a column in a row of these cells meets a test against the value in front.
fn compares(
    columns: &[Column],
    cells: &RowCells<'_>,
    name: &[u8],
    comparison: Comparison,
    values: &[StoredCell],
) -> bool
    ensures { result ≡ place_meets (λ (p : Place). meets comparison (value_at cells.now p.at) (front_value values.now)) (found columns.now name.now) }
{
    match (found(columns, name), values.first()) {
        (Some(place), Some(value)) => {
            meets_or_null(comparison, cells.value_at(place.at), &value.value)
        },
        _ => false,
    }
}

/// Whether the value of a column in a row of these cells is NULL, or where `negated` is not.
fn tests_null(columns: &[Column], cells: &RowCells<'_>, name: &[u8], negated: bool) -> bool
    ensures { result ≡ place_meets (λ (p : Place). meets_null negated p.kind (value_at cells.now p.at)) (found columns.now name.now) }
{
    match found(columns, name) {
        Some(place) => is_null_or_none(negated, place.kind, cells.value_at(place.at)),
        None => false,
    }
}

/// The values behind the one in front.
fn behind(values: &[StoredCell]) -> &[StoredCell]
    ensures { result.now ≡ drop 1 values.now }
{
    match values.split_first() {
        Some((_, others)) => others,
        None => values,
    }
}

/// Whether a row of these cells meets a test, and the values behind the test's own.
fn test_holds<'v>(
    columns: &[Column],
    cells: &RowCells<'_>,
    test: &Test,
    values: &'v [StoredCell],
) -> (bool, &'v [StoredCell])
    ensures is { result.0 ≡ (test_holds columns.now cells.now test.now values.now).0 }
    ensures left { result.1.now ≡ (test_holds columns.now cells.now test.now values.now).1 }
{
    match test {
        Test::Compare(name, comparison, _) => (
            compares(columns, cells, name.as_slice(), *comparison, values),
            behind(values),
        ),
        Test::Null(name, negated) => (
            tests_null(columns, cells, name.as_slice(), *negated),
            values,
        ),
    }
}

/// Whether a row of these cells meets a condition, and the values behind the condition's own.
#[cycle(holds)]
fn holds<'v>(
    columns: &[Column],
    cells: &RowCells<'_>,
    condition: &Condition,
    values: &'v [StoredCell],
) -> (bool, &'v [StoredCell])
    ensures is { result.0 ≡ (holds columns.now cells.now condition.now values.now).0 }
    ensures left { result.1.now ≡ (holds columns.now cells.now condition.now values.now).1 }
{
    match condition {
        Condition::Test(test) => test_holds(columns, cells, test, values),
        Condition::All(parts) => all_hold(columns, cells, parts.as_slice(), values),
        Condition::Any(parts) => any_holds(columns, cells, parts.as_slice(), values),
    }
}

#[cycle(holds)]
fn all_hold<'v>(
    columns: &[Column],
    cells: &RowCells<'_>,
    parts: &[Condition],
    values: &'v [StoredCell],
) -> (bool, &'v [StoredCell])
    ensures is { result.0 ≡ (all_hold (map (holds columns.now cells.now) parts.now) values.now).0 }
    ensures left { result.1.now ≡ (all_hold (map (holds columns.now cells.now) parts.now) values.now).1 }
{
    let mut all = true;
    let mut left = values;
    for part in parts {
        let (one, others) = holds(columns, cells, part, left);
        all = all && one;
        left = others;
    }
    (all, left)
}

#[cycle(holds)]
fn any_holds<'v>(
    columns: &[Column],
    cells: &RowCells<'_>,
    parts: &[Condition],
    values: &'v [StoredCell],
) -> (bool, &'v [StoredCell])
    ensures is { result.0 ≡ (any_holds (map (holds columns.now cells.now) parts.now) values.now).0 }
    ensures left { result.1.now ≡ (any_holds (map (holds columns.now cells.now) parts.now) values.now).1 }
{
    let mut any = false;
    let mut left = values;
    for part in parts {
        let (one, others) = holds(columns, cells, part, left);
        any = any || one;
        left = others;
    }
    (any, left)
}

/// Why a test is refused, and the values behind the test's own.
fn test_cause<'v>(
    columns: &[Column],
    test: &Test,
    values: &'v [StoredCell],
) -> (Option<SqlRefusal>, &'v [StoredCell])
    ensures is { result.0 ≡ (test_cause columns.now test.now values.now).0 }
    ensures left { result.1.now ≡ (test_cause columns.now test.now values.now).1 }
{
    match test {
        Test::Compare(name, _, _) => {
            let named = name_cause(columns, name.as_slice());
            match values.split_first() {
                Some((value, others)) => {
                    let place = found(columns, name.as_slice());
                    (earlier(named, value_cause(place, value)), others)
                }
                None => (named, values),
            }
        }
        Test::Null(name, _) => (name_cause(columns, name.as_slice()), values),
    }
}

/// Why a condition is refused, and the values behind the condition's own.
#[cycle(causes)]
fn condition_cause<'v>(
    columns: &[Column],
    condition: &Condition,
    values: &'v [StoredCell],
) -> (Option<SqlRefusal>, &'v [StoredCell])
    ensures is { result.0 ≡ (condition_cause columns.now condition.now values.now).0 }
    ensures left { result.1.now ≡ (condition_cause columns.now condition.now values.now).1 }
{
    match condition {
        Condition::Test(test) => test_cause(columns, test, values),
        Condition::All(parts) => parts_cause(columns, parts.as_slice(), values),
        Condition::Any(parts) => parts_cause(columns, parts.as_slice(), values),
    }
}

#[cycle(causes)]
fn parts_cause<'v>(
    columns: &[Column],
    parts: &[Condition],
    values: &'v [StoredCell],
) -> (Option<SqlRefusal>, &'v [StoredCell])
    ensures is { result.0 ≡ (parts_cause (map (condition_cause columns.now) parts.now) values.now).0 }
    ensures left { result.1.now ≡ (parts_cause (map (condition_cause columns.now) parts.now) values.now).1 }
{
    let mut cause = None;
    let mut left = values;
    for part in parts {
        let (one, others) = condition_cause(columns, part, left);
        cause = earlier(cause, one);
        left = others;
    }
    (cause, left)
}

/// Whether a row of these cells meets a WHERE that may be left out.
pub fn where_holds(
    columns: &[Column],
    condition: &Option<Condition>,
    values: &[StoredCell],
    cells: &[Cell],
) -> bool
    ensures { result ≡ where_holds columns.now condition.now values.now cells.now }
{
    where_holds_in(columns, condition, values, &RowCells::one(cells))
}

/// The same of cells that may stand in two rows.
pub fn where_holds_in(
    columns: &[Column],
    condition: &Option<Condition>,
    values: &[StoredCell],
    cells: &RowCells<'_>,
) -> bool
    ensures { result ≡ where_holds columns.now condition.now values.now cells.now }
{
    match condition {
        None => true,
        Some(condition) => holds(columns, cells, condition, values).0,
    }
}

/// Why a WHERE is refused that may be left out.
pub fn where_cause(
    columns: &[Column],
    condition: &Option<Condition>,
    values: &[StoredCell],
) -> Option<SqlRefusal>
    ensures { result ≡ where_cause columns.now condition.now values.now }
{
    match condition {
        None => None,
        Some(condition) => condition_cause(columns, condition, values).0,
    }
}
