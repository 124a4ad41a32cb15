//! Why a statement is refused. Of several causes the first in the order of `SqlRefusal` is told.

ghost use Rattle.std.specs.Prelude.{◌≡◌, min};
ghost use Rattle.resin_rows.specs.Refusals.{rank, earlier, name_cause, names_cause, once_cause, value_cause, values_cause, count_cause, rows_cause};

use crate::cells::fits;
use crate::columns::{Place, found};
use crate::names::is_repeated;
use crate::values::split;
use resin_base::{Bytes, Column, StoredCell};
use resin_items::Items;
use resin_sql::{Literal, SqlRefusal};

fn rank(refusal: SqlRefusal) -> u8
    ensures { result ≡ rank refusal }
{
    match refusal {
        SqlRefusal::TableExists => 0,
        SqlRefusal::SameTable => 1,
        SqlRefusal::NoTable => 2,
        SqlRefusal::NoColumn => 3,
        SqlRefusal::DuplicateColumn => 4,
        SqlRefusal::WrongCount => 5,
        SqlRefusal::WrongKind => 6,
        SqlRefusal::Full => 7,
    }
}

/// The earlier of two causes, where there are any.
pub fn earlier(first: Option<SqlRefusal>, second: Option<SqlRefusal>) -> Option<SqlRefusal>
    ensures { result ≡ earlier first second }
{
    match (first, second) {
        (None, _) => second,
        (Some(_), None) => first,
        (Some(x), Some(y)) => { if rank(x) <= rank(y) { first } else { second } }
    }
}

/// A column that is named where any may be.
pub fn name_cause(columns: &[Column], name: &[u8]) -> Option<SqlRefusal>
    ensures { result ≡ name_cause columns.now name.now }
{
    if found(columns, name).is_none() {
        Some(SqlRefusal::NoColumn)
    } else {
        None
    }
}

/// Columns that are named where any may be, and twice.
pub fn names_cause(columns: &[Column], names: &[Bytes]) -> Option<SqlRefusal>
    ensures { result ≡ names_cause columns.now names.now }
{
    for name in names {
        if found(columns, name.as_slice()).is_none() {
            return Some(SqlRefusal::NoColumn);
        }
    }
    None
}

/// Columns that are named where none may be named twice. Names that all are columns of the table are soon repeated, however many there are.
pub fn once_cause(columns: &[Column], names: &[Bytes]) -> Option<SqlRefusal>
    ensures { result ≡ once_cause columns.now names.now }
{
    match names_cause(columns, names) {
        Some(cause) => Some(cause),
        None => {
            if is_repeated(names) {
                Some(SqlRefusal::DuplicateColumn)
            } else {
                None
            }
        }
    }
}

/// A value for a column; that a column isn't there is told where it is named.
pub(crate) fn value_cause(place: Option<Place>, value: &StoredCell) -> Option<SqlRefusal>
    ensures { result ≡ value_cause place value.now }
{
    match place {
        Some(place) if !fits(place.kind, &value.value) => Some(SqlRefusal::WrongKind),
        _ => None,
    }
}

fn least(a: usize, b: usize) -> usize
    ensures { result ≡ min a b }
{
    if a <= b { a } else { b }
}

/// Values for columns, one for each.
pub fn values_cause(
    columns: &[Column],
    names: &[Bytes],
    values: &[StoredCell],
) -> Option<SqlRefusal>
    ensures { result ≡ values_cause columns.now names.now values.now }
{
    let mut cause = None;
    for i in 0..least(names.len(), values.len()) {
        cause = earlier(
            cause,
            value_cause(found(columns, names[i].as_slice()), &values[i]),
        );
    }
    cause
}

/// A row with this number of cells, for so many columns.
fn count_cause(cells: usize, columns: usize) -> Option<SqlRefusal>
    ensures { result ≡ count_cause cells columns }
{
    if cells == columns {
        None
    } else {
        Some(SqlRefusal::WrongCount)
    }
}

/// Rows of literals, whose values follow one another.
pub fn rows_cause(
    columns: &[Column],
    names: &[Bytes],
    rows: &[Items<Literal>],
    values: &[StoredCell],
) -> Option<SqlRefusal>
    ensures { result ≡ rows_cause columns.now names.now rows.now values.now }
{
    let mut cause = None;
    let mut left = values;
    for row in rows {
        let (own, others) = split(left, row.len());
        let count = count_cause(row.len(), names.len());
        cause = earlier(cause, earlier(count, values_cause(columns, names, own)));
        left = others;
    }
    cause
}
