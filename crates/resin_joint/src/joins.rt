//! Joins.

ghost use Rattle.std.specs.Prelude.{◌≡◌};
ghost use Rattle.resin_sql_words.specs.Forms.{under, behind};
ghost use Rattle.resin_joint.specs.Joins as spec;
ghost use Rattle.resin_form.specs.Reads.{Reads};

use crate::tree::JoinStmt;
use resin_base::Names;
use resin_bytes::Bytes;
use resin_form::Fault;
use resin_scan::bytes::is_letter;
use resin_sql::parts::{Naming, chosen, column_of, is_comma, limit, source, with_table};
use resin_sql_words::{ByteCursor, gap, keyword, name, named, sign};
use std::alloc::Global;

/// The table of a column that is named with it: `t` of `t.c`.
pub fn table_of(name: &[u8]) -> &[u8]
    ensures { result.now ≡ spec.table_of name.now }
{
    match name.iter().position(|b| *b == b'.') {
        Some(end) => &name[..end],
        None => name,
    }
}

/// A column with its table, where a word may begin.
#[tactic(auto, unfolding(crate::specs::Joins::place))]
fn place(alloc: Global, bytes: &mut ByteCursor<'_>, free: bool) -> Result<(Bytes, bool), Fault>
    ensures { Reads (under (spec.place free) bytes.old) result bytes.new }
{
    match bytes.peek() {
        Some(next) if is_letter(next.byte) && free => {
            bytes.skip(next);
            with_table(alloc, bytes, next.byte)
        }
        _ => Err(Fault::Syntax),
    }
}

#[tactic(auto, unfolding(crate::specs::Joins::one_more_place))]
fn one_more_place(
    alloc: Global,
    bytes: &mut ByteCursor<'_>,
    names: Names,
) -> Result<(Names, bool), Fault>
    ensures { Reads (under (spec.one_more_place names) bytes.old) result bytes.new }
{
    gap(bytes);
    let (name, free) = place(alloc, bytes, true)?;
    let mut longer = names;
    longer.push(name)?;
    Ok((longer, free))
}

fn more_places(
    alloc: Global,
    bytes: &mut ByteCursor<'_>,
    first: Names,
    after: bool,
) -> Result<(Names, bool), Fault>
    ensures { Reads (under (spec.more_places (first, after)) bytes.old) result bytes.new }
{
    let mut names = first;
    let mut free = after;
    'turns: while let Some(next) = bytes.peek() {
        if !is_comma(next.byte) {
            break;
        }
        bytes.skip(next);
        let (longer, ended) = one_more_place(alloc, bytes, names)?;
        names = longer;
        free = ended;
    }
    Ok((names, free))
}

/// The columns, behind the table of the first and its `.`, and whether a word may follow.
#[tactic(auto, unfolding(crate::specs::Joins::places_from))]
fn places_from(
    alloc: Global,
    bytes: &mut ByteCursor<'_>,
    table: Bytes,
) -> Result<(Names, bool), Fault>
    ensures { Reads (under (spec.places_from table) bytes.old) result bytes.new }
{
    let (name, free) = column_of(alloc, bytes, table)?;
    let mut names = Names::new(alloc);
    names.push(name)?;
    more_places(alloc, bytes, names, free)
}

/// Whether a second column of a table is on the side of the first in a join.
fn is_one_sided(table: &Bytes, joined: &Bytes, first: &Bytes, second: &Bytes) -> bool
    ensures { result ≡ spec.is_one_sided table.now joined.now first.now second.now }
{
    let side = table_of(first.as_slice());
    side == second.as_slice()
        && (side == table.as_slice() || side == joined.as_slice())
        && table.as_slice() != joined.as_slice()
}

/// Behind the `.` of the second column of ON.
fn other_side(
    alloc: Global,
    bytes: &mut ByteCursor<'_>,
    table: &Bytes,
    joined: &Bytes,
    first: &Bytes,
    second: Bytes,
) -> Result<(Bytes, bool), Fault>
    ensures { Reads (behind (spec.other_side table.now joined.now first.now second) bytes.old) result bytes.new }
{
    if is_one_sided(table, joined, first, &second) {
        return Err(Fault::TooDeep);
    }
    column_of(alloc, bytes, second)
}

/// The second column of ON, from its first byte on.
#[tactic(auto, unfolding(crate::specs::Joins::other_from))]
fn other_from(
    alloc: Global,
    bytes: &mut ByteCursor<'_>,
    table: &Bytes,
    joined: &Bytes,
    first: &Bytes,
    byte: u8,
) -> Result<(Bytes, bool), Fault>
    ensures { Reads (under (spec.other_from table.now joined.now first.now byte) bytes.old) result bytes.new }
{
    let second = name(alloc, bytes, byte)?;
    match bytes.peek() {
        Some(next) if next.byte == b'.' => {
            bytes.skip(next);
            other_side(alloc, bytes, table, joined, first, second)
        }
        _ => Err(Fault::Syntax),
    }
}

#[tactic(auto, unfolding(crate::specs::Joins::other_place))]
fn other_place(
    alloc: Global,
    bytes: &mut ByteCursor<'_>,
    table: &Bytes,
    joined: &Bytes,
    first: &Bytes,
) -> Result<(Bytes, bool), Fault>
    ensures { Reads (under (spec.other_place table.now joined.now first.now) bytes.old) result bytes.new }
{
    match bytes.peek() {
        Some(next) if is_letter(next.byte) => {
            bytes.skip(next);
            other_from(alloc, bytes, table, joined, first, next.byte)
        }
        _ => Err(Fault::Syntax),
    }
}

/// The two columns behind ON.
#[tactic(auto, unfolding(crate::specs::Joins::equated))]
fn equated(
    alloc: Global,
    bytes: &mut ByteCursor<'_>,
    table: &Bytes,
    joined: &Bytes,
    free: bool,
) -> Result<((Bytes, Bytes), bool), Fault>
    ensures { Reads (under (spec.equated table.now joined.now free) bytes.old) result bytes.new }
{
    let (first, _) = place(alloc, bytes, free)?;
    sign(bytes, b'=')?;
    let (second, after) = other_place(alloc, bytes, table, joined, &first)?;
    Ok(((first, second), after))
}

/// JOIN, the other table and ON, behind the first table.
#[tactic(auto, unfolding(crate::specs::Joins::other_table))]
fn other_table(
    alloc: Global,
    bytes: &mut ByteCursor<'_>,
    table: &Bytes,
    free: bool,
) -> Result<(Bytes, ((Bytes, Bytes), bool)), Fault>
    ensures { Reads (under (spec.other_table (table.now, free)) bytes.old) result bytes.new }
{
    let free = keyword(bytes, free, b'j', b"oin")?;
    let (joined, free) = named(alloc, bytes, free)?;
    let free = keyword(bytes, free, b'o', b"n")?;
    let on = equated(alloc, bytes, table, &joined, free)?;
    Ok((joined, on))
}

/// A join behind its columns.
#[tactic(auto, unfolding(crate::specs::Joins::join_of))]
fn join_of(
    alloc: Global,
    bytes: &mut ByteCursor<'_>,
    columns: Names,
    free: bool,
) -> Result<JoinStmt, Fault>
    ensures { Reads (under (spec.join_of (columns, free)) bytes.old) result bytes.new }
{
    let (table, free) = source(alloc, bytes, free)?;
    let (joined, equated) = other_table(alloc, bytes, &table, free)?;
    let (on, free) = equated;
    let (condition, behind) = chosen(alloc, bytes, Naming::WithTable, false, free)?;
    let limit = limit(bytes, behind.0)?;
    Ok(JoinStmt {
        columns,
        table,
        joined,
        on,
        condition,
        limit,
    })
}

/// A join, behind the table of its first column and the `.`.
#[tactic(auto, unfolding(crate::specs::Joins::join))]
pub fn join(alloc: Global, bytes: &mut ByteCursor<'_>, table: Bytes) -> Result<JoinStmt, Fault>
    ensures { Reads (under (spec.join table) bytes.old) result bytes.new }
{
    let (columns, free) = places_from(alloc, bytes, table)?;
    join_of(alloc, bytes, columns, free)
}
