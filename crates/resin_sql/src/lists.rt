//! Columns, names, literals and rows with commas between them.

ghost use Rattle.std.specs.Prelude.{◌≡◌, true, []};
ghost use Rattle.resin_sql_words.specs.Forms.{under};
ghost use Rattle.resin_sql.specs.Statements as spec;
ghost use Rattle.resin_form.specs.Reads.{Reads};

use resin_base::{Column, Columns, Kind, Names};
use resin_form::Fault;
use resin_items::Items;
use resin_scan::bytes::lower;
use resin_sql_words::{ByteCursor, Literal, gap, name_from, named, read_literal, sign, word};
use std::alloc::Global;

/// Whether a byte goes on with a list.
pub fn is_comma(byte: u8) -> bool
    ensures { result ≡ spec.is_comma byte }
{
    byte == b','
}

/// Whether a byte goes on with a list of so many columns of a table.
fn is_next_column(count: usize, byte: u8) -> bool
    ensures { result ≡ spec.is_next_column count byte }
{
    byte == b',' && count < 64
}

/// INTEGER or TEXT, where a word may begin.
#[tactic(auto, unfolding(crate::specs::Statements::kind))]
fn kind(bytes: &mut ByteCursor<'_>, free: bool) -> Result<Kind, Fault>
    ensures { Reads (under (spec.kind free) bytes.old) result bytes.new }
{
    match bytes.peek() {
        Some(next) if lower(next.byte) == b'i' && free => {
            bytes.skip(next);
            word(bytes, b"nteger")?;
            Ok(Kind::Integer)
        }
        Some(next) if lower(next.byte) == b't' && free => {
            bytes.skip(next);
            word(bytes, b"ext")?;
            Ok(Kind::Text)
        }
        _ => Err(Fault::Syntax),
    }
}

#[tactic(auto, unfolding(crate::specs::Statements::definition))]
fn definition(alloc: Global, bytes: &mut ByteCursor<'_>, done: Columns) -> Result<Columns, Fault>
    ensures { Reads (under (spec.definition done) bytes.old) result bytes.new }
{
    let (name, free) = named(alloc, bytes, true)?;
    let kind = kind(bytes, free)?;
    let mut longer = done;
    longer.push(Column { name, kind })?;
    Ok(longer)
}

#[tactic(auto, unfolding(crate::specs::Statements::one_more_definition))]
fn one_more_definition(
    alloc: Global,
    bytes: &mut ByteCursor<'_>,
    done: Columns,
) -> Result<Columns, Fault>
    ensures { Reads (under (spec.one_more_definition done) bytes.old) result bytes.new }
{
    gap(bytes);
    definition(alloc, bytes, done)
}

fn more_definitions(
    alloc: Global,
    bytes: &mut ByteCursor<'_>,
    first: Columns,
) -> Result<Columns, Fault>
    ensures { Reads (under (spec.more_definitions first) bytes.old) result bytes.new }
{
    let mut done = first;
    'turns: while let Some(next) = bytes.peek() {
        if !is_next_column(done.as_slice().len(), next.byte) {
            break;
        }
        bytes.skip(next);
        done = one_more_definition(alloc, bytes, done)?;
    }
    Ok(done)
}

/// The columns of a table in brackets.
#[tactic(auto, unfolding(crate::specs::Statements::definitions))]
pub fn definitions(alloc: Global, bytes: &mut ByteCursor<'_>) -> Result<Columns, Fault>
    ensures { Reads (under spec.definitions bytes.old) result bytes.new }
{
    sign(bytes, b'(')?;
    let first = definition(alloc, bytes, Columns::new(alloc))?;
    let columns = more_definitions(alloc, bytes, first)?;
    sign(bytes, b')')?;
    Ok(columns)
}

#[tactic(auto, unfolding(crate::specs::Statements::one_more_name))]
fn one_more_name(
    alloc: Global,
    bytes: &mut ByteCursor<'_>,
    names: Names,
) -> Result<(Names, bool), Fault>
    ensures { Reads (under (spec.one_more_name names) bytes.old) result bytes.new }
{
    gap(bytes);
    let (name, free) = named(alloc, bytes, true)?;
    let mut longer = names;
    longer.push(name)?;
    Ok((longer, free))
}

/// The names that go on behind a comma, and whether a word may follow.
pub fn more_names(
    alloc: Global,
    bytes: &mut ByteCursor<'_>,
    first: Names,
    after: bool,
) -> Result<(Names, bool), Fault>
    ensures { Reads (under (spec.more_names (first, after)) bytes.old) result bytes.new }
{
    let mut names = first;
    let mut free = after;
    'turns: while let Some(next) = bytes.peek() {
        if !is_comma(next.byte) {
            break;
        }
        bytes.skip(next);
        let (longer, ended) = one_more_name(alloc, bytes, names)?;
        names = longer;
        free = ended;
    }
    Ok((names, free))
}

/// Names, of which the first begins with this byte, and whether a word may follow.
#[tactic(auto, unfolding(crate::specs::Statements::names_from))]
pub fn names_from(
    alloc: Global,
    bytes: &mut ByteCursor<'_>,
    byte: u8,
) -> Result<(Names, bool), Fault>
    ensures { Reads (under (spec.names_from byte) bytes.old) result bytes.new }
{
    let (name, free) = name_from(alloc, bytes, byte)?;
    let mut names = Names::new(alloc);
    names.push(name)?;
    more_names(alloc, bytes, names, free)
}

#[tactic(auto, unfolding(crate::specs::Statements::cell))]
fn cell(bytes: &mut ByteCursor<'_>, done: Items<Literal>) -> Result<Items<Literal>, Fault>
    ensures { Reads (under (spec.cell done) bytes.old) result bytes.new }
{
    gap(bytes);
    let (literal, _) = read_literal(bytes)?;
    let mut longer = done;
    longer.push(literal)?;
    Ok(longer)
}

fn more_cells(bytes: &mut ByteCursor<'_>, first: Items<Literal>) -> Result<Items<Literal>, Fault>
    ensures { Reads (under (spec.more_cells first) bytes.old) result bytes.new }
{
    let mut done = first;
    'turns: while let Some(next) = bytes.peek() {
        if !is_comma(next.byte) {
            break;
        }
        bytes.skip(next);
        done = cell(bytes, done)?;
    }
    Ok(done)
}

/// The literals of a row in brackets.
#[tactic(auto, unfolding(crate::specs::Statements::row))]
fn row(
    alloc: Global,
    bytes: &mut ByteCursor<'_>,
    done: Items<Items<Literal>>,
) -> Result<Items<Items<Literal>>, Fault>
    ensures { Reads (under (spec.row done) bytes.old) result bytes.new }
{
    sign(bytes, b'(')?;
    let first = cell(bytes, Items::new(alloc))?;
    let cells = more_cells(bytes, first)?;
    sign(bytes, b')')?;
    let mut longer = done;
    longer.push(cells)?;
    Ok(longer)
}

#[tactic(auto, unfolding(crate::specs::Statements::one_more_row))]
fn one_more_row(
    alloc: Global,
    bytes: &mut ByteCursor<'_>,
    done: Items<Items<Literal>>,
) -> Result<Items<Items<Literal>>, Fault>
    ensures { Reads (under (spec.one_more_row done) bytes.old) result bytes.new }
{
    gap(bytes);
    row(alloc, bytes, done)
}

fn more_rows(
    alloc: Global,
    bytes: &mut ByteCursor<'_>,
    first: Items<Items<Literal>>,
) -> Result<Items<Items<Literal>>, Fault>
    ensures { Reads (under (spec.more_rows first) bytes.old) result bytes.new }
{
    let mut done = first;
    'turns: while let Some(next) = bytes.peek() {
        if !is_comma(next.byte) {
            break;
        }
        bytes.skip(next);
        done = one_more_row(alloc, bytes, done)?;
    }
    Ok(done)
}

/// The rows behind VALUES.
#[tactic(auto, unfolding(crate::specs::Statements::rows))]
pub fn rows(alloc: Global, bytes: &mut ByteCursor<'_>) -> Result<Items<Items<Literal>>, Fault>
    ensures { Reads (under spec.rows bytes.old) result bytes.new }
{
    let first = row(alloc, bytes, Items::new(alloc))?;
    more_rows(alloc, bytes, first)
}
