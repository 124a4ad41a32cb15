//! Statements: a SELECT is a plain one, a join or a total by its first item.

ghost use Rattle.std.specs.Prelude.{◌≡◌};
ghost use Rattle.resin_sql_words.specs.Forms.{under};
ghost use Rattle.resin_joint.specs.Joint as spec;
ghost use Rattle.resin_form.specs.Reads.{Reads};

use crate::joins::join;
use crate::totals::{function_of, total};
use crate::tree::{Function, MoreStmt};
use resin_base::Names;
use resin_bytes::Bytes;
use resin_form::Fault;
use resin_scan::bytes::{is_letter, lower};
use resin_sql::parts::{
    Naming, begins_statement, begun_by, chosen, ending, limit, more_names, ordering, source,
};
use resin_sql::{Select, Stmt};
use resin_sql_words::{ByteCursor, gap, name, word};
use std::alloc::Global;

/// A plain SELECT behind its columns.
#[tactic(auto, unfolding(crate::specs::Joint::plain_of))]
fn plain_of(
    alloc: Global,
    bytes: &mut ByteCursor<'_>,
    columns: Option<Names>,
    free: bool,
) -> Result<MoreStmt, Fault>
    ensures { Reads (under (spec.plain_of (columns, free)) bytes.old) result bytes.new }
{
    let (table, free) = source(alloc, bytes, free)?;
    let (condition, behind) = chosen(alloc, bytes, Naming::Alone, true, free)?;
    let (order, free) = ordering(alloc, bytes, behind.0, behind.1)?;
    let limit = limit(bytes, free)?;
    Ok(MoreStmt::Plain(Stmt::Select(Select {
        columns,
        table,
        condition,
        order,
        limit,
    })))
}

/// A plain SELECT behind its first column.
#[tactic(auto, unfolding(crate::specs::Joint::plain))]
fn plain(alloc: Global, bytes: &mut ByteCursor<'_>, first: Bytes) -> Result<MoreStmt, Fault>
    ensures { Reads (under (spec.plain first) bytes.old) result bytes.new }
{
    let free = gap(bytes);
    let mut names = Names::new(alloc);
    names.push(first)?;
    let (names, free) = more_names(alloc, bytes, names, free)?;
    plain_of(alloc, bytes, Some(names), free)
}

/// A join, behind the table of its first column and the `.`.
#[tactic(auto, unfolding(crate::specs::Joint::joined))]
fn joined(
    alloc: Global,
    bytes: &mut ByteCursor<'_>,
    table: &[u8],
) -> Result<Option<MoreStmt>, Fault>
    ensures { Reads (under (spec.joined table.now) bytes.old) result bytes.new }
{
    let table = Bytes::from_slice(alloc, table)?;
    let statement = join(alloc, bytes, table)?;
    Ok(Some(MoreStmt::Join(statement)))
}

/// A total, behind the opening bracket of its first item.
#[tactic(auto, unfolding(crate::specs::Joint::totalled))]
fn totalled(
    alloc: Global,
    bytes: &mut ByteCursor<'_>,
    function: Option<Function>,
) -> Result<Option<MoreStmt>, Fault>
    ensures { Reads (under (spec.totalled function) bytes.old) result bytes.new }
{
    match function {
        None => Err(Fault::Syntax),
        Some(function) => {
            let statement = total(alloc, bytes, function)?;
            Ok(Some(MoreStmt::Total(statement)))
        }
    }
}

/// Whether a byte directly behind the first word of a SELECT makes it more than a column.
fn goes_on(function: Option<Function>, byte: u8) -> bool
    ensures { result ≡ spec.goes_on function byte }
{
    byte == b'.' || (byte == b'(' && function.is_some())
}

/// The join or the total behind the first word of a SELECT, if it is one.
#[tactic(auto, unfolding(crate::specs::Joint::more_than_column))]
fn more_than_column(
    alloc: Global,
    bytes: &mut ByteCursor<'_>,
    word: &[u8],
) -> Result<Option<MoreStmt>, Fault>
    ensures { Reads (under (spec.more_than_column word.now) bytes.old) result bytes.new }
{
    let function = function_of(word);
    match bytes.peek() {
        Some(next) if goes_on(function, next.byte) => {
            bytes.skip(next);
            if next.byte == b'.' {
                joined(alloc, bytes, word)
            } else {
                totalled(alloc, bytes, function)
            }
        }
        _ => Ok(None),
    }
}

/// A SELECT whose first item is a word, from the word's first byte on.
#[tactic(auto, unfolding(crate::specs::Joint::from_word))]
fn from_word(alloc: Global, bytes: &mut ByteCursor<'_>, byte: u8) -> Result<MoreStmt, Fault>
    ensures { Reads (under (spec.from_word byte) bytes.old) result bytes.new }
{
    let word = name(alloc, bytes, byte)?;
    match more_than_column(alloc, bytes, word.as_slice())? {
        None => plain(alloc, bytes, word),
        Some(statement) => Ok(statement),
    }
}

/// Behind SELECT.
#[tactic(auto, unfolding(crate::specs::Joint::selected, resin_sql::specs::Statements::star))]
fn selected(alloc: Global, bytes: &mut ByteCursor<'_>, free: bool) -> Result<MoreStmt, Fault>
    ensures { Reads (under (spec.selected free) bytes.old) result bytes.new }
{
    match bytes.peek() {
        Some(next) if next.byte == b'*' => {
            bytes.skip(next);
            gap(bytes);
            plain_of(alloc, bytes, None, true)
        }
        Some(next) if is_letter(next.byte) && free => {
            bytes.skip(next);
            from_word(alloc, bytes, next.byte)
        }
        _ => Err(Fault::Syntax),
    }
}

#[tactic(auto, unfolding(crate::specs::Joint::select))]
fn select(alloc: Global, bytes: &mut ByteCursor<'_>) -> Result<MoreStmt, Fault>
    ensures { Reads (under spec.select bytes.old) result bytes.new }
{
    let free = word(bytes, b"elect")?;
    selected(alloc, bytes, free)
}

/// A statement by its first letter, in lower case.
#[tactic(auto, unfolding(crate::specs::Joint::joint_by))]
fn joint_by(alloc: Global, bytes: &mut ByteCursor<'_>, first: u8) -> Result<MoreStmt, Fault>
    ensures { Reads (under (spec.joint_by first) bytes.old) result bytes.new }
{
    if first == b's' {
        return select(alloc, bytes);
    }
    let statement = begun_by(alloc, bytes, first)?;
    Ok(MoreStmt::Plain(statement))
}

#[tactic(auto, unfolding(crate::specs::Joint::opening))]
fn opening(alloc: Global, bytes: &mut ByteCursor<'_>) -> Result<MoreStmt, Fault>
    ensures { Reads (under spec.opening bytes.old) result bytes.new }
{
    match bytes.peek() {
        Some(next) if begins_statement(lower(next.byte)) => {
            bytes.skip(next);
            joint_by(alloc, bytes, lower(next.byte))
        }
        _ => Err(Fault::Syntax),
    }
}

/// A statement, with the blanks around it and the `;` that may end it.
#[tactic(auto, unfolding(crate::specs::Joint::joint))]
pub fn joint(alloc: Global, bytes: &mut ByteCursor<'_>) -> Result<MoreStmt, Fault>
    ensures { Reads (under spec.joint bytes.old) result bytes.new }
{
    gap(bytes);
    let found = opening(alloc, bytes)?;
    ending(bytes);
    Ok(found)
}
