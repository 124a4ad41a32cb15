//! Totals.

ghost use Rattle.std.specs.Prelude.{◌≡◌};
ghost use Rattle.resin_sql_words.specs.Forms.{under};
ghost use Rattle.resin_joint.specs.Totals as spec;
ghost use Rattle.resin_form.specs.Reads.{Reads};

use crate::tree::{Function, TotalItem, TotalStmt};
use resin_bytes::Bytes;
use resin_form::Fault;
use resin_items::Items;
use resin_scan::bytes::lower;
use resin_scan::words::spells;
use resin_sql::parts::{Naming, chosen, is_comma, source};
use resin_sql_words::{ByteCursor, gap, letters, named, sign};
use std::alloc::Global;

/// The function of a name, in any case.
pub fn function_of(word: &[u8]) -> Option<Function>
    ensures { result ≡ spec.function_of word.now }
{
    if spells(b"count", word) {
        Some(Function::Count)
    } else if spells(b"sum", word) {
        Some(Function::Sum)
    } else if spells(b"min", word) {
        Some(Function::Min)
    } else if spells(b"max", word) {
        Some(Function::Max)
    } else if spells(b"group_concat", word) {
        Some(Function::GroupConcat)
    } else {
        None
    }
}

fn item_of(function: Function, column: Bytes) -> TotalItem
    ensures { result ≡ spec.item_of function column }
{
    match function {
        Function::Count => TotalItem::Count,
        Function::Sum => TotalItem::Sum(column),
        Function::Min => TotalItem::Min(column),
        Function::Max => TotalItem::Max(column),
        Function::GroupConcat => TotalItem::GroupConcat(column),
    }
}

/// The `*` of COUNT.
#[tactic(auto, unfolding(crate::specs::Totals::every))]
fn every(bytes: &mut ByteCursor<'_>) -> Result<TotalItem, Fault>
    ensures { Reads (under spec.every bytes.old) result bytes.new }
{
    sign(bytes, b'*')?;
    Ok(TotalItem::Count)
}

/// The column of another function.
#[tactic(auto, unfolding(crate::specs::Totals::column_in))]
fn column_in(
    alloc: Global,
    bytes: &mut ByteCursor<'_>,
    function: Function,
) -> Result<TotalItem, Fault>
    ensures { Reads (under (spec.column_in function) bytes.old) result bytes.new }
{
    let (column, _) = named(alloc, bytes, true)?;
    Ok(item_of(function, column))
}

fn is_count(function: Function) -> bool
    ensures { result ≡ spec.is_count function }
{
    match function {
        Function::Count => true,
        _ => false,
    }
}

#[tactic(auto, unfolding(crate::specs::Totals::inside))]
fn inside(alloc: Global, bytes: &mut ByteCursor<'_>, function: Function) -> Result<TotalItem, Fault>
    ensures { Reads (under (spec.inside function) bytes.old) result bytes.new }
{
    if is_count(function) {
        every(bytes)
    } else {
        column_in(alloc, bytes, function)
    }
}

/// An item behind its opening bracket.
#[tactic(auto, unfolding(crate::specs::Totals::bracket))]
fn bracket(
    alloc: Global,
    bytes: &mut ByteCursor<'_>,
    function: Function,
) -> Result<TotalItem, Fault>
    ensures { Reads (under (spec.bracket function) bytes.old) result bytes.new }
{
    gap(bytes);
    let item = inside(alloc, bytes, function)?;
    sign(bytes, b')')?;
    Ok(item)
}

/// MIN or MAX, behind the `M`.
#[tactic(auto, unfolding(crate::specs::Totals::min_or_max))]
fn min_or_max(bytes: &mut ByteCursor<'_>) -> Result<Function, Fault>
    ensures { Reads (under spec.min_or_max bytes.old) result bytes.new }
{
    match bytes.peek() {
        Some(next) if lower(next.byte) == b'i' => {
            bytes.skip(next);
            letters(bytes, b"n")?;
            Ok(Function::Min)
        }
        Some(next) if lower(next.byte) == b'a' => {
            bytes.skip(next);
            letters(bytes, b"x")?;
            Ok(Function::Max)
        }
        _ => Err(Fault::Syntax),
    }
}

fn begins_function(byte: u8) -> bool
    ensures { result ≡ spec.begins_function byte }
{
    byte == b'c' || byte == b's' || byte == b'm' || byte == b'g'
}

/// A function by its first letter, in lower case.
#[tactic(auto, unfolding(crate::specs::Totals::function_by))]
fn function_by(bytes: &mut ByteCursor<'_>, first: u8) -> Result<Function, Fault>
    ensures { Reads (under (spec.function_by first) bytes.old) result bytes.new }
{
    if first == b'c' {
        letters(bytes, b"ount")?;
        Ok(Function::Count)
    } else if first == b's' {
        letters(bytes, b"um")?;
        Ok(Function::Sum)
    } else if first == b'm' {
        min_or_max(bytes)
    } else {
        letters(bytes, b"roup_concat")?;
        Ok(Function::GroupConcat)
    }
}

/// The function of an item behind a comma.
#[tactic(auto, unfolding(crate::specs::Totals::function))]
fn function(bytes: &mut ByteCursor<'_>) -> Result<Function, Fault>
    ensures { Reads (under spec.function bytes.old) result bytes.new }
{
    match bytes.peek() {
        Some(next) if begins_function(lower(next.byte)) => {
            bytes.skip(next);
            function_by(bytes, lower(next.byte))
        }
        _ => Err(Fault::Syntax),
    }
}

/// The bracket directly behind a function.
#[tactic(auto, unfolding(crate::specs::Totals::opened))]
fn opened(alloc: Global, bytes: &mut ByteCursor<'_>, function: Function) -> Result<TotalItem, Fault>
    ensures { Reads (under (spec.opened function) bytes.old) result bytes.new }
{
    match bytes.peek() {
        Some(next) if next.byte == b'(' => {
            bytes.skip(next);
            bracket(alloc, bytes, function)
        }
        _ => Err(Fault::Syntax),
    }
}

#[tactic(auto, unfolding(crate::specs::Totals::one_more_item))]
fn one_more_item(
    alloc: Global,
    bytes: &mut ByteCursor<'_>,
    done: Items<TotalItem>,
) -> Result<Items<TotalItem>, Fault>
    ensures { Reads (under (spec.one_more_item done) bytes.old) result bytes.new }
{
    gap(bytes);
    let function = function(bytes)?;
    let item = opened(alloc, bytes, function)?;
    let mut longer = done;
    longer.push(item)?;
    Ok(longer)
}

fn more_items(
    alloc: Global,
    bytes: &mut ByteCursor<'_>,
    first: Items<TotalItem>,
) -> Result<Items<TotalItem>, Fault>
    ensures { Reads (under (spec.more_items first) bytes.old) result bytes.new }
{
    let mut done = first;
    'turns: while let Some(next) = bytes.peek() {
        if !is_comma(next.byte) {
            break;
        }
        bytes.skip(next);
        done = one_more_item(alloc, bytes, done)?;
    }
    Ok(done)
}

/// A total behind its items.
#[tactic(auto, unfolding(crate::specs::Totals::total_of))]
fn total_of(
    alloc: Global,
    bytes: &mut ByteCursor<'_>,
    items: Items<TotalItem>,
) -> Result<TotalStmt, Fault>
    ensures { Reads (under (spec.total_of items) bytes.old) result bytes.new }
{
    let (table, free) = source(alloc, bytes, true)?;
    let (condition, _) = chosen(alloc, bytes, Naming::Alone, false, free)?;
    Ok(TotalStmt {
        items,
        table,
        condition,
    })
}

/// A total, behind the opening bracket of its first item.
#[tactic(auto, unfolding(crate::specs::Totals::total))]
pub fn total(
    alloc: Global,
    bytes: &mut ByteCursor<'_>,
    function: Function,
) -> Result<TotalStmt, Fault>
    ensures { Reads (under (spec.total function) bytes.old) result bytes.new }
{
    let item = bracket(alloc, bytes, function)?;
    let mut first = Items::new(alloc);
    first.push(item)?;
    let items = more_items(alloc, bytes, first)?;
    total_of(alloc, bytes, items)
}
