//! Statements.

ghost use Rattle.std.specs.Prelude.{◌≡◌, ◌<◌, true, false, []};
ghost use Rattle.resin_sql_words.specs.Forms.{under};
ghost use Rattle.resin_sql.specs.Conditions.{tested_as};
ghost use Rattle.resin_sql.specs.Statements as spec;
ghost use Rattle.resin_form.specs.Reads.{Reads};
ghost use Rattle.resin_form.specs.Reading.{Got};
ghost use Rattle.resin_scan.specs.Bytes.{is_digit};

use crate::condition::{Naming, condition};
use crate::lists::{definitions, is_comma, names_from, rows};
use crate::tree::{Change, Condition, Create, Delete, Insert, Order, Select, Stmt, Update};
use resin_base::Names;
use resin_bytes::Bytes;
use resin_form::Fault;
use resin_items::Items;
use resin_scan::bytes::{is_digit, is_letter, lower};
use resin_sql_words::{ByteCursor, Placed, count, gap, keyword, named, read_literal, sign, word};
use std::alloc::Global;

#[tactic(auto, unfolding(crate::specs::Statements::create))]
fn create(alloc: Global, bytes: &mut ByteCursor<'_>) -> Result<Stmt, Fault>
    ensures { Reads (under spec.create bytes.old) result bytes.new }
{
    let free = word(bytes, b"reate")?;
    let free = keyword(bytes, free, b't', b"able")?;
    let (table, _) = named(alloc, bytes, free)?;
    let columns = definitions(alloc, bytes)?;
    Ok(Stmt::Create(Create { table, columns }))
}

/// The columns of an INSERT behind their opening bracket, and VALUES.
#[tactic(auto, unfolding(crate::specs::Statements::listed))]
fn listed(alloc: Global, bytes: &mut ByteCursor<'_>) -> Result<Option<Names>, Fault>
    ensures { Reads (under spec.listed bytes.old) result bytes.new }
{
    gap(bytes);
    let names = first_names(alloc, bytes)?;
    sign(bytes, b')')?;
    keyword(bytes, true, b'v', b"alues")?;
    Ok(Some(names))
}

/// Names, whose first begins here.
#[tactic(auto, unfolding(crate::specs::Statements::first_names))]
fn first_names(alloc: Global, bytes: &mut ByteCursor<'_>) -> Result<Names, Fault>
    ensures { Reads (under spec.first_names bytes.old) result bytes.new }
{
    match bytes.peek() {
        Some(next) if is_letter(next.byte) => {
            bytes.skip(next);
            let (names, _) = names_from(alloc, bytes, next.byte)?;
            Ok(names)
        }
        _ => Err(Fault::Syntax),
    }
}

/// VALUES, behind its first letter.
#[tactic(auto, unfolding(crate::specs::Statements::unlisted))]
fn unlisted(bytes: &mut ByteCursor<'_>) -> Result<Option<Names>, Fault>
    ensures { Reads (under spec.unlisted bytes.old) result bytes.new }
{
    word(bytes, b"alues")?;
    Ok(None)
}

/// Behind the table of an INSERT: its columns, if they are listed, and VALUES.
#[tactic(auto, unfolding(crate::specs::Statements::targets))]
fn targets(alloc: Global, bytes: &mut ByteCursor<'_>, free: bool) -> Result<Option<Names>, Fault>
    ensures { Reads (under (spec.targets free) bytes.old) result bytes.new }
{
    match bytes.peek() {
        Some(next) if next.byte == b'(' => {
            bytes.skip(next);
            listed(alloc, bytes)
        }
        Some(next) if lower(next.byte) == b'v' && free => {
            bytes.skip(next);
            unlisted(bytes)
        }
        _ => Err(Fault::Syntax),
    }
}

#[tactic(auto, unfolding(crate::specs::Statements::insert))]
fn insert(alloc: Global, bytes: &mut ByteCursor<'_>) -> Result<Stmt, Fault>
    ensures { Reads (under spec.insert bytes.old) result bytes.new }
{
    let free = word(bytes, b"nsert")?;
    let free = keyword(bytes, free, b'i', b"nto")?;
    let (table, free) = named(alloc, bytes, free)?;
    let columns = targets(alloc, bytes, free)?;
    let rows = rows(alloc, bytes)?;
    Ok(Stmt::Insert(Insert {
        table,
        columns,
        rows,
    }))
}

#[tactic(auto, unfolding(crate::specs::Statements::some_names))]
fn some_names(
    alloc: Global,
    bytes: &mut ByteCursor<'_>,
    byte: u8,
) -> Result<(Option<Names>, bool), Fault>
    ensures { Reads (under (spec.some_names byte) bytes.old) result bytes.new }
{
    let (names, free) = names_from(alloc, bytes, byte)?;
    Ok((Some(names), free))
}

/// What a SELECT asks for: `*` or columns.
#[tactic(auto, unfolding(crate::specs::Statements::items, crate::specs::Statements::star))]
fn items(
    alloc: Global,
    bytes: &mut ByteCursor<'_>,
    free: bool,
) -> Result<(Option<Names>, bool), Fault>
    ensures { Reads (under (spec.items free) bytes.old) result bytes.new }
{
    match bytes.peek() {
        Some(next) if next.byte == b'*' => {
            bytes.skip(next);
            gap(bytes);
            Ok((None, true))
        }
        Some(next) if is_letter(next.byte) && free => {
            bytes.skip(next);
            some_names(alloc, bytes, next.byte)
        }
        _ => Err(Fault::Syntax),
    }
}

/// FROM and a table.
#[tactic(auto, unfolding(crate::specs::Statements::source))]
pub fn source(alloc: Global, bytes: &mut ByteCursor<'_>, free: bool) -> Result<(Bytes, bool), Fault>
    ensures { Reads (under (spec.source free) bytes.old) result bytes.new }
{
    let free = keyword(bytes, free, b'f', b"rom")?;
    named(alloc, bytes, free)
}

#[tactic(auto, unfolding(crate::specs::Statements::behind_where))]
fn behind_where(
    alloc: Global,
    bytes: &mut ByteCursor<'_>,
    naming: Naming,
    orders: bool,
) -> Result<(Option<Condition>, (bool, bool)), Fault>
    ensures { Reads (under (spec.behind_where (tested_as naming) orders) bytes.old) result bytes.new }
{
    let free = word(bytes, b"here")?;
    let (condition, behind) = condition(alloc, bytes, naming, orders, free)?;
    Ok((Some(condition), behind))
}

/// WHERE and its condition, which may be left out, and what stands behind it.
#[tactic(auto, unfolding(crate::specs::Statements::chosen))]
pub fn chosen(
    alloc: Global,
    bytes: &mut ByteCursor<'_>,
    naming: Naming,
    orders: bool,
    free: bool,
) -> Result<(Option<Condition>, (bool, bool)), Fault>
    ensures { Reads (under (spec.chosen (tested_as naming) orders free) bytes.old) result bytes.new }
{
    match bytes.peek() {
        Some(next) if lower(next.byte) == b'w' && free => {
            bytes.skip(next);
            behind_where(alloc, bytes, naming, orders)
        }
        _ => Ok((None, (free, false))),
    }
}

#[tactic(auto, unfolding(crate::specs::Statements::ascending))]
fn ascending(bytes: &mut ByteCursor<'_>) -> Result<(bool, bool), Fault>
    ensures { Reads (under spec.ascending bytes.old) result bytes.new }
{
    let free = word(bytes, b"sc")?;
    Ok((false, free))
}

#[tactic(auto, unfolding(crate::specs::Statements::descending))]
fn descending(bytes: &mut ByteCursor<'_>) -> Result<(bool, bool), Fault>
    ensures { Reads (under spec.descending bytes.old) result bytes.new }
{
    let free = word(bytes, b"esc")?;
    Ok((true, free))
}

/// ASC or DESC, which may be left out: whether it is DESC.
#[tactic(auto, unfolding(crate::specs::Statements::direction))]
fn direction(bytes: &mut ByteCursor<'_>, free: bool) -> Result<(bool, bool), Fault>
    ensures { Reads (under (spec.direction free) bytes.old) result bytes.new }
{
    match bytes.peek() {
        Some(next) if lower(next.byte) == b'a' && free => {
            bytes.skip(next);
            ascending(bytes)
        }
        Some(next) if lower(next.byte) == b'd' && free => {
            bytes.skip(next);
            descending(bytes)
        }
        _ => Ok((false, free)),
    }
}

/// Behind ORDER.
#[tactic(auto, unfolding(crate::specs::Statements::order_column))]
fn order_column(
    alloc: Global,
    bytes: &mut ByteCursor<'_>,
    free: bool,
) -> Result<(Option<Order>, bool), Fault>
    ensures { Reads (under (spec.order_column free) bytes.old) result bytes.new }
{
    let free = keyword(bytes, free, b'b', b"y")?;
    let (column, free) = named(alloc, bytes, free)?;
    let (descending, free) = direction(bytes, free)?;
    Ok((Some(Order { column, descending }), free))
}

/// Behind the `O` of ORDER.
#[tactic(auto, unfolding(crate::specs::Statements::behind_order))]
fn behind_order(alloc: Global, bytes: &mut ByteCursor<'_>) -> Result<(Option<Order>, bool), Fault>
    ensures { Reads (under spec.behind_order bytes.old) result bytes.new }
{
    let free = word(bytes, b"rder")?;
    order_column(alloc, bytes, free)
}

/// ORDER BY, which may be left out, where its ORDER may have been read.
#[tactic(auto, unfolding(crate::specs::Statements::ordering))]
pub fn ordering(
    alloc: Global,
    bytes: &mut ByteCursor<'_>,
    free: bool,
    ordered: bool,
) -> Result<(Option<Order>, bool), Fault>
    ensures { Reads (under (spec.ordering (free, ordered)) bytes.old) result bytes.new }
{
    if ordered {
        return order_column(alloc, bytes, free);
    }
    match bytes.peek() {
        Some(next) if lower(next.byte) == b'o' && free => {
            bytes.skip(next);
            behind_order(alloc, bytes)
        }
        _ => Ok((None, free)),
    }
}

#[tactic(auto, unfolding(crate::specs::Statements::counted))]
fn counted(bytes: &mut ByteCursor<'_>, first: Placed) -> Result<Option<u64>, Fault>
    requires digit { is_digit first.byte ≡ true }
    requires small { first.at < usize.MAX }
    ensures { Reads (under (spec.counted first) bytes.old) result bytes.new }
{
    let (value, _) = count(bytes, first)?;
    gap(bytes);
    Ok(Some(value))
}

/// A number, where a word may begin.
#[tactic(auto, unfolding(crate::specs::Statements::limit_number))]
fn limit_number(bytes: &mut ByteCursor<'_>, free: bool) -> Result<Option<u64>, Fault>
    ensures { Reads (under (spec.limit_number free) bytes.old) result bytes.new }
{
    match bytes.peek() {
        Some(next) if is_digit(next.byte) && free => {
            bytes.skip(next);
            counted(bytes, next)
        }
        _ => Err(Fault::Syntax),
    }
}

/// Behind the `L` of LIMIT.
#[tactic(auto, unfolding(crate::specs::Statements::behind_limit))]
fn behind_limit(bytes: &mut ByteCursor<'_>) -> Result<Option<u64>, Fault>
    ensures { Reads (under spec.behind_limit bytes.old) result bytes.new }
{
    let free = word(bytes, b"imit")?;
    limit_number(bytes, free)
}

/// LIMIT, which may be left out.
#[tactic(auto, unfolding(crate::specs::Statements::limit))]
pub fn limit(bytes: &mut ByteCursor<'_>, free: bool) -> Result<Option<u64>, Fault>
    ensures { Reads (under (spec.limit free) bytes.old) result bytes.new }
{
    match bytes.peek() {
        Some(next) if lower(next.byte) == b'l' && free => {
            bytes.skip(next);
            behind_limit(bytes)
        }
        _ => Ok(None),
    }
}

#[tactic(auto, unfolding(crate::specs::Statements::select))]
fn select(alloc: Global, bytes: &mut ByteCursor<'_>) -> Result<Stmt, Fault>
    ensures { Reads (under spec.select bytes.old) result bytes.new }
{
    let free = word(bytes, b"elect")?;
    let (columns, free) = items(alloc, bytes, free)?;
    let (table, free) = source(alloc, bytes, free)?;
    let (condition, behind) = chosen(alloc, bytes, Naming::Alone, true, free)?;
    let (order, free) = ordering(alloc, bytes, behind.0, behind.1)?;
    let limit = limit(bytes, free)?;
    Ok(Stmt::Select(Select {
        columns,
        table,
        condition,
        order,
        limit,
    }))
}

#[tactic(auto, unfolding(crate::specs::Statements::change))]
fn change(
    alloc: Global,
    bytes: &mut ByteCursor<'_>,
    free: bool,
    done: Items<Change>,
) -> Result<(Items<Change>, bool), Fault>
    ensures { Reads (under (spec.change free done) bytes.old) result bytes.new }
{
    let (column, _) = named(alloc, bytes, free)?;
    sign(bytes, b'=')?;
    let (literal, after) = read_literal(bytes)?;
    let mut longer = done;
    longer.push(Change { column, literal })?;
    Ok((longer, after))
}

#[tactic(auto, unfolding(crate::specs::Statements::one_more_change))]
fn one_more_change(
    alloc: Global,
    bytes: &mut ByteCursor<'_>,
    done: Items<Change>,
) -> Result<(Items<Change>, bool), Fault>
    ensures { Reads (under (spec.one_more_change done) bytes.old) result bytes.new }
{
    gap(bytes);
    change(alloc, bytes, true, done)
}

fn more_changes(
    alloc: Global,
    bytes: &mut ByteCursor<'_>,
    first: Items<Change>,
    after: bool,
) -> Result<(Items<Change>, bool), Fault>
    ensures { Reads (under (spec.more_changes (first, after)) bytes.old) result bytes.new }
{
    let mut done = first;
    let mut free = after;
    'turns: while let Some(next) = bytes.peek() {
        if !is_comma(next.byte) {
            break;
        }
        bytes.skip(next);
        let (longer, ended) = one_more_change(alloc, bytes, done)?;
        done = longer;
        free = ended;
    }
    Ok((done, free))
}

/// The changes behind SET.
#[tactic(auto, unfolding(crate::specs::Statements::changes))]
fn changes(
    alloc: Global,
    bytes: &mut ByteCursor<'_>,
    free: bool,
) -> Result<(Items<Change>, bool), Fault>
    ensures { Reads (under (spec.changes free) bytes.old) result bytes.new }
{
    let (first, after) = change(alloc, bytes, free, Items::new(alloc))?;
    more_changes(alloc, bytes, first, after)
}

#[tactic(auto, unfolding(crate::specs::Statements::update))]
fn update(alloc: Global, bytes: &mut ByteCursor<'_>) -> Result<Stmt, Fault>
    ensures { Reads (under spec.update bytes.old) result bytes.new }
{
    let free = word(bytes, b"pdate")?;
    let (table, free) = named(alloc, bytes, free)?;
    let free = keyword(bytes, free, b's', b"et")?;
    let (changes, free) = changes(alloc, bytes, free)?;
    let (condition, _) = chosen(alloc, bytes, Naming::Alone, false, free)?;
    Ok(Stmt::Update(Update {
        table,
        changes,
        condition,
    }))
}

#[tactic(auto, unfolding(crate::specs::Statements::delete))]
fn delete(alloc: Global, bytes: &mut ByteCursor<'_>) -> Result<Stmt, Fault>
    ensures { Reads (under spec.delete bytes.old) result bytes.new }
{
    let free = word(bytes, b"elete")?;
    let (table, free) = source(alloc, bytes, free)?;
    let (condition, _) = chosen(alloc, bytes, Naming::Alone, false, free)?;
    Ok(Stmt::Delete(Delete { table, condition }))
}

pub fn begins_statement(byte: u8) -> bool
    ensures { result ≡ spec.begins_statement byte }
{
    byte == b'c' || byte == b'i' || byte == b's' || byte == b'u' || byte == b'd'
}

/// A statement by its first letter, in lower case.
#[tactic(auto, unfolding(crate::specs::Statements::begun_by))]
pub fn begun_by(alloc: Global, bytes: &mut ByteCursor<'_>, first: u8) -> Result<Stmt, Fault>
    ensures { Reads (under (spec.begun_by first) bytes.old) result bytes.new }
{
    match first {
        b'c' => create(alloc, bytes),
        b'i' => insert(alloc, bytes),
        b's' => select(alloc, bytes),
        b'u' => update(alloc, bytes),
        _ => delete(alloc, bytes),
    }
}

#[tactic(auto, unfolding(crate::specs::Statements::opening))]
fn opening(alloc: Global, bytes: &mut ByteCursor<'_>) -> Result<Stmt, Fault>
    ensures { Reads (under spec.opening bytes.old) result bytes.new }
{
    match bytes.peek() {
        Some(next) if begins_statement(lower(next.byte)) => {
            bytes.skip(next);
            begun_by(alloc, bytes, lower(next.byte))
        }
        _ => Err(Fault::Syntax),
    }
}

/// The `;` that may end a text.
#[tactic(auto, unfolding(crate::specs::Statements::ending))]
pub fn ending(bytes: &mut ByteCursor<'_>) -> bool
    ensures { under spec.ending bytes.old ≡ Got result bytes.new }
{
    match bytes.peek() {
        Some(next) if next.byte == b';' => {
            bytes.skip(next);
            gap(bytes)
        }
        _ => false,
    }
}

/// A statement, with the blanks around it and the `;` that may end it.
#[tactic(auto, unfolding(crate::specs::Statements::statement))]
pub fn statement(alloc: Global, bytes: &mut ByteCursor<'_>) -> Result<Stmt, Fault>
    ensures { Reads (under spec.statement bytes.old) result bytes.new }
{
    gap(bytes);
    let found = opening(alloc, bytes)?;
    ending(bytes);
    Ok(found)
}
