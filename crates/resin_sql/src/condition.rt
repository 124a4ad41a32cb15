//! Conditions.

ghost use Rattle.std.specs.Prelude.{◌≡◌, ◌+◌, true, false, []};
ghost use Rattle.resin_sql_words.specs.Forms.{under, never};
ghost use Rattle.resin_sql.specs.Conditions as spec;
ghost use Rattle.resin_sql.specs.Conditions.{Nests, tested_as};
ghost use Rattle.resin_sql.specs.declared.tree.Condition.TheVariants.{All};
ghost use Rattle.resin_form.specs.Reads.{Reads};
ghost use Rattle.resin_form.specs.Reading.{Got};

use crate::tree::{Comparison, Condition, Test};
use resin_bytes::Bytes;
use resin_form::Fault;
use resin_items::Items;
use resin_scan::bytes::{is_letter, lower};
use resin_sql_words::{
    ByteCursor, gap, keyword, letters, name, name_from, named, read_literal, sign, word,
};
use std::alloc::Global;

/// `<`, `<=` or `<>`, behind the `<`.
#[tactic(auto, unfolding(crate::specs::Conditions::less))]
fn less(bytes: &mut ByteCursor<'_>) -> Comparison
    ensures { under spec.less bytes.old ≡ Got result bytes.new }
{
    match bytes.peek() {
        Some(next) if next.byte == b'=' => {
            bytes.skip(next);
            Comparison::LessOrEqual
        }
        Some(next) if next.byte == b'>' => {
            bytes.skip(next);
            Comparison::NotEqual
        }
        _ => Comparison::Less,
    }
}

/// `>` or `>=`, behind the `>`.
#[tactic(auto, unfolding(crate::specs::Conditions::greater))]
fn greater(bytes: &mut ByteCursor<'_>) -> Comparison
    ensures { under spec.greater bytes.old ≡ Got result bytes.new }
{
    match bytes.peek() {
        Some(next) if next.byte == b'=' => {
            bytes.skip(next);
            Comparison::GreaterOrEqual
        }
        _ => Comparison::Greater,
    }
}

/// A comparison by its first byte.
#[tactic(auto, unfolding(crate::specs::Conditions::comparison))]
fn comparison(bytes: &mut ByteCursor<'_>, first: u8) -> Comparison
    ensures { under (spec.comparison first) bytes.old ≡ Got result bytes.new }
{
    if first == b'=' {
        Comparison::Equal
    } else if first == b'<' {
        less(bytes)
    } else {
        greater(bytes)
    }
}

#[tactic(auto, unfolding(crate::specs::Conditions::compared))]
fn compared(
    bytes: &mut ByteCursor<'_>,
    column: Bytes,
    first: u8,
) -> Result<(Condition, bool), Fault>
    ensures { Reads (under (spec.compared column first) bytes.old) result bytes.new }
{
    let operator = comparison(bytes, first);
    gap(bytes);
    let (literal, free) = read_literal(bytes)?;
    Ok((
        Condition::Test(Test::Compare(column, operator, literal)),
        free,
    ))
}

#[tactic(auto, unfolding(crate::specs::Conditions::only_null))]
fn only_null(bytes: &mut ByteCursor<'_>) -> Result<(bool, bool), Fault>
    ensures { Reads (under spec.only_null bytes.old) result bytes.new }
{
    let free = word(bytes, b"ll")?;
    Ok((false, free))
}

#[tactic(auto, unfolding(crate::specs::Conditions::not_null))]
fn not_null(bytes: &mut ByteCursor<'_>) -> Result<(bool, bool), Fault>
    ensures { Reads (under spec.not_null bytes.old) result bytes.new }
{
    let some = word(bytes, b"t")?;
    let free = keyword(bytes, some, b'n', b"ull")?;
    Ok((true, free))
}

/// NULL or NOT NULL, behind the `N`: whether it is NOT NULL.
#[tactic(auto, unfolding(crate::specs::Conditions::null_or_not))]
fn null_or_not(bytes: &mut ByteCursor<'_>) -> Result<(bool, bool), Fault>
    ensures { Reads (under spec.null_or_not bytes.old) result bytes.new }
{
    match bytes.peek() {
        Some(next) if lower(next.byte) == b'o' => {
            bytes.skip(next);
            not_null(bytes)
        }
        Some(next) if lower(next.byte) == b'u' => {
            bytes.skip(next);
            only_null(bytes)
        }
        _ => Err(Fault::Syntax),
    }
}

/// NULL or NOT NULL, where a word may begin.
#[tactic(auto, unfolding(crate::specs::Conditions::nullness))]
fn nullness(bytes: &mut ByteCursor<'_>, free: bool) -> Result<(bool, bool), Fault>
    ensures { Reads (under (spec.nullness free) bytes.old) result bytes.new }
{
    match bytes.peek() {
        Some(next) if lower(next.byte) == b'n' && free => {
            bytes.skip(next);
            null_or_not(bytes)
        }
        _ => Err(Fault::Syntax),
    }
}

/// IS NULL or IS NOT NULL, behind the `I`.
#[tactic(auto, unfolding(crate::specs::Conditions::null_test))]
fn null_test(bytes: &mut ByteCursor<'_>, column: Bytes) -> Result<(Condition, bool), Fault>
    ensures { Reads (under (spec.null_test column) bytes.old) result bytes.new }
{
    let some = word(bytes, b"s")?;
    let (negated, free) = nullness(bytes, some)?;
    Ok((Condition::Test(Test::Null(column, negated)), free))
}

fn begins_test(free: bool, byte: u8) -> bool
    ensures { result ≡ spec.begins_test free byte }
{
    byte == b'<' || byte == b'=' || byte == b'>' || (lower(byte) == b'i' && free)
}

#[tactic(auto, unfolding(crate::specs::Conditions::tested))]
fn tested(bytes: &mut ByteCursor<'_>, column: Bytes, first: u8) -> Result<(Condition, bool), Fault>
    ensures { Reads (under (spec.tested column first) bytes.old) result bytes.new }
{
    if lower(first) == b'i' {
        null_test(bytes, column)
    } else {
        compared(bytes, column, first)
    }
}

/// How a statement names the columns of its tests.
#[derive(Clone, Copy, Debug, PartialEq, Eq)]
pub enum Naming {
    /// `c`, of the one table.
    Alone,
    /// `t.c`, with the table and without blanks. A test has these bytes as the name of its column.
    WithTable,
}

/// A column behind its table and the `.`, with both before it.
#[tactic(auto, unfolding(crate::specs::Conditions::column_of))]
pub fn column_of(
    alloc: Global,
    bytes: &mut ByteCursor<'_>,
    table: Bytes,
) -> Result<(Bytes, bool), Fault>
    ensures { Reads (under (spec.column_of table) bytes.old) result bytes.new }
{
    let (column, free) = named(alloc, bytes, true)?;
    let mut whole = table;
    whole.push(b'.')?;
    whole.push_slice(column.as_slice())?;
    Ok((whole, free))
}

/// A column with its table, from its first byte on.
#[tactic(auto, unfolding(crate::specs::Conditions::with_table))]
pub fn with_table(
    alloc: Global,
    bytes: &mut ByteCursor<'_>,
    first: u8,
) -> Result<(Bytes, bool), Fault>
    ensures { Reads (under (spec.with_table first) bytes.old) result bytes.new }
{
    let table = name(alloc, bytes, first)?;
    match bytes.peek() {
        Some(next) if next.byte == b'.' => {
            bytes.skip(next);
            column_of(alloc, bytes, table)
        }
        _ => Err(Fault::Syntax),
    }
}

/// What is tested, from its first byte on.
fn tested_name(
    alloc: Global,
    bytes: &mut ByteCursor<'_>,
    naming: Naming,
    first: u8,
) -> Result<(Bytes, bool), Fault>
    ensures { Reads (under (tested_as naming first) bytes.old) result bytes.new }
{
    match naming {
        Naming::Alone => name_from(alloc, bytes, first),
        Naming::WithTable => with_table(alloc, bytes, first),
    }
}

/// A test, from the first byte of its column on.
#[tactic(auto, unfolding(crate::specs::Conditions::one_test))]
fn read_test(
    alloc: Global,
    bytes: &mut ByteCursor<'_>,
    naming: Naming,
    first: u8,
) -> Result<(Condition, bool), Fault>
    ensures { Reads (under (spec.one_test (tested_as naming) first) bytes.old) result bytes.new }
{
    let (column, free) = tested_name(alloc, bytes, naming, first)?;
    match bytes.peek() {
        Some(next) if begins_test(free, next.byte) => {
            bytes.skip(next);
            tested(bytes, column, next.byte)
        }
        _ => Err(Fault::Syntax),
    }
}

/// Whether a byte goes on with AND.
fn is_and(free: bool, byte: u8) -> bool
    ensures { result ≡ spec.is_and free byte }
{
    lower(byte) == b'a' && free
}

/// Whether a byte goes on with OR.
fn is_or(free: bool, ordered: bool, byte: u8) -> bool
    ensures { result ≡ spec.is_or (free, ordered) byte }
{
    lower(byte) == b'o' && free && !ordered
}

/// Behind OR: whether the word goes on to ORDER, where that may stand.
#[tactic(auto, unfolding(crate::specs::Conditions::order_ending))]
fn order_ending(bytes: &mut ByteCursor<'_>, orders: bool) -> Result<bool, Fault>
    ensures { Reads (under (spec.order_ending orders) bytes.old) result bytes.new }
{
    match bytes.peek() {
        Some(next) if lower(next.byte) == b'd' && orders => {
            bytes.skip(next);
            letters(bytes, b"er")?;
            Ok(true)
        }
        _ => Ok(false),
    }
}

/// A test, where no bracket may open.
#[tactic(auto, unfolding(crate::specs::Conditions::begun))]
fn no_bracket(
    alloc: Global,
    bytes: &mut ByteCursor<'_>,
    naming: Naming,
    free: bool,
) -> Result<(Condition, bool), Fault>
    ensures { Reads (under (spec.begun (tested_as naming) false (never (All [], false)) free) bytes.old) result bytes.new }
{
    match bytes.peek() {
        Some(next) if is_letter(next.byte) && free => {
            bytes.skip(next);
            read_test(alloc, bytes, naming, next.byte)
        }
        _ => Err(Fault::Syntax),
    }
}

/// Reads conditions in which so many brackets may still open in one another.
#[derive(Clone, Copy)]
struct Inner<F> {
    alloc: Global,
    naming: Naming,
    room: usize,
    atom: F,
}

impl<
    F: Fn(Global, &mut ByteCursor<'_>, Naming, bool, usize) -> Result<(Condition, bool), Fault>
        + Copy,
> Inner<F> {
    /// A test, or a condition in brackets.
    fn one(&self, bytes: &mut ByteCursor<'_>, free: bool) -> Result<(Condition, bool), Fault>
        requires nests { Nests (self.now.room + 1) (F.pre self.now.atom) (F.post self.now.atom) }
        ensures { Reads (under (spec.atom (tested_as self.now.naming) self.now.room free) bytes.old) result bytes.new }
    {
        (self.atom)(self.alloc, bytes, self.naming, free, self.room)
    }

    #[tactic(auto, unfolding(crate::specs::Conditions::part))]
    fn part(
        &self,
        bytes: &mut ByteCursor<'_>,
        free: bool,
        done: Items<Condition>,
    ) -> Result<(Items<Condition>, bool), Fault>
        requires nests { Nests (self.now.room + 1) (F.pre self.now.atom) (F.post self.now.atom) }
        ensures { Reads (under (spec.part (spec.atom (tested_as self.now.naming) self.now.room) free done) bytes.old) result bytes.new }
    {
        let (condition, after) = self.one(bytes, free)?;
        let mut longer = done;
        longer.push(condition)?;
        Ok((longer, after))
    }

    #[tactic(auto, unfolding(crate::specs::Conditions::and_part))]
    fn and_part(
        &self,
        bytes: &mut ByteCursor<'_>,
        done: Items<Condition>,
    ) -> Result<(Items<Condition>, bool), Fault>
        requires nests { Nests (self.now.room + 1) (F.pre self.now.atom) (F.post self.now.atom) }
        ensures { Reads (under (spec.and_part (spec.atom (tested_as self.now.naming) self.now.room) done) bytes.old) result bytes.new }
    {
        let free = word(bytes, b"nd")?;
        self.part(bytes, free, done)
    }

    fn more_parts(
        &self,
        bytes: &mut ByteCursor<'_>,
        first: Items<Condition>,
        after: bool,
    ) -> Result<(Items<Condition>, bool), Fault>
        requires nests { Nests (self.now.room + 1) (F.pre self.now.atom) (F.post self.now.atom) }
        ensures { Reads (under (spec.more_parts (spec.atom (tested_as self.now.naming) self.now.room) (first, after)) bytes.old) result bytes.new }
    {
        let mut done = first;
        let mut free = after;
        'turns: while let Some(next) = bytes.peek() {
            if !is_and(free, next.byte) {
                break;
            }
            bytes.skip(next);
            let (longer, ended) = self.and_part(bytes, done)?;
            done = longer;
            free = ended;
        }
        Ok((done, free))
    }

    /// Conditions joined by AND.
    #[tactic(auto, unfolding(crate::specs::Conditions::all_of))]
    fn all_of(&self, bytes: &mut ByteCursor<'_>, free: bool) -> Result<(Condition, bool), Fault>
        requires nests { Nests (self.now.room + 1) (F.pre self.now.atom) (F.post self.now.atom) }
        ensures { Reads (under (spec.all_of (spec.atom (tested_as self.now.naming) self.now.room) free) bytes.old) result bytes.new }
    {
        let (first, after) = self.part(bytes, free, Items::new(self.alloc))?;
        let (parts, ended) = self.more_parts(bytes, first, after)?;
        Ok((Condition::All(parts), ended))
    }

    #[tactic(auto, unfolding(crate::specs::Conditions::way))]
    fn way(
        &self,
        bytes: &mut ByteCursor<'_>,
        free: bool,
        done: Items<Condition>,
    ) -> Result<(Items<Condition>, (bool, bool)), Fault>
        requires nests { Nests (self.now.room + 1) (F.pre self.now.atom) (F.post self.now.atom) }
        ensures { Reads (under (spec.way (spec.atom (tested_as self.now.naming) self.now.room) free done) bytes.old) result bytes.new }
    {
        let (condition, after) = self.all_of(bytes, free)?;
        let mut longer = done;
        longer.push(condition)?;
        Ok((longer, (after, false)))
    }

    /// OR and one more condition, or ORDER, behind the `O`.
    #[tactic(auto, unfolding(crate::specs::Conditions::or_way))]
    fn or_way(
        &self,
        bytes: &mut ByteCursor<'_>,
        orders: bool,
        done: Items<Condition>,
    ) -> Result<(Items<Condition>, (bool, bool)), Fault>
        requires nests { Nests (self.now.room + 1) (F.pre self.now.atom) (F.post self.now.atom) }
        ensures { Reads (under (spec.or_way (spec.atom (tested_as self.now.naming) self.now.room) orders done) bytes.old) result bytes.new }
    {
        letters(bytes, b"r")?;
        let ordered = order_ending(bytes, orders)?;
        let free = gap(bytes);
        if ordered {
            Ok((done, (free, true)))
        } else {
            self.way(bytes, free, done)
        }
    }

    fn more_ways(
        &self,
        bytes: &mut ByteCursor<'_>,
        orders: bool,
        first: Items<Condition>,
        after: (bool, bool),
    ) -> Result<(Items<Condition>, (bool, bool)), Fault>
        requires nests { Nests (self.now.room + 1) (F.pre self.now.atom) (F.post self.now.atom) }
        ensures { Reads (under (spec.more_ways (spec.atom (tested_as self.now.naming) self.now.room) orders (first, after)) bytes.old)
            result bytes.new }
    {
        let mut done = first;
        let mut behind = after;
        'turns: while let Some(next) = bytes.peek() {
            if !is_or(behind.0, behind.1, next.byte) {
                break;
            }
            bytes.skip(next);
            let (longer, ended) = self.or_way(bytes, orders, done)?;
            done = longer;
            behind = ended;
        }
        Ok((done, behind))
    }

    /// Conditions joined by OR, and what stands behind them: whether a word may follow, and whether ORDER was read.
    #[tactic(auto, unfolding(crate::specs::Conditions::any_of))]
    fn any_of(
        &self,
        bytes: &mut ByteCursor<'_>,
        orders: bool,
        free: bool,
    ) -> Result<(Condition, (bool, bool)), Fault>
        requires nests { Nests (self.now.room + 1) (F.pre self.now.atom) (F.post self.now.atom) }
        ensures { Reads (under (spec.any_of (spec.atom (tested_as self.now.naming) self.now.room) orders free) bytes.old) result bytes.new }
    {
        let (first, after) = self.way(bytes, free, Items::new(self.alloc))?;
        let (ways, behind) = self.more_ways(bytes, orders, first, after)?;
        Ok((Condition::Any(ways), behind))
    }

    /// Behind an opening bracket.
    #[tactic(auto, unfolding(crate::specs::Conditions::bracketed))]
    fn bracketed(&self, bytes: &mut ByteCursor<'_>) -> Result<(Condition, bool), Fault>
        requires nests { Nests (self.now.room + 1) (F.pre self.now.atom) (F.post self.now.atom) }
        ensures { Reads (under (spec.bracketed (spec.atom (tested_as self.now.naming) self.now.room)) bytes.old) result bytes.new }
    {
        gap(bytes);
        let (condition, _) = self.any_of(bytes, false, true)?;
        sign(bytes, b')')?;
        Ok((condition, true))
    }

    /// A test, or a condition in brackets.
    #[tactic(auto, unfolding(crate::specs::Conditions::begun))]
    fn begun(&self, bytes: &mut ByteCursor<'_>, free: bool) -> Result<(Condition, bool), Fault>
        requires nests { Nests (self.now.room + 1) (F.pre self.now.atom) (F.post self.now.atom) }
        ensures { Reads (under (spec.begun (tested_as self.now.naming) true
            (spec.bracketed (spec.atom (tested_as self.now.naming) self.now.room)) free) bytes.old) result bytes.new }
    {
        match bytes.peek() {
            Some(next) if next.byte == b'(' => {
                bytes.skip(next);
                self.bracketed(bytes)
            }
            Some(next) if is_letter(next.byte) && free => {
                bytes.skip(next);
                read_test(self.alloc, bytes, self.naming, next.byte)
            }
            _ => Err(Fault::Syntax),
        }
    }
}

/// A test, or a condition in brackets, of which so many may still open in one another.
pub fn atom(
    alloc: Global,
    bytes: &mut ByteCursor<'_>,
    naming: Naming,
    free: bool,
    room: usize,
) -> Result<(Condition, bool), Fault>
    ensures { Reads (under (spec.atom (tested_as naming) room free) bytes.old) result bytes.new }
{
    if room == 0 {
        no_bracket(alloc, bytes, naming, free)
    } else {
        Inner {
            alloc,
            naming,
            room: room - 1,
            atom,
        }
        .begun(bytes, free)
    }
}

/// The condition behind WHERE, and then whether a word may follow, and whether the ORDER of a SELECT was read, which may stand there (`orders`).
pub fn condition(
    alloc: Global,
    bytes: &mut ByteCursor<'_>,
    naming: Naming,
    orders: bool,
    free: bool,
) -> Result<(Condition, (bool, bool)), Fault>
    ensures { Reads (under (spec.any_of (spec.atom (tested_as naming) 50) orders free) bytes.old) result bytes.new }
{
    Inner {
        alloc,
        naming,
        room: 50,
        atom,
    }
    .any_of(bytes, orders, free)
}
