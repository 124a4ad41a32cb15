//! Literals.

ghost use Rattle.std.specs.Prelude.{◌≡◌, ◌≤◌, ◌<◌, true, None, IfOk};
ghost use Rattle.resin_sql_words.specs.Literals as spec;
ghost use Rattle.resin_sql_words.specs.Forms.{under, behind};
ghost use Rattle.resin_scan.specs.Bytes.{is_digit};
ghost use Rattle.resin_form.specs.Reading.{Got};
ghost use Rattle.resin_form.specs.Reads.{Reads};

use crate::cursor::{ByteCursor, Placed};
use crate::words::{gap, word};
use resin_form::Fault;
use resin_scan::bytes::{is_digit, lower};

/// Where something stands in a text: the offset of its first byte, and the one behind its last.
#[derive(Clone, Copy, Debug, PartialEq, Eq)]
pub struct Span {
    pub from: usize,
    pub to: usize,
}

/// A literal of a statement.
#[derive(Clone, Copy, Debug, PartialEq, Eq)]
pub enum Literal {
    Null,
    /// An integer, and where its digits stand, with the `-` before them.
    Integer(i64, Span),
    /// A text, by where it stands between its quotes. A doubled quote there is one quote of the text.
    Text(Span),
}

/// The greatest value of a number's digits.
fn greatest(negative: bool) -> u64
    ensures { result ≡ spec.greatest negative }
{
    if negative {
        9_223_372_036_854_775_808
    } else {
        9_223_372_036_854_775_807
    }
}

/// The number with these digits, behind a `-` or not.
fn signed(negative: bool, value: u64) -> i64
    requires { value ≤ spec.greatest negative }
    ensures { result ≡ spec.signed negative value }
{
    if !negative {
        value as i64
    } else if value == 0 {
        0
    } else {
        -((value - 1) as i64) - 1
    }
}

/// What a digit does.
#[tactic(auto, unfolding(crate::specs::Literals::digit_step))]
fn digit_step(
    bytes: &ByteCursor<'_>,
    greatest: u64,
    value: u64,
    next: Placed,
) -> Result<(u64, usize), Fault>
    requires limit { greatest ≤ 9223372036854775808 }
    requires digit { is_digit next.byte ≡ true }
    requires small { next.at < usize.MAX }
    ensures reads { Reads (behind (spec.digit_step greatest value next) bytes.now) result bytes.now }
    ensures within { IfOk result (λ s. s.0 ≤ greatest) }
{
    let _place = bytes;
    let wide = value as u128 * 10 + (next.byte - b'0') as u128;
    if wide > greatest as u128 {
        Err(Fault::TooDeep)
    } else {
        Ok((wide as u64, next.at + 1))
    }
}

/// The digits that go on, from the value so far and the offset behind it.
fn more_digits(
    bytes: &mut ByteCursor<'_>,
    greatest: u64,
    first: u64,
    behind: usize,
) -> Result<(u64, usize), Fault>
    requires limit { greatest ≤ 9223372036854775808 }
    requires within { first ≤ greatest }
    ensures reads { Reads (under (spec.more_digits greatest (first, behind)) bytes.old) result bytes.new }
    ensures within { IfOk result (λ s. s.0 ≤ greatest) }
{
    let mut value = first;
    let mut to = behind;
    'turns: while let Some(next) = bytes.peek() {
        if !is_digit(next.byte) {
            break;
        }
        bytes.skip(next);
        let (more, at) = digit_step(bytes, greatest, value, next)?;
        value = more;
        to = at;
    }
    Ok((value, to))
}

/// The value of a number from its first digit on, and the offset behind it.
#[tactic(auto, unfolding(crate::specs::Literals::digits))]
fn digits(bytes: &mut ByteCursor<'_>, greatest: u64, first: Placed) -> Result<(u64, usize), Fault>
    requires least { 9 ≤ greatest }
    requires limit { greatest ≤ 9223372036854775808 }
    requires digit { is_digit first.byte ≡ true }
    requires small { first.at < usize.MAX }
    ensures reads { Reads (under (spec.digits greatest first) bytes.old) result bytes.new }
    ensures within { IfOk result (λ s. s.0 ≤ greatest) }
{
    more_digits(bytes, greatest, (first.byte - b'0') as u64, first.at + 1)
}

/// A number without a sign, from its first digit on: its value, at most 9,223,372,036,854,775,807, and the offset behind it.
pub fn count(bytes: &mut ByteCursor<'_>, first: Placed) -> Result<(u64, usize), Fault>
    requires digit { is_digit first.byte ≡ true }
    requires small { first.at < usize.MAX }
    ensures { Reads (under (spec.digits 9223372036854775807 first) bytes.old) result bytes.new }
{
    digits(bytes, 9_223_372_036_854_775_807, first)
}

#[tactic(auto, unfolding(crate::specs::Literals::integer))]
fn integer(
    bytes: &mut ByteCursor<'_>,
    negative: bool,
    from: usize,
    first: Placed,
) -> Result<Literal, Fault>
    requires digit { is_digit first.byte ≡ true }
    requires small { first.at < usize.MAX }
    ensures { Reads (under (spec.integer negative from first) bytes.old) result bytes.new }
{
    let (value, to) = digits(bytes, greatest(negative), first)?;
    Ok(Literal::Integer(signed(negative, value), Span { from, to }))
}

#[tactic(auto, unfolding(crate::specs::Literals::negative))]
fn negative(bytes: &mut ByteCursor<'_>, from: usize) -> Result<Literal, Fault>
    ensures { Reads (under (spec.negative from) bytes.old) result bytes.new }
{
    match bytes.peek() {
        Some(next) if is_digit(next.byte) => {
            bytes.skip(next);
            integer(bytes, true, from, next)
        }
        _ => Err(Fault::Syntax),
    }
}

/// What a byte between quotes, or behind the second, does.
fn quoted_step(closed: Option<usize>, next: Placed) -> Option<usize>
    ensures { result ≡ spec.quoted_step closed next }
{
    match closed {
        None if next.byte == b'\'' => Some(next.at),
        _ => None,
    }
}

/// Whether a byte goes on with a text.
fn is_quoted(closed: Option<usize>, byte: u8) -> bool
    ensures { result ≡ spec.is_quoted closed byte }
{
    match closed {
        None => true,
        Some(_) => byte == b'\'',
    }
}

/// The offset of the quote that ends the text, if one does.
#[tactic(auto, unfolding(crate::specs::Literals::quoted))]
fn quoted(bytes: &mut ByteCursor<'_>) -> Option<usize>
    ensures { under (spec.quoted None) bytes.old ≡ Got result bytes.new }
{
    let mut closed = None;
    'turns: while let Some(next) = bytes.peek() {
        if !is_quoted(closed, next.byte) {
            break;
        }
        bytes.skip(next);
        closed = quoted_step(closed, next);
    }
    closed
}

/// A text behind its opening quote, from the offset behind that.
#[tactic(auto, unfolding(crate::specs::Literals::text))]
fn text(bytes: &mut ByteCursor<'_>, from: usize) -> Result<Literal, Fault>
    ensures { Reads (under (spec.text from) bytes.old) result bytes.new }
{
    match quoted(bytes) {
        Some(to) => Ok(Literal::Text(Span { from, to })),
        None => Err(Fault::Syntax),
    }
}

#[tactic(auto, unfolding(crate::specs::Literals::null))]
fn null(bytes: &mut ByteCursor<'_>) -> Result<(Literal, bool), Fault>
    ensures { Reads (under spec.null bytes.old) result bytes.new }
{
    let some = word(bytes, b"ull")?;
    Ok((Literal::Null, some))
}

#[tactic(auto, unfolding(crate::specs::Literals::literal_from, crate::specs::Literals::spaced))]
fn literal_from(bytes: &mut ByteCursor<'_>, first: Placed) -> Result<(Literal, bool), Fault>
    requires { first.at < usize.MAX }
    ensures { Reads (under (spec.literal_from first) bytes.old) result bytes.new }
{
    let literal = if is_digit(first.byte) {
        integer(bytes, false, first.at, first)?
    } else if first.byte == b'-' {
        negative(bytes, first.at)?
    } else if first.byte == b'\'' {
        text(bytes, first.at + 1)?
    } else {
        return null(bytes);
    };
    gap(bytes);
    Ok((literal, true))
}

fn begins_literal(byte: u8) -> bool
    ensures { result ≡ spec.begins_literal byte }
{
    is_digit(byte) || byte == b'-' || byte == b'\'' || lower(byte) == b'n'
}

/// A literal, and whether a word may follow.
#[tactic(auto, unfolding(crate::specs::Literals::literal))]
pub fn read_literal(bytes: &mut ByteCursor<'_>) -> Result<(Literal, bool), Fault>
    ensures { Reads (under spec.literal bytes.old) result bytes.new }
{
    match bytes.peek() {
        Some(next) if begins_literal(next.byte) => {
            bytes.skip(next);
            literal_from(bytes, next)
        }
        _ => Err(Fault::Syntax),
    }
}
