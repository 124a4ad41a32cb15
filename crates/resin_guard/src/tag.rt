//! Tags.

ghost use Rattle.std.specs.Prelude.{◌≡◌, ◌<◌, ◌&&◌, not, false};
ghost use Rattle.resin_form.specs.Reading.{Got};
ghost use Rattle.resin_sql_words.specs.Forms.{under};
ghost use Rattle.resin_guard.specs.Answers.{Reads};
ghost use Rattle.resin_guard.specs.Pages as spec;

use crate::page::PageFault;
use crate::stretch::{before, byte, is_blank, raw};
use resin_bytes::Bytes;
use resin_lstr::Parts;
use resin_scan::bytes::{is_digit, lower};
use resin_scan::words::spells;
use resin_sql_words::{ByteCursor, Placed};
use std::alloc::Global;

/// An ASCII letter.
pub(crate) fn is_alphabetic(byte: u8) -> bool
    ensures { result ≡ spec.is_alphabetic byte }
{
    lower(byte) >= b'a' && lower(byte) <= b'z'
}

/// What goes on with the name of a tag, or of an attribute.
fn is_name_byte(of_attribute: bool, byte: u8) -> bool
    ensures { result ≡ spec.is_name_byte of_attribute byte }
{
    is_alphabetic(byte)
        || is_digit(byte)
        || byte == b'-'
        || (of_attribute && (byte == b'_' || byte == b':'))
}

#[tactic(auto, unfolding(crate::specs::Pages::longer))]
fn longer(bytes: &ByteCursor<'_>, word: Bytes, byte: u8) -> Result<Bytes, PageFault>
    ensures { Reads (under (spec.longer word byte) bytes.now) result bytes.now }
{
    let _place = bytes;
    let mut longer = word;
    longer.push(lower(byte))?;
    Ok(longer)
}

/// The bytes of a name behind the first.
fn more_of_name(
    bytes: &mut ByteCursor<'_>,
    of_attribute: bool,
    first: Bytes,
) -> Result<Bytes, PageFault>
    ensures { Reads (under (spec.more_of_name of_attribute first) bytes.old) result bytes.new }
{
    let mut word = first;
    'turns: while let Some(next) = bytes.peek() {
        if !is_name_byte(of_attribute, next.byte) {
            break;
        }
        bytes.skip(next);
        word = longer(bytes, word, next.byte)?;
    }
    Ok(word)
}

/// The name that begins with this byte, in lower case.
#[tactic(auto, unfolding(crate::specs::Pages::name))]
fn name(
    alloc: Global,
    bytes: &mut ByteCursor<'_>,
    of_attribute: bool,
    first: u8,
) -> Result<Bytes, PageFault>
    ensures { Reads (under (spec.name of_attribute first) bytes.old) result bytes.new }
{
    let word = Bytes::from_slice(alloc, &[lower(first)])?;
    more_of_name(bytes, of_attribute, word)
}

/// Whether an element of this name has raw text.
fn is_raw(name: &[u8]) -> bool
    ensures { result ≡ spec.is_raw name.now }
{
    spells(b"script", name) || spells(b"style", name)
}

/// Whether the value of an attribute of this name is code or an address.
fn is_harmful(name: &[u8]) -> bool
    ensures { result ≡ spec.is_harmful name.now }
{
    name.starts_with(b"on")
        || spells(b"style", name)
        || spells(b"href", name)
        || spells(b"src", name)
        || spells(b"action", name)
        || spells(b"formaction", name)
}

/// One more place.
#[tactic(auto, unfolding(crate::specs::Pages::put))]
pub(crate) fn put(
    bytes: &ByteCursor<'_>,
    places: Parts,
    from: usize,
    to: usize,
) -> Result<Parts, PageFault>
    ensures { Reads (under (spec.put places from to) bytes.now) result bytes.now }
{
    let _place = bytes;
    let mut more = places;
    more.push((from, to))?;
    Ok(more)
}

/// A value behind its opening quote, and the quote that closes it.
#[tactic(auto, unfolding(crate::specs::Pages::quoted))]
fn quoted(
    bytes: &mut ByteCursor<'_>,
    safe: bool,
    places: Parts,
    quote: Placed,
) -> Result<Parts, PageFault>
    requires { quote.at < usize.MAX }
    ensures { Reads (under (spec.quoted safe places quote) bytes.old) result bytes.new }
{
    let from = quote.at + 1;
    let to = before(bytes, quote.byte, from);
    byte(bytes, quote.byte)?;
    if safe {
        put(bytes, places, from, to)
    } else {
        Ok(places)
    }
}

/// A value behind its `=`.
#[tactic(auto, unfolding(crate::specs::Pages::value))]
fn value(bytes: &mut ByteCursor<'_>, safe: bool, places: Parts) -> Result<Parts, PageFault>
    ensures { Reads (under (spec.value safe places) bytes.old) result bytes.new }
{
    match bytes.peek() {
        Some(next) if next.byte == b'"' || next.byte == b'\'' => {
            bytes.skip(next);
            quoted(bytes, safe, places, next)
        }
        _ => Err(PageFault::Syntax),
    }
}

fn is_safe(safe: bool, name: &[u8]) -> bool
    ensures { result ≡ (safe && not (spec.is_harmful name.now)) }
{
    safe && !is_harmful(name)
}

/// A `=` and a value, or nothing.
#[tactic(auto, unfolding(crate::specs::Pages::valued))]
fn valued(bytes: &mut ByteCursor<'_>, safe: bool, places: Parts) -> Result<Parts, PageFault>
    ensures { Reads (under (spec.valued safe places) bytes.old) result bytes.new }
{
    match bytes.peek() {
        Some(next) if next.byte == b'=' => {
            bytes.skip(next);
            value(bytes, safe, places)
        }
        _ => Ok(places),
    }
}

/// An attribute from its first byte on; `safe` where it may have a safe value.
#[tactic(auto, unfolding(crate::specs::Pages::attribute))]
fn attribute(
    alloc: Global,
    bytes: &mut ByteCursor<'_>,
    safe: bool,
    places: Parts,
    first: u8,
) -> Result<Parts, PageFault>
    ensures { Reads (under (spec.attribute safe places first) bytes.old) result bytes.new }
{
    let word = name(alloc, bytes, true, first)?;
    valued(bytes, is_safe(safe, word.as_slice()), places)
}

/// A blank, or an attribute by its first byte, and whether it is a blank.
#[tactic(auto, unfolding(crate::specs::Pages::blank_or_attribute))]
fn blank_or_attribute(
    alloc: Global,
    bytes: &mut ByteCursor<'_>,
    safe: bool,
    places: Parts,
    first: u8,
) -> Result<(Parts, bool), PageFault>
    ensures { Reads (under (spec.blank_or_attribute safe places first) bytes.old) result bytes.new }
{
    if is_blank(first) {
        Ok((places, true))
    } else {
        let more = attribute(alloc, bytes, safe, places, first)?;
        Ok((more, false))
    }
}

fn is_next(gap: bool, byte: u8) -> bool
    ensures { result ≡ spec.is_next gap byte }
{
    is_blank(byte) || (is_alphabetic(byte) && gap)
}

/// Attributes with blanks before each of them and behind them, and whether there are blanks behind them.
fn attributes(
    alloc: Global,
    bytes: &mut ByteCursor<'_>,
    safe: bool,
    first: Parts,
) -> Result<(Parts, bool), PageFault>
    ensures { Reads (under (spec.attributes safe (first, false)) bytes.old) result bytes.new }
{
    let mut places = first;
    let mut gap = false;
    'turns: while let Some(next) = bytes.peek() {
        if !is_next(gap, next.byte) {
            break;
        }
        bytes.skip(next);
        let (more, blank) = blank_or_attribute(alloc, bytes, safe, places, next.byte)?;
        places = more;
        gap = blank;
    }
    Ok((places, gap))
}

/// Passes a `/`, if one stands there.
#[tactic(auto, unfolding(crate::specs::Pages::slash))]
fn slash(bytes: &mut ByteCursor<'_>)
    ensures { under spec.slash bytes.old ≡ Got tt bytes.new }
{
    match bytes.peek() {
        Some(next) if next.byte == b'/' => bytes.skip(next),
        _ => {}
    }
}

/// A tag behind its name.
#[tactic(auto, unfolding(crate::specs::Pages::tag_end))]
fn tag_end(
    alloc: Global,
    bytes: &mut ByteCursor<'_>,
    safe: bool,
    places: Parts,
) -> Result<Parts, PageFault>
    ensures { Reads (under (spec.tag_end safe places) bytes.old) result bytes.new }
{
    let (more, _blank) = attributes(alloc, bytes, safe, places)?;
    slash(bytes);
    byte(bytes, b'>')?;
    Ok(more)
}

/// A closing tag from its name's first byte on.
#[tactic(auto, unfolding(crate::specs::Pages::closing_from))]
fn closing_from(
    alloc: Global,
    bytes: &mut ByteCursor<'_>,
    places: Parts,
    first: u8,
) -> Result<Parts, PageFault>
    ensures { Reads (under (spec.closing_from places first) bytes.old) result bytes.new }
{
    let word = name(alloc, bytes, false, first)?;
    if is_raw(word.as_slice()) {
        Err(PageFault::Syntax)
    } else {
        tag_end(alloc, bytes, true, places)
    }
}

/// A closing tag behind its `</`.
#[tactic(auto, unfolding(crate::specs::Pages::closing))]
pub(crate) fn closing(
    alloc: Global,
    bytes: &mut ByteCursor<'_>,
    places: Parts,
) -> Result<Parts, PageFault>
    ensures { Reads (under (spec.closing places) bytes.old) result bytes.new }
{
    match bytes.peek() {
        Some(next) if is_alphabetic(next.byte) => {
            bytes.skip(next);
            closing_from(alloc, bytes, places, next.byte)
        }
        _ => Err(PageFault::Syntax),
    }
}

/// The rest of a raw element, where an opening tag of this name begins one.
#[tactic(auto, unfolding(crate::specs::Pages::behind_opening))]
fn behind_opening(
    bytes: &mut ByteCursor<'_>,
    name: &[u8],
    places: Parts,
) -> Result<Parts, PageFault>
    ensures { Reads (under (spec.behind_opening name.now places) bytes.old) result bytes.new }
{
    if is_raw(name) {
        raw(bytes, name)?;
        Ok(places)
    } else {
        Ok(places)
    }
}

/// An opening tag from its name's first byte on, and the rest of a raw element that it begins.
#[tactic(auto, unfolding(crate::specs::Pages::opening))]
pub(crate) fn opening(
    alloc: Global,
    bytes: &mut ByteCursor<'_>,
    places: Parts,
    first: u8,
) -> Result<Parts, PageFault>
    ensures { Reads (under (spec.opening places first) bytes.old) result bytes.new }
{
    let word = name(alloc, bytes, false, first)?;
    let more = tag_end(alloc, bytes, !is_raw(word.as_slice()), places)?;
    behind_opening(bytes, word.as_slice(), more)
}
