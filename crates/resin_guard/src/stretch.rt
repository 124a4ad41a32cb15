//! Stretches of bytes: up to a byte, comments, doctypes and raw text.

ghost use Rattle.std.specs.Prelude.{◌≡◌, ◌+◌, ◌<◌, nat_lt, length};
ghost use Rattle.resin_form.specs.Reading.{Got};
ghost use Rattle.resin_sql_words.specs.Forms.{under};
ghost use Rattle.resin_sql_words.specs.Words as words;
ghost use Rattle.resin_guard.specs.Answers.{Reads};
ghost use Rattle.resin_guard.specs.Pages as spec;

use crate::page::PageFault;
use resin_scan::bytes::lower;
use resin_sql_words::ByteCursor;

/// Space, tab, CR, LF or FF.
pub(crate) fn is_blank(byte: u8) -> bool
    ensures { result ≡ spec.is_blank byte }
{
    byte == b' ' || byte == b'\t' || byte == b'\r' || byte == b'\n' || byte == 12
}

/// Passes blanks.
fn blanks(bytes: &mut ByteCursor<'_>)
    ensures { under spec.blanks bytes.old ≡ Got tt bytes.new }
{
    'turns: while let Some(next) = bytes.peek() {
        if !is_blank(next.byte) {
            break;
        }
        bytes.skip(next);
    }
}

/// Passes the byte that must come.
#[tactic(auto, unfolding(crate::specs::Pages::byte))]
pub(crate) fn byte(bytes: &mut ByteCursor<'_>, wanted: u8) -> Result<(), PageFault>
    ensures { Reads (under (spec.byte wanted) bytes.old) result bytes.new }
{
    match bytes.peek() {
        Some(next) if next.byte == wanted => {
            bytes.skip(next);
            Ok(())
        }
        _ => Err(PageFault::Syntax),
    }
}

/// Passes the bytes before the next `end`, and tells the offset behind them, where they begin at this offset.
pub(crate) fn before(bytes: &mut ByteCursor<'_>, end: u8, from: usize) -> usize
    ensures { under (spec.before end from) bytes.old ≡ Got result bytes.new }
{
    let mut to = from;
    'turns: while let Some(next) = bytes.peek() {
        if next.byte == end {
            break;
        }
        bytes.skip(next);
        to = next.at + 1;
    }
    to
}

/// Refuses what isn't done.
fn ended(bytes: &ByteCursor<'_>, done: bool) -> Result<(), PageFault>
    ensures { Reads (under (spec.ended done) bytes.now) result bytes.now }
{
    let _place = bytes;
    if done { Ok(()) } else { Err(PageFault::Syntax) }
}

/// Passes the letters of a word, given in lower case.
fn letters(bytes: &mut ByteCursor<'_>, word: &[u8]) -> Result<(), PageFault>
    ensures { Reads (under (words.letters word.now) bytes.old) result bytes.new }
{
    'turns: for letter in word {
        match bytes.peek() {
            Some(next) if lower(next.byte) == *letter => bytes.skip(next),
            _ => return Err(PageFault::Syntax),
        }
    }
    Ok(())
}

/// How many bytes of `-->` a comment ends with.
fn comment_step(count: u8, byte: u8) -> u8
    ensures { result ≡ spec.comment_step count byte }
{
    if byte == b'-' {
        if count == 0 { 1 } else { 2 }
    } else if byte == b'>' && count == 2 {
        3
    } else {
        0
    }
}

/// The bytes of a comment up to its end, and how many bytes of `-->` they end with.
#[tactic(auto, unfolding(crate::specs::Pages::comment_from))]
fn comment_text(bytes: &mut ByteCursor<'_>) -> u8
    ensures { under (spec.comment_from 0) bytes.old ≡ Got result bytes.new }
{
    let mut count = 0;
    'turns: while let Some(next) = bytes.peek() {
        if count >= 3 {
            break;
        }
        bytes.skip(next);
        count = comment_step(count, next.byte);
    }
    count
}

/// A comment behind its `<!--`.
#[tactic(auto, unfolding(crate::specs::Pages::comment))]
pub(crate) fn comment(bytes: &mut ByteCursor<'_>) -> Result<(), PageFault>
    ensures { Reads (under spec.comment bytes.old) result bytes.new }
{
    let count = comment_text(bytes);
    ended(bytes, count == 3)
}

/// A doctype behind its `<!d`.
#[tactic(auto, unfolding(crate::specs::Pages::doctype))]
pub(crate) fn doctype(bytes: &mut ByteCursor<'_>) -> Result<(), PageFault>
    ensures { Reads (under spec.doctype bytes.old) result bytes.new }
{
    letters(bytes, b"octype")?;
    before(bytes, b'>', 0);
    byte(bytes, b'>')
}

/// A byte of `</` and a name.
fn end_byte(name: &[u8], at: usize) -> u8
    requires { at < length name.now + 2 }
    ensures { result ≡ spec.end_byte name.now at }
{
    if at == 0 {
        b'<'
    } else if at == 1 {
        b'/'
    } else {
        name[at - 2]
    }
}

/// How many bytes of `</` and the name the raw text ends with.
fn raw_step(name: &[u8], count: usize, byte: u8) -> usize
    requires { count < length name.now + 2 }
    ensures { result ≡ spec.raw_step name.now count byte }
{
    if lower(byte) == end_byte(name, count) {
        count + 1
    } else if byte == b'<' {
        1
    } else {
        0
    }
}

fn is_open(name: &[u8], count: usize) -> bool
    ensures { result ≡ nat_lt count (length name.now + 2) }
{
    count < name.len() + 2
}

/// Raw text up to `</` and the name, and how many bytes of these it ends with.
fn raw_text(bytes: &mut ByteCursor<'_>, name: &[u8]) -> usize
    ensures { under (spec.raw_from name.now 0) bytes.old ≡ Got result bytes.new }
{
    let mut count = 0;
    'turns: while let Some(next) = bytes.peek() {
        if !is_open(name, count) {
            break;
        }
        bytes.skip(next);
        count = raw_step(name, count, next.byte);
    }
    count
}

/// The raw text of an element of this name, and its closing tag.
#[tactic(auto, unfolding(crate::specs::Pages::raw))]
pub(crate) fn raw(bytes: &mut ByteCursor<'_>, name: &[u8]) -> Result<(), PageFault>
    ensures { Reads (under (spec.raw name.now) bytes.old) result bytes.new }
{
    let count = raw_text(bytes, name);
    ended(bytes, count == name.len() + 2)?;
    blanks(bytes);
    byte(bytes, b'>')
}
