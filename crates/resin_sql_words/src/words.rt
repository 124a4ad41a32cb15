//! Blanks, keywords and names.

ghost use Rattle.std.specs.Prelude.{◌≡◌};
ghost use Rattle.resin_form.specs.Reading.{Got};
ghost use Rattle.resin_form.specs.Reads.{Reads};
ghost use Rattle.resin_sql_words.specs.Words as spec;
ghost use Rattle.resin_sql_words.specs.Forms.{under, behind};

use crate::cursor::ByteCursor;
use resin_bytes::Bytes;
use resin_form::Fault;
use resin_scan::bytes::{is_blank, is_letter, is_word_byte, lower};
use resin_scan::words::spells;
use std::alloc::Global;

/// Passes blanks, and tells whether there were any.
#[tactic(auto, unfolding(crate::specs::Words::gap))]
pub fn gap(bytes: &mut ByteCursor<'_>) -> bool
    ensures { under spec.gap bytes.old ≡ Got result bytes.new }
{
    let mut some = false;
    'turns: while let Some(next) = bytes.peek() {
        if !is_blank(next.byte) {
            break;
        }
        bytes.skip(next);
        some = true;
    }
    some
}

/// Passes the letters of a keyword, given in lower case.
pub fn letters(bytes: &mut ByteCursor<'_>, word: &[u8]) -> Result<(), Fault>
    ensures { Reads (under (spec.letters word.now) bytes.old) result bytes.new }
{
    'turns: for letter in word {
        match bytes.peek() {
            Some(next) if lower(next.byte) == *letter => bytes.skip(next),
            _ => return Err(Fault::Syntax),
        }
    }
    Ok(())
}

/// Passes the letters of a keyword behind its first, given in lower case, and the blanks behind them. It tells whether
/// there were any, so that a word may follow.
#[tactic(auto, unfolding(crate::specs::Words::word))]
pub fn word(bytes: &mut ByteCursor<'_>, others: &[u8]) -> Result<bool, Fault>
    ensures { Reads (under (spec.word others.now) bytes.old) result bytes.new }
{
    letters(bytes, others)?;
    Ok(gap(bytes))
}

/// Passes a keyword, given in lower case by its first letter and the others, where a word may begin, and the blanks
/// behind it.
#[tactic(auto, unfolding(crate::specs::Words::keyword))]
pub fn keyword(
    bytes: &mut ByteCursor<'_>,
    free: bool,
    first: u8,
    others: &[u8],
) -> Result<bool, Fault>
    ensures { Reads (under (spec.keyword free first others.now) bytes.old) result bytes.new }
{
    match bytes.peek() {
        Some(next) if lower(next.byte) == first && free => {
            bytes.skip(next);
            word(bytes, others)
        }
        _ => Err(Fault::Syntax),
    }
}

/// Passes a byte that stands for itself, and the blanks behind it.
#[tactic(auto, unfolding(crate::specs::Words::sign))]
pub fn sign(bytes: &mut ByteCursor<'_>, byte: u8) -> Result<bool, Fault>
    ensures { Reads (under (spec.sign byte) bytes.old) result bytes.new }
{
    match bytes.peek() {
        Some(next) if next.byte == byte => {
            bytes.skip(next);
            Ok(gap(bytes))
        }
        _ => Err(Fault::Syntax),
    }
}

fn begins_statement(word: &[u8]) -> bool
    ensures { result ≡ spec.begins_statement word.now }
{
    spells(b"create", word)
        || spells(b"insert", word)
        || spells(b"select", word)
        || spells(b"update", word)
        || spells(b"delete", word)
}

fn is_object_word(word: &[u8]) -> bool
    ensures { result ≡ spec.is_object_word word.now }
{
    spells(b"table", word)
        || spells(b"integer", word)
        || spells(b"text", word)
        || spells(b"into", word)
        || spells(b"values", word)
        || spells(b"set", word)
}

fn is_clause_word(word: &[u8]) -> bool
    ensures { result ≡ spec.is_clause_word word.now }
{
    spells(b"from", word)
        || spells(b"where", word)
        || spells(b"order", word)
        || spells(b"by", word)
        || spells(b"asc", word)
        || spells(b"desc", word)
        || spells(b"limit", word)
}

fn is_test_word(word: &[u8]) -> bool
    ensures { result ≡ spec.is_test_word word.now }
{
    spells(b"and", word)
        || spells(b"or", word)
        || spells(b"is", word)
        || spells(b"not", word)
        || spells(b"null", word)
}

fn is_keyword(word: &[u8]) -> bool
    ensures { result ≡ spec.is_keyword word.now }
{
    begins_statement(word) || is_object_word(word) || is_clause_word(word) || is_test_word(word)
}

/// Whether a word is no name.
fn is_reserved(word: &[u8]) -> bool
    ensures { result ≡ spec.is_reserved word.now }
{
    is_keyword(word) || word.ends_with(b"__resin")
}

#[tactic(auto, unfolding(crate::specs::Words::lawful))]
fn lawful(bytes: &ByteCursor<'_>, word: Bytes) -> Result<Bytes, Fault>
    ensures { Reads (under (spec.lawful word) bytes.now) result bytes.now }
{
    let _place = bytes;
    if is_reserved(word.as_slice()) {
        Err(Fault::Syntax)
    } else {
        Ok(word)
    }
}

/// What a byte of a name does.
#[tactic(auto, unfolding(crate::specs::Words::name_step))]
fn name_step(bytes: &ByteCursor<'_>, word: Bytes, byte: u8) -> Result<Bytes, Fault>
    ensures { Reads (behind (spec.name_step word byte) bytes.now) result bytes.now }
{
    let _place = bytes;
    if word.as_slice().len() >= 64 {
        return Err(Fault::TooDeep);
    }
    let mut longer = word;
    longer.push(byte)?;
    Ok(longer)
}

/// The bytes of a name behind the first.
fn more_of_name(bytes: &mut ByteCursor<'_>, first: Bytes) -> Result<Bytes, Fault>
    ensures { Reads (under (spec.more_of_name first) bytes.old) result bytes.new }
{
    let mut word = first;
    'turns: while let Some(next) = bytes.peek() {
        if !is_word_byte(next.byte) {
            break;
        }
        bytes.skip(next);
        word = name_step(bytes, word, next.byte)?;
    }
    Ok(word)
}

/// The name that begins with this byte.
#[tactic(auto, unfolding(crate::specs::Words::name))]
pub fn name(alloc: Global, bytes: &mut ByteCursor<'_>, byte: u8) -> Result<Bytes, Fault>
    ensures { Reads (under (spec.name byte) bytes.old) result bytes.new }
{
    let first = Bytes::from_slice(alloc, &[byte])?;
    let word = more_of_name(bytes, first)?;
    lawful(bytes, word)
}

/// The name that begins with this byte, and whether blanks stand behind it.
#[tactic(auto, unfolding(crate::specs::Words::name_from))]
pub fn name_from(
    alloc: Global,
    bytes: &mut ByteCursor<'_>,
    byte: u8,
) -> Result<(Bytes, bool), Fault>
    ensures { Reads (under (spec.name_from byte) bytes.old) result bytes.new }
{
    let word = name(alloc, bytes, byte)?;
    let some = gap(bytes);
    Ok((word, some))
}

/// A name, where a word may begin, and whether blanks stand behind it.
#[tactic(auto, unfolding(crate::specs::Words::named))]
pub fn named(alloc: Global, bytes: &mut ByteCursor<'_>, free: bool) -> Result<(Bytes, bool), Fault>
    ensures { Reads (under (spec.named free) bytes.old) result bytes.new }
{
    match bytes.peek() {
        Some(next) if is_letter(next.byte) && free => {
            bytes.skip(next);
            name_from(alloc, bytes, next.byte)
        }
        _ => Err(Fault::Syntax),
    }
}
