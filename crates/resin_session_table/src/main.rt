//! Reads and writes session texts, one a line, and prints the answer of each:
//!
//! - `read|TEXT`: the next key of the array that the text keeps and its entries, or `none`;
//! - `write|ITEM|ITEM..`: the text of an array, or why it has none;
//! - `read long|LENGTH`: the same as `read` of a text with so many bytes as the value of `k`, of which the length is printed;
//! - `write long|LENGTH|ITEM..`: the same as `write` of an array with such a value and the items, of which the length of its text is printed;
//! - `many|COUNT`: how long the text of an array with so many integers, 0, 1 and so on, is, and how many entries are read from it.
//!
//! An item `KEY=VALUE` puts a value at the key that a text counts as, an item `!KEY` takes one out. A value is `i` and an integer, `s` and a text,
//! `null`, `true`, `array` (an empty one) or `object`. In texts `\n`, `\\` and `\xhh` stand for a byte; `<12>` lets the bytes behind it carry the
//! policies 1 and 2 alone, `<>` none, and the set of an integer is that of its first byte. In answers a key that is a text stands between `'`.
//!
//! The answers were worked out by a program in Python from the format alone.
#![tactic(auto)]

mod arrays;
mod texts;

use crate::arrays::{array_in, long_array, many, shown_array};
use crate::texts::{decimal_in, long_text, shown_text, text_in};
use resin_session::{SessionFault, read_session, write_session};
use resin_table_rows::print_answers;
use resin_value::Arr;
use resin_value::under::lstr::{LText, TextFault};
use std::alloc::{AllocError, Global};
use std::io;

/// What a text keeps.
fn read(alloc: Global, text: &LText) -> Result<String, AllocError> {
    match read_session(alloc, text)? {
        Some(array) => shown_array(alloc, &array),
        None => String::from_str(alloc, "none"),
    }
}

/// The text of an array.
fn write(alloc: Global, array: &Arr) -> Result<String, AllocError> {
    match write_session(alloc, array) {
        Ok(text) => shown_text(alloc, &text),
        Err(SessionFault::NotStorable) => String::from_str(alloc, "not storable"),
        Err(SessionFault::TooLong) => String::from_str(alloc, "too long"),
        Err(SessionFault::Memory) => Err(AllocError),
    }
}

/// How long the text of an array is, and how many entries are read from it.
fn both(alloc: Global, array: &Arr) -> Result<String, AllocError> {
    let Ok(text) = write_session(alloc, array) else {
        return String::from_str(alloc, "no text");
    };
    match read_session(alloc, &text)? {
        Some(back) => format!(in alloc; "{} bytes, {} entries", text.len(), back.len()),
        None => String::from_str(alloc, "none"),
    }
}

fn answer(alloc: Global, line: &[u8]) -> Result<String, TextFault> {
    let (word, rest) = match line.iter().position(|b| *b == b'|') {
        Some(end) => (&line[..end], &line[end + 1..]),
        None => (line, &line[line.len()..]),
    };
    if word == b"read".as_slice() {
        Ok(read(alloc, &text_in(alloc, rest)?)?)
    } else if word == b"write".as_slice() {
        Ok(write(alloc, &array_in(alloc, rest)?)?)
    } else if word == b"read long".as_slice() {
        Ok(read(alloc, &long_text(alloc, decimal_in(rest))?)?)
    } else if word == b"many".as_slice() {
        Ok(both(alloc, &many(alloc, decimal_in(rest))?)?)
    } else {
        Ok(write(alloc, &long_array(alloc, rest)?)?)
    }
}

fn shown(alloc: Global, line: &[u8]) -> Result<String, AllocError> {
    match answer(alloc, line) {
        Ok(text) => Ok(text),
        Err(TextFault::TooLong) => String::from_str(alloc, "unreadable"),
        Err(TextFault::Memory) => Err(AllocError),
    }
}

fn main(rt: HostRuntime) -> io::Result<()> {
    print_answers(&rt, |alloc, line| shown(alloc, line.as_bytes()))
}
