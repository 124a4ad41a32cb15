//! How bytes are spelled in a row.
ghost use Rattle.std.specs.Prelude.{◌<◌, length};

use crate::row::cut;
use std::alloc::{AllocError, Global};

fn hexadecimal(b: u8) -> u8
    ensures { result < 16 }
{
    match b {
        b'0'..=b'9' => b - b'0',
        b'a'..=b'f' => b - b'a' + 10,
        _ => 0,
    }
}

// The byte behind a backslash.
fn escaped(b: u8) -> u8 {
    match b {
        b's' => b' ',
        b'n' => b'\n',
        b'r' => b'\r',
        b't' => b'\t',
        _ => b,
    }
}

/// The byte that stands at the front as a field spells it, and how many bytes spell it.
pub fn spelled(s: &[u8]) -> (u8, usize)
    requires { 0 < length s.now }
    ensures { 0 < result.1 }
{
    match s {
        [b'\\', b'x', high, low, ..] => (16 * hexadecimal(*high) + hexadecimal(*low), 4),
        [b'\\', b, ..] => (escaped(*b), 2),
        _ => (s[0], 1),
    }
}

/// The bytes that a field spells: `\s`, `\n`, `\r`, `\t` and `\xhh` stand for a space, the line ends, a tab and the byte of two digits, and
/// a backslash in front of another byte for that byte.
pub fn bytes_in(alloc: Global, field: &str) -> Result<Vec<u8>, AllocError> {
    let bytes = field.as_bytes();
    let mut out = Vec::new(alloc);
    let mut skip = 0usize;
    for i in 0..bytes.len() {
        if skip > 0 {
            skip -= 1;
        } else {
            let (b, taken) = spelled(&bytes[i..]);
            out.push(b)?;
            skip = taken - 1;
        }
    }
    Ok(out)
}

fn push_byte(out: &mut String, b: u8) -> Result<(), AllocError> {
    match b {
        b' ' => out.push_str("\\s"),
        b'\n' => out.push_str("\\n"),
        b'\r' => out.push_str("\\r"),
        b'\t' => out.push_str("\\t"),
        b'\\' => out.push_str("\\\\"),
        33..=126 => out.push(char::from(b)),
        _ => write!(out, "\\x{b:02x}"),
    }
}

/// Puts bytes last as a field spells them.
pub fn push_bytes(out: &mut String, bytes: &[u8]) -> Result<(), AllocError> {
    for b in bytes {
        push_byte(out, *b)?;
    }
    Ok(())
}

/// A text of `front`, so many times `part`, and `back`, as of rows that are too long to stand there whole.
#[derive(Clone, Copy)]
pub struct Repeat<'a> {
    pub count: u32,
    pub front: &'a str,
    pub part: &'a str,
    pub back: &'a str,
}

/// What `COUNT@FRONT@PART@BACK` spells. A piece that isn't there is empty, and a count that is no number is 0.
pub fn repeat_in(field: &str) -> Repeat<'_> {
    let (count, rest) = cut(field, '@');
    let (front, rest) = cut(rest, '@');
    let (part, back) = cut(rest, '@');
    Repeat {
        count: count.parse::<u32>().unwrap_or(0),
        front,
        part,
        back,
    }
}
