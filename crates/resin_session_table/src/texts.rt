//! How texts are spelled in a row, read and written.
ghost use Rattle.std.specs.Prelude.{◌<◌, length};

use resin_table_rows::spelled;
use resin_value::under::label::PSet;
use resin_value::under::lstr::{Builder, LText, TextFault};
use std::alloc::{AllocError, Global};

/// What a place of a line stands for.
enum Spelled {
    /// A byte, and how many bytes spell it.
    Byte(u8, usize),
    /// The beginning of a set of policies.
    Set,
}

fn place_in(s: &[u8]) -> Spelled
    requires { 0 < length s.now }
{
    match s {
        [b'\\', b'x' | b'n' | b'\\', ..] => {
            let (b, taken) = spelled(s);
            Spelled::Byte(b, taken)
        }
        [b'<', ..] => Spelled::Set,
        _ => Spelled::Byte(s[0], 1),
    }
}

/// The set behind a `<`, and how many bytes spell it with both marks.
fn set_in(alloc: Global, line: &[u8]) -> Result<(PSet, usize), AllocError> {
    let mut set = PSet::empty();
    let len = line.iter().position(|b| *b == b'>').unwrap_or(0);
    for digit in &line[..len.min(line.len())] {
        if digit.is_ascii_digit() {
            set = set.with(alloc, u32::from(*digit - b'0'))?;
        }
    }
    Ok((set, len.saturating_add(1)))
}

/// The text that a field spells.
pub fn text_in(alloc: Global, field: &[u8]) -> Result<LText, TextFault> {
    let mut out = Builder::new(alloc);
    let mut set = PSet::empty();
    let mut skip = 0usize;
    for i in 0..field.len() {
        if skip > 0 {
            skip -= 1;
        } else {
            match place_in(&field[i..]) {
                Spelled::Byte(b, taken) => {
                    out = out.append_bytes(&[b], &set)?;
                    skip = taken.saturating_sub(1);
                }
                Spelled::Set => {
                    let (found, taken) = set_in(alloc, &field[i..])?;
                    set = found;
                    skip = taken.saturating_sub(1);
                }
            }
        }
    }
    Ok(out.finish()?)
}

/// The number that digits spell.
pub fn decimal_in(digits: &[u8]) -> u32 {
    digits.iter().fold(
        0,
        |n: u32, b| n
            .wrapping_mul(10)
            .wrapping_add((*b).wrapping_sub(b'0') as u32),
    )
}

/// So many bytes `v`.
pub fn long_value(alloc: Global, len: u32) -> Result<LText, TextFault> {
    let block = [b'v'; 1024];
    let mut bytes = Vec::new(alloc);
    for _i in 0..len / 1024 {
        bytes.extend_from_slice(&block)?;
    }
    bytes.extend_from_slice(&block[..(len % 1024) as usize])?;
    LText::plain(alloc, &bytes)
}

/// A session text with so many bytes `v` as the value of `k`.
pub fn long_text(alloc: Global, len: u32) -> Result<LText, TextFault> {
    let head = format!(in alloc; "s 1 {len}\nk")?;
    let none = PSet::empty();
    let out = Builder::new(alloc).append_bytes(head.as_bytes(), &none)?;
    let out = out.append(&long_value(alloc, len)?)?;
    Ok(out.append_bytes(b"\n", &none)?.finish()?)
}

fn push_byte(out: &mut String, b: u8) -> Result<(), AllocError> {
    match b {
        b'\n' => out.push_str("\\n"),
        b'\\' => out.push_str("\\\\"),
        b'<' | b'>' | b'|' | b'=' | b'\'' | 0..=31 | 127..=255 => {
            write!(out, "\\x{b:02x}")?;
            Ok(())
        }
        _ => out.push(b as char),
    }
}

/// Bytes as they are spelled in an answer.
pub fn push_bytes(out: &mut String, bytes: &[u8]) -> Result<(), AllocError> {
    for b in bytes {
        push_byte(out, *b)?;
    }
    Ok(())
}

fn push_set(out: &mut String, set: &PSet) -> Result<(), AllocError> {
    out.push('<')?;
    for policy in set.as_slice() {
        write!(out, "{policy}")?;
    }
    out.push('>')
}

/// A text as it is spelled in an answer; of a long one its length.
pub fn push_text(out: &mut String, text: &LText) -> Result<(), AllocError> {
    if text.len() > 1000 {
        write!(out, "{} bytes", text.len())?;
        return Ok(());
    }
    let bytes = text.bytes();
    let mut from = 0usize;
    for (i, run) in text.runs().iter().enumerate() {
        if i > 0 || !run.set.as_slice().is_empty() {
            push_set(out, &run.set)?;
        }
        let end = (run.end as usize).min(bytes.len());
        push_bytes(out, &bytes[from.min(end)..end])?;
        from = end;
    }
    Ok(())
}

/// The same alone.
pub fn shown_text(alloc: Global, text: &LText) -> Result<String, AllocError> {
    let mut out = String::new(alloc);
    push_text(&mut out, text)?;
    Ok(out)
}
