//! What the bytes between quotes stand for.

ghost use Rattle.std.specs.Prelude.{◌≡◌, ◌++◌, ◌+◌, ◌<◌, ◌≤◌, length, IfOk};
ghost use Rattle.resin_scan.specs.Escapes as spec;

use crate::bytes::{byte, digit, hexadecimals_len, is_hexadecimal, is_octal, octals_len};
use crate::numbers::code_point;
use std::alloc::{AllocError, Global};

/// The two kinds of quotes.
#[derive(Clone, Copy, Debug, PartialEq, Eq)]
pub enum Quoting {
    Single,
    Double,
}

/// What a piece of a quoted text stands for.
#[derive(Clone, Copy, Debug, PartialEq, Eq)]
pub enum Meaning {
    Byte(u8),
    /// A code point, which stands for its bytes in UTF-8.
    Point(u64),
}

/// The first piece of a quoted text: how many bytes it takes, and what it stands for.
#[derive(Clone, Copy, Debug, PartialEq, Eq)]
pub struct Piece {
    pub taken: usize,
    pub meaning: Meaning,
}

/// The byte that a letter behind a backslash stands for.
fn letter(b: u8) -> Option<u8>
    ensures { result ≡ spec.letter b }
{
    match b {
        b'n' => Some(b'\n'),
        b'r' => Some(b'\r'),
        b't' => Some(b'\t'),
        b'v' => Some(11),
        b'e' => Some(27),
        b'f' => Some(12),
        b'\\' => Some(b'\\'),
        b'$' => Some(b'$'),
        b'"' => Some(b'"'),
        _ => None,
    }
}

/// The value of digits, modulo 256.
fn byte_value(base: u64, s: &[u8]) -> u8
    requires { base ≤ 16 }
    ensures { result ≡ spec.byte_value base s.now }
{
    let mut v = 0;
    for d in s {
        v = ((base * v as u64 + digit(*d)) % 256) as u8;
    }
    v
}

fn byte_piece(taken: usize, b: u8) -> Piece
    ensures { result ≡ spec.byte_piece taken b }
{
    Piece {
        taken,
        meaning: Meaning::Byte(b),
    }
}

/// The piece of `\u{`, where these bytes follow it.
fn point_piece(s: &[u8]) -> Piece
    ensures is { result ≡ spec.point_piece (spec.code_point s.now) }
    ensures within { result.taken ≤ 3 + length s.now }
    ensures some { 0 < result.taken }
    ensures small { spec.IsSmall result.meaning }
{
    match code_point(s) {
        Some((point, n)) => Piece {
            taken: 4 + n,
            meaning: Meaning::Point(point),
        },
        None => byte_piece(1, b'\\'),
    }
}

/// The piece that begins with a backslash, where these bytes follow it.
#[tactic(auto, unfolding(crate::specs::Escapes::escape_piece))]
fn escape_piece(s: &[u8]) -> Piece
    ensures is { result ≡ spec.escape_piece s.now }
    ensures within { result.taken ≤ 1 + length s.now }
    ensures some { 0 < result.taken }
    ensures small { spec.IsSmall result.meaning }
{
    let b = byte(s, 0);
    if is_octal(b) {
        let n = octals_len(s).min(3);
        byte_piece(1 + n, byte_value(8, &s[..n]))
    } else if b == b'x' && is_hexadecimal(byte(s, 1)) {
        let n = hexadecimals_len(&s[1..]).min(2);
        byte_piece(2 + n, byte_value(16, &s[1..1 + n]))
    } else if b == b'u' && byte(s, 1) == b'{' {
        point_piece(&s[2..])
    } else {
        match letter(b) {
            Some(c) => byte_piece(2, c),
            None => byte_piece(1, b'\\'),
        }
    }
}

/// The first piece of a text in such quotes.
fn first_piece(quoting: Quoting, s: &[u8]) -> Piece
    requires { 0 < length s.now }
    ensures is { result ≡ spec.first_piece quoting s.now }
    ensures within { result.taken ≤ length s.now }
    ensures some { 0 < result.taken }
    ensures small { spec.IsSmall result.meaning }
{
    let b = byte(s, 0);
    if b != b'\\' {
        return byte_piece(1, b);
    }
    match quoting {
        Quoting::Single => {
            let c = byte(s, 1);
            if c == b'\\' || c == b'\'' {
                byte_piece(2, c)
            } else {
                byte_piece(1, b)
            }
        }
        Quoting::Double => escape_piece(&s[1..]),
    }
}

/// Puts a code point last, in UTF-8. A surrogate is written as three bytes.
fn push_point(out: &mut Vec<u8>, point: u64) -> Result<(), AllocError>
    requires { point < 0x110000 }
    ensures { IfOk result (λ _. out.new.items ≡ out.old.items ++ spec.utf8 point) }
{
    let last = 128 + (point % 64) as u8;
    let third = 128 + (point / 64 % 64) as u8;
    let second = 128 + (point / 4096 % 64) as u8;
    if point < 0x80 {
        out.extend_from_slice(&[point as u8])
    } else if point < 0x800 {
        out.extend_from_slice(&[192 + (point / 64) as u8, last])
    } else if point < 0x1_0000 {
        out.extend_from_slice(&[224 + (point / 4096) as u8, third, last])
    } else {
        out.extend_from_slice(&[240 + (point / 262_144) as u8, second, third, last])
    }
}

/// Puts what a piece stands for last.
fn push_meaning(out: &mut Vec<u8>, meaning: Meaning) -> Result<(), AllocError>
    requires { spec.IsSmall meaning }
    ensures { IfOk result (λ _. out.new.items ≡ out.old.items ++ spec.bytes_of meaning) }
{
    match meaning {
        Meaning::Byte(b) => {
            out.push(b)?;
            Ok(())
        }
        Meaning::Point(point) => push_point(out, point),
    }
}

/// What the bytes of a text in such quotes stand for.
pub fn worked(alloc: Global, quoting: Quoting, s: &[u8]) -> Result<Vec<u8>, AllocError>
    ensures { IfOk result (λ v. v.items ≡ spec.worked quoting s.now) }
{
    let mut out = Vec::new(alloc);
    let mut i = 0;
    while i < s.len() {
        let piece = first_piece(quoting, &s[i..]);
        push_meaning(&mut out, piece.meaning)?;
        i += piece.taken;
    }
    Ok(out)
}
