//! Tags, ends of lines, and stretches of bytes up to a place where something else begins.

ghost use Rattle.std.specs.Prelude.{◌≡◌, ◌<◌, ◌≤◌, ℕ, ◌+◌, length, false, drop};
ghost use Rattle.resin_scan.specs.Stretches as spec;

use crate::bytes::{begins_name, byte, is_blank, lower};
use crate::numbers::is_code_point;

/// What a stretch runs up to.
#[derive(Clone, Copy, Debug, PartialEq, Eq)]
pub enum Stop {
    /// Inline text runs up to an opening tag.
    Tag,
    /// A comment of one line runs up to the end of the line or a closing tag.
    Line,
    /// A comment in `/*` runs up to `*/`.
    Comment,
    /// A single-quoted text runs up to its quote.
    Single,
    /// A stretch of a double-quoted text runs up to its quote, an interpolation or a broken `\u{`.
    Part,
}

/// Whether `<?=` stands in front.
pub fn is_echo_tag(s: &[u8]) -> bool
    ensures { result ≡ spec.is_echo_tag s.now }
{
    byte(s, 0) == b'<' && byte(s, 1) == b'?' && byte(s, 2) == b'='
}

/// Whether `<?php` in any case stands in front, with a blank or the end of the text behind it.
pub fn is_php_tag(s: &[u8]) -> bool
    ensures { result ≡ spec.is_php_tag s.now }
{
    byte(s, 0) == b'<'
        && byte(s, 1) == b'?'
        && lower(byte(s, 2)) == b'p'
        && lower(byte(s, 3)) == b'h'
        && lower(byte(s, 4)) == b'p'
        && (is_blank(byte(s, 5)) || s.len() == 5)
}

/// The length of an end of a line in front, or 0.
pub fn newline_len(s: &[u8]) -> usize
    ensures is { result ≡ spec.newline_len s.now }
    ensures within { result ≤ length s.now }
{
    match byte(s, 0) {
        b'\r' => { if byte(s, 1) == b'\n' { 2 } else { 1 } }
        b'\n' => 1,
        _ => 0,
    }
}

/// The length of one blank in front, a CRLF counting as one, or 0.
pub fn blank_len(s: &[u8]) -> usize
    ensures is { result ≡ spec.blank_len s.now }
    ensures within { result ≤ length s.now }
{
    let b = byte(s, 0);
    if b == b'\r' {
        if byte(s, 1) == b'\n' { 2 } else { 1 }
    } else if is_blank(b) {
        1
    } else {
        0
    }
}

/// Whether `\u{` stands in front without a code point and `}` behind it.
pub fn is_broken(s: &[u8]) -> bool
    ensures { result ≡ spec.is_broken s.now }
{
    byte(s, 0) == b'\\' && byte(s, 1) == b'u' && byte(s, 2) == b'{' && !is_code_point(&s[3..])
}

/// Whether a stretch ends here.
fn stops(stop: Stop, s: &[u8]) -> bool
    ensures { result ≡ spec.stops stop s.now }
{
    let a = byte(s, 0);
    let b = byte(s, 1);
    match stop {
        Stop::Tag => is_echo_tag(s) || is_php_tag(s),
        Stop::Line => a == b'\n' || a == b'\r' || (a == b'?' && b == b'>'),
        Stop::Comment => a == b'*' && b == b'/',
        Stop::Single => a == b'\'',
        Stop::Part => a == b'"'
            || (a == b'$' && (begins_name(b) || b == b'{'))
            || (a == b'{' && b == b'$')
            || is_broken(s),
    }
}

/// Whether a byte takes the next one along.
fn escapes(stop: Stop, b: u8) -> bool
    ensures { result ≡ spec.escapes stop b }
{
    match stop {
        Stop::Tag | Stop::Line | Stop::Comment => false,
        Stop::Single | Stop::Part => b == b'\\',
    }
}

/// How many bytes stand before the first place to stop.
pub fn reach(stop: Stop, s: &[u8]) -> usize
    ensures is { result ≡ spec.reach stop false s.now }
    ensures within { result ≤ length s.now }
    ensures some { 0 < length s.now → spec.stops stop s.now ≡ false → 0 < result }
{
    let mut escaped = false;
    for i in 0..s.len() {
        if escaped {
            escaped = false;
        } else if stops(stop, &s[i..]) {
            return i;
        } else {
            escaped = escapes(stop, s[i]);
        }
    }
    s.len()
}
