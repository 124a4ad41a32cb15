//! What stands behind a `%` in a format.
ghost use Rattle.std.specs.Prelude.{◌≡◌, ◌<◌, ◌≤◌, ◌+◌, length, if◌then◌else◌, MatchOption, OnSome, Some, None};
ghost use Rattle.resin_bytes.specs.Numbers.{digits_len};
ghost use Rattle.resin_format.specs.Forms.{is_integer, begins_with, behind, kind_of, width_of, conversion_of, form_of, form_len};

use resin_bytes::capped_value;

/// How an argument is read and written: a text, an integer in decimal, or the 64 bits of an integer in hexadecimal.
#[derive(Clone, Copy, Debug, PartialEq, Eq)]
pub enum Kind {
    /// `s`
    Text,
    /// `d`
    Decimal,
    /// `x`
    Hexadecimal,
}

impl Kind {
    // Whether the argument is read as an integer.
    pub(crate) fn is_integer(self) -> bool
        ensures { result ≡ is_integer self }
    {
        match self {
            Kind::Text => false,
            Kind::Decimal | Kind::Hexadecimal => true,
        }
    }
}

/// A conversion: how an argument is written.
#[derive(Clone, Copy)]
pub(crate) struct Conversion {
    // `-`: spaces stand behind the argument.
    pub(crate) left: bool,
    // `0`: zeros stand before the digits of an integer.
    pub(crate) zeros: bool,
    // The least number of bytes.
    pub(crate) width: u32,
    pub(crate) kind: Kind,
}

/// What a `%` begins.
#[derive(Clone, Copy)]
pub(crate) enum Form {
    /// `%%`
    Percent,
    Convert(Conversion),
    /// Neither of the two.
    Wrong,
}

// The greatest width.
const WIDEST: u64 = 16_777_216;

// What stands behind a `%`, and how many of the bytes belong to it.
pub(crate) fn read_form(bytes: &[u8]) -> (Form, usize)
    ensures form { result.0 ≡ form_of bytes.now }
    ensures len { result.1 ≡ form_len (form_of bytes.now) bytes.now }
    ensures within { result.1 ≤ length bytes.now }
{
    if begins_with(b'%', bytes) {
        return (Form::Percent, 1);
    }
    match read_conversion(bytes) {
        Some((found, len)) => (Form::Convert(found), len),
        None => (Form::Wrong, bytes.len()),
    }
}

// A conversion behind its `%`, and how many bytes it has.
fn read_conversion(bytes: &[u8]) -> Option<(Conversion, usize)>
    ensures { MatchOption result (conversion_of bytes.now ≡ None) (λ found.
        (conversion_of bytes.now ≡ Some found.0)
        × (found.1 ≡ form_len (Form.Convert found.0) bytes.now)
        × (found.1 ≤ length bytes.now)) }
{
    let left = begins_with(b'-', bytes);
    let body = behind_minus(bytes);
    let digits = count_digits(body);
    let width = read_width(&body[..digits])?;
    let kind = read_kind(&body[digits..])?;
    let zeros = begins_with(b'0', body);
    let len = digits + if left { 2 } else { 1 };
    Some((
        Conversion {
            left,
            zeros,
            width,
            kind,
        },
        len,
    ))
}

fn begins_with(byte: u8, bytes: &[u8]) -> bool
    ensures { result ≡ begins_with byte bytes.now }
{
    match bytes {
        [first, ..] => *first == byte,
        [] => false,
    }
}

fn behind_minus(bytes: &[u8]) -> &[u8]
    ensures value { result.now ≡ behind 45 bytes.now }
    ensures len { (if begins_with 45 bytes.now then 1 else 0) + length result.now ≡ length bytes.now }
{
    match bytes {
        [first, rest @ ..] if *first == b'-' => rest,
        _ => bytes,
    }
}

// How many digits a text begins with.
fn count_digits(bytes: &[u8]) -> usize
    ensures len { result ≡ digits_len bytes.now }
    ensures within { result ≤ length bytes.now }
{
    match bytes.iter().position(|c| !c.is_ascii_digit()) {
        Some(place) => place,
        None => bytes.len(),
    }
}

fn read_width(digits: &[u8]) -> Option<u32>
    ensures { result ≡ width_of digits.now }
{
    let value = capped_value(digits);
    if value <= WIDEST {
        Some(value as u32)
    } else {
        None
    }
}

fn read_kind(bytes: &[u8]) -> Option<Kind>
    ensures value { result ≡ kind_of bytes.now }
    ensures some { OnSome result (0 < length bytes.now) }
{
    match bytes {
        [b's', ..] => Some(Kind::Text),
        [b'd', ..] => Some(Kind::Decimal),
        [b'x', ..] => Some(Kind::Hexadecimal),
        _ => None,
    }
}
