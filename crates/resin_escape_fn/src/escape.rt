//! What is written for one byte.
ghost use Rattle.std.specs.Prelude.{◌≡◌, ◌<◌, ◌≤◌, ◌++◌, length, false, OnOk};
ghost use Rattle.std.specs.Fmt.{digit_glyph};
ghost use Rattle.std.specs.List.{flat_map};
ghost use Rattle.resin_escape_fn.specs.Escapes.{html_entity, slashed, doubled_quote, stays_in_url, url_escape, raw_url_escape, hex_pair};

use percent_encoding::percent_encode_byte;
use resin_lstr::{LONGEST, TextFault};
use std::alloc::AllocError;
use std::slice::from_ref;

/// How the bytes of a text are written.
#[derive(Clone, Copy)]
pub(crate) enum Escape {
    Html,
    Slashes,
    Quotes,
    Url,
    RawUrl,
    Hex,
}

impl Escape {
    ghost use Rattle.resin_escape_fn.specs.Rules.{rule_of};

    // Puts what is written for a byte last.
    fn push(self, out: &mut Vec<u8>, byte: u8) -> Result<(), AllocError>
        ensures { OnOk result (out.new.items ≡ out.old.items ++ rule_of self byte) }
    {
        match self {
            Escape::Html => out.extend_from_slice(html_entity(&byte)),
            Escape::Slashes => out.extend_from_slice(slashed(&byte)),
            Escape::Quotes => out.extend_from_slice(doubled_quote(&byte)),
            Escape::Url => out.extend_from_slice(url_escape(&byte)),
            Escape::RawUrl => out.extend_from_slice(raw_url_escape(&byte)),
            Escape::Hex => out.extend_from_slice(&hex_pair(byte)),
        }
    }

    // Puts what is written for each of the bytes last, as far as a text may go.
    pub(crate) fn push_all(self, out: &mut Vec<u8>, bytes: &[u8]) -> Result<(), TextFault>
        requires { length out.old.items ≤ LONGEST }
        ensures ok { OnOk result (out.new.items ≡ out.old.items ++ flat_map (rule_of self) bytes.now) }
        ensures short { OnOk result (length out.new.items ≤ LONGEST) }
        ensures too_long { result ≡ Err TextFault.TooLong
            → LONGEST < length (out.old.items ++ flat_map (rule_of self) bytes.now) }
    {
        for byte in bytes {
            self.push(out, *byte)?;
            if out.len() > LONGEST {
                return Err(TextFault::TooLong);
            }
        }
        Ok(())
    }
}

fn html_entity(byte: &u8) -> &[u8]
    ensures { result.now ≡ html_entity byte.now }
{
    match *byte {
        b'&' => b"&amp;",
        b'<' => b"&lt;",
        b'>' => b"&gt;",
        b'"' => b"&quot;",
        b'\'' => b"&#039;",
        _ => from_ref(byte),
    }
}

fn slashed(byte: &u8) -> &[u8]
    ensures { result.now ≡ slashed byte.now }
{
    match *byte {
        0 => b"\\0",
        b'"' => b"\\\"",
        b'\'' => b"\\'",
        b'\\' => b"\\\\",
        _ => from_ref(byte),
    }
}

fn doubled_quote(byte: &u8) -> &[u8]
    ensures { result.now ≡ doubled_quote byte.now }
{
    if *byte == b'\'' {
        b"''"
    } else {
        from_ref(byte)
    }
}

// Whether a byte is a letter, a digit, `-`, `_` or `.`.
fn stays_in_url(byte: u8) -> bool
    ensures { result ≡ stays_in_url byte }
{
    byte.is_ascii_alphanumeric() || byte == b'-' || byte == b'_' || byte == b'.'
}

fn url_escape(byte: &u8) -> &[u8]
    ensures { result.now ≡ url_escape byte.now }
{
    if stays_in_url(*byte) {
        from_ref(byte)
    } else if *byte == b' ' {
        b"+"
    } else {
        percent_encode_byte(*byte).as_bytes()
    }
}

fn raw_url_escape(byte: &u8) -> &[u8]
    ensures { result.now ≡ raw_url_escape byte.now }
{
    if stays_in_url(*byte) || *byte == b'~' {
        from_ref(byte)
    } else {
        percent_encode_byte(*byte).as_bytes()
    }
}

fn hex_pair(byte: u8) -> [u8; 2]
    ensures { result ≡ hex_pair byte }
{
    [hex_digit(byte / 16), hex_digit(byte % 16)]
}

fn hex_digit(value: u8) -> u8
    requires { value < 16 }
    ensures { result ≡ digit_glyph false value }
{
    if value < 10 {
        b'0' + value
    } else {
        b'a' + (value - 10)
    }
}
