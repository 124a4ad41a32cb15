//! Header lines.
ghost use Rattle.resin_eval_nested.specs.Under.stage.Lines.{header_line, is_colon, is_settable, is_token};
ghost use Rattle.resin_eval_nested.specs.Under.stage.Lines.{is_token_byte, is_value_byte, skip_spaces, trimmed};
ghost use Rattle.resin_eval_nested.specs.Under.scope.Pages.{is_same_name};
ghost use Rattle.std.specs.List.{list_all, list_any, position_or_len};
ghost use Rattle.std.specs.Prelude.{codes, IfOk, ◌==◌, ◌≡◌, reverse, if◌then◌else◌, Some, None, length, nat_lt};

use resin_eval_nested::under::bytes::{Bytes, Header};
use std::alloc::{AllocError, Global};

// Whether a byte is one of the marks of a token.
fn is_mark(b: u8) -> bool
    ensures { result ≡ list_any (λ m. m == b) (codes "!#$%&'*+-.^_`|~") }
{
    b"!#$%&'*+-.^_`|~".contains(&b)
}

// A byte of a token.
fn is_token_byte(b: u8) -> bool
    ensures { result ≡ is_token_byte b }
{
    (b >= 48 && b <= 57) || (b >= 65 && b <= 90) || (b >= 97 && b <= 122) || is_mark(b)
}

// A byte of a header's value.
fn is_value_byte(b: u8) -> bool
    ensures { result ≡ is_value_byte b }
{
    (b >= 32 && b <= 126) || b > 127
}

// Whether each byte may stand in a token.
fn are_token_bytes(name: &[u8]) -> bool
    ensures { result ≡ list_all is_token_byte name.now }
{
    name.iter().all(|b| is_token_byte(*b))
}

// Whether each byte may stand in a header's value.
fn are_value_bytes(value: &[u8]) -> bool
    ensures { result ≡ list_all is_value_byte value.now }
{
    value.iter().all(|b| is_value_byte(*b))
}

// Whether a name is a token.
fn is_token(name: &[u8]) -> bool
    ensures { result ≡ is_token name.now }
{
    name.len() > 0 && are_token_bytes(name)
}

// Whether a name is that of the length of the body.
fn is_content_length(name: &[u8]) -> bool
    ensures { result ≡ is_same_name name.now (codes "content-length") }
{
    name.eq_ignore_ascii_case(b"content-length")
}

// Whether a script may set a header of this name and value.
fn is_settable(name: &[u8], value: &[u8]) -> bool
    ensures { result ≡ is_settable name.now value.now }
{
    is_token(name) && !is_content_length(name) && are_value_bytes(value)
}

// A value without the spaces in front.
fn without_front(value: &[u8]) -> &[u8]
    ensures { result.now ≡ skip_spaces value.now }
{
    match value.iter().position(|b| *b != b' ') {
        Some(place) => &value[place..],
        None => &[],
    }
}

// A value without the spaces behind.
fn without_back(value: &[u8]) -> &[u8]
    ensures { result.now ≡ reverse (skip_spaces (reverse value.now)) }
{
    let mut to = value.len();
    while to > 0 && value[to - 1] == b' ' {
        to -= 1;
    }
    &value[..to]
}

// A value without the spaces round it.
fn trimmed(value: &[u8]) -> &[u8]
    ensures { result.now ≡ trimmed value.now }
{
    without_back(without_front(value))
}

// The place of the first colon.
fn colon(line: &[u8]) -> Option<usize>
    ensures { result ≡ (if nat_lt (position_or_len is_colon line.now) (length line.now) then Some (position_or_len is_colon line.now) else None) }
{
    line.iter().position(|b| *b == b':')
}

/// The header that a line sets, `None` exactly where it sets none.
pub fn header_line(alloc: Global, line: &[u8]) -> Result<Option<Header>, AllocError>
    ensures { IfOk result (λ found. found ≡ header_line line.now) }
{
    let Some(at) = colon(line) else {
        return Ok(None);
    };
    let name = &line[..at];
    let value = &line[at + 1..];
    if !is_settable(name, value) {
        return Ok(None);
    }
    Ok(Some(Header {
        name: Bytes::from_slice(alloc, name)?,
        value: Bytes::from_slice(alloc, trimmed(value))?,
    }))
}
