//! What the fields of a head say of its request.
ghost use Rattle.std.specs.Prelude.{◌≡◌, ℕ, ◌≤◌, length, map, All, IfOk, List, IfSome, ◌^◌, ◌<◌};
ghost use Rattle.httparse.specs.Spans.{IsHeaderWithin, header_bytes};
ghost use Rattle.resin_http.specs.Fields.{body_length, values_of, content_length, has_field, length_of};
ghost use Rattle.resin_http.specs.Fields.{next_length, method_of, taken, header_of, begins_with_slash};

use crate::request::Method;
use httparse::spans::HeaderSpan;
use resin_inputs::is_named;
use resin_inputs::under::bytes::{Bytes, Header, HeaderList};
use std::alloc::{AllocError, Global};

const MOST_BODY: u64 = 1_048_576;

/// The method of a request and the length of its body, or the status that refuses it.
#[tactic(auto, unfolding(crate::specs::Fields::taken))]
pub fn taken(
    method: &[u8],
    target: &[u8],
    head: &[u8],
    fields: &[HeaderSpan],
) -> Result<(Method, u64), u16>
    requires { All (IsHeaderWithin (length head.now)) fields.now }
    ensures { result ≡ taken method.now target.now (map (header_bytes head.now) fields.now) }
{
    if !begins_with_slash(target) {
        return Err(400);
    }
    match (body_length(head, fields), method_of(method)) {
        (None, _) => Err(400),
        (_, None) => Err(501),
        (Some(length), Some(method)) => {
            if has_field(head, fields, b"transfer-encoding") {
                return Err(501);
            }
            if length > MOST_BODY {
                return Err(413);
            }
            Ok((method, length))
        }
    }
}

fn begins_with_slash(target: &[u8]) -> bool
    ensures { result ≡ begins_with_slash target.now }
{
    target.len() > 0 && target[0] == b'/'
}

// The method of a name, where it is served.
fn method_of(name: &[u8]) -> Option<Method>
    ensures { result ≡ method_of name.now }
{
    if name == b"GET".as_slice() {
        Some(Method::Get)
    } else if name == b"HEAD".as_slice() {
        Some(Method::Head)
    } else if name == b"POST".as_slice() {
        Some(Method::Post)
    } else {
        None
    }
}

// The number of bytes that `Content-Length` gives the body, None where it stands twice or is no length.
fn body_length(head: &[u8], fields: &[HeaderSpan]) -> Option<u64>
    requires { All (IsHeaderWithin (length head.now)) fields.now }
    ensures { result ≡ body_length (values_of content_length (map (header_bytes head.now) fields.now)) }
{
    let mut found: Option<u64> = None;
    for field in fields {
        if is_named(field.name.of(head), b"content-length") {
            match next_length(found, field.value.of(head)) {
                None => return None,
                Some(length) => found = Some(length),
            }
        }
    }
    Some(found.unwrap_or(0))
}

// The length once one more `Content-Length` is read, None where it is the second or no length.
fn next_length(found: Option<u64>, value: &[u8]) -> Option<u64>
    ensures { result ≡ next_length found value.now }
{
    match found {
        None => length_of(value),
        Some(_) => None,
    }
}

// Whether a field has that name.
fn has_field(head: &[u8], fields: &[HeaderSpan], name: &[u8]) -> bool
    requires { All (IsHeaderWithin (length head.now)) fields.now }
    ensures { result ≡ has_field name.now (map (header_bytes head.now) fields.now) }
{
    for field in fields {
        if is_named(field.name.of(head), name) {
            return true;
        }
    }
    false
}

// The number of one to ten digits.
fn length_of(value: &[u8]) -> Option<u64>
    ensures { result ≡ length_of value.now }
{
    if value.len() == 0 || value.len() > 10 {
        return None;
    }
    let mut length: u64 = 0;
    for digit in value {
        if !digit.is_ascii_digit() {
            return None;
        }
        length = length * 10 + u64::from(*digit - b'0');
    }
    Some(length)
}

/// The fields as a list of their own.
pub fn header_list(
    alloc: Global,
    head: &[u8],
    fields: &[HeaderSpan],
) -> Result<HeaderList, AllocError>
    requires { All (IsHeaderWithin (length head.now)) fields.now }
    ensures { IfOk result (λ list. list ≡ map header_of (map (header_bytes head.now) fields.now)) }
{
    let mut list = HeaderList::new(alloc);
    for field in fields {
        list.push(Header {
            name: Bytes::from_slice(alloc, field.name.of(head))?,
            value: Bytes::from_slice(alloc, field.value.of(head))?,
        })?;
    }
    Ok(list)
}
