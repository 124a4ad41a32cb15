//! The texts of responses.
ghost use Rattle.std.specs.Prelude.{◌≡◌, [], ◌++◌, IfOk, OnOk, unwrap_or};
ghost use Rattle.http.specs.StatusCode.{reason_phrase};
ghost use Rattle.std.specs.List.{flat_map};
ghost use Rattle.resin_http.specs.Response.{response, response_head, phrase_of, status_line};
ghost use Rattle.resin_http.specs.Response.{type_line, kind_line, has_type, header_line, length_line};

use http::StatusCode;
use itoa::Buffer;
use resin_inputs::is_named;
use resin_inputs::under::bytes::{Bytes, Header, HeaderList};
use std::alloc::{AllocError, Global};

/// What stands before the body of a response: the status line with `http`'s canonical phrase, `Content-Type: kind` where no header tells the
/// type, the headers in order, `Content-Length` with the length of the body, and an empty line.
#[tactic(auto, unfolding(crate::specs::Response::response_head))]
pub fn response_head(
    alloc: Global,
    status: u16,
    headers: &HeaderList,
    kind: &[u8],
    length: usize,
) -> Result<Bytes, AllocError>
    ensures { IfOk result (λ text. text ≡ response_head status headers.now kind.now length) }
{
    let mut text = Bytes::new(alloc);
    push_status(&mut text, status)?;
    push_type(&mut text, headers.as_slice(), kind)?;
    push_headers(&mut text, headers.as_slice())?;
    push_length(&mut text, length)?;
    text.push_slice(b"\r\n")?;
    Ok(text)
}

/// The text of a response: its head, as [`response_head`] has it, and the body unless only the head is wanted.
#[tactic(auto, unfolding(crate::specs::Response::response))]
pub fn response_text(
    alloc: Global,
    status: u16,
    headers: &HeaderList,
    kind: &[u8],
    body: &[u8],
    head_only: bool,
) -> Result<Bytes, AllocError>
    ensures { IfOk result (λ text. text ≡ response status headers.now kind.now body.now head_only) }
{
    let mut text = response_head(alloc, status, headers, kind, body.len())?;
    if !head_only {
        text.push_slice(body)?;
    }
    Ok(text)
}

// The canonical phrase of a status, empty where it has none.
#[tactic(auto, unfolding(crate::specs::Response::phrase_of))]
fn phrase(status: u16) -> &'static str
    ensures { result.now ≡ phrase_of status }
{
    match StatusCode::from_u16(status) {
        Ok(code) => reason(code),
        Err(_) => "",
    }
}

// The canonical phrase of a status code, empty where it has none.
fn reason(code: StatusCode) -> &'static str
    ensures { result.now ≡ unwrap_or (reason_phrase code) [] }
{
    code.canonical_reason().unwrap_or("")
}

// Puts the status line last.
fn push_status(text: &mut Bytes, status: u16) -> Result<(), AllocError>
    ensures { OnOk result (text.new ≡ text.old ++ status_line status) }
{
    let mut buffer = Buffer::new();
    text.push_slice(b"HTTP/1.1 ")?;
    text.push_slice(buffer.format(status).as_bytes())?;
    text.push_slice(b" ")?;
    text.push_slice(phrase(status).as_bytes())?;
    text.push_slice(b"\r\n")
}

// Whether a header tells the type.
fn has_type(headers: &[Header]) -> bool
    ensures { result ≡ has_type headers.now }
{
    for header in headers {
        if is_named(header.name.as_slice(), b"content-type") {
            return true;
        }
    }
    false
}

// Puts the type last, where no header tells it.
fn push_type(text: &mut Bytes, headers: &[Header], kind: &[u8]) -> Result<(), AllocError>
    ensures { OnOk result (text.new ≡ text.old ++ type_line headers.now kind.now) }
{
    if has_type(headers) {
        return Ok(());
    }
    push_kind(text, kind)
}

// Puts the line of a type last.
fn push_kind(text: &mut Bytes, kind: &[u8]) -> Result<(), AllocError>
    ensures { OnOk result (text.new ≡ text.old ++ kind_line kind.now) }
{
    text.push_slice(b"Content-Type: ")?;
    text.push_slice(kind)?;
    text.push_slice(b"\r\n")
}

// Puts the lines of the headers last.
fn push_headers(text: &mut Bytes, headers: &[Header]) -> Result<(), AllocError>
    ensures { OnOk result (text.new ≡ text.old ++ flat_map header_line headers.now) }
{
    for header in headers {
        text.push_slice(header.name.as_slice())?;
        text.push_slice(b": ")?;
        text.push_slice(header.value.as_slice())?;
        text.push_slice(b"\r\n")?;
    }
    Ok(())
}

// Puts the length of the body last.
fn push_length(text: &mut Bytes, length: usize) -> Result<(), AllocError>
    ensures { OnOk result (text.new ≡ text.old ++ length_line length) }
{
    let mut buffer = Buffer::new();
    text.push_slice(b"Content-Length: ")?;
    text.push_slice(buffer.format(length).as_bytes())?;
    text.push_slice(b"\r\n")
}
