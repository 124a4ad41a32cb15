//! Requests of streams, and the texts of responses.
use crate::arrays::push_arrays;
use crate::text::number;
use resin_http::{
    Header, HeaderList, Mark, Method, Request, Step, inputs, next_marked, next_request,
    response_text,
};
use resin_inputs::InputArrays;
use resin_inputs::under::bytes::Bytes;
use resin_table_rows::{Line, bytes_in, cut};
use std::alloc::{AllocError, Global};

// Repeats bytes behind a stream.
fn repeat(
    alloc: Global,
    stream: &mut Vec<u8>,
    field: &str,
    times: usize,
) -> Result<(), AllocError> {
    let repeated = bytes_in(alloc, field)?;
    for _ in 0..times {
        stream.extend_from_slice(&repeated)?;
    }
    Ok(())
}

// The stream of a row: its front, and where more fields stand, how often the next one is repeated behind it, and what ends it.
fn stream_of(alloc: Global, fields: &str) -> Result<Vec<u8>, AllocError> {
    let (front, rest) = cut(fields, '|');
    let (count, rest) = cut(rest, '|');
    let (repeated, end) = cut(rest, '|');
    let mut stream = bytes_in(alloc, front)?;
    repeat(alloc, &mut stream, repeated, number(count))?;
    repeat(alloc, &mut stream, end, 1)?;
    Ok(stream)
}

// What the front of a row's stream asks.
fn step_of(alloc: Global, fields: &str) -> Result<Step, AllocError> {
    let stream = stream_of(alloc, fields)?;
    next_request(alloc, &stream)
}

fn push_asked(out: &mut Line, step: &Step) {
    match step {
        Step::Need => out.push_str("more"),
        Step::Got { used, .. } => out.tell("request of ", *used, " bytes"),
        Step::Refuse { status } => out.tell("refused ", u64::from(*status), ""),
    }
}

fn push_head(out: &mut Line, step: Result<Step, AllocError>) {
    if let Some(step) = out.taken(step) {
        push_asked(out, &step);
    }
}

fn push_left(out: &mut Line, mark: Mark) {
    match mark {
        Mark::Head { searched } => out.tell("; ", searched as u64, " bytes searched"),
        Mark::Body { end, body } => {
            out.tell("; head of ", end as u64, " bytes, ");
            out.tell("body of ", body, "");
        }
    }
}

// What the front of a stream asks, and the mark that is left.
fn push_mark(alloc: Global, out: &mut Line, fields: &str) -> Result<(), AllocError> {
    let stream = stream_of(alloc, fields)?;
    let mut mark = Mark::START;
    push_head(out, next_marked(alloc, &stream, &mut mark));
    push_left(out, mark);
    Ok(())
}

fn method_name(method: Method) -> &'static str {
    match method {
        Method::Get => "GET",
        Method::Head => "HEAD",
        Method::Post => "POST",
    }
}

fn push_headers(out: &mut Line, headers: &HeaderList) {
    for header in headers.as_slice() {
        out.push_str("; ");
        out.push_spaced_bytes(header.name.as_slice());
        out.push('>');
        out.push_spaced_bytes(header.value.as_slice());
    }
}

// Adds a request's method, target, header fields and body.
fn push_parts(out: &mut Line, request: &Request) {
    out.push_str(method_name(request.method));
    out.push(' ');
    out.push_spaced_bytes(request.target.as_slice());
    push_headers(out, &request.fields);
    out.push_str("; body ");
    out.push_spaced_bytes(request.body.as_slice());
}

// Adds the request at the front of a stream, and how many bytes it takes.
fn push_request(out: &mut Line, step: &Step) {
    match step {
        Step::Got { request, used } => {
            push_parts(out, request);
            out.tell("; ", *used, " bytes");
        }
        _ => out.push_str("no request"),
    }
}

fn push_found(out: &mut Line, arrays: Result<InputArrays, AllocError>) {
    if let Some(arrays) = out.taken(arrays) {
        push_arrays(out, &arrays);
    }
}

// Adds the input arrays of the request at the front of a stream.
fn push_inputs(alloc: Global, out: &mut Line, step: &Step) {
    match step {
        Step::Got { request, .. } => push_found(out, inputs(alloc, request)),
        _ => out.push_str("no request"),
    }
}

/// Adds what is asked of the front of a stream: what it asks, the mark that is left, the request, or its input arrays.
pub fn push_named(
    alloc: Global,
    out: &mut Line,
    name: &str,
    fields: &str,
) -> Result<(), AllocError> {
    if name == "mark" {
        return push_mark(alloc, out, fields);
    }
    let step = step_of(alloc, fields)?;
    match name {
        "head" => push_asked(out, &step),
        "request" => push_request(out, &step),
        _ => push_inputs(alloc, out, &step),
    }
    Ok(())
}

fn header(alloc: Global, name: &str, value: &str) -> Result<Header, AllocError> {
    let name = Bytes::from_slice(alloc, name.as_bytes())?;
    let value = Bytes::from_slice(alloc, value.as_bytes())?;
    Ok(Header { name, value })
}

// A list of one header, and of none where there is no name.
fn headers_of(alloc: Global, name: &str, value: &str) -> Result<HeaderList, AllocError> {
    let mut headers = HeaderList::new(alloc);
    if !name.is_empty() {
        headers.push(header(alloc, name, value)?)?;
    }
    Ok(headers)
}

// The text of a response: its status, the type and the body, and a header's name and value. One to HEAD has no body.
fn response(alloc: Global, is_head: bool, fields: &str) -> Result<Bytes, AllocError> {
    let (status, rest) = cut(fields, '|');
    let (kind, rest) = cut(rest, '|');
    let (body, rest) = cut(rest, '|');
    let (name, value) = cut(rest, '|');
    let status = status.parse::<u16>().unwrap_or(0);
    let headers = headers_of(alloc, name, value)?;
    response_text(
        alloc,
        status,
        &headers,
        kind.as_bytes(),
        body.as_bytes(),
        is_head,
    )
}

/// Adds the text of a response.
pub fn push_response(
    alloc: Global,
    out: &mut Line,
    is_head: bool,
    fields: &str,
) -> Result<(), AllocError> {
    let text = response(alloc, is_head, fields)?;
    out.push_spaced_bytes(text.as_slice());
    Ok(())
}
