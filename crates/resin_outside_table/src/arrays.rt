//! Input arrays. An array is written as its entries, each with its key, `>`, its value and `;`: `#` stands before an integer key, and an
//! array in brackets.
use resin_inputs::under::bytes::{Bytes, Header, HeaderList};
use resin_inputs::under::value::{Arr, Key, Value};
use resin_inputs::{InputArrays, input_arrays};
use resin_table_rows::{Line, bytes_in, cut};
use std::alloc::{AllocError, Global};

fn push_key(out: &mut Line, key: &Key) {
    match key {
        Key::Int(n) => {
            out.push('#');
            out.push_integer(*n);
        }
        Key::Text(name) => out.push_spaced_bytes(name.as_slice()),
    }
    out.push('>');
}

fn push_text(out: &mut Line, value: &Value) {
    match value {
        Value::Text(text) => out.push_spaced_bytes(text.bytes()),
        _ => out.push('?'),
    }
}

// Adds the entries of an array of texts.
fn push_texts(out: &mut Line, array: &Arr) {
    for i in 0..array.len() {
        let (key, value) = array.entry(i);
        push_key(out, key);
        push_text(out, value);
        out.push(';');
    }
}

fn push_inner(out: &mut Line, inner: &Arr) {
    out.push('[');
    push_texts(out, inner);
    out.push(']');
}

fn push_value(out: &mut Line, value: &Value) {
    match value {
        Value::Arr(inner) => push_inner(out, inner),
        _ => push_text(out, value),
    }
}

fn push_array(out: &mut Line, array: &Arr) {
    for i in 0..array.len() {
        let (key, value) = array.entry(i);
        push_key(out, key);
        push_value(out, value);
        out.push(';');
    }
}

/// Adds all arrays.
pub fn push_arrays(out: &mut Line, arrays: &InputArrays) {
    out.push_str("get ");
    push_array(out, &arrays.get);
    out.push_str(" post ");
    push_array(out, &arrays.post);
    out.push_str(" cookie ");
    push_array(out, &arrays.cookie);
    out.push_str(" server ");
    push_array(out, &arrays.server);
}

fn spelled(alloc: Global, field: &str) -> Result<Bytes, AllocError> {
    let bytes = bytes_in(alloc, field)?;
    Bytes::from_slice(alloc, &bytes)
}

fn header(alloc: Global, name: &str, value: &str) -> Result<Header, AllocError> {
    let name = Bytes::from_slice(alloc, name.as_bytes())?;
    let value = spelled(alloc, value)?;
    Ok(Header { name, value })
}

// The header fields that are written as names and values in turn.
fn headers(alloc: Global, fields: &str) -> Result<HeaderList, AllocError> {
    let mut list = HeaderList::new(alloc);
    let mut name: Option<&str> = None;
    for field in fields.split('|') {
        match name.take() {
            Some(name) => list.push(header(alloc, name, field)?)?,
            None => name = Some(field),
        }
    }
    Ok(list)
}

// The input arrays of a request with this method, target, body and header fields.
fn arrays_of(alloc: Global, fields: &str) -> Result<InputArrays, AllocError> {
    let (method, rest) = cut(fields, '|');
    let (target, rest) = cut(rest, '|');
    let (body, rest) = cut(rest, '|');
    let headers = headers(alloc, rest)?;
    let body = bytes_in(alloc, body)?;
    input_arrays(alloc, method.as_bytes(), target.as_bytes(), &headers, &body)
}

/// The array with a name, of a request with this method, target, body and header fields.
pub fn push_named(
    alloc: Global,
    out: &mut Line,
    name: &str,
    fields: &str,
) -> Result<(), AllocError> {
    let arrays = arrays_of(alloc, fields)?;
    match name {
        "get" => push_array(out, &arrays.get),
        "post" => push_array(out, &arrays.post),
        "cookie" => push_array(out, &arrays.cookie),
        _ => push_array(out, &arrays.server),
    }
    Ok(())
}
