//! Lists of bytes, the forms of numbers, keys and paths.

use crate::shown::push_bytes;
use resin_ops::under::bytes::{
    Bytes, Header, HeaderList, NumberForm, canonical_key, decimal, lawful_path, leading, numeric,
};
use resin_table_rows::{Line, Row, bytes_in, cut};
use std::alloc::{AllocError, Global};

/// Puts the answer of a call on bytes last; `false` where the name is none.
pub fn call(row: Row<'_>, out: &mut Line) -> bool {
    let done = match row.field(0) {
        "bytes" => push_list(row, out),
        "headers" => push_headers(row, out),
        "decimal" => push_decimal(row, out),
        "numeric" | "leading" | "canonical_key" | "lawful_path" => push_read(row, out),
        _ => return false,
    };
    out.note(done);
    true
}

fn push_decimal(row: Row<'_>, out: &mut Line) -> Result<(), AllocError> {
    let decimal = decimal(row.alloc, row.integer(1))?;
    out.push(' ');
    push_bytes(out, decimal.as_slice());
    Ok(())
}

fn push_read(row: Row<'_>, out: &mut Line) -> Result<(), AllocError> {
    let bytes = bytes_in(row.alloc, row.field(1))?;
    push_answer_on(row.field(0), &bytes, out);
    Ok(())
}

fn push_answer_on(name: &str, bytes: &[u8], out: &mut Line) {
    match name {
        "numeric" => push_form(out, numeric(bytes)),
        "leading" => push_form(out, leading(bytes)),
        "canonical_key" => push_key(out, canonical_key(bytes)),
        _ => out.push_truth(lawful_path(bytes)),
    }
}

fn push_form(out: &mut Line, form: NumberForm) {
    match form {
        NumberForm::Int(n) => out.push_number(n),
        NumberForm::Float => out.push_word("Float"),
        NumberForm::Not => out.push_word("Not"),
    }
}

fn push_key(out: &mut Line, key: Option<i64>) {
    match key {
        Some(n) => out.push_number(n),
        None => out.push_word("none"),
    }
}

fn list_in(alloc: Global, field: &str) -> Result<Bytes, AllocError> {
    let bytes = bytes_in(alloc, field)?;
    Bytes::from_slice(alloc, &bytes)
}

fn push_slice(alloc: Global, list: &mut Bytes, field: &str) -> Result<(), AllocError> {
    let bytes = bytes_in(alloc, field)?;
    list.push_slice(&bytes)
}

fn change(alloc: Global, list: &mut Bytes, step: &str) -> Result<(), AllocError> {
    let (name, more) = cut(step, ' ');
    if name == "push_slice" {
        push_slice(alloc, list, more)
    } else {
        list.push(more.as_bytes().first().copied().unwrap_or(0))
    }
}

// What each step leaves of the bytes of the first field.
fn push_list(row: Row<'_>, out: &mut Line) -> Result<(), AllocError> {
    let mut list = list_in(row.alloc, row.field(1))?;
    for step in row.fields_from(2) {
        let done = change(row.alloc, &mut list, step);
        out.note(done);
        out.push(' ');
        push_bytes(out, list.as_slice());
    }
    Ok(())
}

fn header(alloc: Global, name: &str) -> Result<Header, AllocError> {
    let name = Bytes::from_slice(alloc, name.as_bytes())?;
    let value = Bytes::new(alloc);
    Ok(Header { name, value })
}

// A list of headers without values, one for each name.
fn push_headers(row: Row<'_>, out: &mut Line) -> Result<(), AllocError> {
    let mut list = HeaderList::new(row.alloc);
    for name in row.fields_from(1) {
        list.push(header(row.alloc, name)?)?;
    }
    out.push_count(list.as_slice().len());
    Ok(())
}
