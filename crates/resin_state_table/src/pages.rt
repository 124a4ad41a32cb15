//! Acts on the filters of channels and functions, and on the answer under way.
use crate::answer::{push_count, push_missing, push_numbers, push_text, push_unknown};
use crate::command::channel;
use resin_heap::under::bytes::{Header, HeaderList};
use resin_heap::under::lstr::{LText, TextFault};
use resin_stage::under::scope::{Chains, Headers, Page};
use resin_table_rows::{Line, Row};
use std::alloc::{AllocError, Global};
use std::mem;

pub fn act_on_chains(chains: &mut Chains, row: Row<'_>, out: &mut Line) {
    let filter = row.number(2);
    match row.field(0) {
        "chain" => push_numbers(out, chains.chain(channel(row.field(1)))),
        "func_chain" => push_numbers(out, chains.func_chain(row.bytes(1))),
        "append" => out.note(chains.append(channel(row.field(1)), filter)),
        "append_func" => out.note(chains.append_func(row.bytes(1), filter)),
        "take_out" => chains.take_out(channel(row.field(1)), filter),
        _ => push_unknown(out),
    }
}

fn push_bytes(out: &mut Line, bytes: &[u8]) {
    for b in bytes {
        out.push(char::from(*b));
    }
}

/// Puts header lines last, each with a `;` behind it.
fn push_header_lines(out: &mut Line, headers: &[Header]) {
    for header in headers {
        push_bytes(out, header.name.as_slice());
        out.push(':');
        push_bytes(out, header.value.as_slice());
        out.push(';');
    }
}

/// Puts the lines of headers last whose list could be made.
pub fn push_header_list(out: &mut Line, headers: Result<HeaderList, AllocError>) {
    if let Some(headers) = out.taken(headers) {
        push_header_lines(out, headers.as_slice());
    }
}

/// Puts the texts of the buffers last, from the outermost to the innermost, each with a `;` behind it.
fn push_buffers(out: &mut Line, buffers: &[LText]) {
    for buffer in buffers {
        push_bytes(out, buffer.bytes());
        out.push(';');
    }
}

fn push_refusal(out: &mut Line, done: Result<(), TextFault>) {
    match done {
        Ok(()) => {}
        Err(TextFault::TooLong) => push_text(out, "TooLong"),
        Err(TextFault::Memory) => out.note(Err(AllocError)),
    }
}

/// Puts a text into the innermost buffer.
fn buffer(page: &mut Page, row: Row<'_>, text: &LText, out: &mut Line) {
    if page.buffers.as_slice().len() == 0 {
        push_missing(out);
    } else {
        push_refusal(out, page.add_buffered(row.alloc, text));
    }
}

fn open(page: &mut Page, text: LText, out: &mut Line) {
    out.note(page.buffers.push(text));
}

fn buffer_marked(page: &mut Page, row: Row<'_>, marked: Result<LText, AllocError>, out: &mut Line) {
    if let Some(marked) = out.taken(marked) {
        buffer(page, row, &marked, out);
    }
}

/// An act with a text.
fn act_with(page: &mut Page, row: Row<'_>, text: LText, out: &mut Line) {
    match row.field(0) {
        "open" => open(page, text, out),
        "mark" => buffer_marked(page, row, text.mark(row.alloc, row.number(2)), out),
        "buffer" | "fill" => buffer(page, row, &text, out),
        _ => push_unknown(out),
    }
}

/// So many bytes `x`.
fn filling(row: Row<'_>) -> Result<LText, TextFault> {
    let bytes = vec![in row.alloc; b'x'; row.number(1) as usize]?;
    LText::plain(row.alloc, &bytes)
}

fn change(page: &mut Page, row: Row<'_>, out: &mut Line) {
    let text = if row.field(0) == "fill" {
        filling(row)
    } else {
        LText::plain(row.alloc, row.bytes(1))
    };
    match text {
        Ok(text) => act_with(page, row, text, out),
        Err(fault) => push_refusal(out, Err(fault)),
    }
}

fn put_header(page: &mut Page, row: Row<'_>) -> Result<(), AllocError> {
    let replace = row.field(3) == "replace";
    page.put_header(row.alloc, row.bytes(1), row.bytes(2), replace)
}

/// Puts headers back that were taken out, in order.
fn put_back(alloc: Global, page: &mut Page, headers: &[Header]) -> Result<(), AllocError> {
    for h in headers {
        page.headers
            .put(alloc, h.name.as_slice(), h.value.as_slice(), false)?;
    }
    Ok(())
}

fn push_taken(alloc: Global, page: &mut Page, headers: &[Header], out: &mut Line) {
    push_header_lines(out, headers);
    out.note(put_back(alloc, page, headers));
}

/// Puts the header lines of a page last, which are taken out and put back.
fn push_headers(alloc: Global, page: &mut Page, out: &mut Line) {
    let headers = mem::replace(&mut page.headers, Headers::new(alloc));
    if let Some(headers) = out.taken(headers.into_list(alloc)) {
        push_taken(alloc, page, headers.as_slice(), out);
    }
}

fn push_parts(page: &mut Page, row: Row<'_>, out: &mut Line) {
    out.push_str(" = ");
    if row.field(0) == "headers" {
        push_headers(row.alloc, page, out);
    } else {
        push_buffers(out, page.buffers.as_slice());
    }
}

pub fn act(page: &mut Page, row: Row<'_>, out: &mut Line) {
    match row.field(0) {
        "put_header" => out.note(put_header(page, row)),
        "set_status" => page.status = row.field(1).parse::<u16>().unwrap_or(0),
        "status" => push_count(out, u64::from(page.status)),
        "headers" | "buffers" => push_parts(page, row, out),
        "open_buffers" => push_count(out, page.buffers.as_slice().len() as u64),
        _ => change(page, row, out),
    }
}
