//! Acts on the writes of a request and the answer under way. Each send is a write of its own, of a text without labels.
ghost use Rattle.std.specs.Prelude.{◌≡◌, ◌<◌, Some, IfOk};
ghost use Rattle.resin_heap.specs.Under.scan.Words.{IsName};
ghost use Rattle.resin_heap.specs.Under.label.Sets.{empty as no_labels};
ghost use Rattle.resin_heap.specs.Under.lstr.Texts.{carrying};
ghost use Rattle.resin_stage.specs.Lines.{header_line};

use crate::answer::{push_behind_bar, push_bytes, push_count, push_missing, push_unknown};
use crate::classes::is_name;
use crate::journals::ask;
use crate::pages::push_header_list;
use itoa::Buffer;
use resin_heap::under::bytes::Bytes;
use resin_heap::under::lstr::LText;
use resin_stage::Stage;
use resin_stage::under::journal::Channel;
use resin_table_rows::{Line, Row};
use std::alloc::{AllocError, Global};
use std::mem;

/// A text without labels.
fn plain(alloc: Global, bytes: &[u8]) -> Result<LText, AllocError>
    ensures { IfOk result (λ text. text ≡ carrying no_labels bytes.now) }
{
    match LText::plain(alloc, bytes) {
        Ok(text) => Ok(text),
        Err(_) => Err(AllocError),
    }
}

/// Sends a page, and tells the number of its write.
fn send_page(
    alloc: Global,
    stage: &mut Stage,
    bytes: &[u8],
    out: &mut Line,
) -> Result<(), AllocError> {
    let text = plain(alloc, bytes)?;
    match stage.draw() {
        Some(write) => {
            push_count(out, write);
            stage.send_page(write, text)
        }
        None => Ok(push_missing(out)),
    }
}

/// Sends a mail in a request, and tells the number of its write.
fn send_mail(
    alloc: Global,
    stage: &mut Stage,
    request: u64,
    bytes: &[u8],
    out: &mut Line,
) -> Result<(), AllocError> {
    let text = plain(alloc, bytes)?;
    match stage.draw() {
        Some(write) => {
            push_count(out, write);
            stage.send_mail(alloc, request, write, text)
        }
        None => Ok(push_missing(out)),
    }
}

/// Sends a header line, which replaces those of its name.
fn send_line(
    alloc: Global,
    stage: &mut Stage,
    line: &[u8],
    name: &[u8],
    value: &[u8],
    out: &mut Line,
) -> Result<(), AllocError>
    requires { header_line line.now ≡ Some (record { name = name.now; value = value.now }) }
{
    let text = plain(alloc, line)?;
    match stage.draw() {
        Some(write) => stage.send_header(alloc, write, text, name, value, true),
        None => Ok(push_missing(out)),
    }
}

/// Sends one of these header lines.
fn send_header(
    alloc: Global,
    stage: &mut Stage,
    line: &str,
    out: &mut Line,
) -> Result<(), AllocError> {
    match line {
        "A: 1" => send_line(alloc, stage, b"A: 1", b"A", b"1", out),
        "Location:/b " => send_line(alloc, stage, b"Location:/b ", b"Location", b"/b", out),
        "a:2" => send_line(alloc, stage, b"a:2", b"a", b"2", out),
        _ => Ok(push_unknown(out)),
    }
}

/// Sends a status.
fn send_status(
    alloc: Global,
    stage: &mut Stage,
    status: u16,
    out: &mut Line,
) -> Result<(), AllocError> {
    let mut buffer = Buffer::new();
    let text = plain(alloc, buffer.format(status).as_bytes())?;
    match stage.draw() {
        Some(write) => stage.send_status(write, text, status),
        None => Ok(push_missing(out)),
    }
}

/// Asks policy 1, which passes, and policy 2, which denies some bytes of a page.
fn deny_page(
    stage: &mut Stage,
    class: Bytes,
    from: u64,
    to: u64,
    by: Bytes,
    out: &mut Line,
) -> Result<(), AllocError>
    requires range { from < to }
    requires names { IsName class × IsName by }
{
    match stage.draw() {
        Some(write) => {
            stage.passed(write, 1)?;
            stage.denied(write, Channel::Http, 2, class, from, to, by)
        }
        None => Ok(push_missing(out)),
    }
}

/// A filter denies a mail.
fn deny_mail(
    stage: &mut Stage,
    filter: u32,
    class: Bytes,
    len: u64,
    by: Bytes,
    out: &mut Line,
) -> Result<(), AllocError>
    requires { IsName class × IsName by }
{
    match stage.draw() {
        Some(write) => stage.filter_denied(write, Channel::Email, filter, class, len, by),
        None => Ok(push_missing(out)),
    }
}

/// A filter denies a file, outside the writes that leave.
fn deny_file(
    stage: &mut Stage,
    filter: u32,
    class: Bytes,
    len: u64,
    by: Bytes,
) -> Result<(), AllocError>
    requires { IsName class × IsName by }
{
    stage.filter_denied_outside(Channel::File, filter, class, len, by)
}

fn deny_by(
    stage: &mut Stage,
    class: Bytes,
    by: Bytes,
    row: Row<'_>,
    out: &mut Line,
) -> Result<(), AllocError>
    requires { IsName class × IsName by }
{
    let (from, to) = (row.count(3), row.count(4));
    match row.field(0) {
        "deny_page" if from < to => deny_page(stage, class, from, to, by, out),
        "deny_mail" => deny_mail(stage, row.number(3), class, to, by, out),
        "deny_file" => deny_file(stage, row.number(3), class, to, by),
        _ => Ok(push_unknown(out)),
    }
}

/// `deny_page|CLASS|BY|FROM|TO`, `deny_mail|CLASS|BY|FILTER|LEN` and `deny_file|CLASS|BY|FILTER|LEN`
fn deny(stage: &mut Stage, row: Row<'_>, out: &mut Line) -> Result<(), AllocError> {
    let (class, by) = (row.bytes(1), row.bytes(2));
    if is_name(class) && is_name(by) {
        let class = Bytes::from_slice(row.alloc, class)?;
        let by = Bytes::from_slice(row.alloc, by)?;
        deny_by(stage, class, by, row, out)
    } else {
        Ok(push_missing(out))
    }
}

/// Puts a text into the innermost buffer.
fn buffer(stage: &mut Stage, row: Row<'_>, out: &mut Line) -> Result<(), AllocError> {
    let text = plain(row.alloc, row.bytes(1))?;
    if stage.open_buffers() == 0 {
        return Ok(push_missing(out));
    }
    match stage.buffer(row.alloc, &text) {
        Ok(()) => Ok(()),
        Err(_) => Err(AllocError),
    }
}

/// Closes the innermost buffer, and tells its text.
fn close(alloc: Global, stage: &mut Stage, out: &mut Line) -> Result<(), AllocError> {
    match stage.close_buffer() {
        Some(text) => {
            let text = text.finish()?;
            push_bytes(alloc, out, text.bytes());
        }
        None => push_missing(out),
    }
    Ok(())
}

/// Ends the request, and tells its status, its header lines, its body, its mail and how many events it had.
fn finish(alloc: Global, stage: &mut Stage, out: &mut Line) {
    let whole = mem::replace(stage, Stage::new(alloc));
    let (status, headers, body, mail, journal) = whole.into_parts();
    out.tell(" = ", u64::from(status), " | ");
    push_header_list(out, headers.into_list(alloc));
    push_behind_bar(alloc, out, body.as_slice());
    push_behind_bar(alloc, out, mail.as_slice());
    out.tell(" | ", journal.as_slice().len() as u64, "");
}

fn send(stage: &mut Stage, row: Row<'_>, out: &mut Line) -> Result<(), AllocError> {
    let alloc = row.alloc;
    match row.field(0) {
        "page" => send_page(alloc, stage, row.bytes(1), out),
        "mail" => {
            let text = row.field(2).replace(alloc, "\\n", "\n")?;
            send_mail(alloc, stage, row.count(1), text.as_bytes(), out)
        }
        "header" => send_header(alloc, stage, row.field(1), out),
        "send_status" => {
            let status = row.field(1).parse::<u16>().unwrap_or(0);
            send_status(alloc, stage, status, out)
        }
        _ => deny(stage, row, out),
    }
}

fn change(stage: &mut Stage, row: Row<'_>, out: &mut Line) {
    let done = match row.field(0) {
        "open" => stage.open_buffer(row.alloc),
        "buffer" => buffer(stage, row, out),
        "close" => close(row.alloc, stage, out),
        _ => send(stage, row, out),
    };
    out.note(done);
}

pub fn act(stage: &mut Stage, row: Row<'_>, out: &mut Line) {
    match row.field(0) {
        "status" => push_count(out, u64::from(stage.status())),
        "events" | "line" => ask(stage.journal(), row, out),
        "open_buffers" => push_count(out, stage.open_buffers() as u64),
        "finish" => finish(row.alloc, stage, out),
        _ => change(stage, row, out),
    }
}
