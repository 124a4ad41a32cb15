//! Writes journals as text and audits journal files, one a line, and prints the line with its answer behind ` = `. A line that begins with `#` is a
//! heading and is printed as it is. Arguments are split by `|`:
//!
//! - `audit|TEXT`: the verdict on a text;
//! - `repeat|COUNT|HEAD|PIECE|TAIL`: the verdict on a text that has a piece so many times between a head and a tail;
//! - `wide|COUNT`: the verdict on a text that went out, all of whose bytes carry so many policies, each of which had returned;
//! - `journal|REQUEST|EVENT|EVENT..`: the journal of these events as text, and the verdict on it.
//!
//! In a text `\n` stands for a newline, `\t` for a tab, `\r` for a carriage return, `\s` for a space, `\xhh` for the byte of two digits, and a
//! backslash before another byte for that byte. The bytes of an event's text are spelled as `ab{12}c{}`: `ab` carries the policies 1 and 2,
//! `c` none.
//!
//! The output was worked out by hand from the format of the file and from the access law, but for the last rows: their verdicts are those of
//! another program, which tries the law on each front of each journal.
#![tactic(auto)]

mod events;

use resin_audit::under::journal_file::journal_text;
use resin_audit::{Verdict, audit};
use resin_bytes::Bytes;
use resin_table_rows::{Line, Row, answered_row, bytes_in, print_answers};
use std::alloc::{AllocError, Global};
use std::io;

// Puts the verdict on a text last.
fn push_verdict(alloc: Global, out: &mut Line, text: &[u8]) -> Result<(), AllocError> {
    match audit(alloc, text)? {
        Verdict::Yes { requests, events } => {
            out.tell(" yes requests=", requests, "");
            out.tell(" events=", events, "");
        }
        Verdict::Form { offset } => out.tell(" form offset=", offset, ""),
        Verdict::Law { request, event } => {
            out.tell(" law request=", request, "");
            out.tell(" event=", event, "");
        }
    }
    Ok(())
}

// The text of `repeat|COUNT|HEAD|PIECE|TAIL`.
fn repeated(row: Row<'_>) -> Result<Bytes, AllocError> {
    let piece = bytes_in(row.alloc, row.field(3))?;
    let mut text = Bytes::new(row.alloc);
    text.push_slice(&bytes_in(row.alloc, row.field(2))?)?;
    for _ in 0..row.number(1) {
        text.push_slice(&piece)?;
    }
    text.push_slice(&bytes_in(row.alloc, row.field(4))?)?;
    Ok(text)
}

// The text of `wide|COUNT`.
fn wide(alloc: Global, count: u32) -> Result<String, AllocError> {
    let mut text = String::from_str(alloc, "request 1\n")?;
    for policy in 0..count {
        write!(text, "passed 1 {policy}\n")?;
    }
    text.push_str("sent 1 http 1 1\n1")?;
    for policy in 0..count {
        write!(text, " {policy}")?;
    }
    text.push_str("\na\n")?;
    Ok(text)
}

// The text of `journal|REQUEST|EVENT|EVENT..`.
fn journal(row: Row<'_>) -> Result<Bytes, AllocError> {
    let journal = events::journal_in(row.alloc, row.fields_from(2))?;
    journal_text(row.alloc, row.count(1), &journal)
}

// Puts the verdict of a row last.
fn push_answer(row: Row<'_>, out: &mut Line) -> Result<(), AllocError> {
    let alloc = row.alloc;
    match row.field(0) {
        "audit" => push_verdict(alloc, out, &bytes_in(alloc, row.field(1))?),
        "repeat" => push_verdict(alloc, out, repeated(row)?.as_slice()),
        "wide" => push_verdict(alloc, out, wide(alloc, row.number(1))?.as_bytes()),
        "journal" => {
            let text = journal(row)?;
            out.push(' ');
            out.push_spaced_bytes(text.as_slice());
            push_verdict(alloc, out, text.as_slice())
        }
        _ => {
            out.push_str(" unknown");
            Ok(())
        }
    }
}

// Puts the answer of a row behind it.
fn push_row(row: Row<'_>, out: &mut Line) {
    out.push_str(" =");
    let done = push_answer(row, out);
    out.note(done);
}

fn main(rt: HostRuntime) -> io::Result<()> {
    print_answers(&rt, |alloc, row| answered_row(alloc, row, push_row))
}
