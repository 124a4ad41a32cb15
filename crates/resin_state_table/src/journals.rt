//! Acts on a journal.
use crate::answer::{push_bytes, push_count, push_missing, push_text, push_unknown};
use crate::command::channel;
use resin_heap::under::bytes::Bytes;
use resin_heap::under::lstr::LText;
use resin_stage::under::journal::{Event, Journal, denial_line};
use resin_table_rows::{Line, Row};
use std::alloc::AllocError;

/// `denied|WRITE|CHANNEL|POLICY|CLASS|FROM|TO|BY`
fn denied(row: Row<'_>) -> Result<Event, AllocError> {
    let class = Bytes::from_slice(row.alloc, row.bytes(4))?;
    let by = Bytes::from_slice(row.alloc, row.bytes(7))?;
    Ok(Event::Denied {
        write: row.count(1),
        channel: channel(row.field(2)),
        policy: row.number(3),
        class,
        from: row.count(5),
        to: row.count(6),
        by,
    })
}

/// `filter_denied|WRITE|CHANNEL|FILTER|CLASS|LEN|BY`
fn filter_denied(row: Row<'_>) -> Result<Event, AllocError> {
    let class = Bytes::from_slice(row.alloc, row.bytes(4))?;
    let by = Bytes::from_slice(row.alloc, row.bytes(6))?;
    Ok(Event::FilterDenied {
        write: row.count(1),
        channel: channel(row.field(2)),
        filter: row.number(3),
        class,
        len: row.count(5),
        by,
    })
}

/// `passed|WRITE|POLICY`
fn passed(row: Row<'_>) -> Event {
    Event::Passed {
        write: row.count(1),
        policy: row.number(2),
    }
}

/// `sent|WRITE|CHANNEL|TEXT`
fn sent(row: Row<'_>) -> Result<Event, AllocError> {
    match LText::plain(row.alloc, row.bytes(3)) {
        Ok(text) => Ok(Event::Sent {
            write: row.count(1),
            channel: channel(row.field(2)),
            text,
        }),
        Err(_) => Err(AllocError),
    }
}

fn push_event(journal: &mut Journal, event: Result<Event, AllocError>) -> Result<(), AllocError> {
    journal.push(event?)
}

/// Puts the line of an event in the denial log last, with the line feed behind it.
fn push_line(row: Row<'_>, event: &Event, out: &mut Line) -> Result<(), AllocError> {
    match denial_line(row.alloc, row.count(1), event)? {
        Some(line) => push_bytes(row.alloc, out, line.as_slice()),
        None => push_missing(out),
    }
    Ok(())
}

fn ask_for_line(journal: &Journal, row: Row<'_>, out: &mut Line) {
    match journal.as_slice().get(row.number(2) as usize) {
        Some(event) => {
            let done = push_line(row, event, out);
            out.note(done);
        }
        None => push_text(out, "no event"),
    }
}

/// `line|REQUEST|PLACE` asks for the line of the event at a place, the first of which is 0, and `events` for their count.
pub fn ask(journal: &Journal, row: Row<'_>, out: &mut Line) {
    match row.field(0) {
        "events" => push_count(out, journal.as_slice().len() as u64),
        "line" => ask_for_line(journal, row, out),
        _ => push_unknown(out),
    }
}

pub fn act(journal: &mut Journal, row: Row<'_>, out: &mut Line) {
    let event = match row.field(0) {
        "passed" => Ok(passed(row)),
        "sent" => sent(row),
        "denied" => denied(row),
        "filter_denied" => filter_denied(row),
        _ => return ask(journal, row, out),
    };
    out.note(push_event(journal, event));
}
