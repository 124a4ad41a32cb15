//! Records of traces.
use crate::text::number;
use resin_table_rows::{Line, bytes_in};
use resin_trace::{TraceEvent, TraceFault, TraceReader};
use std::alloc::{AllocError, Global};

fn push_fault(out: &mut Line, fault: TraceFault) {
    match fault {
        TraceFault::Bad { offset } => out.tell("bad at ", offset, ""),
        TraceFault::TooLong => out.push_str("too long"),
        TraceFault::Memory => out.push_str("memory"),
    }
}

fn push_whether(out: &mut Line, answer: Result<(), TraceFault>) {
    match answer {
        Ok(()) => out.push_str("ok"),
        Err(fault) => push_fault(out, fault),
    }
}

fn push_piece(out: &mut Line, conn: u16, bytes: &[u8]) {
    out.tell("", u64::from(conn), " '");
    out.push_spaced_bytes(bytes);
    out.push('\'');
}

fn push_event(out: &mut Line, event: &TraceEvent) {
    match event {
        TraceEvent::Piece { conn, bytes } => push_piece(out, *conn, bytes.as_slice()),
        TraceEvent::End { conn } => out.tell("", u64::from(*conn), " end"),
    }
}

// Adds a record if there is one, or else what stands in its place, and whether more may come.
fn push_record(out: &mut Line, record: Result<Option<TraceEvent>, TraceFault>) -> bool {
    match record {
        Ok(Some(event)) => {
            push_event(out, &event);
            out.push_str("; ");
            return true;
        }
        Ok(None) => out.push_str("none"),
        Err(fault) => push_fault(out, fault),
    }
    false
}

// Adds up to 100 records, and what stands behind them.
fn push_records(out: &mut Line, reader: &mut TraceReader) {
    for _ in 0..100 {
        if !push_record(out, reader.next()) {
            return;
        }
    }
}

// Adds how the trace that was fed ends, its records and what stands behind them, and how the trace ends once more.
fn push_told(out: &mut Line, reader: &mut TraceReader) {
    push_whether(out, reader.finish());
    out.push_str(" | ");
    push_records(out, reader);
    out.push_str(" | ");
    push_whether(out, reader.finish());
}

// Adds what a trace tells that was fed, or why it could not be.
fn push_fed(out: &mut Line, reader: &mut TraceReader, fed: Result<(), TraceFault>) {
    match fed {
        Ok(()) => push_told(out, reader),
        Err(fault) => push_fault(out, fault),
    }
}

/// The records of a trace that comes at once.
pub fn push_whole(alloc: Global, out: &mut Line, field: &str) -> Result<(), AllocError> {
    let bytes = bytes_in(alloc, field)?;
    let mut reader = TraceReader::new(alloc);
    let fed = reader.feed(&bytes);
    push_fed(out, &mut reader, fed);
    Ok(())
}

// Feeds bytes one by one.
fn feed_singly(reader: &mut TraceReader, bytes: &[u8]) -> Result<(), TraceFault> {
    for byte in bytes {
        reader.feed(&[*byte])?;
    }
    Ok(())
}

/// The records of a trace that comes byte by byte.
pub fn push_singly(alloc: Global, out: &mut Line, field: &str) -> Result<(), AllocError> {
    let bytes = bytes_in(alloc, field)?;
    let mut reader = TraceReader::new(alloc);
    let fed = feed_singly(&mut reader, &bytes);
    push_fed(out, &mut reader, fed);
    Ok(())
}

// How many more records there are with the next one.
fn counted(reader: &mut TraceReader) -> Result<usize, TraceFault> {
    match reader.next() {
        Ok(Some(_)) => Ok(1),
        Ok(None) => Ok(0),
        Err(fault) => Err(fault),
    }
}

// Feeds text so many times, and asks for a record after each. How many records came.
fn fed(reader: &mut TraceReader, text: &[u8], times: usize) -> Result<usize, TraceFault> {
    let mut records = 0usize;
    for _ in 0..times {
        reader.feed(text)?;
        records = records.saturating_add(counted(reader)?);
    }
    Ok(records)
}

// Adds a count of records, or a fault.
fn push_count(out: &mut Line, count: Result<usize, TraceFault>) {
    match count {
        Ok(count) => out.tell("", count as u64, " records"),
        Err(fault) => push_fault(out, fault),
    }
    out.push_str("; ");
}

/// A record that comes so many times, each of which is handed out at once, and then once more.
pub fn push_endless(
    alloc: Global,
    out: &mut Line,
    times: &str,
    record: &str,
) -> Result<(), AllocError> {
    let record = bytes_in(alloc, record)?;
    let mut reader = TraceReader::new(alloc);
    push_count(out, fed(&mut reader, &record, number(times)));
    push_whether(out, reader.feed(&record));
    out.push_str("; ");
    push_whether(out, reader.finish());
    out.push_str("; ");
    push_whether(out, reader.feed(b"x"));
    out.push_str("; ");
    push_records(out, &mut reader);
    Ok(())
}

// Adds how long the piece is that stands at the front of a reader.
fn push_length(out: &mut Line, record: Result<Option<TraceEvent>, TraceFault>) {
    match record {
        Ok(Some(TraceEvent::Piece { bytes, .. })) => {
            out.tell("; ", bytes.as_slice().len() as u64, " bytes; ");
        }
        _ => out.push_str("; no piece; "),
    }
}

/// A piece of so many bytes, which come one by one, while a record is asked for after each.
pub fn push_slow_piece(alloc: Global, out: &mut Line, length: &str) -> Result<(), AllocError> {
    let head = format!(in alloc; "5 {length}\n")?;
    let mut reader = TraceReader::new(alloc);
    push_whether(out, reader.feed(head.as_bytes()));
    out.push_str("; ");
    push_count(out, fed(&mut reader, b"a", number(length)));
    push_whether(out, reader.feed(b"\n"));
    push_length(out, reader.next());
    push_whether(out, reader.finish());
    Ok(())
}

// Feeds a record so many times.
fn feed_all(reader: &mut TraceReader, record: &[u8], times: usize) -> Result<(), TraceFault> {
    for _ in 0..times {
        reader.feed(record)?;
    }
    Ok(())
}

// Hands out records, and counts them.
fn handed_out(reader: &mut TraceReader, times: usize) -> Result<usize, TraceFault> {
    let mut records = 0usize;
    for _ in 0..times {
        records = records.saturating_add(counted(reader)?);
    }
    Ok(records)
}

/// A record that comes so many times before the first one is handed out.
pub fn push_late(
    alloc: Global,
    out: &mut Line,
    times: &str,
    record: &str,
) -> Result<(), AllocError> {
    let record = bytes_in(alloc, record)?;
    let mut reader = TraceReader::new(alloc);
    push_whether(out, feed_all(&mut reader, &record, number(times)));
    out.push_str("; ");
    push_count(out, handed_out(&mut reader, number(times)));
    push_whether(out, reader.finish());
    Ok(())
}
