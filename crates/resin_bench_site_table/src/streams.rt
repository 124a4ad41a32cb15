//! What the reader of traces makes of a trace.
use crate::digest::push_digest;
use resin_trace::{Connections, TraceEvent, TraceFault, TraceReader};
use std::alloc::{AllocError, Global};

// Does what a record says to the connections.
fn take_record(connections: &mut Connections, event: TraceEvent) -> Result<(), AllocError> {
    match event {
        TraceEvent::Piece { conn, bytes } => connections.add(conn, bytes.as_slice()),
        TraceEvent::End { conn } => {
            connections.end(conn);
            Ok(())
        }
    }
}

// Puts the pieces of a trace on their connections, and counts its records.
fn sorted(alloc: Global, connections: &mut Connections, trace: &[u8]) -> Result<usize, TraceFault> {
    let mut reader = TraceReader::new(alloc);
    reader.feed(trace)?;
    let mut records = 0usize;
    for _ in 0..trace.len() {
        let Some(event) = reader.next()? else {
            break;
        };
        if take_record(connections, event).is_err() {
            return Err(TraceFault::Memory);
        }
        records = records.saturating_add(1);
    }
    reader.finish()?;
    Ok(records)
}

// How many requests without a body a stream has, and how many bytes stand behind the last.
fn whole_requests(stream: &[u8]) -> (usize, usize) {
    let mut requests = 0usize;
    let mut behind = 0usize;
    for i in 0..stream.len() {
        behind = behind.saturating_add(1);
        if stream[..i + 1].ends_with(b"\r\n\r\n") {
            requests = requests.saturating_add(1);
            behind = 0;
        }
    }
    (requests, behind)
}

fn push_stream(
    alloc: Global,
    out: &mut String,
    connections: &Connections,
    conn: u16,
) -> Result<(), AllocError> {
    let stream = connections.stream(conn);
    let (requests, behind) = whole_requests(stream);
    write!(
        out,
        "; on {conn} {requests} requests and {behind} bytes more, "
    )?;
    push_digest(alloc, out, stream)
}

/// Adds the records of a trace and the streams of its two connections.
pub fn push_read(alloc: Global, out: &mut String, trace: &[u8]) -> Result<(), AllocError> {
    let mut connections = Connections::new(alloc);
    match sorted(alloc, &mut connections, trace) {
        Ok(records) => write!(out, "{records} records")?,
        Err(TraceFault::Bad { offset }) => write!(out, "bad at {offset}")?,
        Err(TraceFault::TooLong) => out.push_str("too long")?,
        Err(TraceFault::Memory) => return Err(AllocError),
    }
    push_stream(alloc, out, &connections, 1)?;
    push_stream(alloc, out, &connections, 2)
}
