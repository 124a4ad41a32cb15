//! Sources and sinks.
use crate::files::push_fault;
use crate::text::number;
use resin_base::{Bytes, KeepFault, Sink, Source};
use resin_edge::{StdSink, StdSource};
use resin_memory::{CalmSink, CalmSource, FakeSink, FakeSource};
use resin_table_keepers::fails_in;
use resin_table_rows::{Line, cut};
use std::alloc::{AllocError, Global};

// Takes bytes into a buffer, and adds how many.
fn push_take<S: Source>(out: &mut Line, source: &mut S, buffer: &mut [u8]) {
    if buffer.is_empty() {
        return;
    }
    match source.take(buffer) {
        Ok(count) => out.push_natural(count as u64),
        Err(_) => out.push_str("failed"),
    }
}

// Takes the steps of a source: the length of a buffer, and then `take`, and `buffer`, which adds what the buffer holds.
fn push_takes<S: Source>(
    alloc: Global,
    out: &mut Line,
    source: &mut S,
    fields: &str,
) -> Result<(), AllocError> {
    let (length, steps) = cut(fields, '|');
    let mut buffer = vec![in alloc; 0u8; number(length)]?;
    for step in steps.split('|') {
        if step == "take" {
            push_take(out, source, &mut buffer);
        } else {
            out.push_spaced_bytes(&buffer);
        }
        out.push_str("; ");
    }
    Ok(())
}

/// A source in memory that never fails: its bytes, and the steps.
pub fn push_calm_source(alloc: Global, out: &mut Line, fields: &str) -> Result<(), AllocError> {
    let (text, steps) = cut(fields, '|');
    let mut source = CalmSource::new(Bytes::from_slice(alloc, text.as_bytes())?);
    push_takes(alloc, out, &mut source, steps)
}

/// A source in memory that gives so many bytes at most, and of which the calls that the other words list fail.
pub fn push_fake_source(
    alloc: Global,
    out: &mut Line,
    words: &str,
    fields: &str,
) -> Result<(), AllocError> {
    let (text, steps) = cut(fields, '|');
    let (chunk, fail) = cut(words, ' ');
    let bytes = Bytes::from_slice(alloc, text.as_bytes())?;
    let mut source = FakeSource::new(bytes, number(chunk).max(1), fails_in(alloc, fail, 0)?);
    push_takes(alloc, out, &mut source, steps)
}

/// A reader of the system as a source.
pub fn push_std_source(alloc: Global, out: &mut Line, fields: &str) -> Result<(), AllocError> {
    let (text, steps) = cut(fields, '|');
    let mut source = StdSource::new(text.as_bytes());
    push_takes(alloc, out, &mut source, steps)
}

fn push_given(out: &mut Line, given: Result<usize, KeepFault>) {
    match given {
        Ok(count) => out.push_natural(count as u64),
        Err(fault) => push_fault(out, fault),
    }
    out.push_str("; ");
}

// Gives pieces, and adds how many bytes of each were taken.
fn push_gives<S: Sink>(out: &mut Line, sink: &mut S, pieces: &str) {
    for piece in pieces.split('|') {
        if !piece.is_empty() {
            push_given(out, sink.give(piece.as_bytes()));
        }
    }
}

/// A sink in memory that never fails: the pieces. What it holds is added last.
pub fn push_calm_sink(alloc: Global, out: &mut Line, pieces: &str) -> Result<(), AllocError> {
    let mut sink = CalmSink::new(alloc);
    push_gives(out, &mut sink, pieces);
    out.push_spaced_bytes(sink.written());
    Ok(())
}

/// A sink in memory that takes so many bytes at most, and of which the calls that the other words list fail.
pub fn push_fake_sink(
    alloc: Global,
    out: &mut Line,
    words: &str,
    pieces: &str,
) -> Result<(), AllocError> {
    let (chunk, fail) = cut(words, ' ');
    let mut sink = FakeSink::new(alloc, number(chunk), fails_in(alloc, fail, 0)?);
    push_gives(out, &mut sink, pieces);
    out.push_spaced_bytes(sink.written());
    Ok(())
}

/// A writer of the system as a sink: so many bytes of memory.
pub fn push_std_sink(
    alloc: Global,
    out: &mut Line,
    words: &str,
    pieces: &str,
) -> Result<(), AllocError> {
    let mut room = vec![in alloc; 0u8; number(words)]?;
    {
        let mut sink = StdSink::new(room.as_mut_slice());
        push_gives(out, &mut sink, pieces);
    }
    out.push_spaced_bytes(&room);
    Ok(())
}
