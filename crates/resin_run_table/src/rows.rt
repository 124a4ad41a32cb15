//! Rows, and the traces that they stand for.
use crate::runs::{
    calm_run, push_calm, push_fake, push_left_after, push_run, push_status, push_turns, status_of,
};
use resin_base::Bytes;
use resin_serve::Status;
use resin_table_rows::{Line, cut};
use std::alloc::{AllocError, Global};

// A record of connection 1.
fn push_piece(alloc: Global, trace: &mut Bytes, piece: &[u8]) -> Result<(), AllocError> {
    let count = piece.len();
    trace.push_slice(format!(in alloc; "1 {count}\n")?.as_bytes())?;
    trace.push_slice(piece)?;
    trace.push_slice(b"\n")
}

// Puts each byte of a text as a record.
fn push_singly(alloc: Global, trace: &mut Bytes, text: &str) -> Result<(), AllocError> {
    for byte in text.as_bytes() {
        push_piece(alloc, trace, &[*byte])?;
    }
    Ok(())
}

// A stream byte by byte: its front, and further texts, each behind the number of times that it comes.
fn push_singles(alloc: Global, out: &mut Line, fields: &str) -> Result<(), AllocError> {
    let (words, rest) = cut(fields, '|');
    let mut trace = Bytes::new(alloc);
    let mut times = 1;
    for (place, field) in rest.split('|').enumerate() {
        if place % 2 == 1 {
            times = field.parse::<usize>().unwrap_or(0);
        } else {
            for _ in 0..times {
                push_singly(alloc, &mut trace, field)?;
            }
            times = 1;
        }
    }
    push_run(alloc, out, words, trace, "")
}

// The output of a stream in two records, or in one where it isn't cut, and how the run ended.
fn output_of(
    alloc: Global,
    words: &str,
    front: &[u8],
    back: &[u8],
) -> Result<(Status, Bytes), AllocError> {
    let mut trace = Bytes::new(alloc);
    push_piece(alloc, &mut trace, front)?;
    if !back.is_empty() {
        push_piece(alloc, &mut trace, back)?;
    }
    let (left, out) = calm_run(alloc, words, trace, "")?;
    Ok((left.ended.status, Bytes::from_slice(alloc, out.written())?))
}

// Whether a stream that is cut somewhere ends well and gives an output.
fn is_alike(
    alloc: Global,
    words: &str,
    stream: &[u8],
    at: usize,
    wanted: &[u8],
) -> Result<bool, AllocError> {
    let (front, back) = stream.split_at(at.min(stream.len()));
    let (status, out) = output_of(alloc, words, front, back)?;
    Ok(status == Status::Ok && out.as_slice() == wanted)
}

// A stream that is cut at each place in turn.
fn push_cuts(alloc: Global, out: &mut Line, fields: &str) -> Result<(), AllocError> {
    let (words, stream) = cut(fields, '|');
    let stream = stream.as_bytes();
    let (status, wanted) = output_of(alloc, words, stream, b"")?;
    let mut alike = 0usize;
    for at in 0..stream.len() {
        if is_alike(alloc, words, stream, at, wanted.as_slice())? {
            alike = alike.saturating_add(1);
        }
    }
    push_status(out, status);
    out.tell(" | ", wanted.as_slice().len() as u64, " bytes");
    out.tell(" | ", alike as u64, "");
    out.tell(" of ", stream.len() as u64, " cuts alike");
    Ok(())
}

fn push_code(out: &mut Line, word: &str) {
    match status_of(word) {
        Some(status) => out.push_natural(u64::from(status.code())),
        None => out.push('?'),
    }
}

/// Puts what is printed for a row.
pub fn push_answer(alloc: Global, out: &mut Line, row: &str) -> Result<(), AllocError> {
    let (front, fields) = cut(row, '|');
    let (kind, settings) = cut(front, ' ');
    match kind {
        "calm" => push_calm(alloc, out, settings, fields)?,
        "fake" => push_fake(alloc, out, settings, fields)?,
        "turns" => push_turns(alloc, out, settings, fields)?,
        "left" => push_left_after(alloc, out, settings, fields)?,
        "singly" => push_singles(alloc, out, fields)?,
        "cuts" => push_cuts(alloc, out, fields)?,
        "code" => push_code(out, settings),
        _ => out.push('?'),
    }
    Ok(())
}
