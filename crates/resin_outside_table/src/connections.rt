//! Streams of connections.
use crate::text::number;
use resin_table_rows::{Line, cut};
use resin_trace::Connections;
use std::alloc::{AllocError, Global};

// Takes bytes off the front of a stream that has so many.
fn take(connections: &mut Connections, conn: u16, count: usize) {
    if count <= connections.stream(conn).len() {
        connections.used(conn, count);
    }
}

// Refuses a connection, on which nothing may have come yet.
fn refuse(connections: &mut Connections, conn: u16) -> Result<(), AllocError> {
    connections.add(conn, b"")?;
    connections.refuse(conn);
    Ok(())
}

fn push_stream(out: &mut Line, connections: &Connections, conn: u16) {
    out.push('\'');
    out.push_spaced_bytes(connections.stream(conn));
    out.push_str("'; ");
}

// Adds to a connection or refuses it.
fn open(
    connections: &mut Connections,
    name: &str,
    conn: u16,
    bytes: &[u8],
) -> Result<(), AllocError> {
    if name == "refuse" {
        refuse(connections, conn)
    } else {
        connections.add(conn, bytes)
    }
}

// Takes a step. What waits on a connection is added where it asks for that.
fn push_step(out: &mut Line, connections: &mut Connections, step: &str) {
    let (name, operands) = cut(step, ' ');
    let (conn, rest) = cut(operands, ' ');
    let conn = conn.parse::<u16>().unwrap_or(0);
    match name {
        "stream" => push_stream(out, connections, conn),
        "used" => take(connections, conn, number(rest)),
        "end" => connections.end(conn),
        _ => {
            let done = open(connections, name, conn, rest.as_bytes());
            out.note(done);
        }
    }
}

/// The steps of one run.
pub fn push_steps(alloc: Global, out: &mut Line, steps: &str) -> Result<(), AllocError> {
    let mut connections = Connections::new(alloc);
    for step in steps.split('|') {
        push_step(out, &mut connections, step);
    }
    Ok(())
}

// Adds a text to a connection so many times.
fn add_all(
    connections: &mut Connections,
    conn: u16,
    text: &[u8],
    times: usize,
) -> Result<(), AllocError> {
    for _ in 0..times {
        connections.add(conn, text)?;
    }
    Ok(())
}

// Takes a stream byte by byte. How often it was as long as the bytes that are left.
fn taken(connections: &mut Connections, conn: u16, length: usize) -> usize {
    let mut right = 0usize;
    for count in 0..length {
        if connections.stream(conn).len() == length - count {
            right = right.saturating_add(1);
        }
        take(connections, conn, 1);
    }
    right
}

/// Two bytes that come so many times on a connection, and are taken one by one.
pub fn push_long_stream(alloc: Global, out: &mut Line, times: &str) -> Result<(), AllocError> {
    let mut connections = Connections::new(alloc);
    let times = number(times);
    out.note(add_all(&mut connections, 3, b"ab", times));
    let right = taken(&mut connections, 3, times.saturating_mul(2));
    let left = connections.stream(3).len();
    out.tell("", right as u64, " lengths right; ");
    out.tell("", left as u64, " left");
    Ok(())
}

// Adds a piece to a connection, and takes it but for some bytes.
fn drain(
    connections: &mut Connections,
    conn: u16,
    piece: &[u8],
    left: usize,
) -> Result<(), AllocError> {
    connections.add(conn, piece)?;
    take(connections, conn, piece.len().saturating_sub(left));
    Ok(())
}

/// Bytes that come on so many connections, so many on each, and are taken but for some.
pub fn push_drained(alloc: Global, out: &mut Line, words: &str) -> Result<(), AllocError> {
    let (count, lengths) = cut(words, ' ');
    let (length, left) = cut(lengths, ' ');
    let piece = vec![in alloc; b'b'; number(length)]?;
    let mut connections = Connections::new(alloc);
    for conn in 0..count.parse::<u16>().unwrap_or(0) {
        out.note(drain(&mut connections, conn, &piece, number(left)));
    }
    out.tell("", connections.stream(0).len() as u64, " left");
    Ok(())
}
