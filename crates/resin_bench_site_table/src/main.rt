//! Makes the site and traces of a sample run, one row a line, and prints what they are:
//!
//! - `site|PATH`: what stands at the path once the site is written to a store without files, its bytes and its shadow text, or `none`;
//! - `over|PATH|ASKED`: the same of the path `ASKED`, where the store held the bytes `old` with the shadow text `shadow` at `PATH` before;
//! - `text|N`: the trace of N pairs of requests, in which `\n`, `\r` and `\\` stand for a byte;
//! - `trace|N`: how long it is, and its MD5 digest;
//! - `read|N`: how many records it has, as the reader of traces hands them out, and of each connection how many requests came whole, how
//!   many bytes stand behind them, and the length and the digest of its stream.
//!
//! The answers were worked out by a program in Python from the description of the sample alone; those of `text|1` and `text|6` were read by hand too.
#![tactic(auto)]

mod digest;
mod site;
mod streams;

use crate::digest::{push_bytes, push_digest};
use resin_bench_site::sample_trace;
use std::alloc::{AllocError, Global};
use std::io;

// What stands before a mark, and what stands behind it.
fn cut(text: &str) -> (&str, &str) {
    match text.split_once('|') {
        Some(parts) => parts,
        None => (text, ""),
    }
}

// The trace of a row.
fn push_trace(alloc: Global, out: &mut String, kind: &str, count: &str) -> Result<(), AllocError> {
    let trace = sample_trace(alloc, count.parse::<u32>().unwrap_or(0))?;
    match kind {
        "text" => push_bytes(out, trace.as_slice()),
        "trace" => push_digest(alloc, out, trace.as_slice()),
        "read" => streams::push_read(alloc, out, trace.as_slice()),
        _ => out.push('?'),
    }
}

fn answer(alloc: Global, line: &str) -> Result<String, AllocError> {
    let mut out = String::new(alloc);
    let (kind, rest) = cut(line);
    let (first, second) = cut(rest);
    match kind {
        "site" => site::push_new(alloc, &mut out, first)?,
        "over" => site::push_over(alloc, &mut out, first, second)?,
        _ => push_trace(alloc, &mut out, kind, first)?,
    }
    Ok(out)
}

fn main(rt: HostRuntime) -> io::Result<()> {
    for line in rt.lines(rt.alloc()) {
        let line = line?;
        rt.println(answer(rt.alloc(), line.as_str())?)?;
    }
    Ok(())
}
