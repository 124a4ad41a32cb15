//! What acts answer, behind ` = `.
use resin_table_rows::Line;
use std::alloc::{AllocError, Global};

/// Puts a text last.
pub fn push_text(out: &mut Line, text: &str) {
    out.push_str(" = ");
    out.push_str(text);
}

/// Says that there is no such thing.
pub fn push_missing(out: &mut Line) {
    out.push_str(" = none");
}

/// Says that there is no such act.
pub fn push_unknown(out: &mut Line) {
    out.push_str(" = unknown");
}

pub fn push_truth(out: &mut Line, truth: bool) {
    out.push_str(" =");
    out.push_truth(truth);
}

pub fn push_integer(out: &mut Line, n: i64) {
    out.push_str(" =");
    out.push_number(n);
}

pub fn push_count(out: &mut Line, n: u64) {
    out.tell(" = ", n, "");
}

/// Puts an integer last, if there is one.
pub fn push_found(out: &mut Line, found: Option<i64>) {
    match found {
        Some(n) => push_integer(out, n),
        None => push_missing(out),
    }
}

/// Puts a number last, if there is one.
pub fn push_number(out: &mut Line, found: Option<u32>) {
    match found {
        Some(n) => push_integer(out, i64::from(n)),
        None => push_missing(out),
    }
}

pub fn push_numbers(out: &mut Line, numbers: &[u32]) {
    out.push_str(" =");
    for n in numbers {
        out.push_number(i64::from(*n));
    }
}

fn shown(alloc: Global, bytes: &[u8]) -> Result<String, AllocError> {
    let text = String::from_utf8_lossy(alloc, bytes)?;
    text.as_str().replace(alloc, "\n", "\\n")
}

fn push_shown(alloc: Global, out: &mut Line, bytes: &[u8]) {
    if let Some(text) = out.taken(shown(alloc, bytes)) {
        out.push_str(text.as_str());
    }
}

/// Puts some bytes last, a line feed as `\n`.
pub fn push_bytes(alloc: Global, out: &mut Line, bytes: &[u8]) {
    out.push_str(" = ");
    push_shown(alloc, out, bytes);
}

/// Puts some bytes last behind a bar, a line feed as `\n`.
pub fn push_behind_bar(alloc: Global, out: &mut Line, bytes: &[u8]) {
    out.push_str(" | ");
    push_shown(alloc, out, bytes);
}
