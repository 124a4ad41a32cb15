//! Texts with line ends in rows.

use resin_table_rows::Line;
use std::alloc::{AllocError, Global};

// Puts last what a backslash and a character stand for.
fn push_escaped(out: &mut Line, c: char) {
    match c {
        'n' => out.push('\n'),
        'r' => out.push('\r'),
        '0' => out.push('\0'),
        _ => {
            out.push('\\');
            out.push(c);
        }
    }
}

/// The text that a row stands for: `\n`, `\r` and `\0` stand for those bytes, and each other backslash for itself.
pub fn unescaped(alloc: Global, row: &str) -> Result<String, AllocError> {
    let mut out = Line::new(alloc);
    let mut is_escaped = false;
    for c in row.chars() {
        if is_escaped {
            push_escaped(&mut out, c);
            is_escaped = false;
        } else if c == '\\' {
            is_escaped = true;
        } else {
            out.push(c);
        }
    }
    out.end()
}

fn push_char(out: &mut Line, c: char) {
    match c {
        '\n' => out.push_str("\\n"),
        '\r' => out.push_str("\\r"),
        '\0' => out.push_str("\\0"),
        _ => out.push(c),
    }
}

/// Puts bytes last as a row has them: line ends and zeros are escaped, and what is no UTF-8 is replaced.
pub fn push_shown(alloc: Global, out: &mut Line, bytes: &[u8]) {
    let text = String::from_utf8_lossy(alloc, bytes);
    if let Some(text) = out.taken(text) {
        for c in text.as_str().chars() {
            push_char(out, c);
        }
    }
}

/// Puts bytes last behind ` | `, where there are any.
pub fn push_part(alloc: Global, out: &mut Line, bytes: &[u8]) {
    if !bytes.is_empty() {
        out.push_str(" | ");
        push_shown(alloc, out, bytes);
    }
}
