//! Tells whether the source text on standard input is a program of the language within its limits. Of a program nothing is
//! printed, and the status is 0. Else one line on standard output tells the fault and its place, and the status is 1:
//!
//!     Syntax at 24, line 2, column 6
//!
//! The offset counts bytes from 0; the line and the column, in bytes too, count from 1. `docs/FORMATS.md` has the other ends.
#![tactic(auto)]

mod end;
mod place;
mod text;

use crate::end::End;
use crate::text::{MOST_BYTES, look};
use std::io::Read;
use std::process::ExitCode;

/// The text on standard input, and of a text that is too long one byte too many.
fn input(rt: &HostRuntime) -> Result<Vec<u8>, End> {
    let mut text = Vec::new(rt.alloc());
    rt.stdin()
        .take(MOST_BYTES as u64 + 1)
        .read_to_end(&mut text)?;
    Ok(text)
}

fn main(rt: HostRuntime) -> ExitCode {
    let end = match input(&rt) {
        Ok(text) => look(rt.alloc(), text.as_slice()),
        Err(end) => end,
    };
    ExitCode::from(end.told(&rt))
}
