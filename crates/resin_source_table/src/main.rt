//! Asks the crates that stand under the parser, one question a line, and prints the line with its answer behind ` = `. A line that begins with
//! `#` is a heading and is printed as it is. What stands in front of the first `|` of a line says what is asked:
//!
//! - `sum|DEPTH|SIGNS`: how far a sum of ones, with brackets and `!`, is read that may nest so deep, and whether it is odd;
//! - `list`, `boxed`, `shared`, `bytes`, `function`, `class` and `chain`: what holds the parts of trees, and their copies (`parts.rt`);
//! - `height`, `low`, `literal`, `trees`, `place`, `open` and `path`: what the words behind it build, as a calculator that keeps trees on a stack
//!   (`heights.rt`);
//! - `digits|N` and `constant|NAME`: the number that a token of this number is without a sign, and the constant of a name;
//! - another word, `WORD|PLACE|SOURCE`: something about the token at this place of a source text, as code behind `<?php ` (`kinds.rt`).
//!
//! `none` says that there is no such thing. The output was worked out by hand from the PHP manual and this project's profile; it is the table of
//! the tests of these crates.
#![tactic(auto)]

mod heights;
mod kinds;
mod parity;
mod parts;
mod sums;
mod words;

use std::alloc::{AllocError, Global};
use std::io;

fn answer(alloc: Global, line: &str) -> Result<String, AllocError> {
    let Some((asked, rest)) = line.split_once('|') else {
        return String::from_str(alloc, "unknown");
    };
    match asked {
        "sum" => sums::outcome(alloc, rest),
        "list" | "boxed" | "shared" | "bytes" | "function" | "class" | "chain" => {
            parts::answer(alloc, asked, rest)
        }
        "height" | "low" | "literal" | "trees" | "place" | "open" | "path" => {
            heights::answer(alloc, asked, rest)
        }
        "digits" | "constant" => kinds::answer_about(alloc, asked, rest),
        _ => kinds::answer(alloc, asked, rest),
    }
}

fn answered(alloc: Global, line: &str) -> Result<String, AllocError> {
    if line.starts_with('#') {
        return String::from_str(alloc, line);
    }
    let answer = answer(alloc, line)?;
    format!(in alloc; "{line} = {answer}")
}

fn main(rt: HostRuntime) -> io::Result<()> {
    for line in rt.lines(rt.alloc()) {
        let line = line?;
        let text = answered(rt.alloc(), line.as_str())?;
        rt.println(text)?;
    }
    Ok(())
}
