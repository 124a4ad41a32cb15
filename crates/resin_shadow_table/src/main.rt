//! Freezes policies and reads policy texts, one a line, and prints the line with its answer behind ` = `. A line that begins with `#` is a
//! heading and is printed as it is. Arguments are split by `|`:
//!
//! - `freeze|CLASS|NAME VALUE|NAME VALUE..`: the policy text of an object;
//! - `thaw|TEXT`: the class and the fields of a policy text, and whether they freeze to the same text;
//! - `front|BYTES`: the policy text at the front of bytes, and what is behind it;
//! - `encode|RUN|RUN..`: the shadow text of runs, each spelled by its length and its policy texts, split by spaces;
//! - `runs|RUN|RUN..`: their maximal runs;
//! - `decode|LENGTH|SHADOW`: the runs of the bytes of a text of this length that a shadow text spells;
//! - `off|LENGTH|SHADOW`: how many of the texts are read that come of it by changing, by dropping and by doubling one byte;
//! - `many|COUNT|POLICIES|EACH`: how long the shadow text of so many runs is, how many runs there are, and how many are read again.
//!
//! A value is `null`, `true`, `false`, an integer, a text between `'`, the number of an object behind `#`, or `[ KEY: VALUE VALUE ]`;
//! labels stand between braces, as in `'ab{1}c{}'` and `7{2}`. In bytes `\\s` stands for a space, `\\n` for a newline, `\\xhh` for the byte
//! of two digits, and a backslash before another byte for that byte.
//!
//! The texts were worked out by PHP's `serialize` of an object with these public properties, or by hand from the format; those of shadow
//! texts by another program, written from the format.
#![tactic(auto)]

mod fields;
mod many;
mod off;
mod policies;
mod shadows;
mod stop;
mod values;

use crate::stop::Stop;
use resin_table_rows::print_answers;
use std::alloc::{AllocError, Global};
use std::io;

// Puts the answer of a row last.
fn answer(alloc: Global, out: &mut String, row: &[&str]) -> Result<(), Stop> {
    let argument = row.get(1).copied().unwrap_or("");
    let second = row.get(2).copied().unwrap_or("");
    match row.get(0).copied().unwrap_or("") {
        "freeze" => policies::push_frozen(alloc, out, argument, row.get(2..).unwrap_or(&[])),
        "thaw" => policies::push_thawed(alloc, out, argument),
        "front" => policies::push_front(alloc, out, argument),
        "encode" => shadows::push_encoded(alloc, out, row.get(1..).unwrap_or(&[])),
        "runs" => shadows::push_joined(alloc, out, row.get(1..).unwrap_or(&[])),
        "decode" => shadows::push_decoded(alloc, out, argument, second),
        "off" => off::push_off(alloc, out, argument, second),
        "many" => many::push_many(alloc, out, row.get(1..).unwrap_or(&[])),
        _ => Err(Stop::Unreadable),
    }
}

// The line with its answer.
fn answered(alloc: Global, line: &str) -> Result<String, AllocError> {
    let mut out = String::from_str(alloc, line)?;
    if line.starts_with('#') {
        return Ok(out);
    }
    out.push_str(" =")?;
    let row: Vec<&str> = line.split('|').collect(alloc)?;
    match answer(alloc, &mut out, &row) {
        Ok(()) => {}
        Err(stop) => write!(out, " {}", stop.name())?,
    }
    Ok(out)
}

fn main(rt: HostRuntime) -> io::Result<()> {
    print_answers(&rt, answered)
}
