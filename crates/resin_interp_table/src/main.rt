//! Runs the script on each line, as code behind `<?php `, and prints how it ended, the status with the headers that it set, the body, and
//! the denials and the mail that it left, where there are any. `\n` on a line stands for that byte, and in what is printed `\r` and `\0` do
//! too. A line that begins with `# ` is a heading and is printed as it is. A script has 100,000 ticks; where a number and `|` stand before
//! it, it has as many as that, and the ticks that it took are printed too. A line `call NAME|ARGUMENT|..` calls a function by its name,
//! with texts and without a script, and prints what it gives.
//!
//! The input, and the output, which was worked out by PHP 8.2 and by hand from the PHP manual and this project's profile, are the table of
//! the tests of scripts. The rows under "Cost" add 100,000 or 300,000 entries to one array: where each turn copied what is there, they
//! would take 5,000,000,000 to 45,000,000,000 steps, and the program would not end in the time that it has.
#![tactic(auto)]

mod calls;
mod scripts;
mod shown;

use resin_table_rows::{Line, print_answers};
use std::alloc::{AllocError, Global};
use std::io;

fn answer(alloc: Global, row: &str) -> Result<String, AllocError> {
    if row.starts_with("# ") {
        return String::from_str(alloc, row);
    }
    let mut out = Line::new(alloc);
    match row.strip_prefix("call ") {
        Some(call) => calls::push_row(alloc, &mut out, call),
        None => scripts::push_row(alloc, &mut out, row),
    }
    out.end()
}

fn main(rt: HostRuntime) -> io::Result<()> {
    print_answers(&rt, answer)
}
