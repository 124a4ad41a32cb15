//! Prints what the crates of bytes, labels, texts, scalars, values and operators answer, one call a line. A row is the name of a call and its
//! arguments, split by `|`, and is printed with its answer behind ` = `; a row that begins with `#` is printed as it stands. Where a row makes
//! several calls on one value, each further field is a call by its name and its arguments, split by a space, and the answers follow one another.
//!
//! In bytes `\s`, `\n`, `\r`, `\t` and `\\` stand for a space, the line ends, a tab and a backslash; `{12}` behind bytes or an integer gives them
//! the policies 1 and 2. A value is `null`, `true`, `false`, an integer, a text between `'`, an object as `#1`, or an array between `[` and `]`,
//! whose values are split by spaces, each behind its key and `:` where that isn't the next one.
//!
//! The input and the answers are the table of these crates' tests. The answers were taken from the PHP 8 manual, where this project's rules don't
//! differ from it, and worked out by hand for paths, labels, charges and limits.
#![tactic(auto)]

mod arrays;
mod bytes;
mod comparisons;
mod labels;
mod operators;
mod scalars;
mod shown;
mod stop;
mod texts;

use resin_table_rows::{Line, Row, answered_row, print_answers};
use std::io;

// Puts the answer of a call last.
fn push_answer(row: Row<'_>, out: &mut Line) {
    out.push_str(" =");
    let is_known = bytes::call(row, out)
        || labels::call(row, out)
        || texts::call(row, out)
        || scalars::call(row, out)
        || arrays::call(row, out)
        || comparisons::call(row, out)
        || operators::call(row, out);
    if !is_known {
        row.fail();
    }
}

fn main(rt: HostRuntime) -> io::Result<()> {
    print_answers(&rt, |alloc, row| answered_row(alloc, row, push_answer))
}
