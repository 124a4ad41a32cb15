//! What is read and printed.

use crate::line::Line;
use crate::row::{Row, split_row};
use std::alloc::{AllocError, Global};
use std::cell::Cell;
use std::io;
use std::rt::HostRuntime;

/// Prints the answer to each line of the input.
///
/// # Errors
///
/// What reading and printing fail with, and want of memory.
pub fn print_answers<A: Fn(Global, &str) -> Result<String, AllocError>>(
    rt: &HostRuntime,
    answer: A,
) -> io::Result<()>
    requires { A.IsAlwaysCallable answer }
{
    for line in rt.lines(rt.alloc()) {
        let line = line?;
        let text = answer(rt.alloc(), line.as_str())?;
        rt.println(text)?;
    }
    Ok(())
}

// Puts the answer of a row last.
fn push_row<A: FnOnce(Row<'_>, &mut Line)>(
    alloc: Global,
    out: &mut Line,
    line: &str,
    push_answer: A,
) -> Result<(), AllocError>
    requires { A.IsAlwaysCallable push_answer }
{
    let fields = split_row(alloc, line)?;
    let is_unreadable = Cell::new(false);
    push_answer(
        Row {
            alloc,
            fields: &fields,
            is_unreadable: &is_unreadable,
        },
        out,
    );
    if is_unreadable.get() {
        out.push_word("Unreadable");
    }
    Ok(())
}

/// The row as it stands, and behind it what `push_answer` puts there, by the fields between `|`. A row that begins with `#` stands alone,
/// and behind one in which a field that had to be a number is none stands `Unreadable`.
pub fn answered_row<A: FnOnce(Row<'_>, &mut Line)>(
    alloc: Global,
    row: &str,
    push_answer: A,
) -> Result<String, AllocError>
    requires { A.IsAlwaysCallable push_answer }
{
    let mut out = Line::new(alloc);
    out.push_str(row);
    if !row.starts_with('#') {
        let done = push_row(alloc, &mut out, row, push_answer);
        out.note(done);
    }
    out.end()
}
