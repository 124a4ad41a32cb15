//! Asks tables in a database file and tables in memory the same, one call a line. Words stand between single spaces; `%` and two digits of
//! base 16 stand for a byte.
//!
//! - `open PATH`: lets the database go, and opens the file of that name; the tables in memory begin anew.
//! - `again`: lets the database go, and opens the same file once more.
//! - `second`: opens the same file once more, while the first stays open.
//! - `create NAME COLUMN ..`, with columns as `T:a` and `I:b`, T for TEXT and I for INTEGER.
//! - `columns NAME`, `rows NAME`.
//! - `insert NAME CELL ..`, `update NAME ROW CELL ..`, with cells as `N` for NULL, `5`, and `'abc` for a text.
//! - `delete NAME ROW`.
//!
//! The line that is printed has the answer of the database, and behind `<>` that of the tables in memory where it is another one. Where
//! the database fails, its fault stands there, and the tables in memory aren't asked.
#![tactic(auto)]

mod call;
mod desk;
mod show;

use crate::call::{Call, words};
use crate::desk::Desk;
use std::alloc::AllocError;
use std::io;
use std::rt::HostRuntime;

// What a line gives.
fn answer(rt: &HostRuntime, desk: &mut Desk, line: &str) -> Result<String, AllocError> {
    let words = words(rt.alloc(), line)?;
    match Call::of_words(rt.alloc(), &words)? {
        Some(call) => desk.ask(rt.alloc(), &call),
        None => desk.open(rt, &words),
    }
}

fn main(rt: HostRuntime) -> io::Result<()> {
    let mut desk = Desk::new(rt.alloc());
    for line in rt.lines(rt.alloc()) {
        let line = line?;
        let text = answer(&rt, &mut desk, line.as_str())?;
        rt.println(text)?;
    }
    Ok(())
}
