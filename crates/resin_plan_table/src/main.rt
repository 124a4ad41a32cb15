//! Carries out statements over small tables, one row a line. Fields stand between `|`:
//!
//! - `fail N ..`: the keeper's Nth calls fail. `made N`: N calls were made before.
//! - `table NAME COLUMN ..`: a table as a keeper holds it, with columns as `a:T` and `a__resin:T`, T for TEXT and I for INTEGER.
//! - `row CELL ..`: a row of that table, with cells as `N` for NULL, `5`, and `'abc` for a text. `row #7 CELL ..` has that number, else it is the
//!   next.
//! - any other field is a statement. The shadow of its Kth literal is the text `sK`; that of NULL is empty.
//!
//! The line that is printed has an answer for each statement: a count, or the names of columns and rows, each cell with its shadow behind `~`,
//! with the number of rows that the keeper gave; or why there is none. Behind `=` stand the keeper calls of the statement with what each
//! answered, and behind `#` how many calls were made and the numbers of those that failed. Last come the tables with their rows.
//!
//! The output was worked out by two programs in another language: one written from the rules of the statements, and SQLite, where both mean the same.
#![tactic(auto)]

mod shelf;
mod show;

use crate::shelf::Shelf;
use crate::show::push_answer;
use resin_base::{Calls, FailList};
use resin_lstr::LText;
use resin_plan::exec;
use resin_sql::{SqlFault, Stmt, literals, read_sql};
use resin_table_keepers::fails_in;
use resin_table_rows::{Line, print_answers};
use resin_table_sql::{plain_text, push_calls, stored_of};
use std::alloc::{AllocError, Global};
use std::io;

/// Adds what is told of a statement that was carried out: the keeper's calls, and their numbers.
fn push_log(out: &mut Line, log: Result<String, AllocError>, calls: &Calls) {
    out.push_str(" =");
    if let Some(log) = out.taken(log) {
        out.push_str(log.as_str());
    }
    push_calls(out, calls);
}

/// Carries out a statement that was read from a text, and adds what came of it.
fn push_outcome(
    out: &mut Line,
    text: &LText,
    statement: &Stmt,
    shelf: &mut Shelf,
    calls: &mut Calls,
) -> Result<(), AllocError> {
    let alloc = shelf.board.alloc;
    let cells = stored_of(alloc, text, literals(alloc, statement)?.as_slice())?;
    let answer = exec(alloc, statement, &cells, shelf, calls);
    push_answer(out, &answer);
    push_log(out, shelf.board.take_log(), calls);
    Ok(())
}

/// Reads a statement and carries it out, and adds what came of it.
fn push_statement(
    out: &mut Line,
    field: &str,
    shelf: &mut Shelf,
    calls: &mut Calls,
) -> Result<(), AllocError> {
    let text = plain_text(shelf.board.alloc, field)?;
    match read_sql(shelf.board.alloc, &text) {
        Ok(statement) => push_outcome(out, &text, &statement, shelf, calls)?,
        Err(SqlFault::Bad { offset }) => out.tell("syntax at ", offset, ""),
        Err(SqlFault::Memory) => return Err(AllocError),
    }
    out.push_str(" | ");
    Ok(())
}

/// Takes a field, and adds what came of it if it is a statement.
fn push_field(
    out: &mut Line,
    field: &str,
    shelf: &mut Shelf,
    calls: &mut Calls,
) -> Result<(), AllocError> {
    match field.split_once(' ') {
        Some(("fail", numbers)) => {
            shelf.board.fail = fails_in(shelf.board.alloc, numbers, 0)?;
            Ok(())
        }
        Some(("made", number)) => {
            calls.made = number.parse::<u64>().unwrap_or(0);
            Ok(())
        }
        Some(("table", table)) => shelf.board.put_table(table),
        Some(("row", row)) => shelf.board.put_row(row),
        _ => push_statement(out, field, shelf, calls),
    }
}

fn push_fields(alloc: Global, line: &str, out: &mut Line) {
    let mut shelf = Shelf::new(alloc);
    let mut calls = Calls {
        made: 0,
        failed: FailList::new(alloc),
    };
    for field in line.split('|') {
        let done = push_field(out, field, &mut shelf, &mut calls);
        out.note(done);
    }
    shelf.board.push_tables(out);
}

fn run(alloc: Global, line: &str) -> Result<String, AllocError> {
    let mut out = Line::new(alloc);
    if line.starts_with("# ") {
        out.push_str(line);
    } else {
        push_fields(alloc, line, &mut out);
    }
    out.end()
}

fn main(rt: HostRuntime) -> io::Result<()> {
    print_answers(&rt, run)
}
