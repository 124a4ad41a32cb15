//! Carries out joins and totals over small tables in memory, one row a line. Fields stand between `|`:
//!
//! - `fail N ..`: the keeper's Nth calls fail. `made N`: N calls were made before. `left N`: N ticks are left, 1,000,000 if it isn't said.
//! - `table NAME COLUMN ..`: a table as a keeper holds it, with columns as `a:T` and `a__resin:T`, T for TEXT and I for INTEGER.
//! - `row CELL ..`: a row of that table, with cells as `N` for NULL, `5`, and `'abc` for a text.
//! - any other field is a statement. The shadow of its Kth literal is the text `sK`; that of NULL is empty.
//!
//! The line that is printed has an answer for each statement: its names, its rows with the shadow of each cell behind `~`, what it cost and
//! how many rows were chosen, and for a total behind `=` the value of each item, `?` where one of its cells isn't to be read; or why there
//! is none. Behind `#` stand how many calls were made and the numbers of those that failed.
//!
//! The output was made by Python's sqlite3, and by the rules alone where SQLite means something else: `tests/joint/rows.py`.
#![tactic(auto)]

mod item_values;
mod shelf;
mod show;

use crate::item_values::push_values;
use crate::shelf::Shelf;
use crate::show::push_answer;
use resin_lstr::LText;
use resin_sql_more::under::sql::SqlFault;
use resin_sql_more::under::sql::parts::where_literals;
use resin_sql_more::{JoinStmt, MoreStmt, TotalStmt, exec_join, exec_total, read_more};
use resin_table_rows::{Line, print_answers};
use resin_table_sql::{plain_text, push_calls, stored_of};
use std::alloc::{AllocError, Global};
use std::io;

/// Carries out a join that was read from a text, and adds what came of it.
fn push_join(
    alloc: Global,
    out: &mut Line,
    text: &LText,
    join: &JoinStmt,
    shelf: &mut Shelf,
) -> Result<(), AllocError> {
    let literals = where_literals(alloc, &join.condition)?;
    let cells = stored_of(alloc, text, literals.as_slice())?;
    let left = shelf.left;
    let answer = exec_join(
        alloc,
        join,
        &cells,
        left,
        &mut shelf.tables,
        &mut shelf.calls,
    );
    push_answer(out, &answer);
    push_calls(out, &shelf.calls);
    Ok(())
}

/// Carries out a total that was read from a text, and adds what came of it.
fn push_total(
    alloc: Global,
    out: &mut Line,
    text: &LText,
    total: &TotalStmt,
    shelf: &mut Shelf,
) -> Result<(), AllocError> {
    let literals = where_literals(alloc, &total.condition)?;
    let cells = stored_of(alloc, text, literals.as_slice())?;
    let left = shelf.left;
    let answer = exec_total(
        alloc,
        total,
        &cells,
        left,
        &mut shelf.tables,
        &mut shelf.calls,
    );
    push_answer(out, &answer);
    if let Ok(answer) = &answer {
        push_values(alloc, out, total.items.as_slice(), answer)?;
    }
    push_calls(out, &shelf.calls);
    Ok(())
}

/// Carries out the statement of a field, and adds what came of it.
fn push_statement(
    alloc: Global,
    out: &mut Line,
    field: &str,
    shelf: &mut Shelf,
) -> Result<(), AllocError> {
    let text = plain_text(alloc, field)?;
    match read_more(alloc, &text) {
        Ok(MoreStmt::Join(join)) => push_join(alloc, out, &text, &join, shelf)?,
        Ok(MoreStmt::Total(total)) => push_total(alloc, out, &text, &total, shelf)?,
        Ok(MoreStmt::Plain(_plain)) => out.push_str("plain"),
        Err(SqlFault::Bad { offset }) => out.tell("syntax at ", offset, ""),
        Err(SqlFault::Memory) => return Err(AllocError),
    }
    Ok(())
}

fn run(alloc: Global, line: &str) -> Result<String, AllocError> {
    let mut out = Line::new(alloc);
    let mut shelf = Shelf::set(alloc, line)?;
    let mut is_first = true;
    for field in line.split('|') {
        if !Shelf::is_setting(field) {
            out.push_str(if is_first { "" } else { " | " });
            is_first = false;
            push_statement(alloc, &mut out, field, &mut shelf)?;
        }
    }
    out.end()
}

fn main(rt: HostRuntime) -> io::Result<()> {
    print_answers(&rt, run)
}
