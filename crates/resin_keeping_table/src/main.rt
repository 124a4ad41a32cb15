//! Freezes the policies of texts and thaws entries on a machine, one act a line, and prints the line with its answer behind ` = `; an act without an
//! answer is printed alone. A line that begins with `#` is a heading and is printed as it is. Arguments are split by `|`:
//!
//! - `new|FUEL`: a new machine with so many ticks, on line 7 of a script;
//! - `class|NAME|PARENT`: declares a class;
//! - `object|CLASS`: makes an object without fields, and tells its number;
//! - `set|OBJECT|FIELD|VALUE`: gives a field of an object a value;
//! - `freeze|TEXT`: the shadow text of a labelled text;
//! - `thaw|BYTES|SHADOW`: the text that a read makes of an entry;
//! - `show|OBJECT`: the class and the fields of an object;
//! - `ticks`: how many ticks are left;
//! - `long|LENGTH`: what a read makes of so many bytes with a shadow text that is none;
//! - `many|RUNS|POLICIES`: freezes a text of so many runs, each of which carries either all of so many policies or none of them, and thaws it again:
//!   the length of the shadow text, and how many runs and objects there are behind that.
//!
//! Values and labelled texts are spelled as `resin_table_values` reads them. A fault stands with its line.
//!
//! The answers were worked out by a program that was written from the formats (FORMATS.md), and by hand.
#![tactic(auto)]

mod acts;
mod classes;
mod many;
mod shown;

use crate::shown::push_done;
use resin_step_parts::under::machine::Machine;
use resin_table_rows::{Line, Row, answered_row};
use std::alloc::{AllocError, Global};
use std::io;

// The machine that the acts act on.
struct Desk {
    machine: Machine,
}

impl Drop for Desk {
    fn drop(self) {
        let Desk { machine: _ } = self;
    }
}

impl Desk {
    fn new(alloc: Global, fuel: u32) -> Result<Desk, AllocError> {
        Ok(Desk {
            machine: Machine::new(alloc, fuel, 1)?,
        })
    }

    // Takes a new machine, on line 7 of a script.
    fn begin(&mut self, row: Row<'_>) -> Result<(), AllocError> {
        *self = Desk::new(row.alloc, row.number(1))?;
        let _line = self.machine.set_line(7);
        Ok(())
    }
}

// Acts that look at the machine, or read with it; `false` where the row is none.
fn push_seen(row: Row<'_>, m: &mut Machine, out: &mut Line) -> bool {
    match row.field(0) {
        "freeze" => acts::push_frozen(row, m, out),
        "thaw" => acts::push_thawed(row, m, out),
        "show" => acts::push_object(row, m, out),
        "ticks" => out.tell(" = ", m.ticks(), ""),
        "long" => acts::push_long(row, m, out),
        "many" => many::push_many(row, m, out),
        _ => return false,
    }
    true
}

// Puts the answer of a row last.
fn push_answer(row: Row<'_>, m: &mut Machine, out: &mut Line) {
    match row.field(0) {
        "class" => push_done(out, classes::declare(row, m)),
        "object" => acts::push_made(row, m, out),
        "set" => push_done(out, acts::set(row, m)),
        _ => {
            if !push_seen(row, m, out) {
                row.fail();
            }
        }
    }
}

fn take(row: Row<'_>, desk: &mut Desk, out: &mut Line) {
    if row.field(0) == "new" {
        out.note(desk.begin(row));
    } else {
        push_answer(row, &mut desk.machine, out);
    }
}

// The line with its answer.
fn answered(alloc: Global, desk: &mut Desk, line: &str) -> Result<String, AllocError> {
    answered_row(alloc, line, |row, out| take(row, desk, out))
}

fn main(rt: HostRuntime) -> io::Result<()> {
    let mut desk = Desk::new(rt.alloc(), 0)?;
    for line in rt.lines(rt.alloc()) {
        let line = line?;
        let text = answered(rt.alloc(), &mut desk, line.as_str())?;
        rt.println(text)?;
    }
    Ok(())
}
