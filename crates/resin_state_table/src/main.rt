//! Acts on what a request holds, and prints what each act answers. A line that names a kind begins a new state of it, without anything in it:
//! `classes`, `objects`, `scopes`, `chains`, `page`, `journal` or `stage`; each line behind it is an act on that state: its name and its
//! arguments, split by `|`. `\n` in an argument stands for that byte, both in what is read and in what is printed. A line that begins with `#` is
//! a heading and is printed as it is.
//!
//! The acts are named by the calls that they make. What they answer stands behind ` = `; an act without an answer is printed alone. `none` says
//! that there is no such class, variable, field, buffer or line.
//!
//! The output was worked out by hand from the PHP manual ("Object Inheritance", "Classes and Objects", "Predefined Exceptions", "Variable scope",
//! `header`, `ob_start`) and this project's formats; it is the table of the tests of the crates that hold the state of a request.
#![tactic(auto)]

mod answer;
mod classes;
mod command;
mod journals;
mod objects;
mod pages;
mod scopes;
mod stages;

use resin_heap::{Classes, Heap};
use resin_stage::Stage;
use resin_stage::under::journal::Journal;
use resin_stage::under::scope::{Chains, Page, Scopes};
use resin_table_rows::{Line, Row, answered_row};
use std::alloc::{AllocError, Global};
use std::io;

/// What the acts act on.
enum State {
    Nothing,
    Classes(Classes),
    Objects(Heap),
    Scopes(Scopes),
    Chains(Chains),
    Page(Page),
    Journal(Journal),
    Stage(Stage),
}

impl Drop for State {
    fn drop(self) {
        match self {
            State::Nothing => {}
            State::Classes(_) => {}
            State::Objects(_) => {}
            State::Scopes(_) => {}
            State::Chains(_) => {}
            State::Page(_) => {}
            State::Journal(_) => {}
            State::Stage(_) => {}
        }
    }
}

/// The new state that a line begins; `Nothing` where it names none.
fn begun(alloc: Global, line: &str) -> Result<State, AllocError> {
    match line {
        "classes" => Ok(State::Classes(Classes::new(alloc)?)),
        "objects" => Ok(State::Objects(Heap::new(alloc))),
        "scopes" => Ok(State::Scopes(Scopes::new(alloc)?)),
        "chains" => Ok(State::Chains(Chains::new(alloc))),
        "page" => Ok(State::Page(Page::new(alloc))),
        "journal" => Ok(State::Journal(Journal::new(alloc))),
        "stage" => Ok(State::Stage(Stage::new(alloc))),
        _ => Ok(State::Nothing),
    }
}

fn is_kind(line: &str) -> bool {
    match line {
        "classes" | "objects" | "scopes" | "chains" | "page" | "journal" | "stage" => true,
        _ => false,
    }
}

fn act(state: &mut State, row: Row<'_>, out: &mut Line) {
    match state {
        State::Nothing => answer::push_unknown(out),
        State::Classes(classes) => classes::act(classes, row, out),
        State::Objects(heap) => objects::act(heap, row, out),
        State::Scopes(scopes) => scopes::act(scopes, row, out),
        State::Chains(chains) => pages::act_on_chains(chains, row, out),
        State::Page(page) => pages::act(page, row, out),
        State::Journal(journal) => journals::act(journal, row, out),
        State::Stage(stage) => stages::act(stage, row, out),
    }
}

fn begin(alloc: Global, state: &mut State, line: &str) -> Result<(), AllocError> {
    *state = begun(alloc, line)?;
    Ok(())
}

/// Begins a new state, or acts on the one that is there.
fn take(state: &mut State, line: &str, row: Row<'_>, out: &mut Line) {
    if is_kind(line) {
        out.note(begin(row.alloc, state, line));
    } else {
        act(state, row, out);
    }
}

/// The line with its answer.
fn answered(alloc: Global, state: &mut State, line: &str) -> Result<String, AllocError> {
    answered_row(alloc, line, |row, out| take(state, line, row, out))
}

fn main(rt: HostRuntime) -> io::Result<()> {
    let mut state = State::Nothing;
    for line in rt.lines(rt.alloc()) {
        let line = line?;
        let text = answered(rt.alloc(), &mut state, line.as_str())?;
        rt.println(text)?;
    }
    Ok(())
}
