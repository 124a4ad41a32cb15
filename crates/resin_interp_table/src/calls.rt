//! Rows that call a function by its name.
use crate::shown::{push_answer, push_left};
use resin_interp::under::base::{Calls, FailList};
use resin_interp::{Machine, Stop, call_function};
use resin_memory::{CalmFiles, CalmTables};
use resin_table_rows::Line;
use resin_value::under::lstr::{LText, TextFault};
use resin_value::{Value, Values};
use std::alloc::{AllocError, Global};

/// Adds a text that could be made.
fn push_text(values: &mut Values, made: Result<LText, TextFault>) -> Result<(), AllocError> {
    match made {
        Ok(text) => values.push(Value::Text(text)),
        Err(TextFault::TooLong) => Ok(()),
        Err(TextFault::Memory) => Err(AllocError),
    }
}

/// Texts without labels; one that is too long is left out.
fn texts(alloc: Global, pieces: &str) -> Result<Values, AllocError> {
    let mut values = Values::new(alloc);
    for piece in pieces.split('|') {
        push_text(&mut values, LText::plain(alloc, piece.as_bytes()))?;
    }
    Ok(values)
}

/// The texts behind a name, where there are any.
fn arguments(alloc: Global, pieces: Option<&str>) -> Result<Values, AllocError> {
    match pieces {
        Some(pieces) => texts(alloc, pieces),
        None => Ok(Values::new(alloc)),
    }
}

/// Calls a function by its name, over keepers that hold nothing.
fn answered(alloc: Global, m: &mut Machine, name: &str, args: &Values) -> Result<Value, Stop> {
    let mut files = CalmFiles::new(alloc);
    let mut tables = CalmTables::new(alloc);
    let mut calls = Calls {
        made: 0,
        failed: FailList::new(alloc),
    };
    call_function(
        alloc,
        m,
        name.as_bytes(),
        args,
        &mut files,
        &mut tables,
        &mut calls,
    )
}

fn push_call(alloc: Global, out: &mut Line, m: &mut Machine, name: &str, args: &Values) {
    let end = answered(alloc, m, name, args);
    push_answer(alloc, out, m, &end);
}

fn push_on_machine(alloc: Global, out: &mut Line, name: &str, args: &Values, machine: Machine) {
    let mut m = machine;
    push_call(alloc, out, &mut m, name, args);
    push_left(alloc, out, m.finish());
}

fn push_called(alloc: Global, out: &mut Line, name: &str, args: &Values) {
    let machine = Machine::new(alloc, 100_000, 1);
    if let Some(machine) = out.taken(machine) {
        push_on_machine(alloc, out, name, args, machine);
    }
}

/// Calls the function whose name stands before the first `|`, with the texts behind it, and shows what came of it.
pub fn push_row(alloc: Global, out: &mut Line, row: &str) {
    let (name, pieces) = match row.split_once('|') {
        Some((name, pieces)) => (name, Some(pieces)),
        None => (row, None),
    };
    let args = arguments(alloc, pieces);
    if let Some(args) = out.taken(args) {
        push_called(alloc, out, name, &args);
    }
}
