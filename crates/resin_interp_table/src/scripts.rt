//! Rows that are scripts.
ghost use Rattle.std.specs.Prelude.{◌≤◌, length};

use crate::shown::{push_end, push_left};
use resin_interp::under::base::{Calls, FailList};
use resin_interp::{Flow, Machine, Stop, run_program};
use resin_lex::{ParseFault, Program};
use resin_memory::{CalmFiles, CalmTables};
use resin_parse::program;
use resin_table_rows::Line;
use std::alloc::{AllocError, Global};

/// The fuel of a row, and whether the ticks that it took are asked for.
#[derive(Clone, Copy)]
struct Fuel {
    ticks: u32,
    is_asked: bool,
}

/// The fuel that stands before a script, or what each has, and the script.
fn fuel_of(row: &str) -> (Fuel, &str) {
    if let Some((front, rest)) = row.split_once('|') {
        if let Ok(ticks) = front.parse::<u32>() {
            return (
                Fuel {
                    ticks,
                    is_asked: true,
                },
                rest,
            );
        }
    }
    (
        Fuel {
            ticks: 100_000,
            is_asked: false,
        },
        row,
    )
}

/// The source text that a script stands for.
fn source_of(alloc: Global, script: &str) -> Result<String, AllocError> {
    let mut source = Line::new(alloc);
    source.push_str("<?php ");
    let mut escaped = false;
    for c in script.chars() {
        if escaped {
            if c != 'n' {
                source.push('\\');
            }
            source.push(if c == 'n' { '\n' } else { c });
            escaped = false;
        } else if c == '\\' {
            escaped = true;
        } else {
            source.push(c);
        }
    }
    source.end()
}

/// Runs a program over keepers that hold nothing.
fn ended(alloc: Global, m: &mut Machine, p: &Program) -> Result<Flow, Stop> {
    let mut files = CalmFiles::new(alloc);
    let mut tables = CalmTables::new(alloc);
    let mut calls = Calls {
        made: 0,
        failed: FailList::new(alloc),
    };
    run_program(alloc, m, p, &mut files, &mut tables, &mut calls)
}

fn push_run(alloc: Global, out: &mut Line, m: &mut Machine, p: &Program) {
    let end = ended(alloc, m, p);
    push_end(alloc, out, m, &end);
}

/// The ticks that a script took, where they are asked for.
fn push_spent(out: &mut Line, fuel: Fuel, left: u64) {
    if fuel.is_asked {
        out.tell(" | ", u64::from(fuel.ticks).saturating_sub(left), "");
    }
}

fn push_on_machine(alloc: Global, out: &mut Line, fuel: Fuel, p: &Program, machine: Machine) {
    let mut m = machine;
    push_run(alloc, out, &mut m, p);
    push_spent(out, fuel, m.ticks());
    push_left(alloc, out, m.finish());
}

fn push_program(alloc: Global, out: &mut Line, fuel: Fuel, p: &Program) {
    let machine = Machine::new(alloc, fuel.ticks, 1);
    if let Some(machine) = out.taken(machine) {
        push_on_machine(alloc, out, fuel, p, machine);
    }
}

/// Where a text stops being the front of a program.
fn push_fault(out: &mut Line, fault: ParseFault) {
    match fault {
        ParseFault::Syntax { offset } => out.tell("Syntax at ", u64::from(offset), ""),
        ParseFault::TooDeep { offset } => out.tell("TooDeep at ", u64::from(offset), ""),
        ParseFault::Memory => out.push_str("memory"),
    }
}

fn push_source(alloc: Global, out: &mut Line, fuel: Fuel, source: &[u8]) {
    if source.len() > 16_777_216 {
        out.push_str("too long");
        return;
    }
    match program(alloc, source) {
        Ok(p) => push_program(alloc, out, fuel, &p),
        Err(fault) => push_fault(out, fault),
    }
}

/// Runs the script of a row, and shows what came of it.
pub fn push_row(alloc: Global, out: &mut Line, row: &str) {
    let (fuel, script) = fuel_of(row);
    let source = source_of(alloc, script);
    if let Some(source) = out.taken(source) {
        push_source(alloc, out, fuel, source.as_bytes());
    }
}
