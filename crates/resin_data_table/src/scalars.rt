//! Scalars: conversions, comparisons, ticks and names.

use crate::stop::stop_name;
use resin_ops::under::scalar::{
    CallStop, ErrorKind, NumFault, Scalar, ScriptFault, Spent, Ticks, cast_int, compare, number,
    truth,
};
use resin_table_rows::{Line, Row, bytes_in};
use std::alloc::{AllocError, Global};
use std::cmp::Ordering;

/// Puts the answer of a call on scalars last; `false` where the name is none.
pub fn call(row: Row<'_>, out: &mut Line) -> bool {
    let done = match row.field(0) {
        "scalar" => push_conversions(row, out),
        "compare_scalars" => push_comparison(row, out),
        _ => return spend_or_name(row, out),
    };
    out.note(done);
    true
}

fn spend_or_name(row: Row<'_>, out: &mut Line) -> bool {
    match row.field(0) {
        "ticks" => push_spent(row, out),
        "name" => push_named(row.field(1), out),
        _ => return false,
    }
    true
}

// The bytes of a scalar that is a text; none of another one.
fn inside(alloc: Global, field: &str) -> Result<Option<Vec<u8>>, AllocError> {
    match field.strip_prefix('\'') {
        Some(text) => Ok(Some(bytes_in(alloc, text.strip_suffix('\'').unwrap_or(text))?)),
        None => Ok(None),
    }
}

// The scalar that a field spells, a text with the bytes that were read.
fn scalar_in<'a>(row: Row<'_>, i: usize, text: &'a Option<Vec<u8>>) -> Scalar<'a> {
    match (text, row.field(i)) {
        (Some(bytes), _) => Scalar::Text(bytes),
        (None, "null") => Scalar::Null,
        (None, "true") => Scalar::Bool(true),
        (None, "false") => Scalar::Bool(false),
        _ => Scalar::Int(row.integer(i)),
    }
}

// A scalar as a boolean, as a number in arithmetic and by `(int)`.
fn push_conversions(row: Row<'_>, out: &mut Line) -> Result<(), AllocError> {
    let text = inside(row.alloc, row.field(1))?;
    let scalar = scalar_in(row, 1, &text);
    out.push_truth(truth(&scalar));
    push_number(out, number(&scalar));
    push_number(out, cast_int(&scalar));
    Ok(())
}

fn push_number(out: &mut Line, n: Result<i64, NumFault>) {
    match n {
        Ok(n) => out.push_number(n),
        Err(NumFault::Float) => out.push_word("Float"),
        Err(NumFault::Not) => out.push_word("Not"),
    }
}

fn push_comparison(row: Row<'_>, out: &mut Line) -> Result<(), AllocError> {
    let left = inside(row.alloc, row.field(1))?;
    let right = inside(row.alloc, row.field(2))?;
    push_order(out, &scalar_in(row, 1, &left), &scalar_in(row, 2, &right));
    Ok(())
}

fn push_order(out: &mut Line, a: &Scalar<'_>, b: &Scalar<'_>) {
    match compare(a, b) {
        Ok(order) => out.push_str(order_name(order)),
        Err(fault) => push_number(out, Err(fault)),
    }
}

/// The name of an order, behind a space.
pub fn order_name(order: Ordering) -> &'static str {
    match order {
        Ordering::Less => " less",
        Ordering::Equal => " equal",
        Ordering::Greater => " greater",
    }
}

fn push_left(out: &mut Line, spent: Result<(), Spent>, left: u64) {
    if spent.is_err() {
        out.push_word("Spent");
    }
    out.tell(" ", left, " left");
}

// Spends what each step says of the ticks of the first field, and tells what is left.
fn push_spent(row: Row<'_>, out: &mut Line) {
    let mut ticks = Ticks {
        left: u64::from(row.number(1)),
    };
    for step in row.fields_from(2) {
        let spent = ticks.spend(u64::from(row.number_in(step)));
        push_left(out, spent, ticks.left);
    }
}

// The names of faults and classes, and of what a fault turns into.
fn name(field: &str) -> &'static str {
    match field {
        "ScriptFault::ObjectComparison" => ScriptFault::ObjectComparison.name(),
        "ErrorKind::DivisionByZero" => ErrorKind::DivisionByZero.class_name(),
        "ScriptFault::from(NumFault::Not)" => ScriptFault::from(NumFault::Not).name(),
        "CallStop::from(Spent)" => stop_name(CallStop::from(Spent)),
        _ => "Unreadable",
    }
}

fn push_named(field: &str, out: &mut Line) {
    if field == "format ScriptFault::BadSession" {
        write!(out, " Script fault {}", ScriptFault::BadSession);
    } else {
        out.push_word(name(field));
    }
}
