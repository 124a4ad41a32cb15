//! The operators on values.

use crate::shown::{push_key, push_value};
use crate::stop::push_stop;
use resin_ops::under::scalar::{CallStop, ScriptFault};
use resin_ops::under::value::Value;
use resin_ops::{Arith, arith, index_text, to_int, to_key, to_number, to_text};
use resin_table_rows::{Line, Row};
use resin_table_values::{key_in, text_in, value_in};
use std::alloc::Global;

/// Puts the answer of an operator last; `false` where the name is none.
pub fn call(row: Row<'_>, out: &mut Line) -> bool {
    let done = match row.field(0) {
        "arith" => push_sum(row, out),
        "index_text" => push_indexed(row, out),
        "to_text" | "to_number" | "to_int" | "to_key" => push_converted(row, out),
        _ => return false,
    };
    push_stop(out, done);
    true
}

fn operator(sign: &str) -> Arith {
    match sign {
        "+" => Arith::Add,
        "-" => Arith::Sub,
        "*" => Arith::Mul,
        "/" => Arith::Div,
        _ => Arith::Rem,
    }
}

// An integer, an operator and an integer.
fn push_sum(row: Row<'_>, out: &mut Line) -> Result<(), CallStop> {
    let operator = operator(row.field(2));
    out.push_number(arith(operator, row.integer(1), row.integer(3))?);
    Ok(())
}

fn push_converted_to(out: &mut Line, number: Result<i64, ScriptFault>) -> Result<(), CallStop> {
    out.push_number(number?);
    Ok(())
}

fn push_converted(row: Row<'_>, out: &mut Line) -> Result<(), CallStop> {
    let value = value_in(row, row.field(1))?;
    match row.field(0) {
        "to_text" => push_as_text(row.alloc, out, &value),
        "to_number" => push_converted_to(out, to_number(&value)),
        "to_int" => push_converted_to(out, to_int(&value)),
        _ => push_as_key(row.alloc, out, &value),
    }
}

fn push_as_text(alloc: Global, out: &mut Line, value: &Value) -> Result<(), CallStop> {
    let text = Value::Text(to_text(alloc, value)?);
    push_value(out, &text);
    Ok(())
}

fn push_as_key(alloc: Global, out: &mut Line, value: &Value) -> Result<(), CallStop> {
    let key = to_key(alloc, value)?;
    push_key(out, &key);
    Ok(())
}

fn push_indexed(row: Row<'_>, out: &mut Line) -> Result<(), CallStop> {
    let part = part_in(row)?;
    push_value(out, &part);
    Ok(())
}

fn part_in(row: Row<'_>) -> Result<Value, CallStop> {
    let text = text_in(row.alloc, row.field(1))?;
    let key = key_in(row, row.field(2))?;
    index_text(row.alloc, &text, &key)
}
