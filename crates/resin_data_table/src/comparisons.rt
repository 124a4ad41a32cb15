//! Comparisons of values, copies, and lists of values.

use crate::scalars::order_name;
use crate::shown::{push_bytes, push_value};
use resin_ops::under::bytes::Bytes;
use resin_ops::under::scalar::{Spent, Ticks};
use resin_ops::under::value::{
    CompareFault, Fields, KeyText, Value, Values, equal, identical, order,
};
use resin_table_rows::{Line, Row, bytes_in};
use resin_table_values::{key_in, value_in};
use std::alloc::AllocError;

/// Puts the answer of a call on values last; `false` where the name is none.
pub fn call(row: Row<'_>, out: &mut Line) -> bool {
    let done = match row.field(0) {
        "compare" | "charges" => push_compared(row, out),
        "copy" => push_copied(row, out),
        "values" => push_values(row, out),
        _ => return call_on_names(row, out),
    };
    out.note(done);
    true
}

fn call_on_names(row: Row<'_>, out: &mut Line) -> bool {
    let done = match row.field(0) {
        "fields" => push_fields(row, out),
        "key_text" => push_key_text(row, out),
        "key_copy" => push_key_copy(row, out),
        _ => return false,
    };
    out.note(done);
    true
}

fn push_compared(row: Row<'_>, out: &mut Line) -> Result<(), AllocError> {
    let a = value_in(row, row.field(1))?;
    let b = value_in(row, row.field(2))?;
    if row.field(0) == "compare" {
        push_comparisons(out, &a, &b);
    } else {
        push_charges(out, &a, &b, u64::from(row.number(3)));
    }
    Ok(())
}

// `==`, `<=>` and `===` of two values, with 100 ticks.
fn push_comparisons(out: &mut Line, a: &Value, b: &Value) {
    let mut ticks = Ticks { left: 100 };
    push_equal(out, equal(a, b, &mut ticks));
    match order(a, b, &mut ticks) {
        Ok(order) => out.push_str(order_name(order)),
        Err(fault) => out.push_word(fault_name(fault)),
    }
    push_identical(out, identical(a, b, &mut ticks));
}

// `==` and `===` of two values, each with so many ticks, and what they leave of them.
fn push_charges(out: &mut Line, a: &Value, b: &Value, left: u64) {
    let mut ticks = Ticks { left };
    push_equal(out, equal(a, b, &mut ticks));
    out.tell(" ", ticks.left, " left");
    let mut ticks = Ticks { left };
    push_identical(out, identical(a, b, &mut ticks));
    out.tell(" ", ticks.left, " left");
}

fn push_equal(out: &mut Line, answer: Result<bool, CompareFault>) {
    match answer {
        Ok(is_equal) => out.push_truth(is_equal),
        Err(fault) => out.push_word(fault_name(fault)),
    }
}

fn push_identical(out: &mut Line, answer: Result<bool, Spent>) {
    match answer {
        Ok(is_identical) => out.push_truth(is_identical),
        Err(Spent) => out.push_word("Spent"),
    }
}

fn fault_name(fault: CompareFault) -> &'static str {
    match fault {
        CompareFault::Object => "Object",
        CompareFault::Operand => "Operand",
        CompareFault::Float => "Float",
        CompareFault::Spent => "Spent",
    }
}

// Whether a copy is identical without a tick, and the copy with its labels.
fn push_copied(row: Row<'_>, out: &mut Line) -> Result<(), AllocError> {
    let value = value_in(row, row.field(1))?;
    let copy = value.clone()?;
    push_identical(out, identical(&copy, &value, &mut Ticks { left: 0 }));
    push_value(out, &copy);
    Ok(())
}

fn values_of(row: Row<'_>) -> Result<Values, AllocError> {
    let mut values = Values::new(row.alloc);
    for field in row.fields_from(1) {
        values.push(value_in(row, field)?)?;
    }
    Ok(values)
}

fn push_values(row: Row<'_>, out: &mut Line) -> Result<(), AllocError> {
    let values = values_of(row)?;
    for value in values.as_slice() {
        push_value(out, value);
    }
    Ok(())
}

// A list of names with null behind each.
fn fields_of(row: Row<'_>) -> Result<Fields, AllocError> {
    let mut fields = Fields::new(row.alloc);
    for name in row.fields_from(1) {
        let name = Bytes::from_slice(row.alloc, name.as_bytes())?;
        fields.push((name, Value::Null))?;
    }
    Ok(fields)
}

fn push_fields(row: Row<'_>, out: &mut Line) -> Result<(), AllocError> {
    let fields = fields_of(row)?;
    for (name, value) in fields.as_slice() {
        out.push(' ');
        push_bytes(out, name.as_slice());
        push_value(out, value);
    }
    Ok(())
}

fn text_by_bytes(row: Row<'_>, bytes: &[u8]) -> Result<KeyText, AllocError> {
    let mut text = KeyText::new(row.alloc);
    for b in bytes {
        text.push(*b)?;
    }
    Ok(text)
}

// Whether the text of a key that is made byte by byte is the one that is made at once.
fn push_key_text(row: Row<'_>, out: &mut Line) -> Result<(), AllocError> {
    let bytes = bytes_in(row.alloc, row.field(1))?;
    let text = text_by_bytes(row, &bytes)?;
    out.push_truth(text == KeyText::from_slice(row.alloc, &bytes)?);
    Ok(())
}

fn push_key_copy(row: Row<'_>, out: &mut Line) -> Result<(), AllocError> {
    let key = key_in(row, row.field(1))?;
    out.push_truth(key.same(&key.clone()?));
    Ok(())
}
