//! How values, labelled texts and what stops a row are printed.

use resin_step_parts::under::label::PSet;
use resin_step_parts::under::lstr::LText;
use resin_step_parts::under::machine::Stop;
use resin_step_parts::under::value::{Arr, Key, Value};
use resin_table_rows::Line;

/// Puts why a row has no answer last: the fault, and its line.
pub fn push_stop(out: &mut Line, stop: Stop) {
    match stop {
        Stop::Fault(fault, line) => {
            out.push_str(" = ");
            out.push_str(fault.name());
            out.tell(" ", u64::from(line), "");
        }
        Stop::Memory => out.push_str(" = Memory 0"),
        _ => out.push_str(" = Stopped 0"),
    }
}

/// Puts why a row was not carried out last, where it wasn't.
pub fn push_done(out: &mut Line, done: Result<(), Stop>) {
    if let Err(stop) = done {
        push_stop(out, stop);
    }
}

/// Puts bytes last as a row spells them.
pub fn push_bytes(out: &mut Line, bytes: &[u8]) {
    out.push_bytes(bytes);
}

/// Puts a value last, an array by its entries, where an array in it is shown by how many there are, and its next key.
pub fn push_value(out: &mut Line, value: &Value) {
    match value {
        Value::Arr(array) => push_array(out, array),
        other => push_scalar(out, other),
    }
}

fn push_inner(out: &mut Line, value: &Value) {
    match value {
        Value::Arr(inner) => out.tell(" [", inner.len() as u64, "]"),
        other => push_scalar(out, other),
    }
}

fn push_array(out: &mut Line, array: &Arr) {
    out.push_str(" [");
    for i in 0..array.len() {
        let (key, value) = array.entry(i);
        push_key(out, key);
        push_inner(out, value);
    }
    out.push_str(" ]");
    if let Some(key) = array.next_key() {
        out.push_str("next=");
        out.push_integer(key);
    }
}

fn push_key(out: &mut Line, key: &Key) {
    match key {
        Key::Int(n) => {
            out.push_number(*n);
            out.push(':');
        }
        Key::Text(text) => {
            out.push_str(" '");
            out.push_bytes(text.as_slice());
            out.push_str("':");
        }
    }
}

fn push_scalar(out: &mut Line, value: &Value) {
    match value {
        Value::Null | Value::Arr(_) => out.push_str(" null"),
        Value::Bool(b) => out.push_truth(*b),
        Value::Int(n, set) => {
            out.push_number(*n);
            push_set(out, set);
        }
        Value::Text(text) => push_quoted(out, text),
        Value::Obj(n) => out.tell(" #", u64::from(*n), ""),
    }
}

fn push_quoted(out: &mut Line, text: &LText) {
    out.push_str(" '");
    push_text(out, text);
    out.push('\'');
}

/// Puts a labelled text last, run by run.
pub fn push_text(out: &mut Line, text: &LText) {
    let mut from = 0;
    for run in text.runs() {
        let to = run.end as usize;
        out.push_bytes(text.bytes().get(from..to).unwrap_or(&[]));
        push_set(out, &run.set);
        from = to;
    }
}

// Puts a set last, where it isn't empty.
fn push_set(out: &mut Line, set: &PSet) {
    let numbers = set.as_slice();
    if !numbers.is_empty() {
        out.push('{');
        push_numbers(out, numbers);
        out.push('}');
    }
}

fn push_numbers(out: &mut Line, numbers: &[u32]) {
    for i in 0..numbers.len() {
        out.tell(if i > 0 { "," } else { "" }, u64::from(numbers[i]), "");
    }
}
