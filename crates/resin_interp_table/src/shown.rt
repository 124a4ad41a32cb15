//! How ends, values and what a script leaves behind are shown.
use resin_interp::under::bytes::Header;
use resin_interp::under::journal::{Event, denial_line};
use resin_interp::{Finished, Flow, Machine, Stop};
use resin_table_keepers::{push_part, push_shown};
use resin_table_rows::Line;
use resin_value::Value;
use std::alloc::Global;

pub fn push_stop(alloc: Global, out: &mut Line, m: &Machine, stop: &Stop) {
    match stop {
        Stop::Thrown(o) => {
            out.push_str("uncaught ");
            push_shown(alloc, out, m.name_of(*o));
        }
        Stop::Exit => out.push_str("exit in a call"),
        Stop::Fault(fault, line) => {
            out.push_str("fault ");
            out.push_str(fault.name());
            out.tell(" at line ", u64::from(*line), "");
        }
        Stop::Keeper => out.push_str("keeper"),
        Stop::Memory => out.push_str("memory"),
    }
}

/// How a program ended.
pub fn push_end(alloc: Global, out: &mut Line, m: &Machine, end: &Result<Flow, Stop>) {
    match end {
        Ok(Flow::Done) => out.push_str("done"),
        Ok(Flow::Returned(_)) => out.push_str("returned"),
        Ok(Flow::Exit) => out.push_str("exit"),
        Err(stop) => push_stop(alloc, out, m, stop),
    }
}

fn push_value(alloc: Global, out: &mut Line, m: &Machine, v: &Value) {
    match v {
        Value::Null => out.push_str("null"),
        Value::Bool(true) => out.push_str("true"),
        Value::Bool(false) => out.push_str("false"),
        Value::Int(n, _) => out.push_integer(*n),
        Value::Text(t) => {
            out.push('\'');
            push_shown(alloc, out, t.bytes());
            out.push('\'');
        }
        Value::Arr(a) => out.tell("an array of ", a.len() as u64, ""),
        Value::Obj(o) => {
            out.push_str("an object ");
            push_shown(alloc, out, m.name_of(*o));
        }
    }
}

/// How a call ended.
pub fn push_answer(alloc: Global, out: &mut Line, m: &Machine, end: &Result<Value, Stop>) {
    match end {
        Ok(v) => push_value(alloc, out, m, v),
        Err(stop) => push_stop(alloc, out, m, stop),
    }
}

/// The status and the headers.
fn push_head(alloc: Global, out: &mut Line, status: u16, headers: &[Header]) {
    out.tell(" | ", u64::from(status), "");
    for header in headers {
        out.push_str(", ");
        push_shown(alloc, out, header.name.as_slice());
        out.push_str(": ");
        push_shown(alloc, out, header.value.as_slice());
    }
}

/// The line of an event that is a denial.
fn push_denial(alloc: Global, out: &mut Line, event: &Event) {
    let line = denial_line(alloc, 1, event);
    if let Some(Some(line)) = out.taken(line) {
        push_part(alloc, out, line.as_slice());
    }
}

/// What a script left behind.
pub fn push_left(alloc: Global, out: &mut Line, left: Finished) {
    if let Some(headers) = out.taken(left.headers.into_list(alloc)) {
        push_head(alloc, out, left.status, headers.as_slice());
    }
    out.push_str(" | ");
    push_shown(alloc, out, left.body.as_slice());
    for event in left.journal.as_slice() {
        push_denial(alloc, out, event);
    }
    push_part(alloc, out, left.mail.as_slice());
}
