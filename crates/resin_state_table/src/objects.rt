//! Acts on objects, whose fields hold integers.
ghost use Rattle.resin_heap.specs.Objects.{IsObject};

use crate::answer::{
    push_found, push_integer, push_missing, push_number, push_truth, push_unknown,
};
use resin_heap::under::label::PSet;
use resin_heap::under::value::Value;
use resin_heap::{Heap, MOST_OBJECTS};
use resin_table_rows::{Line, Row};
use std::alloc::AllocError;

/// The integer that a value is.
pub fn integer(value: Option<&Value>) -> Option<i64> {
    match value {
        Some(Value::Int(n, _)) => Some(*n),
        _ => None,
    }
}

pub fn value(n: i64) -> Value {
    Value::Int(n, PSet::empty())
}

fn make(heap: &mut Heap, class: u32, out: &mut Line) -> Result<(), AllocError> {
    if heap.len() < MOST_OBJECTS {
        push_integer(out, i64::from(heap.make(class)?));
        Ok(())
    } else {
        Err(AllocError)
    }
}

fn push_made(heap: &mut Heap, class: u32, out: &mut Line) {
    let done = make(heap, class, out);
    out.note(done);
}

/// Puts a field last, behind a space if it isn't the first.
fn push_field(out: &mut Line, is_first: bool, name: &[u8], value: &Value) {
    if !is_first {
        out.push(' ');
    }
    for b in name {
        out.push(char::from(*b));
    }
    match integer(Some(value)) {
        Some(n) => {
            out.push(':');
            out.push_integer(n);
        }
        None => out.push_str(":none"),
    }
}

/// The fields of an object, one by one.
fn push_fields(heap: &Heap, o: u32, out: &mut Line)
    requires { IsObject heap.now o }
{
    out.push_str(" = ");
    let kept = heap.fields(o);
    for i in 0..kept.len() {
        let (name, value) = kept.entry(i);
        push_field(out, i == 0, name, value);
    }
}

/// The fields of an object, as a list.
fn push_list(heap: &Heap, o: u32, row: Row<'_>, out: &mut Line) -> Result<(), AllocError>
    requires { IsObject heap.now o }
{
    out.push_str(" = ");
    let list = heap.fields(o).to_list(row.alloc)?;
    for (i, (name, value)) in list.as_slice().iter().enumerate() {
        push_field(out, i == 0, name.as_slice(), value);
    }
    Ok(())
}

fn exchange(heap: &mut Heap, o: u32, row: Row<'_>, out: &mut Line)
    requires { IsObject heap.old o }
{
    let name = row.bytes(2);
    if heap.get(o, name).is_some() {
        let old = heap.exchange(o, name, value(row.integer(3)));
        push_found(out, integer(Some(&old)));
    } else {
        push_missing(out);
    }
}

/// Looks at an object that is there.
fn look_at_object(heap: &Heap, o: u32, row: Row<'_>, out: &mut Line)
    requires { IsObject heap.now o }
{
    match row.field(0) {
        "class_of" => push_number(out, Some(heap.class_of(o))),
        "fields" => push_fields(heap, o, out),
        "has_none" => push_truth(out, heap.fields(o).is_empty()),
        "get" => push_found(out, integer(heap.get(o, row.bytes(2)))),
        "list" => {
            let done = push_list(heap, o, row, out);
            out.note(done);
        }
        _ => push_unknown(out),
    }
}

/// An act on an object that is there.
fn act_on_object(heap: &mut Heap, o: u32, row: Row<'_>, out: &mut Line)
    requires { IsObject heap.old o }
{
    match row.field(0) {
        "set" => out.note(heap.set(o, row.bytes(2), value(row.integer(3)))),
        "exchange" => exchange(heap, o, row, out),
        "unset" => push_truth(out, heap.unset(o, row.bytes(2))),
        _ => look_at_object(heap, o, row, out),
    }
}

fn act_on_numbered(heap: &mut Heap, row: Row<'_>, out: &mut Line) {
    let o = row.number(1);
    if heap.has(o) {
        act_on_object(heap, o, row, out);
    } else {
        push_missing(out);
    }
}

pub fn act(heap: &mut Heap, row: Row<'_>, out: &mut Line) {
    match row.field(0) {
        "is_empty" => push_truth(out, heap.is_empty()),
        "make" => push_made(heap, row.number(1), out),
        _ => act_on_numbered(heap, row, out),
    }
}
