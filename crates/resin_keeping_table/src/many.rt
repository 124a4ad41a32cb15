//! Texts of many runs.

use crate::acts::{shadow_of, thawed};
use crate::shown::push_stop;
use resin_step_parts::under::base::Entry;
use resin_step_parts::under::bytes::Bytes;
use resin_step_parts::under::heap::PreludeClass;
use resin_step_parts::under::label::PSet;
use resin_step_parts::under::lstr::{Builder, LText, TextFault};
use resin_step_parts::under::machine::{Machine, Stop};
use resin_step_parts::under::value::Value;
use resin_table_rows::{Line, Row};
use std::alloc::{AllocError, Global};

// A policy with a number in a field.
fn policy(m: &mut Machine, i: u32) -> Result<u32, Stop> {
    let o = m.make_object(PreludeClass::Policy.number())?;
    m.set_field(o, b"n", Value::Int(i64::from(i), PSet::empty()))?;
    Ok(o)
}

fn with_policy(alloc: Global, m: &mut Machine, set: &PSet, i: u32) -> Result<PSet, Stop> {
    let o = policy(m, i)?;
    Ok(set.with(alloc, o)?)
}

// So many policies, no two with one text.
fn policies(alloc: Global, m: &mut Machine, count: u32) -> Result<PSet, Stop> {
    let mut set = PSet::empty();
    for i in 0..count {
        set = with_policy(alloc, m, &set, i)?;
    }
    Ok(set)
}

// A byte more, which carries the first set where its place is even.
fn appended(out: Builder, i: u32, set: &PSet, none: &PSet) -> Result<Builder, TextFault> {
    if i % 2 == 0 {
        out.append_bytes(b"x", set)
    } else {
        out.append_bytes(b"x", none)
    }
}

// A text of so many runs of a byte, each second with the set.
fn runs_of(alloc: Global, set: &PSet, none: &PSet, runs: u32) -> Result<LText, TextFault> {
    let mut out = Builder::new(alloc);
    for i in 0..runs {
        out = appended(out, i, set, none)?;
    }
    Ok(out.finish()?)
}

fn text(row: Row<'_>, m: &mut Machine) -> Result<LText, Stop> {
    let set = policies(row.alloc, m, row.number(2))?;
    match runs_of(row.alloc, &set, &PSet::empty(), row.number(1)) {
        Ok(text) => Ok(text),
        Err(_) => Err(Stop::Memory),
    }
}

// The entry of a text with a shadow text.
fn entry_of(alloc: Global, text: &LText, shadow: Bytes) -> Result<Entry, AllocError> {
    let bytes = Bytes::from_slice(alloc, text.bytes())?;
    Ok(Entry { bytes, shadow })
}

fn push_read(alloc: Global, m: &mut Machine, out: &mut Line, text: &LText, shadow: Bytes) {
    let len = shadow.as_slice().len() as u64;
    match thawed(alloc, m, entry_of(alloc, text, shadow)) {
        Ok(read) => {
            out.tell(" = ", len, "");
            out.push_count(read.run_count());
            out.tell(" ", u64::from(m.heap().len()), "");
        }
        Err(stop) => push_stop(out, stop),
    }
}

fn push_kept(alloc: Global, m: &mut Machine, out: &mut Line, text: &LText) {
    match shadow_of(alloc, m, text) {
        Ok(shadow) => push_read(alloc, m, out, text, shadow),
        Err(stop) => push_stop(out, stop),
    }
}

/// Puts last how long the shadow text of many runs is, and how many runs and objects there are once it was read.
pub fn push_many(row: Row<'_>, m: &mut Machine, out: &mut Line) {
    match text(row, m) {
        Ok(text) => push_kept(row.alloc, m, out, &text),
        Err(stop) => push_stop(out, stop),
    }
}
