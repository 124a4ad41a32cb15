//! Sets of policies.

use crate::shown::push_set;
use resin_ops::under::label::PSet;
use resin_table_rows::{Line, Row};
use resin_table_values::set_in;
use std::alloc::{AllocError, Global};

/// Puts the answer of a call on sets last; `false` where the name is none.
pub fn call(row: Row<'_>, out: &mut Line) -> bool {
    let done = match row.field(0) {
        "contains" => push_contains(row, out),
        "union" | "without" | "same_as_copy" | "differs" => push_of_two(row, out),
        _ => return false,
    };
    out.note(done);
    true
}

fn push_contains(row: Row<'_>, out: &mut Line) -> Result<(), AllocError> {
    let set = set_in(row.alloc, row.field(1))?;
    out.push_truth(set.contains(row.number(2)));
    Ok(())
}

fn push_of_two(row: Row<'_>, out: &mut Line) -> Result<(), AllocError> {
    let a = set_in(row.alloc, row.field(1))?;
    let b = set_in(row.alloc, row.field(2))?;
    match row.field(0) {
        "union" => push_answer(out, a.union(row.alloc, &b)),
        "without" => push_answer(out, without_all(row.alloc, &a, &b)),
        "same_as_copy" => push_same(out, &a),
        _ => out.push_truth(a != b),
    }
    Ok(())
}

fn push_answer(out: &mut Line, set: Result<PSet, AllocError>) {
    if let Some(set) = out.taken(set) {
        out.push(' ');
        push_set(out, &set);
    }
}

fn push_same(out: &mut Line, set: &PSet) {
    if let Some(copy) = out.taken(set.clone()) {
        out.push_truth(set.same(&copy));
    }
}

// The set `a` without each member of `b`.
fn without_all(alloc: Global, a: &PSet, b: &PSet) -> Result<PSet, AllocError> {
    let mut set = a.clone()?;
    for n in b.iter() {
        set = set.without(alloc, n)?;
    }
    Ok(set)
}
