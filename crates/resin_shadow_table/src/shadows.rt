//! Shadow texts.

use crate::fields::length_in;
use crate::policies::policy_in;
use crate::stop::Stop;
use resin_shadow::{FrozenList, FrozenRun, FrozenRuns, decode, encode};
use resin_table_rows::{bytes_in, push_bytes};
use std::alloc::{AllocError, Global};

// The policy texts that a field spells, split by spaces.
fn texts_in(alloc: Global, field: &str) -> Result<FrozenList, Stop> {
    let mut texts = FrozenList::new(alloc);
    for word in field.split(' ') {
        texts.push(policy_in(alloc, word)?)?;
    }
    Ok(texts)
}

/// Puts bytes with a set last, where they are some and not too many.
pub fn push_run(runs: &mut FrozenRuns, len: u64, set: &FrozenList) -> Result<(), Stop> {
    if len == 0 || runs.len().checked_add(len).is_none() {
        return Err(Stop::Unreadable);
    }
    Ok(runs.push(len, set)?)
}

// Puts a run last that a field spells: its length, and its texts behind a space.
fn push_spelled(alloc: Global, runs: &mut FrozenRuns, field: &str) -> Result<(), Stop> {
    match field.split_once(' ') {
        Some((len, texts)) => push_run(runs, length_in(len)?, &texts_in(alloc, texts)?),
        None => push_run(runs, length_in(field)?, &FrozenList::new(alloc)),
    }
}

// The runs that a row spells.
fn runs_in(alloc: Global, row: &[&str]) -> Result<FrozenRuns, Stop> {
    let mut runs = FrozenRuns::new(alloc);
    for field in row {
        push_spelled(alloc, &mut runs, field)?;
    }
    Ok(runs)
}

// Puts a policy text last, between braces.
fn push_braced(out: &mut String, text: &[u8]) -> Result<(), AllocError> {
    out.push('{')?;
    push_bytes(out, text)?;
    out.push('}')
}

// Puts a run last, by its length and its texts.
fn push_shown(out: &mut String, run: &FrozenRun) -> Result<(), AllocError> {
    write!(out, " {}", run.len)?;
    for text in run.set.as_slice() {
        push_braced(out, text.as_slice())?;
    }
    Ok(())
}

// Puts runs last.
fn push_runs(out: &mut String, runs: &FrozenRuns) -> Result<(), AllocError> {
    if runs.is_empty() {
        return out.push_str(" nothing");
    }
    for run in runs.runs() {
        push_shown(out, run)?;
    }
    Ok(())
}

/// Puts the shadow text of the runs of a row last.
pub fn push_encoded(alloc: Global, out: &mut String, row: &[&str]) -> Result<(), Stop> {
    let text = encode(alloc, &runs_in(alloc, row)?)?;
    out.push(' ')?;
    Ok(push_bytes(out, text.as_slice())?)
}

/// Puts the maximal runs of the runs of a row last.
pub fn push_joined(alloc: Global, out: &mut String, row: &[&str]) -> Result<(), Stop> {
    Ok(push_runs(out, &runs_in(alloc, row)?)?)
}

// Puts runs last, if there are any.
fn push_found(out: &mut String, found: &Option<FrozenRuns>) -> Result<(), AllocError> {
    match found {
        Some(runs) => push_runs(out, runs),
        None => out.push_str(" none"),
    }
}

/// Puts the runs of so many bytes that a shadow text spells last.
pub fn push_decoded(alloc: Global, out: &mut String, len: &str, text: &str) -> Result<(), Stop> {
    let len = length_in(len)?;
    let bytes = bytes_in(alloc, text)?;
    Ok(push_found(out, &decode(alloc, len, &bytes)?)?)
}
