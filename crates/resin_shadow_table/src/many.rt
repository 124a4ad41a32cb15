//! Shadow texts of many runs.

use crate::fields::number_in;
use crate::policies::policy_of;
use crate::shadows::push_run;
use crate::stop::Stop;
use resin_frozen::Frozen;
use resin_shadow::{FrozenList, FrozenRuns, decode, encode};
use std::alloc::{AllocError, Global};

// A policy of a number.
fn policy(alloc: Global, number: u32) -> Result<Frozen, Stop> {
    let class = format!(in alloc; "P{number}")?;
    let text = format!(in alloc; "O:{}:\"{}\":0:{{}}", class.len(), class.as_str())?;
    policy_of(alloc, text.as_bytes())
}

// The policies of the numbers below one.
fn policies(alloc: Global, count: u32) -> Result<FrozenList, Stop> {
    let mut out = FrozenList::new(alloc);
    for number in 0..count {
        out.push(policy(alloc, number)?)?;
    }
    Ok(out)
}

// Puts the policy of a number last, where the number is that of one, counted round.
fn push_policy(set: &mut FrozenList, policies: &[Frozen], number: u32) -> Result<(), AllocError> {
    let place = (number as usize).checked_rem(policies.len()).unwrap_or(0);
    match policies.get(place) {
        Some(policy) => set.push(policy.clone()?),
        None => Ok(()),
    }
}

// So many policies in turn from a number on.
fn set_from(
    alloc: Global,
    policies: &[Frozen],
    from: u32,
    count: u32,
) -> Result<FrozenList, AllocError> {
    let mut set = FrozenList::new(alloc);
    for i in 0..count {
        push_policy(&mut set, policies, from.saturating_add(i))?;
    }
    Ok(set)
}

// So many runs of one byte, each with so many policies in turn.
fn runs_of(
    alloc: Global,
    policies: &[Frozen],
    count: u32,
    of_each: u32,
) -> Result<FrozenRuns, Stop> {
    let mut runs = FrozenRuns::new(alloc);
    for i in 0..count {
        push_run(&mut runs, 1, &set_from(alloc, policies, i, of_each)?)?;
    }
    Ok(runs)
}

// The number at a place of a row.
fn number_at(row: &[&str], place: usize) -> Result<u32, Stop> {
    number_in(row.get(place).copied().unwrap_or(""))
}

// Puts last how long the shadow text of runs is, how many runs there are, and how many are read.
fn push_counts(
    alloc: Global,
    out: &mut String,
    count: u32,
    runs: &FrozenRuns,
) -> Result<(), AllocError> {
    let text = encode(alloc, runs)?;
    write!(out, " {} {}", text.as_slice().len(), runs.runs().len())?;
    match decode(alloc, u64::from(count), text.as_slice())? {
        Some(read) => write!(out, " {}", read.runs().len()),
        None => out.push_str(" none"),
    }
}

/// Puts last how long the shadow text of so many runs of one byte is, that have so many of so many policies in turn, how many runs there
/// are, and how many are read.
pub fn push_many(alloc: Global, out: &mut String, row: &[&str]) -> Result<(), Stop> {
    let count = number_at(row, 0)?;
    let policies = policies(alloc, number_at(row, 1)?)?;
    let runs = runs_of(alloc, policies.as_slice(), count, number_at(row, 2)?)?;
    Ok(push_counts(alloc, out, count, &runs)?)
}
