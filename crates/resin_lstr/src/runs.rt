//! Runs of equal sets.
ghost use Rattle.std.specs.Prelude.{◌≡◌, ℕ, ◌+◌, ◌-◌, ◌<◌, ◌≤◌, ◌++◌, ◌↔◌, length, take, drop, map};
ghost use Rattle.std.specs.Prelude.{position, replicate, nat_eq, OnOk, OnErr, IfOk, IfSome, IsTrue};
ghost use Rattle.std.specs.List.{flat_map, fold, prefix_len};
ghost use Rattle.indexmap.specs.IndexSet.{insert_key};
ghost use Rattle.resin_label.specs.Sets.{NumberSet, contains, insert, remove, numbers, same};
ghost use Rattle.resin_lstr.specs.declared.text.Run.{Run};
ghost use Rattle.resin_lstr.specs.Texts.{LONGEST, distinct, first_range};
ghost use Rattle.resin_lstr.specs.Runs.{spell, last_end, shifted, IsCoalesced, EndsWith, Meet, AreJoined};

use crate::lists::{Numbers, Sets};
use crate::text::Run;
use indexmap::IndexSet;
use resin_label::PSet;
use std::alloc::{AllocError, Global};

// Where the last run ends.
pub(crate) fn end_of(runs: &[Run]) -> u32
    ensures { result ≡ last_end 0 runs.now }
{
    match runs {
        [] => 0,
        [.., last] => last.end,
    }
}

// Whether the last run has this set.
fn ends_with(runs: &[Run], set: &PSet) -> bool
    ensures { IsTrue result ↔ EndsWith set.now runs.now }
{
    match runs {
        [] => false,
        [.., last] => last.set.same(set),
    }
}

// Adds a run up to `end`, to the last one where the sets are the same.
pub(crate) fn push_run(runs: &mut Vec<Run>, end: u32, set: PSet) -> Result<(), AllocError>
    requires coalesced { IsCoalesced 0 runs.old.items }
    requires rises { last_end 0 runs.old.items ≤ end }
    ensures coalesced { OnOk result (IsCoalesced 0 runs.new.items) }
    ensures spelled { OnOk result (spell 0 runs.new.items
        ≡ spell 0 runs.old.items ++ replicate (end - last_end 0 runs.old.items) set) }
    ensures ends { OnOk result (last_end 0 runs.new.items ≡ end) }
    ensures err { OnErr result (runs.new.items ≡ runs.old.items) }
{
    if end == end_of(runs) {
        return Ok(());
    }
    if ends_with(runs, &set) {
        runs.pop();
        runs.push(Run { end, set })?;
        return Ok(());
    }
    runs.push(Run { end, set })?;
    Ok(())
}

// The run of the byte at `i`.
pub(crate) fn run_at(runs: &[Run], i: u32) -> usize
    requires coalesced { IsCoalesced 0 runs.now }
    requires within { i < last_end 0 runs.now }
    ensures inside { result < length runs.now }
    ensures begins { last_end 0 (take result runs.now) ≤ i }
    ensures ends { i < last_end 0 (take (result + 1) runs.now) }
{
    runs.partition_point(|run| run.end <= i)
}

// The runs of the places from `lo` to `hi`: the first of them, and the one behind them.
fn runs_within(runs: &[Run], lo: u32, hi: u32) -> (usize, usize)
    requires coalesced { IsCoalesced 0 runs.now }
    requires ordered { lo < hi }
    requires within { hi ≤ last_end 0 runs.now }
    ensures ordered { result.0 ≤ result.1 }
    ensures inside { result.1 ≤ length runs.now }
    ensures begins { last_end 0 (take result.0 runs.now) ≤ lo }
    ensures ends { hi ≤ last_end 0 (take result.1 runs.now) }
{
    (run_at(runs, lo), run_at(runs, hi - 1) + 1)
}

// Adds what the runs `from` say of the places from `lo` to `hi`.
pub(crate) fn append_runs(
    out: &mut Vec<Run>,
    from: &[Run],
    lo: u32,
    hi: u32,
) -> Result<(), AllocError>
    requires coalesced { IsCoalesced 0 out.old.items }
    requires from_coalesced { IsCoalesced 0 from.now }
    requires ordered { lo ≤ hi }
    requires within { hi ≤ last_end 0 from.now }
    requires short { last_end 0 out.old.items + (hi - lo) ≤ LONGEST }
    ensures coalesced { OnOk result (IsCoalesced 0 out.new.items) }
    ensures spelled { OnOk result (spell 0 out.new.items
        ≡ spell 0 out.old.items ++ take (hi - lo) (drop lo (spell 0 from.now))) }
    ensures ends { OnOk result (last_end 0 out.new.items ≡ last_end 0 out.old.items + (hi - lo)) }
{
    if lo == hi {
        return Ok(());
    }
    let base = end_of(out);
    let (first, behind) = runs_within(from, lo, hi);
    for run in &from[first..behind] {
        let to = run.end.min(hi).saturating_sub(lo);
        push_run(out, base + to, run.set.clone()?)?;
    }
    Ok(())
}

// The runs, each so much later.
fn shifted(alloc: Global, runs: &[Run], by: u32) -> Result<Vec<Run>, AllocError>
    requires coalesced { IsCoalesced 0 runs.now }
    requires short { by + last_end 0 runs.now ≤ LONGEST }
    ensures { IfOk result (λ v. v.items ≡ shifted by runs.now) }
{
    let mut out = Vec::with_capacity(alloc, runs.len())?;
    for run in runs {
        out.push(Run {
            end: by + run.end,
            set: run.set.clone()?,
        })?;
    }
    Ok(out)
}

// Puts other runs in the place of the last one. After want of memory `out` is as before.
fn replace_last(out: &mut Vec<Run>, tail: Vec<Run>) -> Result<(), AllocError>
    ensures ok { OnOk result (out.new.items ≡ take (length out.old.items - 1) out.old.items ++ tail.items) }
    ensures err { OnErr result (out.new.items ≡ out.old.items) }
{
    let mut tail = tail;
    out.reserve(tail.len())?;
    out.pop();
    out.append(&mut tail)?;
    Ok(())
}

// Whether the first of `more` has the set of the last run.
fn meet(runs: &[Run], more: &[Run]) -> bool
    ensures { IsTrue result ↔ Meet runs.now more.now }
{
    match more {
        [] => false,
        [first, ..] => ends_with(runs, &first.set),
    }
}

// Puts `more` last, counted from the end of `out`. After want of memory `out` is as before.
pub(crate) fn extend_runs(alloc: Global, out: &mut Vec<Run>, more: &[Run]) -> Result<(), AllocError>
    requires coalesced { IsCoalesced 0 out.old.items }
    requires more_coalesced { IsCoalesced 0 more.now }
    requires short { last_end 0 out.old.items + last_end 0 more.now ≤ LONGEST }
    ensures joined { OnOk result (AreJoined out.old.items more.now out.new.items) }
    ensures err { OnErr result (out.new.items ≡ out.old.items) }
{
    if let [only] = more {
        return push_run(out, end_of(out) + only.end, only.set.clone()?);
    }
    let mut tail = shifted(alloc, more, end_of(out))?;
    if meet(out, more) {
        replace_last(out, tail)?;
        return Ok(());
    }
    out.append(&mut tail)?;
    Ok(())
}

// The runs with `n` in every set.
pub(crate) fn runs_with(alloc: Global, runs: &[Run], n: u32) -> Result<Vec<Run>, AllocError>
    requires { IsCoalesced 0 runs.now }
    ensures coalesced { IfOk result (λ v. IsCoalesced 0 v.items) }
    ensures spelled { IfOk result (λ v. spell 0 v.items ≡ map (λ s. insert s n) (spell 0 runs.now)) }
    ensures ends { IfOk result (λ v. last_end 0 v.items ≡ last_end 0 runs.now) }
{
    let mut out = Vec::new(alloc);
    for run in runs {
        push_run(&mut out, run.end, run.set.with(alloc, n)?)?;
    }
    Ok(out)
}

// The runs without `n` in any set.
pub(crate) fn runs_without(alloc: Global, runs: &[Run], n: u32) -> Result<Vec<Run>, AllocError>
    requires { IsCoalesced 0 runs.now }
    ensures coalesced { IfOk result (λ v. IsCoalesced 0 v.items) }
    ensures spelled { IfOk result (λ v. spell 0 v.items ≡ map (λ s. remove s n) (spell 0 runs.now)) }
    ensures ends { IfOk result (λ v. last_end 0 v.items ≡ last_end 0 runs.now) }
{
    let mut out = Vec::new(alloc);
    for run in runs {
        push_run(&mut out, run.end, run.set.without(alloc, n)?)?;
    }
    Ok(out)
}

// The first run whose set holds `n`.
fn first_holding(runs: &[Run], n: u32) -> Option<usize>
    ensures value { result ≡ position (λ (r : Run). contains r.set n) runs.now }
    ensures within { IfSome result (λ k. k < length runs.now) }
{
    runs.iter().position(|run| run.set.contains(n))
}

// How many runs from the front on have sets that hold `n`.
fn holding(runs: &[Run], n: u32) -> usize
    ensures value { result ≡ prefix_len (λ (r : Run). contains r.set n) runs.now }
    ensures within { result ≤ length runs.now }
{
    for (k, run) in runs.iter().enumerate() {
        if !run.set.contains(n) {
            return k;
        }
    }
    runs.len()
}

// The first maximal range of places whose sets hold `n`.
pub(crate) fn range_holding(runs: &[Run], n: u32) -> Option<(usize, usize)>
    requires { IsCoalesced 0 runs.now }
    ensures { result ≡ first_range (λ s. contains s n) (spell 0 runs.now) }
{
    let first = first_holding(runs, n)?;
    let behind = first + holding(&runs[first..], n);
    let start = end_of(&runs[..first]);
    let end = end_of(&runs[..behind]);
    Some((start as usize, end as usize))
}

// The sets of the runs, each once.
pub(crate) fn sets_once(alloc: Global, runs: &[Run]) -> Result<Sets, AllocError>
    requires { IsCoalesced 0 runs.now }
    ensures { IfOk result (λ sets. sets ≡ distinct same (spell 0 runs.now)) }
{
    let mut seen = IndexSet::new(alloc);
    for run in runs {
        seen.insert(run.set.clone()?)?;
    }
    list_of_sets(alloc, seen.as_slice())
}

// A list of these sets.
fn list_of_sets(alloc: Global, sets: &[PSet]) -> Result<Sets, AllocError>
    ensures { IfOk result (λ list. list ≡ sets.now) }
{
    let mut list = Sets::new(alloc);
    for set in sets {
        list.push(set.clone()?)?;
    }
    Ok(list)
}

// Inserts each of the numbers.
fn insert_all(seen: &mut IndexSet<u32>, more: &[u32]) -> Result<(), AllocError>
    ensures { OnOk result (seen.new.keys ≡ fold (insert_key nat_eq) seen.old.keys more.now) }
{
    for n in more {
        seen.insert(*n)?;
    }
    Ok(())
}

// The numbers of the runs' sets, each once.
pub(crate) fn numbers_once(alloc: Global, runs: &[Run]) -> Result<Numbers, AllocError>
    requires { IsCoalesced 0 runs.now }
    ensures { IfOk result (λ list. list ≡ distinct nat_eq (flat_map numbers (spell 0 runs.now))) }
{
    let mut seen = IndexSet::new(alloc);
    for run in runs {
        insert_all(&mut seen, run.set.as_slice())?;
    }
    list_of_numbers(alloc, seen.as_slice())
}

// A list of these numbers.
fn list_of_numbers(alloc: Global, numbers: &[u32]) -> Result<Numbers, AllocError>
    ensures { IfOk result (λ list. list ≡ numbers.now) }
{
    let mut list = Numbers::new(alloc);
    for n in numbers {
        list.push(*n)?;
    }
    Ok(list)
}
