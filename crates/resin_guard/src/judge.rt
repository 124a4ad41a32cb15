//! Which bytes stand outside of places.

ghost use Rattle.std.specs.Prelude.{◌≡◌, ℕ, ◌<◌, ◌≤◌, ◌&&◌, ◌||◌, not, false, min, length, get_or, IfOk, vec_len};
ghost use Rattle.resin_label.specs.Sets.{empty};
ghost use Rattle.resin_lstr.specs.Runs.{IsCoalesced, last_end, spell};
ghost use Rattle.resin_guard.specs.Judged.{meets, in_range, is_inside, IsFirst, judged};

use resin_label::PSet;
use resin_lstr::{LText, Run};
use std::alloc::{AllocError, Global};

/// What a guard says of a text.
#[derive(Clone, Copy, Debug, PartialEq, Eq)]
pub enum Guard {
    /// No byte with a number of `bad` stands outside the harmless places.
    Pass,
    /// The text is no statement, or no page. The offset is that of the first byte at which no continuation is one, or the length.
    Bad { offset: u64 },
    /// The first byte with a number of `bad` outside the harmless places.
    Untrusted { offset: u64 },
}

/// Whether some number of the set is one of `bad`.
fn meets(bad: &PSet, set: &PSet) -> bool
    ensures { result ≡ meets bad.now set.now }
{
    set.as_slice().iter().any(|n| bad.contains(*n))
}

fn least(a: usize, b: usize) -> usize
    ensures value { result ≡ min a b }
{
    if a <= b { a } else { b }
}

/// Notes that a range is safe, as far as it is in the text.
fn cover(safe: &mut [bool], from: usize, to: usize)
    ensures same_length { length safe.new ≡ length safe.old }
    ensures noted { (k : ℕ) → k < length safe.old → get_or safe.new k false ≡ (get_or safe.old k false || in_range from to k) }
{
    let end = least(to, safe.len());
    let start = least(from, end);
    for i in start..end {
        safe[i] = true;
    }
}

/// Of each offset below the length, whether it is in one of the places.
fn covered(alloc: Global, places: &[(usize, usize)], len: usize) -> Result<Vec<bool>, AllocError>
    ensures all { IfOk result (λ v. vec_len v ≡ len) }
    ensures noted { IfOk result (λ v. (k : ℕ) → k < len → get_or v.items k false ≡ is_inside places.now k) }
{
    let mut safe = vec![in alloc; false; len]?;
    for place in places {
        cover(&mut safe, place.0, place.1);
    }
    Ok(safe)
}

/// The first offset of a range that isn't safe.
fn first_bare(safe: &[bool], from: usize, to: usize) -> Option<usize>
    requires { to ≤ length safe.now }
    ensures { IsFirst (λ k. not (get_or safe.now k false)) from to result }
{
    for i in from..to {
        if !safe[i] {
            return Some(i);
        }
    }
    None
}

/// The first offset of a run with this set that isn't safe, if the set has a number of `bad`.
fn first_of_run(set: &PSet, bad: &PSet, safe: &[bool], from: usize, to: usize) -> Option<usize>
    requires { to ≤ length safe.now }
    ensures { IsFirst (λ k. meets bad.now set.now && not (get_or safe.now k false)) from to result }
{
    if meets(bad, set) {
        first_bare(safe, from, to)
    } else {
        None
    }
}

/// The first offset that isn't safe and carries a number of `bad`.
fn first_untrusted(runs: &[Run], bad: &PSet, safe: &[bool]) -> Option<usize>
    requires coalesced { IsCoalesced 0 runs.now }
    requires whole { last_end 0 runs.now ≡ length safe.now }
    ensures { IsFirst (λ k. meets bad.now (get_or (spell 0 runs.now) k empty) && not (get_or safe.now k false)) 0 (length safe.now) result }
{
    let mut from = 0usize;
    for run in runs {
        let to = run.end as usize;
        if let Some(at) = first_of_run(&run.set, bad, safe, from, to) {
            return Some(at);
        }
        from = to;
    }
    None
}

/// What a guard says of a text whose harmless places are these.
pub(crate) fn judged(
    alloc: Global,
    text: &LText,
    bad: &PSet,
    places: &[(usize, usize)],
) -> Result<Guard, AllocError>
    ensures { IfOk result (λ g. g ≡ judged bad.now places.now text.now) }
{
    let safe = covered(alloc, places, text.len())?;
    match first_untrusted(text.runs(), bad, &safe) {
        Some(at) => Ok(Guard::Untrusted { offset: at as u64 }),
        None => Ok(Guard::Pass),
    }
}
