//! Texts with other letters, or in the other order.
ghost use Rattle.std.specs.Prelude.{◌≡◌, ◌≤◌, ◌++◌, length, map, reverse, slice_range, Ok, IfOk};
ghost use Rattle.std.specs.Char.{to_ascii_uppercase, to_ascii_lowercase};
ghost use Rattle.resin_lstr.specs.Texts.{carrying};
ghost use Rattle.resin_lstr.specs.Faults.{GivesText};
ghost use Rattle.resin_lstr.specs.Runs.{last_end};
ghost use Rattle.resin_scalar.specs.Stops.{Gives};
ghost use Rattle.resin_text_fn.specs.Rows.{strtoupper, strtolower, ucfirst, strrev};

use crate::stop::text_stop;
use resin_lstr::{Builder, LText, Run, TextFault};
use resin_scalar::CallStop;
use std::alloc::{AllocError, Global};

/// `strtoupper`: the text with `a` to `z` in upper case. Its runs are those of `s`, shared.
pub fn strtoupper(alloc: Global, s: &LText) -> Result<LText, CallStop>
    ensures { Gives result (Ok (strtoupper s.now)) }
{
    let bytes = upper_bytes(alloc, s.bytes())?;
    Ok(s.with_bytes(alloc, bytes)?)
}

/// `strtolower`: the text with `A` to `Z` in lower case. Its runs are those of `s`, shared.
pub fn strtolower(alloc: Global, s: &LText) -> Result<LText, CallStop>
    ensures { Gives result (Ok (strtolower s.now)) }
{
    let bytes = lower_bytes(alloc, s.bytes())?;
    Ok(s.with_bytes(alloc, bytes)?)
}

/// `ucfirst`: the text with its first byte in upper case. Its runs are those of `s`, shared.
pub fn ucfirst(alloc: Global, s: &LText) -> Result<LText, CallStop>
    ensures { Gives result (Ok (ucfirst s.now)) }
{
    let (first, others) = s.bytes().split_at(s.len().min(1));
    let mut bytes = upper_bytes(alloc, first)?;
    bytes.extend_from_slice(others)?;
    Ok(s.with_bytes(alloc, bytes)?)
}

// The bytes with `a` to `z` in upper case.
fn upper_bytes(alloc: Global, bytes: &[u8]) -> Result<Vec<u8>, AllocError>
    ensures { IfOk result (λ v. v.items ≡ map to_ascii_uppercase bytes.now) }
{
    bytes.iter().map(|b| b.to_ascii_uppercase()).collect(alloc)
}

// The bytes with `A` to `Z` in lower case.
fn lower_bytes(alloc: Global, bytes: &[u8]) -> Result<Vec<u8>, AllocError>
    ensures { IfOk result (λ v. v.items ≡ map to_ascii_lowercase bytes.now) }
{
    bytes.iter().map(|b| b.to_ascii_lowercase()).collect(alloc)
}

/// `strrev`: the bytes in the other order, each with its set.
pub fn strrev(alloc: Global, s: &LText) -> Result<LText, CallStop>
    ensures { Gives result (Ok (strrev s.now)) }
{
    let _len = s.len();
    reversed(alloc, s).map_err(text_stop)
}

// The text from its last run to its first, each backwards.
fn reversed(alloc: Global, s: &LText) -> Result<LText, TextFault>
    ensures { GivesText result (strrev s.now) }
{
    let mut out = Builder::new(alloc);
    let runs = s.runs();
    let bytes = s.bytes();
    let mut left = runs.len();
    while left > 0 {
        left -= 1;
        let start = end_of(&runs[..left]);
        out = append_backwards(alloc, out, bytes, start, &runs[left])?;
    }
    Ok(out.finish()?)
}

// Puts the bytes of a run that begins at `from` last, backwards.
fn append_backwards(
    alloc: Global,
    out: Builder,
    bytes: &[u8],
    from: usize,
    run: &Run,
) -> Result<Builder, TextFault>
    requires ordered { from ≤ run.now.end }
    requires within { run.now.end ≤ length bytes.now }
    ensures { GivesText result (out ++ carrying run.now.set (reverse (slice_range bytes.now from run.now.end))) }
{
    let backwards = reversed_bytes(alloc, &bytes[from..run.end as usize])?;
    out.append_bytes(&backwards, &run.set)
}

// The bytes in the other order.
fn reversed_bytes(alloc: Global, bytes: &[u8]) -> Result<Vec<u8>, AllocError>
    ensures { IfOk result (λ v. v.items ≡ reverse bytes.now) }
{
    bytes.iter().rev().copied().collect(alloc)
}

// Where the last run ends.
fn end_of(runs: &[Run]) -> usize
    ensures { result ≡ last_end 0 runs.now }
{
    match runs {
        [] => 0,
        [.., last] => last.end as usize,
    }
}
