//! Reading shadow texts.
ghost use Rattle.std.specs.Prelude.{◌≡◌, ◌<◌, ◌^◌, [], length, replicate, Some, IfOk};
ghost use Rattle.resin_frozen.specs.Reads.{Is};
ghost use Rattle.resin_shadow.specs.Answers.{Decodes, Kept};
ghost use Rattle.resin_shadow.specs.Shadows.{written1, written2};
ghost use Rattle.resin_shadow.specs.Readers.{DecodesBy, Found, read1, read2};

use crate::encoding::{encode, encode_first};
use crate::lists::FrozenList;
use crate::reading::{read_policies, read_runs_first, read_runs_second, read_sets};
use crate::runs::FrozenRuns;
use crate::table::Table;
use resin_bytes::Bytes;
use resin_frozen::{Rest, Stop};
use std::alloc::{AllocError, Global};

/// The policies of the bytes of a text that has `len` of them, by its shadow text of either version. `None` exactly where the shadow isn't one of
/// such a text: also where it is written in another way than the one there is. It is read in one pass, and written again to see that it is that one.
pub fn decode(alloc: Global, len: u64, shadow: &[u8]) -> Result<Option<FrozenRuns>, AllocError>
    ensures { IfOk result (λ found. Decodes len shadow.now found) }
{
    let size = shadow.len();
    if size == 0 {
        return Ok(Some(plain(alloc, len)?));
    }
    match second(alloc, len, shadow)? {
        Some(runs) => Ok(Some(runs)),
        None => first(alloc, len, shadow),
    }
}

// So many bytes without policies.
fn plain(alloc: Global, len: u64) -> Result<FrozenRuns, AllocError>
    ensures { IfOk result (λ runs. runs ≡ replicate len []) }
{
    let mut runs = FrozenRuns::new(alloc);
    if len > 0 {
        runs.push(len, &FrozenList::new(alloc))?;
    }
    Ok(runs)
}

// The same by a text of the second version that isn't empty.
fn second(alloc: Global, len: u64, shadow: &[u8]) -> Result<Option<FrozenRuns>, AllocError>
    requires some { 0 < length shadow.now }
    requires size { length shadow.now < 2 ^ 64 }
    ensures { IfOk result (λ found. DecodesBy written2 len shadow.now found) }
{
    match found(read_second(alloc, shadow))? {
        Some(runs) => second_read(alloc, len, shadow, runs),
        None => Ok(None),
    }
}

// The same by the runs that were read.
fn second_read(
    alloc: Global,
    len: u64,
    shadow: &[u8],
    runs: FrozenRuns,
) -> Result<Option<FrozenRuns>, AllocError>
    requires some { 0 < length shadow.now }
    requires size { length shadow.now < 2 ^ 64 }
    requires read { read2 shadow.now ≡ Some runs }
    ensures { IfOk result (λ found. DecodesBy written2 len shadow.now found) }
{
    if runs.len() != len {
        return Ok(None);
    }
    let text = encode(alloc, &runs)?;
    Ok(kept(runs, &text, shadow))
}

// The same by a text of the first version.
fn first(alloc: Global, len: u64, shadow: &[u8]) -> Result<Option<FrozenRuns>, AllocError>
    requires some { 0 < length shadow.now }
    requires size { length shadow.now < 2 ^ 64 }
    ensures { IfOk result (λ found. DecodesBy written1 len shadow.now found) }
{
    match found(read_first(alloc, shadow))? {
        Some(runs) => first_read(alloc, len, shadow, runs),
        None => Ok(None),
    }
}

// The same by the runs that were read.
fn first_read(
    alloc: Global,
    len: u64,
    shadow: &[u8],
    runs: FrozenRuns,
) -> Result<Option<FrozenRuns>, AllocError>
    requires some { 0 < length shadow.now }
    requires size { length shadow.now < 2 ^ 64 }
    requires read { read1 shadow.now ≡ Some runs }
    ensures { IfOk result (λ found. DecodesBy written1 len shadow.now found) }
{
    if runs.len() != len {
        return Ok(None);
    }
    let text = encode_first(alloc, &runs)?;
    Ok(kept(runs, &text, shadow))
}

// The runs, if this text of theirs is the shadow.
fn kept(runs: FrozenRuns, text: &Bytes, shadow: &[u8]) -> Option<FrozenRuns>
    ensures { Kept runs text.now shadow.now result }
{
    if text.as_slice() == shadow {
        Some(runs)
    } else {
        None
    }
}

// What was read, if anything was.
fn found(read: Result<FrozenRuns, Stop>) -> Result<Option<FrozenRuns>, AllocError>
    ensures { Found read result }
{
    match read {
        Ok(value) => Ok(Some(value)),
        Err(Stop::Form) => Ok(None),
        Err(Stop::Memory) => Err(AllocError),
    }
}

// Reads the runs of a text of the second version. Whether they are written there in the one way is to be seen.
#[tactic(auto, unfolding(crate::specs::Readers::read2))]
fn read_second(alloc: Global, shadow: &[u8]) -> Result<FrozenRuns, Stop>
    ensures { Is (read2 shadow.now) result }
{
    let mut rest = Rest::new(shadow);
    rest.literal(b"resin2 ")?;
    let count_of_policies = rest.natural(b' ')?;
    let count_of_sets = rest.natural(b' ')?;
    let count = rest.natural(b'\n')?;
    let policies = read_policies(alloc, &mut rest, count_of_policies)?;
    let mut table = Table::new(alloc);
    let kinds = read_sets(alloc, &mut rest, &mut table, &policies, count_of_sets)?;
    read_runs_second(alloc, &mut rest, &mut table, &kinds, count)?;
    Ok(FrozenRuns { table })
}

// The same of the first version.
#[tactic(auto, unfolding(crate::specs::Readers::read1))]
fn read_first(alloc: Global, shadow: &[u8]) -> Result<FrozenRuns, Stop>
    ensures { Is (read1 shadow.now) result }
{
    let mut rest = Rest::new(shadow);
    rest.literal(b"resin1 ")?;
    let count_of_policies = rest.natural(b' ')?;
    let count = rest.natural(b'\n')?;
    let policies = read_policies(alloc, &mut rest, count_of_policies)?;
    let mut table = Table::new(alloc);
    read_runs_first(alloc, &mut rest, &mut table, &policies, count)?;
    Ok(FrozenRuns { table })
}
