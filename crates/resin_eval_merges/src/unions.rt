//! Unions of many sets.
ghost use Rattle.std.specs.Prelude.{◌≡◌, IfOk};
ghost use Rattle.resin_eval_merges.specs.Unions.{union_of};

use resin_eval_nested::under::label::PSet;
use std::alloc::{AllocError, Global};

// The members of any of the sets, from those of each half: so a number is copied once for each halving, and not once for each set.
pub(crate) fn union_of(alloc: Global, sets: &[PSet]) -> Result<PSet, AllocError>
    ensures { IfOk result (λ all. all ≡ union_of sets.now) }
{
    match sets {
        [] => Ok(PSet::empty()),
        [only] => only.clone(),
        _ => {
            let half = sets.len() / 2;
            let front = union_of(alloc, &sets[..half])?;
            let behind = union_of(alloc, &sets[half..])?;
            front.union(alloc, &behind)
        }
    }
}
