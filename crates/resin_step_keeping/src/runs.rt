//! The sets of a text by its runs.
ghost use Rattle.indexmap.specs.IndexSet.{insert_key};
ghost use Rattle.resin_shadow.specs.Parts.{spelled_by};
ghost use Rattle.resin_step_keeping.specs.Sets.{Covers};
ghost use Rattle.resin_step_parts.specs.Under.label.Sets.{same};
ghost use Rattle.resin_step_parts.specs.Under.lstr.Texts.{sets_of};
ghost use Rattle.std.specs.Prelude.{◌≡◌, ◌-◌, ◌∷◌, [], ◌++◌, ℕ, slice_get, IfOk, OnOk, Some};

use indexmap::IndexSet;
use resin_step_parts::under::label::PSet;
use resin_step_parts::under::lstr::{LText, Run};
use std::alloc::{AllocError, Global};

/// The sets that the bytes of a text carry, each once, and its runs.
#[derive(Drop)]
pub(crate) struct SetRuns {
    pub(crate) sets: IndexSet<PSet>,
    /// How many bytes each run has, and the place of their set, from 0.
    pub(crate) runs: Vec<(u64, usize)>,
}

/// The sets of a text, and its runs by the places of their sets. Each set is one of a byte.
pub(crate) fn set_runs(alloc: Global, t: &LText) -> Result<SetRuns, AllocError>
    ensures spelled { IfOk result (λ r. spelled_by r.sets.keys r.runs.items ≡ sets_of t.now) }
    ensures covered { IfOk result (λ r. Covers (sets_of t.now) r.sets.keys) }
{
    let mut sets = IndexSet::new(alloc);
    let mut runs = Vec::new(alloc);
    let mut from = 0;
    for run in t.runs() {
        push_run(&mut sets, &mut runs, from, run)?;
        from = run.end;
    }
    Ok(SetRuns { sets, runs })
}

// Puts a run last that begins at a place.
fn push_run(
    sets: &mut IndexSet<PSet>,
    runs: &mut Vec<(u64, usize)>,
    from: u32,
    run: &Run,
) -> Result<(), AllocError>
    ensures sets { OnOk result (sets.new.keys ≡ insert_key same sets.old.keys run.now.set) }
    ensures runs { OnOk result ((place : ℕ) × (runs.new.items ≡ runs.old.items ++ (run.now.end - from, place) ∷ [])
        × (slice_get sets.new.keys place ≡ Some run.now.set)) }
{
    let (place, _) = sets.insert_full(run.set.clone()?)?;
    runs.push((u64::from(run.end.saturating_sub(from)), place))?;
    Ok(())
}
