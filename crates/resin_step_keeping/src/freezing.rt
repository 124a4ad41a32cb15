//! What is kept of the policies of a text.
ghost use Rattle.resin_step_keeping.specs.Sets.{AreFrozen, Stores};
ghost use Rattle.resin_step_parts.specs.Under.label.Sets.{numbers};
ghost use Rattle.resin_step_parts.specs.Under.meaning_forms.Keeping.{each_of, freeze_text, frozen_policy};
ghost use Rattle.resin_step_parts.specs.Under.meaning_forms.Runs.{Runs, on_ok};
ghost use Rattle.std.specs.Prelude.{◌≡◌, map, OnErr, OnOk, Some};
ghost use Rattle.indexmap.specs.IndexMap.{insert_entry};
ghost use Rattle.std.specs.Prelude.{nat_eq};

use crate::lists::put;
use crate::runs::set_runs;
use indexmap::IndexMap;
use resin_frozen::{FreezeFault, Frozen, are_fields, freeze, is_class};
use resin_shadow::{FrozenList, FrozenRuns};
use resin_step_parts::under::label::PSet;
use resin_step_parts::under::lstr::LText;
use resin_step_parts::under::machine::{Machine, Stop};
use resin_step_parts::under::scalar::ScriptFault;
use std::alloc::{AllocError, Global};

/// What is kept of the policies of a text: for each byte the set of the policy texts of its policies. NotStorable comes exactly where one
/// of the policies has no policy text, as `resin_frozen::freeze` says it. Each policy, and each set of them, is worked on once.
pub fn freeze_text(alloc: Global, m: &Machine, t: &LText) -> Result<FrozenRuns, Stop>
    ensures { Runs (freeze_text t.now) m.now result m.now }
{
    let parts = set_runs(alloc, t)?;
    let sets = parts.sets.as_slice();
    let lists = freeze_sets(alloc, m, sets)?;
    let texts = lists.as_slice();
    let places = parts.runs.as_slice();
    let runs = FrozenRuns::from_parts(alloc, texts, places)?;
    Ok(runs)
}

// The policy texts of each of some sets.
fn freeze_sets(alloc: Global, m: &Machine, sets: &[PSet]) -> Result<Vec<FrozenList>, Stop>
    ensures { Stores (each_of (map (λ s. each_of (map (frozen_policy m.now) (numbers s))) sets.now)) m.now.line (on_ok (λ v. v.items) result) }
{
    let mut kept = IndexMap::new(alloc);
    let mut lists = Vec::new(alloc);
    for set in sets {
        let list = freeze_set(alloc, m, &mut kept, set.as_slice())?;
        put(&mut lists, list)?;
    }
    Ok(lists)
}

// The policy texts of policies, where some are known already, and these are from now on.
fn freeze_set(
    alloc: Global,
    m: &Machine,
    kept: &mut IndexMap<u32, Frozen>,
    policies: &[u32],
) -> Result<FrozenList, Stop>
    requires { AreFrozen m.now kept.old.entries }
    ensures kept { AreFrozen m.now kept.new.entries }
    ensures texts { Stores (each_of (map (frozen_policy m.now) policies.now)) m.now.line result }
{
    let mut list = FrozenList::new(alloc);
    for policy in policies {
        let text = text_of(alloc, m, kept, *policy)?;
        list.push(text)?;
    }
    Ok(list)
}

// The same of one policy.
fn text_of(
    alloc: Global,
    m: &Machine,
    kept: &mut IndexMap<u32, Frozen>,
    policy: u32,
) -> Result<Frozen, Stop>
    requires { AreFrozen m.now kept.old.entries }
    ensures kept { AreFrozen m.now kept.new.entries }
    ensures text { Stores (frozen_policy m.now policy) m.now.line result }
{
    if let Some(text) = kept.get(&policy) {
        return Ok(text.clone()?);
    }
    let text = freeze_policy(alloc, m, policy)?;
    keep(kept, policy, text.clone()?)?;
    Ok(text)
}

// Knows the text of a policy from now on.
fn keep(kept: &mut IndexMap<u32, Frozen>, policy: u32, text: Frozen) -> Result<(), AllocError>
    ensures ok { OnOk result (kept.new.entries ≡ insert_entry nat_eq kept.old.entries policy text) }
    ensures err { OnErr result (kept.new.entries ≡ kept.old.entries) }
{
    kept.insert(policy, text)?;
    Ok(())
}

// The policy text of an object. Names of classes and fields are those of source texts; others would find no memory.
fn freeze_policy(alloc: Global, m: &Machine, policy: u32) -> Result<Frozen, Stop>
    ensures { Stores (frozen_policy m.now policy) m.now.line result }
{
    if !m.heap().has(policy) {
        return Err(m.fault(ScriptFault::NotStorable));
    }
    let class = m.name_of(policy);
    let fields = m.heap().fields(policy).to_list(alloc)?;
    if !is_class(class) || !are_fields(alloc, &fields)? {
        return Err(Stop::Memory);
    }
    match freeze(alloc, class, &fields) {
        Ok(text) => Ok(text),
        Err(FreezeFault::NotStorable) => Err(m.fault(ScriptFault::NotStorable)),
        Err(FreezeFault::Memory) => Err(Stop::Memory),
    }
}
