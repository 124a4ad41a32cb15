//! Sets of policy texts.
ghost use Rattle.std.specs.Prelude.{◌≡◌, nat_eq, IfOk};
ghost use Rattle.std.specs.Ordering.{nat_cmp, as_partial_cmp};
ghost use Rattle.std.specs.Cmp.{partial_equiv_from_equiv, partial_order_from_own_ties};
ghost use Rattle.std.specs.Cmp.Lexicographic.{pointwise, slice_cmp, nat_list_eq_equiv};
ghost use Rattle.std.specs.Cmp.Rules.{comparing};
ghost use Rattle.std.proofs.Common.{rules};
ghost use Rattle.resin_shadow.specs.Marks.{IsTextSet};
ghost use Rattle.resin_shadow.specs.Runs.{set_of};

use crate::lists::FrozenList;
use resin_frozen::Frozen;
use std::alloc::{AllocError, Global};
use std::cmp::Ordering;
use std::collections::BTreeSet;
use std::marker::Model;

// A policy text that is compared by its bytes.
#[derive(Drop)]
struct ByBytes {
    text: Frozen,
}

impl Model for ByBytes {
    ghost use Rattle.std.specs.Prelude.{ℕ, List};

    ghost Value = { List ℕ };

    ghost view = { λ b. b.text };
}

impl ByBytes {
    fn of(text: Frozen) -> ByBytes
        ensures { result ≡ text }
    {
        ByBytes { text }
    }

    fn text(&self) -> &Frozen
        ensures { result.now ≡ self.now }
    {
        &self.text
    }
}

impl PartialEq for ByBytes {
    ghost eq = { pointwise nat_eq };

    ghost laws = { partial_equiv_from_equiv nat_list_eq_equiv };

    fn eq(&self, other: &ByBytes) -> bool {
        self.text.as_slice() == other.text.as_slice()
    }
}

impl Eq for ByBytes {
    ghost laws = { nat_list_eq_equiv };
}

impl PartialOrd for ByBytes {
    ghost partial_cmp = { as_partial_cmp (slice_cmp nat_cmp) };

    ghost laws = { Prim.search (comparing, rules) };

    fn partial_cmp(&self, other: &ByBytes) -> Option<Ordering> {
        Some(self.cmp(other))
    }
}

impl Ord for ByBytes {
    ghost cmp = { slice_cmp nat_cmp };

    ghost total = { Prim.search (comparing, rules) };

    ghost matches_partial_cmp = { Prim.search (comparing, rules) };

    ghost matches_eq = { Prim.search (comparing, rules) };

    fn cmp(&self, other: &ByBytes) -> Ordering {
        self.text.as_slice().cmp(other.text.as_slice())
    }
}

/// The texts of a list, each once, ordered by their bytes.
pub(crate) fn sorted(alloc: Global, list: &FrozenList) -> Result<FrozenList, AllocError>
    ensures set { IfOk result (λ set. set ≡ set_of list.now) }
    ensures ordered { IfOk result (λ set. IsTextSet set) }
{
    let set = collected(alloc, list)?;
    let mut texts = FrozenList::new(alloc);
    for text in &set {
        texts.push(text.text().clone()?)?;
    }
    Ok(texts)
}

// The texts of a list as a set.
fn collected(alloc: Global, list: &FrozenList) -> Result<BTreeSet<ByBytes>, AllocError>
    ensures { IfOk result (λ set. set.keys ≡ set_of list.now) }
{
    let mut set = BTreeSet::new(alloc);
    for text in list.as_slice() {
        set.insert(ByBytes::of(text.clone()?))?;
    }
    Ok(set)
}
