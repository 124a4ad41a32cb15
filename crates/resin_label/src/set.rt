//! Sets of policy numbers.
ghost use Rattle.std.specs.Prelude.{◌≡◌, ℕ, IfOk, IsTrue, ◌↔◌};
ghost use Rattle.resin_label.specs.Sets.{empty, contains, insert, remove, numbers, union, same, IsRising};
ghost use Rattle.resin_label.specs.Iter.{rest};
ghost use Rattle.std.specs.Hash as fed;
ghost use Rattle.std.specs.Cmp.Lexicographic.{nat_list_eq_equiv};
ghost use Rattle.std.specs.Cmp.{partial_equiv_from_equiv, on_equiv};
ghost use Rattle.std.specs.Cmp.Rules.{hashing};
ghost use Rattle.std.proofs.Common.{rules};

use crate::numbers::{has, holds, merged, others};
use std::alloc::{AllocError, Global};
use std::hash::{Hash, Hasher};
use std::marker::Model;
use std::rc::RcSlice;

/// A finite set of policy numbers. Its numbers are shared: a copy of a set copies none of them, and the empty set
/// takes no memory.
#[derive(Drop)]
pub struct PSet {
    numbers: Option<RcSlice<u32>>,
}

impl Model for PSet {
    ghost use Rattle.resin_label.specs.Sets.{NumberSet, set_code, IsRising};
    ghost use Rattle.resin_label.specs.Kept.{numbers_of, of_rising};

    ghost Value = { NumberSet };

    ghost coded = { set_code };

    ghost view = { λ a. of_rising (numbers_of a.numbers) };

    ghost invariant = { λ a. IsRising (numbers_of a.numbers) };
}

impl PSet {
    /// The empty set.
    pub fn empty() -> PSet
        ensures { result ≡ empty }
    {
        PSet { numbers: None }
    }

    /// The members, rising.
    pub fn as_slice(&self) -> &[u32]
        ensures members { result.now ≡ numbers self.now }
        ensures rising { IsRising result.now }
    {
        match &self.numbers {
            None => &[],
            Some(numbers) => numbers.as_slice(),
        }
    }

    /// The members, rising.
    pub fn iter(&self) -> PSetIter<'_>
        ensures members { rest result ≡ numbers self.now }
        ensures rising { IsRising (rest result) }
    {
        PSetIter {
            rest: self.as_slice(),
        }
    }

    /// Whether `n` is a member.
    pub fn contains(&self, n: u32) -> bool
        ensures { result ≡ contains self.now n }
    {
        has(self.as_slice(), n)
    }

    /// Whether both sets have the same members.
    pub fn same(&self, o: &PSet) -> bool
        ensures equal { IsTrue result ↔ (self.now ≡ o.now) }
        ensures value { result ≡ same self.now o.now }
    {
        self.as_slice() == o.as_slice()
    }

    /// The set with `n` as a member too. It shares its numbers with this one where `n` is a member already.
    pub fn with(&self, alloc: Global, n: u32) -> Result<PSet, AllocError>
        ensures { IfOk result (λ s. s ≡ insert self.now n) }
    {
        if self.contains(n) {
            return self.clone();
        }
        PSet::kept(merged(alloc, self.as_slice(), &[n])?)
    }

    /// The set without `n`. It shares its numbers with this one where `n` is no member.
    pub fn without(&self, alloc: Global, n: u32) -> Result<PSet, AllocError>
        ensures { IfOk result (λ s. s ≡ remove self.now n) }
    {
        if !self.contains(n) {
            return self.clone();
        }
        PSet::kept(others(alloc, self.as_slice(), n)?)
    }

    /// The members of either set. It shares the numbers of a set that holds the other one.
    pub fn union(&self, alloc: Global, o: &PSet) -> Result<PSet, AllocError>
        ensures { IfOk result (λ s. s ≡ union self.now o.now) }
    {
        if holds(self.as_slice(), o.as_slice()) {
            return self.clone();
        }
        if holds(o.as_slice(), self.as_slice()) {
            return o.clone();
        }
        PSet::kept(merged(alloc, self.as_slice(), o.as_slice())?)
    }

    // The set that has these numbers as its members.
    fn kept(members: Vec<u32>) -> Result<PSet, AllocError>
        requires { IsRising members.items }
        ensures { IfOk result (λ s. numbers s ≡ members.items) }
    {
        if members.is_empty() {
            return Ok(PSet { numbers: None });
        }
        let numbers = RcSlice::from_vec(members)?;
        Ok(PSet {
            numbers: Some(numbers),
        })
    }
}

impl Clone for PSet {
    ghost is_clone = { λ s copy. copy ≡ s };

    fn clone(&self) -> Result<PSet, AllocError> {
        match &self.numbers {
            None => Ok(PSet { numbers: None }),
            Some(numbers) => {
                let numbers = numbers.clone()?;
                Ok(PSet {
                    numbers: Some(numbers),
                })
            }
        }
    }
}

impl PartialEq for PSet {
    ghost eq = { same };

    ghost laws = { partial_equiv_from_equiv (on_equiv numbers nat_list_eq_equiv) };

    fn eq(&self, other: &PSet) -> bool {
        self.same(other)
    }
}

impl Eq for PSet {
    ghost laws = { on_equiv numbers nat_list_eq_equiv };
}

impl Hash for PSet {
    ghost hash_input = { λ s. fed.slice fed.u32 (numbers s) };

    ghost respects_eq = { Prim.search (hashing, rules) };

    fn hash<H: Hasher>(&self, state: &mut H) {
        self.as_slice().hash(state);
    }
}

/// An iterator over the members of a set, rising.
#[derive(Drop)]
pub struct PSetIter<'a> {
    rest: &'a [u32],
}

impl Iterator for PSetIter<'_> {
    type Item = u32;

    ghost use Rattle.std.specs.Iterator.{YieldsFirst, item_count};
    ghost use Rattle.resin_label.specs.Iter.{rest};

    ghost next_gives = { YieldsFirst rest };

    ghost remaining = { item_count rest };

    fn next(&mut self) -> Option<u32> {
        let (first, others) = self.rest.split_first()?;
        self.rest = others;
        Some(*first)
    }
}
