//! Runs, with tables of their sets and texts.
ghost use Rattle.std.specs.Prelude.{◌≡◌, ◌<◌, ◌++◌, ◌+◌, ◌^◌, [], length, map, nat_eq, replicate, slice_get, Some, OnOk, OnErr, IfOk};
ghost use Rattle.std.specs.List.{IsDistinct};
ghost use Rattle.std.specs.Str.{bytes_eq};
ghost use Rattle.resin_shadow.specs.Marks.{Each, IsTextSet};
ghost use Rattle.resin_shadow.specs.Runs.{IsTable, IsKindOf, AreTextsAt, HasNumber, Stays, marks_of, set_of};
ghost use Rattle.resin_shadow.specs.Ends.{EndsApart, EndsWith, Ends};
ghost use Rattle.resin_frozen.specs.Policies.{IsPolicyText};

use crate::lists::FrozenList;
use crate::numbers::Numbers;
use crate::sets::sorted;
use indexmap::IndexSet;
use resin_frozen::Frozen;
use std::alloc::{AllocError, Global};

/// How many neighbouring bytes carry the same policies, and these policies.
#[derive(Drop)]
pub struct FrozenRun {
    pub len: u64,
    /// Each text once, ordered by its bytes.
    pub set: FrozenList,
    // The number of the set.
    pub(crate) kind: usize,
}

/// A set, with its number.
#[derive(Drop)]
pub(crate) struct Kind {
    pub(crate) number: usize,
    pub(crate) set: FrozenList,
}

/// The maximal runs of bytes that carry the same policies. The sets and the texts have numbers: their places in tables.
#[derive(Drop)]
pub(crate) struct Table {
    pub(crate) runs: Vec<FrozenRun>,
    // The sets, each by the numbers of its texts in the order of the texts' bytes.
    pub(crate) sets: IndexSet<Numbers>,
    pub(crate) texts: IndexSet<Frozen>,
    pub(crate) len: u64,
    pub(crate) alloc: Global,
}

impl Table {
    pub(crate) fn new(alloc: Global) -> Table
        ensures table { IsTable result }
        ensures empty { marks_of result.runs.items ≡ [] }
    {
        Table {
            runs: Vec::new(alloc),
            sets: IndexSet::new(alloc),
            texts: IndexSet::new(alloc),
            len: 0,
            alloc,
        }
    }

    // The set of the texts of a list, which has a number from now on.
    pub(crate) fn kind_of(&mut self, list: &FrozenList) -> Result<Kind, AllocError>
        requires { IsTable self.old }
        ensures table { IsTable self.new }
        ensures stays { Stays self.old self.new }
        ensures kind { IfOk result (λ k. IsKindOf self.new k) }
        ensures set { IfOk result (λ k. k.set ≡ set_of list.now) }
    {
        let set = sorted(self.alloc, list)?;
        let numbers = self.numbers_of(&set)?;
        self.kind_in(numbers, set)
    }

    // The numbers of the texts of a set, which stand among the texts from now on.
    fn numbers_of(&mut self, set: &FrozenList) -> Result<Numbers, AllocError>
        requires { IsTable self.old }
        ensures table { IsTable self.new }
        ensures stays { Stays self.old self.new }
        ensures numbers { IfOk result (λ numbers. AreTextsAt self.new.texts.keys numbers set.now) }
    {
        let mut numbers = Numbers::new(self.alloc);
        for text in set.as_slice() {
            let _policy = text.as_slice();
            let number = self.number_of(text.clone()?)?;
            numbers.push(number)?;
        }
        Ok(numbers)
    }

    // The number of a text, which stands among the texts from now on.
    fn number_of(&mut self, text: Frozen) -> Result<usize, AllocError>
        requires table { IsTable self.old }
        requires policy { IsPolicyText text }
        ensures table { IsTable self.new }
        ensures stays { Stays self.old self.new }
        ensures number { IfOk result (λ n. HasNumber self.new.texts.keys n text) }
    {
        let (number, _) = self.texts.insert_full(text)?;
        Ok(number)
    }

    // The set whose texts have these numbers, which has a number from now on.
    fn kind_in(&mut self, numbers: Numbers, set: FrozenList) -> Result<Kind, AllocError>
        requires table { IsTable self.old }
        requires numbers { AreTextsAt self.old.texts.keys numbers set }
        requires set { IsTextSet set }
        ensures table { IsTable self.new }
        ensures stays { Stays self.old self.new }
        ensures kind { IfOk result (λ k. IsKindOf self.new k) }
        ensures set { IfOk result (λ k. k.set ≡ set) }
    {
        let (number, _) = self.sets.insert_full(numbers)?;
        Ok(Kind { number, set })
    }

    // Puts bytes with a set last.
    pub(crate) fn push_kind(&mut self, len: u64, kind: &Kind) -> Result<(), AllocError>
        requires table { IsTable self.old }
        requires some { 0 < len }
        requires count { self.old.len + len < 2 ^ 64 }
        requires known { IsKindOf self.old kind.now }
        ensures table { IsTable self.new }
        ensures sets { self.new.sets.keys ≡ self.old.sets.keys }
        ensures texts { self.new.texts.keys ≡ self.old.texts.keys }
        ensures ok { OnOk result (marks_of self.new.runs.items ≡ marks_of self.old.runs.items ++ replicate len kind.now.set) }
        ensures err { OnErr result (self.new.runs.items ≡ self.old.runs.items) }
    {
        if self.ends_with(kind) {
            self.lengthen(len, kind);
            Ok(())
        } else {
            self.push_run(len, kind)
        }
    }

    // Whether the last run has this set.
    fn ends_with(&self, kind: &Kind) -> bool
        requires table { IsTable self.now }
        requires known { IsKindOf self.now kind.now }
        ensures { Ends kind.now.set self.now.runs.items result }
    {
        match self.runs.last() {
            Some(run) => run.kind == kind.number,
            None => false,
        }
    }

    // Puts more bytes to the last run, which has this set.
    fn lengthen(&mut self, len: u64, kind: &Kind)
        requires table { IsTable self.old }
        requires ends { EndsWith kind.now.set self.old.runs.items }
        requires count { self.old.len + len < 2 ^ 64 }
        ensures table { IsTable self.new }
        ensures sets { self.new.sets.keys ≡ self.old.sets.keys }
        ensures texts { self.new.texts.keys ≡ self.old.texts.keys }
        ensures marks { marks_of self.new.runs.items ≡ marks_of self.old.runs.items ++ replicate len kind.now.set }
    {
        let last = self.runs.len() - 1;
        let total = self.runs[last].len + len;
        self.runs[last].len = total;
        self.len += len;
    }

    // Puts a run last that doesn't join the one before.
    fn push_run(&mut self, len: u64, kind: &Kind) -> Result<(), AllocError>
        requires table { IsTable self.old }
        requires some { 0 < len }
        requires count { self.old.len + len < 2 ^ 64 }
        requires known { IsKindOf self.old kind.now }
        requires ends { EndsApart kind.now.set self.old.runs.items }
        ensures table { IsTable self.new }
        ensures sets { self.new.sets.keys ≡ self.old.sets.keys }
        ensures texts { self.new.texts.keys ≡ self.old.texts.keys }
        ensures ok { OnOk result (marks_of self.new.runs.items ≡ marks_of self.old.runs.items ++ replicate len kind.now.set) }
        ensures err { OnErr result (self.new.runs.items ≡ self.old.runs.items) }
    {
        let set = kind.set.clone()?;
        self.runs.push(FrozenRun {
            len,
            set,
            kind: kind.number,
        })?;
        self.len += len;
        Ok(())
    }
}
