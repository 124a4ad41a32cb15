//! The policies that the bytes of a text carry.
ghost use Rattle.std.specs.Prelude.{◌≡◌, ◌==◌, ◌+◌, ◌<◌, ◌^◌, ◌++◌, [], length, replicate, OnOk, OnErr};
ghost use Rattle.resin_shadow.specs.Marks.{AreMarks};
ghost use Rattle.resin_shadow.specs.Runs.{AreRunsOf, set_of};

use crate::lists::FrozenList;
use crate::table::{FrozenRun, Table};
use std::alloc::{AllocError, Global};
use std::marker::Model;

/// The policies that each byte of a text carries, seen as a list of sets of policy texts, one for each byte.
#[derive(Drop)]
pub struct FrozenRuns {
    pub(crate) table: Table,
}

impl Model for FrozenRuns {
    ghost use Rattle.resin_shadow.specs.Marks.{Marks};
    ghost use Rattle.resin_shadow.specs.Runs.{marks_of, IsTable};

    ghost Value = { Marks };

    ghost view = { λ m. marks_of m.table.runs.items };

    ghost invariant = { λ m. IsTable m.table };
}

impl FrozenRuns {
    /// No bytes. It takes no memory.
    pub fn new(alloc: Global) -> FrozenRuns
        ensures { result ≡ [] }
    {
        FrozenRuns {
            table: Table::new(alloc),
        }
    }

    /// How many bytes there are.
    pub fn len(&self) -> u64
        ensures count { result ≡ length self.now }
        ensures marks { AreMarks self.now }
    {
        self.table.len
    }

    /// Whether there are none.
    pub fn is_empty(&self) -> bool
        ensures { result ≡ (length self.now == 0) }
    {
        self.len() == 0
    }

    /// The maximal runs in order: neighbouring runs differ in their sets.
    pub fn runs(&self) -> &[FrozenRun]
        ensures { AreRunsOf self.now result.now }
    {
        self.table.runs.as_slice()
    }

    /// Puts `len` bytes with the set of these texts after the others. `len` must be positive, and so many bytes and those that are there
    /// together a number of 64 bits. After want of memory the list is as before.
    pub fn push(&mut self, len: u64, set: &FrozenList) -> Result<(), AllocError>
        requires some { 0 < len }
        requires count { length self.old + len < 2 ^ 64 }
        ensures ok { OnOk result (self.new ≡ self.old ++ replicate len (set_of set.now)) }
        ensures err { OnErr result (self.new ≡ self.old) }
    {
        let kind = self.table.kind_of(set)?;
        self.table.push_kind(len, &kind)
    }

    /// Puts the bytes of others behind these, with their policies. The bytes of both must be a number of 64 bits. After want of memory some
    /// of the others may stand behind these.
    pub fn append(&mut self, more: &FrozenRuns) -> Result<(), AllocError>
        requires count { length self.old + length more.now < 2 ^ 64 }
        ensures { OnOk result (self.new ≡ self.old ++ more.now) }
    {
        let _len = more.len();
        for run in more.runs() {
            self.push(run.len, &run.set)?;
        }
        Ok(())
    }
}
