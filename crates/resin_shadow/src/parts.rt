//! The policies of a text's bytes with the sets apart, so that what works on sets goes over each of them once.
ghost use Rattle.std.specs.Prelude.{◌≡◌, ◌++◌, map, OnOk, IfOk};
ghost use Rattle.resin_shadow.specs.Marks.{Each, policies};
ghost use Rattle.resin_shadow.specs.Runs.{IsTable, IsKindOf, marks_of, set_of};
ghost use Rattle.resin_shadow.specs.Shadows.{places};
ghost use Rattle.resin_shadow.specs.Printed.{rising};
ghost use Rattle.resin_shadow.specs.Parts as spec;
ghost use Rattle.resin_shadow.specs.Parts.{run_spelled, spelled_by};

use crate::lists::FrozenList;
use crate::numbering::{places, sets_of, texts_of};
use crate::runs::FrozenRuns;
use crate::table::{Kind, Table};
use indexmap::IndexSet;
use std::alloc::{AllocError, Global};

/// Which policies the bytes of a text carry, with the policies and the sets apart.
#[derive(Drop)]
pub struct Parts {
    /// The policy texts, each once, in the order of a shadow text: by the first byte that carries them, those of one byte by their bytes.
    pub policies: FrozenList,
    /// The sets, each by the places of its policies, from 0, rising.
    pub sets: Vec<Vec<u64>>,
    /// How many bytes each run has, and the place of their set, from 0.
    pub runs: Vec<(u64, usize)>,
}

impl FrozenRuns {
    /// The bytes of runs, by how many each has and by the place of their set in `sets`, a list of texts. A run whose place no list has is
    /// empty. More bytes than a number of 64 bits counts find no memory. It works on each list once, however many runs have it.
    pub fn from_parts(
        alloc: Global,
        sets: &[FrozenList],
        runs: &[(u64, usize)],
    ) -> Result<FrozenRuns, AllocError>
        ensures { IfOk result (λ m. m ≡ spelled_by (map set_of sets.now) runs.now) }
    {
        let mut table = Table::new(alloc);
        let kinds = kinds_of(alloc, &mut table, sets)?;
        push_all(&mut table, &kinds, runs)?;
        Ok(FrozenRuns { table })
    }

    /// The policies, the sets by the places of their policies, and the runs by the places of their sets. It works on each set once.
    pub fn parts(&self, alloc: Global) -> Result<Parts, AllocError>
        ensures policies { IfOk result (λ p. p.policies ≡ policies self.now) }
        ensures places { IfOk result (λ p. spelled_by (map (λ s. s.items) p.sets.items) p.runs.items ≡ map (places (policies self.now)) self.now) }
    {
        let table = &self.table;
        let met = sets_of(alloc, table)?;
        let numbers = texts_of(alloc, table, &met)?;
        let policies = texts_at(alloc, table, numbers.as_slice())?;
        let sets = sets_in(alloc, table, &numbers)?;
        let runs = runs_in(alloc, table)?;
        Ok(Parts {
            policies,
            sets,
            runs,
        })
    }
}

// The sets of lists of texts, which have numbers from now on.
fn kinds_of(alloc: Global, table: &mut Table, sets: &[FrozenList]) -> Result<Vec<Kind>, AllocError>
    requires { IsTable table.old }
    ensures table { IsTable table.new }
    ensures runs { table.new.runs.items ≡ table.old.runs.items }
    ensures kinds { IfOk result (λ kinds. Each (IsKindOf table.new) kinds.items) }
    ensures sets { IfOk result (λ kinds. map (λ k. k.set) kinds.items ≡ map set_of sets.now) }
{
    let mut kinds = Vec::new(alloc);
    for set in sets {
        let kind = table.kind_of(set)?;
        kinds.push(kind)?;
    }
    Ok(kinds)
}

// Puts runs last, by the places of their sets.
fn push_all(table: &mut Table, kinds: &[Kind], runs: &[(u64, usize)]) -> Result<(), AllocError>
    requires table { IsTable table.old }
    requires kinds { Each (IsKindOf table.old) kinds.now }
    ensures table { IsTable table.new }
    ensures marks { OnOk result (marks_of table.new.runs.items ≡ marks_of table.old.runs.items ++ spelled_by (map (λ k. k.set) kinds.now) runs.now) }
{
    for (len, place) in runs {
        push_placed(table, kinds, *len, *place)?;
    }
    Ok(())
}

// Puts a run last, by the place of its set.
fn push_placed(table: &mut Table, kinds: &[Kind], len: u64, place: usize) -> Result<(), AllocError>
    requires table { IsTable table.old }
    requires kinds { Each (IsKindOf table.old) kinds.now }
    ensures table { IsTable table.new }
    ensures sets { table.new.sets.keys ≡ table.old.sets.keys }
    ensures texts { table.new.texts.keys ≡ table.old.texts.keys }
    ensures marks { OnOk result (marks_of table.new.runs.items
        ≡ marks_of table.old.runs.items ++ run_spelled (map (λ k. k.set) kinds.now) (len, place)) }
{
    let Some(kind) = kinds.get(place) else {
        return Ok(());
    };
    if len == 0 {
        return Ok(());
    }
    if table.len.checked_add(len).is_none() {
        return Err(AllocError);
    }
    table.push_kind(len, kind)
}

// The sets of a table in the order of their numbers, each by the places of its texts among those that were met.
fn sets_in(alloc: Global, table: &Table, met: &IndexSet<usize>) -> Result<Vec<Vec<u64>>, AllocError>
    ensures { IfOk result (λ sets. map (λ s. s.items) sets.items ≡ map (rising met.now.keys) table.now.sets.keys) }
{
    let mut sets = Vec::new(alloc);
    for numbers in table.sets.as_slice() {
        sets.push(places(alloc, met, numbers)?)?;
    }
    Ok(sets)
}

// The texts that have these numbers.
fn texts_at(alloc: Global, table: &Table, numbers: &[usize]) -> Result<FrozenList, AllocError>
    ensures { IfOk result (λ texts. texts ≡ spec.texts_at table.now.texts.keys numbers.now) }
{
    let mut texts = FrozenList::new(alloc);
    for number in numbers {
        if let Some(text) = table.texts.get_index(*number) {
            texts.push(text.clone()?)?;
        }
    }
    Ok(texts)
}

// The runs of a table.
fn runs_in(alloc: Global, table: &Table) -> Result<Vec<(u64, usize)>, AllocError>
    ensures { IfOk result (λ runs. runs.items ≡ map (λ r. (r.len, r.kind)) table.now.runs.items) }
{
    let mut runs = Vec::new(alloc);
    for run in &table.runs {
        runs.push((run.len, run.kind))?;
    }
    Ok(runs)
}
