//! The order in which sets and policies stand in a shadow text.
ghost use Rattle.std.specs.Prelude.{◌≡◌, nat_eq, fold, OnOk, IfOk};
ghost use Rattle.std.specs.List.{IsDistinct};
ghost use Rattle.std.specs.BTreeSet.{insert_key};
ghost use Rattle.std.specs.Ordering.{nat_cmp};
ghost use Rattle.resin_shadow.specs.Shadows.{place};
ghost use Rattle.resin_shadow.specs.Printed.{with_number, sets_met, texts_met, rising};

use crate::numbers::Numbers;
use crate::table::Table;
use indexmap::IndexSet;
use std::alloc::{AllocError, Global};
use std::collections::BTreeSet;

/// The sets that have a policy, by the first byte that has the set.
pub(crate) fn sets_of(alloc: Global, table: &Table) -> Result<IndexSet<usize>, AllocError>
    ensures { IfOk result (λ met. met.keys ≡ sets_met table.now.runs.items) }
{
    let mut met = IndexSet::new(alloc);
    for run in &table.runs {
        if !run.set.as_slice().is_empty() {
            met.insert(run.kind)?;
        }
    }
    Ok(met)
}

/// The policies of these sets, by the first byte that carries them and by their bytes.
pub(crate) fn texts_of(
    alloc: Global,
    table: &Table,
    sets: &IndexSet<usize>,
) -> Result<IndexSet<usize>, AllocError>
    ensures { IfOk result (λ met. met.keys ≡ texts_met table.now.sets.keys sets.now.keys) }
{
    let mut met = IndexSet::new(alloc);
    for kind in sets.as_slice() {
        if let Some(numbers) = table.sets.get_index(*kind) {
            meet(&mut met, numbers)?;
        }
    }
    Ok(met)
}

// Meets numbers.
fn meet(met: &mut IndexSet<usize>, numbers: &Numbers) -> Result<(), AllocError>
    ensures { OnOk result (met.new.keys ≡ fold with_number met.old.keys numbers.now) }
{
    for number in numbers.as_slice() {
        met.insert(*number)?;
    }
    Ok(())
}

/// The places of numbers among those that were met, rising.
pub(crate) fn places(
    alloc: Global,
    met: &IndexSet<usize>,
    numbers: &Numbers,
) -> Result<Vec<u64>, AllocError>
    ensures { IfOk result (λ places. places.items ≡ rising met.now.keys numbers.now) }
{
    let set = placed(alloc, met, numbers)?;
    let mut places = Vec::new(alloc);
    for place in &set {
        places.push(*place)?;
    }
    Ok(places)
}

// The same as a set.
fn placed(
    alloc: Global,
    met: &IndexSet<usize>,
    numbers: &Numbers,
) -> Result<BTreeSet<u64>, AllocError>
    ensures { IfOk result (λ places. places.keys ≡ rising met.now.keys numbers.now) }
{
    let mut set = BTreeSet::new(alloc);
    for number in numbers.as_slice() {
        set.insert(place_of(met, *number))?;
    }
    Ok(set)
}

/// The place of a number among those that were met, or how many these are.
pub(crate) fn place_of(met: &IndexSet<usize>, number: usize) -> u64
    ensures { result ≡ place nat_eq number met.now.keys }
{
    match met.get_index_of(&number) {
        Some(place) => place as u64,
        None => met.len() as u64,
    }
}
