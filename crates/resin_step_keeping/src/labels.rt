//! Bytes with the objects of their policies.
ghost use Rattle.indexmap.specs.IndexSet.{insert_key};
ghost use Rattle.resin_shadow.specs.Parts.{run_spelled, spelled_by};
ghost use Rattle.resin_step_keeping.specs.Sets.{TakesRun, labels_at, objects_at};
ghost use Rattle.resin_step_parts.specs.Under.label.Sets.{same, set_of as labels_of};
ghost use Rattle.resin_step_parts.specs.Under.lstr.Texts.{carrying, distinct};
ghost use Rattle.std.specs.List.{zip};
ghost use Rattle.std.specs.Prelude.{◌≡◌, ◌≤◌, ◌++◌, fold, map, min, length, slice_get, slice_index_or, option_copied, IfOk, OnOk};

use indexmap::IndexSet;
use resin_shadow::Parts;
use resin_step_parts::under::label::PSet;
use resin_step_parts::under::lstr::{Builder, LText};
use std::alloc::{AllocError, Global};

/// Bytes, each with the objects of its policies, by the runs of the bytes; the policies of a set are told by the places of their objects.
pub(crate) fn labelled(
    alloc: Global,
    bytes: &[u8],
    objects: &[u32],
    parts: &Parts,
) -> Result<LText, AllocError>
    ensures { IfOk result (λ t. t ≡ zip bytes.now (spelled_by (map (λ s. labels_at objects.now s.items) parts.now.sets.items) parts.now.runs.items)) }
{
    let sets = label_sets(alloc, objects, &parts.sets)?;
    spelled(alloc, bytes, &sets, &parts.runs)
}

/// The sets of objects that bytes carry, each once, in the order in which they first occur.
pub(crate) fn distinct_labels(
    alloc: Global,
    objects: &[u32],
    parts: &Parts,
) -> Result<Vec<PSet>, AllocError>
    ensures { IfOk result (λ found. found.items
        ≡ distinct same (spelled_by (map (λ s. labels_at objects.now s.items) parts.now.sets.items) parts.now.runs.items)) }
{
    let sets = label_sets(alloc, objects, &parts.sets)?;
    let met = distinct_sets(alloc, &sets, &parts.runs)?;
    copied(alloc, met.as_slice())
}

// The sets of runs, each once, in the order in which they first occur.
fn distinct_sets(
    alloc: Global,
    sets: &[PSet],
    runs: &[(u64, usize)],
) -> Result<IndexSet<PSet>, AllocError>
    ensures { IfOk result (λ met. met.keys ≡ distinct same (spelled_by sets.now runs.now)) }
{
    let mut met = IndexSet::new(alloc);
    for (len, place) in runs {
        meet(&mut met, sets, *len, *place)?;
    }
    Ok(met)
}

// Puts the set of a run last, unless it is there. A run without bytes has none.
fn meet(met: &mut IndexSet<PSet>, sets: &[PSet], len: u64, place: usize) -> Result<(), AllocError>
    ensures { OnOk result (met.new.keys ≡ fold (insert_key same) met.old.keys (run_spelled sets.now (len, place))) }
{
    if len == 0 {
        return Ok(());
    }
    let Some(set) = set_at(sets, place) else {
        return Ok(());
    };
    let copy = set.clone()?;
    insert(met, copy)?;
    Ok(())
}

// Puts a set last, unless it is there.
fn insert(met: &mut IndexSet<PSet>, set: PSet) -> Result<(), AllocError>
    ensures { OnOk result (met.new.keys ≡ insert_key same met.old.keys set) }
{
    met.insert(set)?;
    Ok(())
}

// Copies of sets.
fn copied(alloc: Global, sets: &[PSet]) -> Result<Vec<PSet>, AllocError>
    ensures { IfOk result (λ copies. copies.items ≡ sets.now) }
{
    let mut copies = Vec::new(alloc);
    for set in sets {
        copies.push(set.clone()?)?;
    }
    Ok(copies)
}

// The sets of the objects at places.
fn label_sets(alloc: Global, objects: &[u32], sets: &[Vec<u64>]) -> Result<Vec<PSet>, AllocError>
    ensures { IfOk result (λ labels. labels.items ≡ map (λ s. labels_at objects.now s.items) sets.now) }
{
    let mut labels = Vec::new(alloc);
    for places in sets {
        labels.push(label_set(alloc, objects, places)?)?;
    }
    Ok(labels)
}

// The set of the objects at places.
fn label_set(alloc: Global, objects: &[u32], places: &[u64]) -> Result<PSet, AllocError>
    ensures { IfOk result (λ set. set ≡ labels_at objects.now places.now) }
{
    let found = objects_at(alloc, objects, places)?;
    set_of(alloc, &found)
}

// The objects at places.
fn objects_at(alloc: Global, objects: &[u32], places: &[u64]) -> Result<Vec<u32>, AllocError>
    ensures { IfOk result (λ found. found.items ≡ objects_at objects.now places.now) }
{
    let mut found = Vec::new(alloc);
    for place in places {
        found.push(object_at(objects, *place))?;
    }
    Ok(found)
}

// The object at a place.
fn object_at(objects: &[u32], place: u64) -> u32
    ensures { result ≡ slice_index_or objects.now place 0 }
{
    match objects.get(place as usize) {
        Some(object) => *object,
        None => 0,
    }
}

// The set of numbers, from the sets of its halves.
fn set_of(alloc: Global, numbers: &[u32]) -> Result<PSet, AllocError>
    ensures { IfOk result (λ set. set ≡ labels_of numbers.now) }
{
    match numbers {
        [] => Ok(PSet::empty()),
        [number] => PSet::empty().with(alloc, *number),
        _ => {
            let half = numbers.len() / 2;
            let front = set_of(alloc, &numbers[..half])?;
            let behind = set_of(alloc, &numbers[half..])?;
            front.union(alloc, &behind)
        }
    }
}

// Bytes with the sets of runs.
fn spelled(
    alloc: Global,
    bytes: &[u8],
    sets: &[PSet],
    runs: &[(u64, usize)],
) -> Result<LText, AllocError>
    ensures { IfOk result (λ t. t ≡ zip bytes.now (spelled_by sets.now runs.now)) }
{
    let mut text = Builder::new(alloc);
    for (len, place) in runs {
        text = take_run(text, bytes, sets, *len, *place)?;
    }
    text.finish()
}

// Puts the bytes of a run last: those behind as many as are there.
fn take_run(
    text: Builder,
    bytes: &[u8],
    sets: &[PSet],
    len: u64,
    place: usize,
) -> Result<Builder, AllocError>
    requires { length text ≤ length bytes.now }
    ensures within { IfOk result (λ longer. length longer ≤ length bytes.now) }
    ensures run { IfOk result (λ longer. TakesRun bytes.now (run_spelled sets.now (len, place)) text longer) }
{
    let from = text.len();
    match set_at(sets, place) {
        Some(set) => {
            let rest = &bytes[from..];
            let front = &rest[..front_len(rest, len)];
            let longer = append(text, front, set)?;
            Ok(longer)
        }
        None => Ok(text),
    }
}

// The set at a place.
fn set_at(sets: &[PSet], place: usize) -> Option<&PSet>
    ensures { option_copied result ≡ slice_get sets.now place }
{
    sets.get(place)
}

// How many bytes a run has of those that are left.
fn front_len(rest: &[u8], len: u64) -> usize
    ensures { result ≡ min len (length rest.now) }
{
    len.min(rest.len() as u64) as usize
}

// Puts bytes with a set last. More than a text may have find no memory.
fn append(text: Builder, bytes: &[u8], set: &PSet) -> Result<Builder, AllocError>
    ensures { IfOk result (λ longer. longer ≡ text ++ carrying set.now bytes.now) }
{
    match text.append_bytes(bytes, set) {
        Ok(longer) => Ok(longer),
        Err(_) => Err(AllocError),
    }
}
