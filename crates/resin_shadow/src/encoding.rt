//! Writing shadow texts.
ghost use Rattle.std.specs.Prelude.{◌≡◌, ◌++◌, ◌∷◌, [], map, decimal, OnOk, IfOk};
ghost use Rattle.std.specs.List.{flat_map};
ghost use Rattle.resin_shadow.specs.Shadows.{line, written1, written2};
ghost use Rattle.resin_shadow.specs.Printed.{numbered, rising, policies_text, set_text, run_text1, run_text2};

use crate::numbering::{place_of, places, sets_of, texts_of};
use crate::runs::FrozenRuns;
use crate::table::{FrozenRun, Table};
use indexmap::IndexSet;
use itoa::Buffer;
use resin_bytes::Bytes;
use std::alloc::{AllocError, Global};

/// The shadow text of the policies of a text's bytes, in its second version, which is the one that is written. It is empty where no byte
/// carries a policy. It is made in one pass over the runs.
pub fn encode(alloc: Global, m: &FrozenRuns) -> Result<Bytes, AllocError>
    ensures { IfOk result (λ text. text ≡ written2 m.now) }
{
    let table = &m.table;
    let sets = sets_of(alloc, table)?;
    let texts = texts_of(alloc, table, &sets)?;
    let mut text = Bytes::new(alloc);
    if texts.is_empty() {
        return Ok(text);
    }
    text.push_slice(b"resin2 ")?;
    let counts = [sets.len() as u64, table.runs.as_slice().len() as u64];
    push_line(&mut text, texts.len() as u64, &counts)?;
    push_policies(&mut text, table, &texts)?;
    push_sets(alloc, &mut text, table, &texts, &sets)?;
    push_runs(&mut text, table, &sets)?;
    Ok(text)
}

/// The same in the first version, which is only read.
pub(crate) fn encode_first(alloc: Global, m: &FrozenRuns) -> Result<Bytes, AllocError>
    ensures { IfOk result (λ text. text ≡ written1 m.now) }
{
    let table = &m.table;
    let sets = sets_of(alloc, table)?;
    let texts = texts_of(alloc, table, &sets)?;
    let mut text = Bytes::new(alloc);
    if texts.is_empty() {
        return Ok(text);
    }
    text.push_slice(b"resin1 ")?;
    let counts = [table.runs.as_slice().len() as u64];
    push_line(&mut text, texts.len() as u64, &counts)?;
    push_policies(&mut text, table, &texts)?;
    push_runs_first(alloc, &mut text, table, &texts)?;
    Ok(text)
}

// Puts a number last, in decimal.
fn push_number(text: &mut Bytes, number: u64) -> Result<(), AllocError>
    ensures { OnOk result (text.new ≡ text.old ++ decimal number) }
{
    let mut buffer = Buffer::new();
    text.push_slice(buffer.format(number).as_bytes())
}

// Puts a line of numbers last.
fn push_line(text: &mut Bytes, first: u64, more: &[u64]) -> Result<(), AllocError>
    ensures { OnOk result (text.new ≡ text.old ++ line (decimal first ∷ map decimal more.now)) }
{
    push_number(text, first)?;
    push_words(text, more)?;
    text.push(b'\n')?;
    Ok(())
}

// Puts numbers last, each behind a space.
fn push_words(text: &mut Bytes, numbers: &[u64]) -> Result<(), AllocError>
    ensures { OnOk result (text.new ≡ text.old ++ flat_map (λ n. 32 ∷ decimal n) numbers.now) }
{
    for number in numbers {
        text.push(b' ')?;
        push_number(text, *number)?;
    }
    Ok(())
}

// Puts the policy texts last, each on a line.
fn push_policies(text: &mut Bytes, table: &Table, texts: &IndexSet<usize>) -> Result<(), AllocError>
    ensures { OnOk result (text.new ≡ text.old ++ policies_text table.now.texts.keys texts.now.keys) }
{
    for number in texts.as_slice() {
        push_policy(text, table, *number)?;
    }
    Ok(())
}

// Puts the policy text with a number last, and ends its line.
fn push_policy(text: &mut Bytes, table: &Table, number: usize) -> Result<(), AllocError>
    ensures { OnOk result (text.new ≡ text.old ++ (numbered table.now.texts.keys number ++ 10 ∷ [])) }
{
    if let Some(policy) = table.texts.get_index(number) {
        text.push_slice(policy.as_slice())?;
    }
    text.push(b'\n')
}

// Puts the lines of the sets last: the places of their policies.
fn push_sets(
    alloc: Global,
    text: &mut Bytes,
    table: &Table,
    texts: &IndexSet<usize>,
    sets: &IndexSet<usize>,
) -> Result<(), AllocError>
    ensures { OnOk result (text.new ≡ text.old ++ flat_map (set_text table.now.sets.keys texts.now.keys) sets.now.keys) }
{
    for kind in sets.as_slice() {
        push_set(alloc, text, table, texts, *kind)?;
    }
    Ok(())
}

fn push_set(
    alloc: Global,
    text: &mut Bytes,
    table: &Table,
    texts: &IndexSet<usize>,
    kind: usize,
) -> Result<(), AllocError>
    ensures { OnOk result (text.new ≡ text.old ++ set_text table.now.sets.keys texts.now.keys kind) }
{
    let places = places_of(alloc, table, texts, kind)?;
    match places.split_first() {
        Some((first, more)) => push_line(text, *first, more),
        None => text.push(b'\n'),
    }
}

// The places of the policies of a set, rising.
fn places_of(
    alloc: Global,
    table: &Table,
    texts: &IndexSet<usize>,
    kind: usize,
) -> Result<Vec<u64>, AllocError>
    ensures { IfOk result (λ places. places.items ≡ rising texts.now.keys (numbered table.now.sets.keys kind)) }
{
    match table.sets.get_index(kind) {
        Some(numbers) => places(alloc, texts, numbers),
        None => Ok(Vec::new(alloc)),
    }
}

// Puts the lines of the runs last: the length, and the place of the set.
fn push_runs(text: &mut Bytes, table: &Table, sets: &IndexSet<usize>) -> Result<(), AllocError>
    ensures { OnOk result (text.new ≡ text.old ++ flat_map (run_text2 sets.now.keys) table.now.runs.items) }
{
    for run in &table.runs {
        push_run(text, run, sets)?;
    }
    Ok(())
}

fn push_run(text: &mut Bytes, run: &FrozenRun, sets: &IndexSet<usize>) -> Result<(), AllocError>
    ensures { OnOk result (text.new ≡ text.old ++ run_text2 sets.now.keys run.now) }
{
    if run.set.as_slice().is_empty() {
        push_line(text, run.len, &[])
    } else {
        push_line(text, run.len, &[place_of(sets, run.kind)])
    }
}

// Puts the lines of the runs last in the first version: the length, and the places of the policies.
fn push_runs_first(
    alloc: Global,
    text: &mut Bytes,
    table: &Table,
    texts: &IndexSet<usize>,
) -> Result<(), AllocError>
    ensures { OnOk result (text.new ≡ text.old ++ flat_map (run_text1 table.now.sets.keys texts.now.keys) table.now.runs.items) }
{
    for run in &table.runs {
        let places = places_of(alloc, table, texts, run.kind)?;
        push_line(text, run.len, places.as_slice())?;
    }
    Ok(())
}
