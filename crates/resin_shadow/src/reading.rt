//! Reading the parts of shadow texts.
ghost use Rattle.std.specs.Prelude.{◌≡◌, ◌∷◌, ◌++◌, [], map, nat_eq, OnOk, OnErr, IfOk};
ghost use Rattle.std.specs.List.{position};
ghost use Rattle.std.specs.Option.{option_copied};
ghost use Rattle.resin_frozen.specs.Reads.{Reads, Is};
ghost use Rattle.resin_shadow.specs.Marks.{Each};
ghost use Rattle.resin_shadow.specs.Runs.{IsTable, IsKindOf, Stays, marks_of};
ghost use Rattle.resin_shadow.specs.Readers as spec;
ghost use Rattle.resin_shadow.specs.Readers.{times, Turns, Pushes, Tells, policy_step, set_step, run_step};

use crate::lists::FrozenList;
use crate::table::{Kind, Table};
use resin_frozen::{Frozen, Rest, Stop, number};
use std::alloc::{AllocError, Global};

/// Reads so many policy texts, each on a line.
pub(crate) fn read_policies(
    alloc: Global,
    rest: &mut Rest<'_>,
    count: u64,
) -> Result<FrozenList, Stop>
    ensures { Reads (times policy_step count [] rest.old) result rest.new }
{
    let mut policies = FrozenList::new(alloc);
    for _i in 0..count {
        read_policy(alloc, rest, &mut policies)?;
    }
    Ok(policies)
}

// Reads a policy text and the end of its line, and puts it last.
#[tactic(auto, unfolding(crate::specs::Readers::policy_step))]
fn read_policy(alloc: Global, rest: &mut Rest<'_>, policies: &mut FrozenList) -> Result<(), Stop>
    ensures { Turns (policy_step policies.old rest.old) result policies.new rest.new }
{
    let policy = Frozen::read(alloc, rest)?;
    rest.literal(b"\n")?;
    policies.push(policy)?;
    Ok(())
}

/// Reads so many lines of sets, each by the places of its policies.
pub(crate) fn read_sets(
    alloc: Global,
    rest: &mut Rest<'_>,
    table: &mut Table,
    policies: &FrozenList,
    count: u64,
) -> Result<Vec<Kind>, Stop>
    requires { IsTable table.old }
    ensures table { IsTable table.new }
    ensures runs { table.new.runs.items ≡ table.old.runs.items }
    ensures kinds { IfOk result (λ kinds. Each (IsKindOf table.new) kinds.items) }
    ensures reads { spec.ReadsKinds (times (set_step policies.now) count [] rest.old) result rest.new }
{
    let mut kinds = Vec::new(alloc);
    for _i in 0..count {
        read_set(alloc, rest, table, policies, &mut kinds)?;
    }
    Ok(kinds)
}

// Reads the line of a set, and puts the set last.
#[tactic(auto, unfolding(crate::specs::Readers::set_step))]
fn read_set(
    alloc: Global,
    rest: &mut Rest<'_>,
    table: &mut Table,
    policies: &FrozenList,
    kinds: &mut Vec<Kind>,
) -> Result<(), Stop>
    requires table { IsTable table.old }
    requires kinds { Each (IsKindOf table.old) kinds.old.items }
    ensures table { IsTable table.new }
    ensures runs { table.new.runs.items ≡ table.old.runs.items }
    ensures kinds { Each (IsKindOf table.new) kinds.new.items }
    ensures reads { Turns (set_step policies.now (map (λ k. k.set) kinds.old.items) rest.old) result (map (λ k. k.set) kinds.new.items) rest.new }
{
    let line = rest.until(b'\n')?;
    let kind = told(alloc, table, policies, line)?;
    keep(kinds, kind)?;
    Ok(())
}

// Puts a set last.
fn keep(kinds: &mut Vec<Kind>, kind: Kind) -> Result<(), AllocError>
    ensures ok { OnOk result (kinds.new.items ≡ kinds.old.items ++ kind ∷ []) }
    ensures err { OnErr result (kinds.new.items ≡ kinds.old.items) }
{
    kinds.push(kind)?;
    Ok(())
}

// The set of the policies whose places a line tells.
#[tactic(auto, unfolding(crate::specs::Readers::set_told))]
fn told(alloc: Global, table: &mut Table, policies: &FrozenList, line: &[u8]) -> Result<Kind, Stop>
    requires { IsTable table.old }
    ensures table { IsTable table.new }
    ensures stays { Stays table.old table.new }
    ensures kind { IfOk result (λ k. IsKindOf table.new k) }
    ensures set { spec.IsSet (spec.set_told policies.now line.now) result }
{
    let texts = texts_told(alloc, policies.as_slice(), line)?;
    let kind = table.kind_of(&texts)?;
    Ok(kind)
}

// The texts whose places a line tells.
fn texts_told(alloc: Global, policies: &[Frozen], line: &[u8]) -> Result<FrozenList, Stop>
    ensures { Is (spec.texts_told policies.now [] (spec.words line.now)) result }
{
    let mut texts = FrozenList::new(alloc);
    let words = words(alloc, line)?;
    for word in &words {
        let text = text_told(policies, word)?;
        texts.push(text)?;
    }
    Ok(texts)
}

// The text whose place a word tells.
#[tactic(auto, unfolding(crate::specs::Readers::text_told))]
fn text_told(policies: &[Frozen], word: &[u8]) -> Result<Frozen, Stop>
    ensures { Is (spec.text_told policies.now word.now) result }
{
    let place = number(word)?;
    match policies.get(place as usize) {
        Some(text) => Ok(text.clone()?),
        None => Err(Stop::Form),
    }
}

// The words of a line, which single spaces split.
fn words<'a>(alloc: Global, line: &'a [u8]) -> Result<Vec<&'a [u8]>, AllocError>
    ensures { IfOk result (λ words. map (λ w. w.now) words.items ≡ spec.words line.now) }
{
    line.split(|b| *b == b' ').collect(alloc)
}

/// Reads so many lines of runs of the first version.
pub(crate) fn read_runs_first(
    alloc: Global,
    rest: &mut Rest<'_>,
    table: &mut Table,
    policies: &FrozenList,
    count: u64,
) -> Result<(), Stop>
    requires { IsTable table.old }
    ensures table { IsTable table.new }
    ensures reads { Turns (times (run_step (spec.run_set1 policies.now)) count (marks_of table.old.runs.items) rest.old)
        result (marks_of table.new.runs.items) rest.new }
{
    for _i in 0..count {
        read_run_first(alloc, rest, table, policies)?;
    }
    Ok(())
}

// Reads the line of a run, and puts the run last.
#[tactic(auto, unfolding(crate::specs::Readers::run_step))]
fn read_run_first(
    alloc: Global,
    rest: &mut Rest<'_>,
    table: &mut Table,
    policies: &FrozenList,
) -> Result<(), Stop>
    requires { IsTable table.old }
    ensures table { IsTable table.new }
    ensures reads { Turns (run_step (spec.run_set1 policies.now) (marks_of table.old.runs.items) rest.old)
        result (marks_of table.new.runs.items) rest.new }
{
    let line = rest.until(b'\n')?;
    let (len, places) = parts(line)?;
    push_first(alloc, table, policies, len, places)
}

// Puts a run last whose policies have these places.
fn push_first(
    alloc: Global,
    table: &mut Table,
    policies: &FrozenList,
    len: u64,
    places: Option<&[u8]>,
) -> Result<(), Stop>
    requires { IsTable table.old }
    ensures table { IsTable table.new }
    ensures reads { Pushes (spec.pushed (marks_of table.old.runs.items) (spec.run_set1 policies.now) (len, option_copied places.entry))
        result (marks_of table.new.runs.items) }
{
    let kind = match places {
        Some(places) => told(alloc, table, policies, places)?,
        None => table.kind_of(&FrozenList::new(alloc))?,
    };
    push(table, len, &kind)
}

/// Reads so many lines of runs of the second version.
pub(crate) fn read_runs_second(
    alloc: Global,
    rest: &mut Rest<'_>,
    table: &mut Table,
    kinds: &[Kind],
    count: u64,
) -> Result<(), Stop>
    requires table { IsTable table.old }
    requires kinds { Each (IsKindOf table.old) kinds.now }
    ensures table { IsTable table.new }
    ensures reads { Turns (times (run_step (spec.run_set2 (map (λ k. k.set) kinds.now))) count (marks_of table.old.runs.items) rest.old)
        result (marks_of table.new.runs.items) rest.new }
{
    let none = table.kind_of(&FrozenList::new(alloc))?;
    for _i in 0..count {
        read_run_second(rest, table, kinds, &none)?;
    }
    Ok(())
}

// Reads the line of a run, and puts the run last.
#[tactic(auto, unfolding(crate::specs::Readers::run_step))]
fn read_run_second(
    rest: &mut Rest<'_>,
    table: &mut Table,
    kinds: &[Kind],
    none: &Kind,
) -> Result<(), Stop>
    requires table { IsTable table.old }
    requires kinds { Each (IsKindOf table.old) kinds.now }
    requires none { IsKindOf table.old none.now }
    requires empty { none.now.set ≡ [] }
    ensures table { IsTable table.new }
    ensures sets { table.new.sets.keys ≡ table.old.sets.keys }
    ensures texts { table.new.texts.keys ≡ table.old.texts.keys }
    ensures reads { Turns (run_step (spec.run_set2 (map (λ k. k.set) kinds.now)) (marks_of table.old.runs.items) rest.old)
        result (marks_of table.new.runs.items) rest.new }
{
    let line = rest.until(b'\n')?;
    let (len, place) = parts(line)?;
    push_second(table, kinds, none, len, place)
}

// Puts a run last whose set has this place.
fn push_second(
    table: &mut Table,
    kinds: &[Kind],
    none: &Kind,
    len: u64,
    place: Option<&[u8]>,
) -> Result<(), Stop>
    requires table { IsTable table.old }
    requires kinds { Each (IsKindOf table.old) kinds.now }
    requires none { IsKindOf table.old none.now }
    requires empty { none.now.set ≡ [] }
    ensures table { IsTable table.new }
    ensures sets { table.new.sets.keys ≡ table.old.sets.keys }
    ensures texts { table.new.texts.keys ≡ table.old.texts.keys }
    ensures reads { Pushes
        (spec.pushed (marks_of table.old.runs.items) (spec.run_set2 (map (λ k. k.set) kinds.now)) (len, option_copied place.entry))
        result (marks_of table.new.runs.items) }
{
    let Some(word) = place else {
        return push(table, len, none);
    };
    match kinds.get(number(word)? as usize) {
        Some(kind) => push(table, len, kind),
        None => Err(Stop::Form),
    }
}

// The length of a run by its line, and what is behind a space.
#[tactic(auto, unfolding(crate::specs::Readers::run_parts))]
fn parts(line: &[u8]) -> Result<(u64, Option<&[u8]>), Stop>
    ensures { Tells (spec.run_parts line.now) result }
{
    match space(line) {
        Some(end) => {
            let len = number(&line[..end])?;
            Ok((len, Some(&line[end + 1..])))
        }
        None => {
            let len = number(line)?;
            Ok((len, None))
        }
    }
}

// Where the first space stands.
fn space(line: &[u8]) -> Option<usize>
    ensures { result ≡ position (λ b. nat_eq b 32) line.now }
{
    line.iter().position(|b| *b == b' ')
}

// Puts a run last, where it isn't empty and the bytes are still as many as a number of 64 bits counts.
#[tactic(auto, unfolding(crate::specs::Readers::longer))]
fn push(table: &mut Table, len: u64, kind: &Kind) -> Result<(), Stop>
    requires table { IsTable table.old }
    requires known { IsKindOf table.old kind.now }
    ensures table { IsTable table.new }
    ensures sets { table.new.sets.keys ≡ table.old.sets.keys }
    ensures texts { table.new.texts.keys ≡ table.old.texts.keys }
    ensures reads { Pushes (spec.longer (marks_of table.old.runs.items) (len, kind.now.set)) result (marks_of table.new.runs.items) }
{
    if len == 0 {
        return Err(Stop::Form);
    }
    if table.len.checked_add(len).is_none() {
        return Err(Stop::Form);
    }
    table.push_kind(len, kind)?;
    Ok(())
}
