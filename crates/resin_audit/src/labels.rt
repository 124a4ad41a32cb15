//! The lines of the runs of a text that went out.
ghost use Rattle.std.specs.Prelude.{◌≡◌, Some, None, not, OnOk, nat_eq, fold, option_map};
ghost use Rattle.indexmap.specs.IndexSet.{insert_key};
ghost use Rattle.resin_journal_file.specs.Reading as spec;
ghost use Rattle.resin_audit.specs.Read.{Reads, Gives, Becomes};
ghost use Rattle.resin_audit.specs.Runs.{as_line, next_line, no_runs, with_run, next_run, next_runs};
ghost use Rattle.resin_audit.specs.Told.{next_carried};

use crate::fields::Fields;
use crate::rest::Rest;
use crate::stop::Stop;
use indexmap::IndexSet;
use resin_lstr::{LONGEST, Numbers};
use std::alloc::{AllocError, Global};
use std::marker::Model;

/// The policies that a text carries, each once, by the first byte that carries them and then by number.
#[derive(Drop)]
pub(crate) struct Carried {
    seen: IndexSet<u32>,
}

impl Model for Carried {
    ghost use Rattle.std.specs.Prelude.{ℕ, List};

    ghost Value = { List ℕ };

    ghost view = { λ c. c.seen.keys };
}

impl Carried {
    pub(crate) fn as_slice(&self) -> &[u32]
        ensures { result.now ≡ self.now }
    {
        self.seen.as_slice()
    }

    // Puts last which of the policies aren't there.
    fn add(&mut self, policies: &[u32]) -> Result<(), AllocError>
        ensures { OnOk result (self.new ≡ fold (insert_key nat_eq) self.old policies.now) }
    {
        insert_all(&mut self.seen, policies)
    }
}

// Puts last which numbers aren't there.
fn insert_all(seen: &mut IndexSet<u32>, more: &[u32]) -> Result<(), AllocError>
    ensures { OnOk result (seen.new.keys ≡ fold (insert_key nat_eq) seen.old.keys more.now) }
{
    for n in more {
        seen.insert(*n)?;
    }
    Ok(())
}

/// A run: how many bytes, and the policies that they carry, rising.
#[derive(Drop)]
pub(crate) struct RunLine {
    pub(crate) len: u64,
    pub(crate) policies: Numbers,
}

/// The runs of a text, as far as their lines are read.
#[derive(Drop)]
pub(crate) struct Runs {
    /// How many bytes of the text are in none of them.
    pub(crate) left: u64,
    pub(crate) carried: Carried,
    /// The policies of the last one.
    pub(crate) last: Option<Numbers>,
}

impl Runs {
    /// No run of a text of this length.
    fn new(alloc: Global, len: u64) -> Runs
        ensures { result ≡ no_runs len }
    {
        Runs {
            left: len,
            carried: Carried {
                seen: IndexSet::new(alloc),
            },
            last: None,
        }
    }

    // Reads the line of a further run.
    fn read(&mut self, alloc: Global, rest: &mut Rest<'_>) -> Result<(), Stop>
        ensures { Becomes (next_run self.old rest.old) result (self.new, rest.new) }
    {
        let run = read_run(alloc, rest)?;
        self.add(run)
    }

    // Adds a run, which has bytes and isn't one with the run before.
    fn add(&mut self, run: RunLine) -> Result<(), Stop>
        ensures { Becomes (with_run run self.old) result self.new }
    {
        if run.len == 0 || run.len > self.left || self.ends_with(run.policies.as_slice()) {
            return Err(Stop::Form);
        }
        self.carried.add(run.policies.as_slice())?;
        self.left -= run.len;
        self.last = Some(run.policies);
        Ok(())
    }

    // Whether the last run carries just these policies.
    fn ends_with(&self, policies: &[u32]) -> bool
        ensures { result ≡ not (spec.differs self.now.last policies.now) }
    {
        match &self.last {
            Some(last) => last.as_slice() == policies,
            None => false,
        }
    }
}

// Reads so many lines of runs and the bytes behind them, which the runs have to fit: the policies that the bytes carry.
pub(crate) fn read_labelled(
    alloc: Global,
    rest: &mut Rest<'_>,
    len: u64,
    count: u64,
) -> Result<Carried, Stop>
    ensures { Reads (next_carried len count rest.old) result rest.new }
{
    let runs = read_runs(alloc, rest, len, count)?;
    if runs.left > 0 {
        return Err(Stop::Form);
    }
    match rest.pass(len as usize) {
        Some(()) => Ok(runs.carried),
        None => Err(Stop::Form),
    }
}

// Reads so many lines of the runs of a text of this length.
fn read_runs(alloc: Global, rest: &mut Rest<'_>, len: u64, count: u64) -> Result<Runs, Stop>
    ensures { Reads (next_runs count (no_runs len) rest.old) result rest.new }
{
    let mut runs = Runs::new(alloc, len);
    for line in 0..count {
        runs.read(alloc, rest)?;
    }
    Ok(runs)
}

// Reads the line of a run.
fn read_run(alloc: Global, rest: &mut Rest<'_>) -> Result<RunLine, Stop>
    ensures { Reads (next_line rest.old) result rest.new }
{
    let Some(line) = rest.line() else {
        return Err(Stop::Form);
    };
    run_of(alloc, Fields::new(line))
}

// The run that the fields of a line tell.
fn run_of(alloc: Global, fields: Fields<'_>) -> Result<RunLine, Stop>
    ensures { Gives (option_map as_line (spec.run_of fields.entry)) result }
{
    let mut fields = fields;
    let Some(len) = fields.number(LONGEST as u64) else {
        return Err(Stop::Form);
    };
    let policies = read_policies(alloc, fields)?;
    if !rises(policies.as_slice()) {
        return Err(Stop::Form);
    }
    Ok(RunLine { len, policies })
}

// Reads the numbers of policies that the fields of a line are.
fn read_policies(alloc: Global, fields: Fields<'_>) -> Result<Numbers, Stop>
    ensures { Gives (spec.objects fields.entry) result }
{
    let mut fields = fields;
    let mut policies = Numbers::new(alloc);
    'fields: while !fields.is_empty() {
        let Some(policy) = fields.object() else {
            return Err(Stop::Form);
        };
        policies.push(policy)?;
    }
    Ok(policies)
}

// Whether each number is below the next.
fn rises(numbers: &[u32]) -> bool
    ensures { result ≡ spec.is_rising numbers.now }
{
    for i in 1..numbers.len() {
        if numbers[i - 1] >= numbers[i] {
            return false;
        }
    }
    true
}
