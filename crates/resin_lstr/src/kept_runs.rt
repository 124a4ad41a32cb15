//! Runs as a text keeps them.
ghost use Rattle.std.specs.Prelude.{◌≡◌, ◌+◌, ◌≤◌, [], ◌∷◌, replicate, true, false, IfOk, OnOk, OnErr};
ghost use Rattle.resin_lstr.specs.Texts.{LONGEST};
ghost use Rattle.resin_lstr.specs.Runs.{spell, last_end, IsCoalesced, AreJoined};

use crate::runs::extend_runs;
use crate::text::Run;
use resin_label::PSet;
use std::alloc::{AllocError, Global};
use std::marker::Model;
use std::rc::Rc;
use std::slice::from_ref;

// Runs that an owner who is alone extends in place.
#[derive(Drop)]
pub(crate) struct RunList {
    items: Vec<Run>,
}

impl Model for RunList {
    ghost use Rattle.std.specs.Prelude.{List};
    ghost use Rattle.std.specs.Coded.{coded_list};
    ghost use Rattle.resin_lstr.specs.declared.text.Run.{Run};
    ghost use Rattle.resin_lstr.specs.contracts.text.Run as e;

    ghost Value = { List Run };

    ghost coded = { coded_list e.the_row.coded };

    ghost view = { λ r. r.items.items };
}

impl RunList {
    // Puts `more` last. After want of memory the list is as before.
    fn append(&mut self, alloc: Global, more: &[Run]) -> Result<(), AllocError>
        requires coalesced { IsCoalesced 0 self.old }
        requires more_coalesced { IsCoalesced 0 more.now }
        requires short { last_end 0 self.old + last_end 0 more.now ≤ LONGEST }
        ensures joined { OnOk result (AreJoined self.old more.now self.new) }
        ensures err { OnErr result (self.new ≡ self.old) }
    {
        extend_runs(alloc, &mut self.items, more)
    }
}

impl Clone for RunList {
    ghost is_clone = { λ r copy. copy ≡ r };

    fn clone(&self) -> Result<RunList, AllocError> {
        let alloc = *self.items.allocator();
        Ok(RunList {
            items: copies(alloc, self.items.as_slice())?,
        })
    }
}

// Copies of runs, which share their sets.
fn copies(alloc: Global, runs: &[Run]) -> Result<Vec<Run>, AllocError>
    ensures { IfOk result (λ v. v.items ≡ runs.now) }
{
    let mut out = Vec::with_capacity(alloc, runs.len())?;
    for run in runs {
        out.push(run.clone()?)?;
    }
    Ok(out)
}

// No run, one that takes no memory, or several that grow in place while no one else holds them.
#[derive(Drop)]
pub(crate) enum HeldRuns {
    Nothing,
    Alone(Run),
    Several(Rc<RunList>),
}

// The runs of a text. A text of one set takes no memory for them, and copies of others share them.
#[derive(Drop)]
pub(crate) struct KeptRuns {
    held: HeldRuns,
}

impl Model for KeptRuns {
    ghost use Rattle.std.specs.Prelude.{List};
    ghost use Rattle.std.specs.Coded.{coded_list};
    ghost use Rattle.resin_lstr.specs.declared.text.Run.{Run};
    ghost use Rattle.resin_lstr.specs.contracts.text.Run as e;
    ghost use Rattle.resin_lstr.specs.Keeping.{held_runs};

    ghost Value = { List Run };

    ghost coded = { coded_list e.the_row.coded };

    ghost view = { λ r. held_runs r.held };
}

impl KeptRuns {
    // The run of so many bytes with one set.
    pub(crate) fn of_one_set(len: u32, set: &PSet) -> Result<KeptRuns, AllocError>
        ensures coalesced { IfOk result (λ runs. IsCoalesced 0 runs) }
        ensures spelled { IfOk result (λ runs. spell 0 runs ≡ replicate len set.now) }
        ensures ends { IfOk result (λ runs. last_end 0 runs ≡ len) }
    {
        if len == 0 {
            return Ok(KeptRuns {
                held: HeldRuns::Nothing,
            });
        }
        let set = set.clone()?;
        Ok(KeptRuns {
            held: HeldRuns::Alone(Run { end: len, set }),
        })
    }

    // These runs.
    pub(crate) fn from_vec(runs: Vec<Run>) -> Result<KeptRuns, AllocError>
        ensures { IfOk result (λ kept. kept ≡ runs.items) }
    {
        if runs.len() > 1 {
            let alloc = *runs.allocator();
            let list = Rc::new(alloc, RunList { items: runs })?;
            return Ok(KeptRuns {
                held: HeldRuns::Several(list),
            });
        }
        let mut runs = runs;
        let held = match runs.pop() {
            Some(run) => HeldRuns::Alone(run),
            None => HeldRuns::Nothing,
        };
        Ok(KeptRuns { held })
    }

    // The runs in order.
    pub(crate) fn as_slice(&self) -> &[Run]
        ensures { result.now ≡ self.now }
    {
        match &self.held {
            HeldRuns::Nothing => &[],
            HeldRuns::Alone(run) => from_ref(run),
            HeldRuns::Several(list) => list.items.as_slice(),
        }
    }

    // Puts `more` last. After want of memory these are as before.
    pub(crate) fn append(&mut self, alloc: Global, more: &[Run]) -> Result<(), AllocError>
        requires coalesced { IsCoalesced 0 self.old }
        requires more_coalesced { IsCoalesced 0 more.now }
        requires short { last_end 0 self.old + last_end 0 more.now ≤ LONGEST }
        ensures joined { OnOk result (AreJoined self.old more.now self.new) }
        ensures err { OnErr result (self.new ≡ self.old) }
    {
        if self.lengthen(more) {
            return Ok(());
        }
        match &mut self.held {
            HeldRuns::Several(shared) => {
                let list = Rc::make_mut(shared)?;
                list.append(alloc, more)
            }
            _ => {
                *self = KeptRuns::from_vec(joined(alloc, self.as_slice(), more)?)?;
                Ok(())
            }
        }
    }

    // Lets the only run go on where `more` is one run of its set. Says whether it did; else nothing is changed.
    fn lengthen(&mut self, more: &[Run]) -> bool
        requires coalesced { IsCoalesced 0 self.old }
        requires more_coalesced { IsCoalesced 0 more.now }
        requires short { last_end 0 self.old + last_end 0 more.now ≤ LONGEST }
        ensures joined { result ≡ true → AreJoined self.old more.now self.new }
        ensures same { result ≡ false → self.new ≡ self.old }
    {
        match &mut self.held {
            HeldRuns::Alone(run) => lengthen(run, more),
            _ => false,
        }
    }
}

// Lets a run go on where `more` is one run of its set. Says whether it did; else nothing is changed.
fn lengthen(run: &mut Run, more: &[Run]) -> bool
    requires coalesced { IsCoalesced 0 (run.old ∷ []) }
    requires short { run.old.end + last_end 0 more.now ≤ LONGEST }
    ensures joined { result ≡ true → AreJoined (run.old ∷ []) more.now (run.new ∷ []) }
    ensures same { result ≡ false → run.new ≡ run.old }
{
    let [only] = more else {
        return false;
    };
    if !run.set.same(&only.set) {
        return false;
    }
    run.end += only.end;
    true
}

// Runs and more runs behind them.
fn joined(alloc: Global, runs: &[Run], more: &[Run]) -> Result<Vec<Run>, AllocError>
    requires coalesced { IsCoalesced 0 runs.now }
    requires more_coalesced { IsCoalesced 0 more.now }
    requires short { last_end 0 runs.now + last_end 0 more.now ≤ LONGEST }
    ensures { IfOk result (λ v. AreJoined runs.now more.now v.items) }
{
    let mut out = copies(alloc, runs)?;
    extend_runs(alloc, &mut out, more)?;
    Ok(out)
}

impl Clone for KeptRuns {
    ghost is_clone = { λ r copy. copy ≡ r };

    fn clone(&self) -> Result<KeptRuns, AllocError> {
        let held = match &self.held {
            HeldRuns::Nothing => HeldRuns::Nothing,
            HeldRuns::Alone(run) => HeldRuns::Alone(run.clone()?),
            HeldRuns::Several(list) => HeldRuns::Several(list.clone()?),
        };
        Ok(KeptRuns { held })
    }
}
