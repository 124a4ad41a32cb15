//! The numbers of keeper calls. No call here asks that the numbers so far are in order, so that none above has to know it.
ghost use Rattle.std.specs.Prelude.{◌≡◌, ◌-◌, ◌^◌, ◌<◌, length, OnOk};
ghost use Rattle.resin_base.specs.Numbering.{Settles};
ghost use Rattle.resin_meaning.specs.KeeperCalls.{Asks, kept};

use resin_base::{Calls, KeepFault};
use resin_machine::under::scalar::ScriptFault;
use resin_machine::{Machine, Stop};

/// Lists the number of the next call. It is the fault FuelSpent exactly where no number is left.
pub(crate) fn ask(m: &Machine, calls: &mut Calls) -> Result<(), Stop>
    ensures asks { Asks m.now calls.old result calls.new }
    ensures listed { OnOk result (0 < length calls.new.failed) }
{
    if calls.made == u64::MAX {
        return Err(m.fault(ScriptFault::FuelSpent));
    }
    calls.failed.push(calls.made + 1)?;
    Ok(())
}

/// Counts the call that was listed, by its answer, and takes its number off unless it failed.
pub(crate) fn settle<A>(calls: &mut Calls, answer: Result<A, KeepFault>) -> Result<A, Stop>
    requires room { calls.old.made < 2 ^ 64 - 1 }
    requires listed { 0 < length calls.old.failed }
    ensures settled { Settles calls.old answer calls.new }
    ensures answer { result ≡ kept answer }
{
    calls.count(&answer);
    match answer {
        Ok(value) => Ok(value),
        Err(KeepFault::Failed) => Err(Stop::Keeper),
        Err(KeepFault::Memory) => Err(Stop::Memory),
    }
}
