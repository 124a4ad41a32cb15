//! Functions of the runtime: how many arguments they take, of which kinds, and what they cost.
ghost use Rattle.resin_step_parts.specs.Under.builtin.Names.{builtin_named};
ghost use Rattle.resin_step_parts.specs.Under.meaning_forms.Functions.{kinds_of, take_all, work};
ghost use Rattle.resin_step_parts.specs.Under.meaning_forms.Parts.{thrown_new};
ghost use Rattle.resin_step_parts.specs.Under.meaning_forms.Runs.{Runs};
ghost use Rattle.resin_step_parts.specs.Under.heap.declared.prelude.PreludeClass.TheVariants.{ArgumentCountError};
ghost use Rattle.resin_step_parts.specs.Under.machine.Steps.{ActsLoosely};
ghost use Rattle.resin_step_parts.specs.Under.value.Seen.{trees_of};
ghost use Rattle.std.specs.Prelude.{Some, min, ◌≡◌};

use resin_step_parts::under::builtin::{ArgKind, Builtin, call, cost};
use resin_step_parts::under::heap::PreludeClass;
use resin_step_parts::under::label::PSet;
use resin_step_parts::under::machine::{Machine, Stop};
use resin_step_parts::under::meaning_forms::StateFunction;
use resin_step_parts::under::scalar::Ticks;
use resin_step_parts::under::value::{Value, Values};
use std::alloc::Global;

/// Another count of arguments throws ArgumentCountError.
pub fn miscounted<A>(m: &mut Machine) -> Result<A, Stop>
    ensures { Runs (thrown_new ArgumentCountError) m.old result m.new }
{
    m.throw(PreludeClass::ArgumentCountError, b"")
}

/// A place as the signatures count it: all places from 255 on are alike.
pub fn place(i: usize) -> u8
    ensures { result ≡ min i 255 }
{
    if i < 255 { i as u8 } else { 255 }
}

/// The work of a function that works on its arguments alone, which spends ticks; the name is one of its own.
pub fn work(
    alloc: Global,
    m: &mut Machine,
    known: Builtin,
    name: &[u8],
    args: &Values,
    set: &PSet,
) -> Result<Value, Stop>
    requires { builtin_named name.now ≡ Some known }
    ensures acts { ActsLoosely (work known (trees_of args.now) set.now) m.old result m.new }
{
    let before = m.ticks();
    let mut ticks = Ticks { left: before };
    let answer = call(alloc, name, args, set, &mut ticks);
    m.charge(before - ticks.left)?;
    m.settle(answer)
}

/// The kinds of the arguments of a function that works on the state.
pub fn kinds_of(f: StateFunction) -> &'static [ArgKind]
    ensures { result.now ≡ kinds_of f }
{
    match f {
        StateFunction::PolicyAdd | StateFunction::PolicyRemove => &[ArgKind::Any, ArgKind::Any],
        StateFunction::PolicyGet | StateFunction::GetClass => &[ArgKind::Any],
        StateFunction::FilterAdd | StateFunction::FilterRemove | StateFunction::FilterFunctionAdd =>
            &[ArgKind::Text, ArgKind::Any],
        StateFunction::SqlStructure | StateFunction::HtmlStructure => {
            &[ArgKind::Text, ArgKind::Text]
        }
    }
}

/// Charges what the work of a function takes.
pub fn take_all(m: &mut Machine, vs: &[Value]) -> Result<(), Stop>
    ensures { Runs (take_all (trees_of vs.now)) m.old result m.new }
{
    for v in vs {
        m.charge(cost(v))?;
    }
    Ok(())
}
