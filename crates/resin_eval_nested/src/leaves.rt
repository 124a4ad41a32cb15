//! Leaves of the tree. Half of all expressions are literals and variables, so they are evaluated where their operator is, without a call of the
//! function value.
ghost use Rattle.resin_step_objects.specs.Under.meaning_forms.Programs.{evals};
ghost use Rattle.resin_step_objects.specs.Under.meaning_forms.Runs.{Runs};
ghost use Rattle.resin_tree.specs.declared.expression.Expr.TheVariants as expr;
ghost use Rattle.std.specs.Prelude.{◌<◌, OnOk};

use resin_step_objects::under::machine::{Machine, Stop};
use resin_step_objects::under::scalar::ScriptFault;
use resin_step_objects::under::step_parts::reads::literal_value;
use resin_step_objects::under::value::Value;
use resin_tree::Literal;
use std::alloc::Global;

// The value of a literal, where `room` more evaluations may be open.
pub(crate) fn literal(alloc: Global, room: u32, m: &mut Machine, l: &Literal) -> Result<Value, Stop>
    ensures does { Runs ((evals room).expr (expr.Literal l.now)) m.old result m.new }
    ensures spent { OnOk result (m.new.ticks < m.old.ticks) }
{
    if room == 0 {
        return Err(m.fault(ScriptFault::DepthSpent));
    }
    m.charge(1)?;
    Ok(literal_value(alloc, l)?)
}

// The value of a variable, where `room` more evaluations may be open.
pub(crate) fn variable(room: u32, m: &mut Machine, name: &[u8]) -> Result<Value, Stop>
    ensures does { Runs ((evals room).expr (expr.Variable name.now)) m.old result m.new }
    ensures spent { OnOk result (m.new.ticks < m.old.ticks) }
{
    if room == 0 {
        return Err(m.fault(ScriptFault::DepthSpent));
    }
    m.charge(1)?;
    m.read(name)
}
