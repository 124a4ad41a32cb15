//! Numbers and texts that are made of values.
ghost use Rattle.resin_meaning_forms.specs.Expressions.{joined};
ghost use Rattle.resin_meaning_forms.specs.Operators.{negated, too_long};
ghost use Rattle.resin_meaning_forms.specs.Under.target.Reads.{GivesOrNoMemory};
ghost use Rattle.resin_meaning_forms.specs.Parts.{ruled};
ghost use Rattle.resin_meaning_forms.specs.Runs.{Runs};
ghost use Rattle.resin_meaning_forms.specs.Writes.{behind};
ghost use Rattle.resin_meaning_forms.specs.Under.value.Seen.{tree_of, trees_of};
ghost use Rattle.std.specs.Prelude.{[], ◌≡◌, ◌++◌};

use crate::operators::joined;
use crate::reads::text_stop;
use resin_meaning_forms::under::lstr::{Builder, LText};
use resin_meaning_forms::under::machine::{Machine, Stop};
use resin_meaning_forms::under::ops::{Arith, arith, to_number, to_text};
use resin_meaning_forms::under::scalar::{CallStop, ScriptFault};
use resin_meaning_forms::under::value::Value;
use std::alloc::Global;

/// A rule that answers a value or a fault, as the end of a call.
pub fn ruled(answer: Result<i64, ScriptFault>) -> Result<i64, CallStop>
    ensures { result ≡ ruled answer }
{
    match answer {
        Ok(n) => Ok(n),
        Err(fault) => Err(CallStop::Fault(fault)),
    }
}

/// A number with the other sign.
pub fn negated(x: &Value) -> Result<i64, CallStop>
    ensures { result ≡ negated (tree_of x.now) }
{
    let n = ruled(to_number(x))?;
    arith(Arith::Sub, 0, n)
}

/// One text behind another; TextTooLong comes exactly where that would be too long.
pub fn behind(alloc: Global, m: &mut Machine, a: &LText, b: &LText) -> Result<LText, Stop>
    ensures { Runs (behind a.now b.now) m.old result m.new }
{
    let both = joined(alloc, a, b);
    m.settle(both)
}

// A text under way with one more behind it.
fn longer(text: Builder, more: &LText) -> Result<Builder, CallStop>
    ensures { GivesOrNoMemory result (too_long (text ++ more.now)) }
{
    match text.append(more) {
        Ok(longer) => Ok(longer),
        Err(fault) => Err(text_stop(fault)),
    }
}

// The same as a step; TextTooLong comes exactly where that would be too long.
fn continued(m: &mut Machine, text: Builder, more: &LText) -> Result<Builder, Stop>
    ensures { Runs (behind text more.now) m.old result m.new }
{
    let both = longer(text, more);
    m.settle(both)
}

/// Values as texts, one behind the other, in time in proportion to them all; BadOperand comes for an array or an object, and TextTooLong where no
/// text is that long.
pub fn texts_joined(alloc: Global, m: &mut Machine, vs: &[Value]) -> Result<LText, Stop>
    ensures { Runs (joined [] (trees_of vs.now)) m.old result m.new }
{
    let mut text = Builder::new(alloc);
    for v in vs {
        let part = m.settle(to_text(alloc, v))?;
        text = continued(m, text, &part)?;
    }
    Ok(text.finish()?)
}
