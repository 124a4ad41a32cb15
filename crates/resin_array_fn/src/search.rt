//! Searches in arrays.
ghost use Rattle.std.specs.Prelude.{◌≡◌};
ghost use Rattle.resin_ops.specs.Under.scalar.Stops.{Gives};
ghost use Rattle.resin_ops.specs.Under.value.Seen.{tree_of};
ghost use Rattle.resin_array_fn.specs.Searches.{compare_stop, fits, in_array, array_key_exists};

use resin_ops::to_key;
use resin_ops::under::scalar::{CallStop, ScriptFault, Ticks};
use resin_ops::under::value::{Arr, CompareFault, Value, equal, identical};
use std::alloc::Global;

/// `in_array`: whether a value of the array is `needle`, by `===` where the search is strict, else by `==` with `needle` on the left. The first
/// that fits ends the search. It costs a tick for each pair of values that is compared inside two arrays; `FuelSpent` comes exactly where none is
/// left for the next pair, `ObjectComparison` and `FloatNeeded` exactly where `==` gives them at a value that is reached.
pub fn in_array(needle: &Value, a: &Arr, strict: bool, ticks: &mut Ticks) -> Result<bool, CallStop>
    ensures answer { result ≡ (in_array (tree_of needle.now) a.now strict ticks.old.left).0 }
    ensures charged { ticks.new.left ≡ (in_array (tree_of needle.now) a.now strict ticks.old.left).1 }
{
    for i in 0..a.len() {
        let (_, value) = a.entry(i);
        if fits(strict, needle, value, ticks)? {
            return Ok(true);
        }
    }
    Ok(false)
}

// Whether a value is another one.
fn fits(strict: bool, needle: &Value, value: &Value, ticks: &mut Ticks) -> Result<bool, CallStop>
    ensures answer { result ≡ (fits strict (tree_of needle.now) (tree_of value.now) ticks.old.left).0 }
    ensures charged { ticks.new.left ≡ (fits strict (tree_of needle.now) (tree_of value.now) ticks.old.left).1 }
{
    if strict {
        match identical(needle, value, ticks) {
            Ok(same) => Ok(same),
            Err(_) => Err(CallStop::Fault(ScriptFault::FuelSpent)),
        }
    } else {
        match equal(needle, value, ticks) {
            Ok(same) => Ok(same),
            Err(fault) => Err(compare_stop(fault)),
        }
    }
}

// The fault of a comparison, as the end of a call.
fn compare_stop(fault: CompareFault) -> CallStop
    ensures { result ≡ compare_stop fault }
{
    match fault {
        CompareFault::Object => CallStop::Fault(ScriptFault::ObjectComparison),
        CompareFault::Operand => CallStop::Fault(ScriptFault::BadOperand),
        CompareFault::Float => CallStop::Fault(ScriptFault::FloatNeeded),
        CompareFault::Spent => CallStop::Fault(ScriptFault::FuelSpent),
    }
}

/// `array_key_exists`: whether an entry has the key that a value stands for. `BadOperand` comes exactly where the value is an array or an object.
pub fn array_key_exists(alloc: Global, key: &Value, a: &Arr) -> Result<bool, CallStop>
    ensures { Gives result (array_key_exists (tree_of key.now) a.now) }
{
    let key = to_key(alloc, key)?;
    Ok(a.get(&key).is_some())
}
