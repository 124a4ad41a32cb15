//! Arrays that are made of entries, one after the other.
ghost use Rattle.std.specs.Prelude.{◌≡◌, ◌≤◌, None, Some, IsTrue, length};
ghost use Rattle.std.specs.List.{slice_range};
ghost use Rattle.resin_ops.specs.Under.value.Keys.{is_lawful};
ghost use Rattle.resin_ops.specs.Under.value.Seen.{tree_of};
ghost use Rattle.resin_text_fn.specs.Stops.{GivesOrNoMemory};
ghost use Rattle.resin_array_fn.specs.Filled.{array_stop, added_at, kept_key, filled_on, with_kept_keys};

use resin_ops::under::scalar::{CallStop, ErrorKind, ScriptFault};
use resin_ops::under::value::{Arr, ArrFault, Key, Value};

// Why nothing was put into an array, as the end of a call.
fn array_stop(fault: ArrFault) -> CallStop
    ensures { result ≡ array_stop fault }
{
    match fault {
        ArrFault::NoNextKey => CallStop::Throw(ErrorKind::Plain),
        ArrFault::TooHigh => CallStop::Fault(ScriptFault::ArrayTooDeep),
        ArrFault::Memory => CallStop::Memory,
    }
}

// The array with a value put at a key.
fn with_put(out: Arr, key: &Key, value: Value) -> Result<Arr, CallStop>
    requires { IsTrue (is_lawful key.now) }
    ensures { GivesOrNoMemory result (added_at (Some key.now) (tree_of value) out) }
{
    let mut out = out;
    match out.put(key, value) {
        Ok(()) => Ok(out),
        Err(fault) => Err(array_stop(fault)),
    }
}

/// The array with a value put at the next key.
pub(crate) fn with_next(out: Arr, value: Value) -> Result<Arr, CallStop>
    ensures { GivesOrNoMemory result (added_at None (tree_of value) out) }
{
    let mut out = out;
    match out.append(value) {
        Ok(()) => Ok(out),
        Err(fault) => Err(array_stop(fault)),
    }
}

/// The array with one more entry, whose integer key is numbered anew unless `keep`.
pub(crate) fn with_entry(out: Arr, key: &Key, value: Value, keep: bool) -> Result<Arr, CallStop>
    requires { IsTrue (is_lawful key.now) }
    ensures { GivesOrNoMemory result (added_at (kept_key keep key.now) (tree_of value) out) }
{
    match key {
        Key::Int(_) if !keep => with_next(out, value),
        _ => with_put(out, key, value),
    }
}

/// The array with the entries of another from a place up to one that isn't included; integer keys are numbered anew unless `keep`.
pub(crate) fn with_part(
    out: Arr,
    a: &Arr,
    from: usize,
    to: usize,
    keep: bool,
) -> Result<Arr, CallStop>
    requires { to ≤ length a.now.entries }
    ensures { GivesOrNoMemory result (filled_on out (with_kept_keys keep (slice_range a.now.entries from to))) }
{
    let _len = a.len();
    let mut out = out;
    for i in from..to {
        let (key, value) = a.entry(i);
        out = with_entry(out, key, value.clone()?, keep)?;
    }
    Ok(out)
}
