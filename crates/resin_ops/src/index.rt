//! One byte of a text by its place.
ghost use Rattle.std.specs.Prelude.{◌≡◌, ◌≤◌, ◌^◌};
ghost use Rattle.resin_value.specs.Under.scalar.Stops.{Gives};
ghost use Rattle.resin_ops.specs.Places.{place_of, indexed, seen_answer};

use resin_value::under::lstr::LText;
use resin_value::under::scalar::{CallStop, ScriptFault};
use resin_value::{Key, Value};
use std::alloc::Global;

/// `$s[i]` on a text: the byte at the index with its labels, from the end where the index is negative, null out of range. `BadOperand` comes
/// exactly for a key that is a text.
pub fn index_text(alloc: Global, t: &LText, k: &Key) -> Result<Value, CallStop>
    ensures { Gives (seen_answer result) (indexed k.now t.now) }
{
    let Key::Int(n) = k else {
        return Err(CallStop::Fault(ScriptFault::BadOperand));
    };
    match place(*n, t.len()) {
        Some(i) => Ok(Value::Text(t.slice(alloc, i, i + 1)?)),
        None => Ok(Value::Null),
    }
}

// The place that an index means in a text of so many bytes.
fn place(n: i64, len: usize) -> Option<usize>
    requires { len ≤ 2 ^ 24 }
    ensures { result ≡ place_of n len }
{
    let at = if n < 0 { n + len as i64 } else { n };
    if 0 <= at && at < len as i64 {
        Some(at as usize)
    } else {
        None
    }
}
