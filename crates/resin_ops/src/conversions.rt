//! Conversions of values that operators ask for.
ghost use Rattle.std.specs.Prelude.{◌≡◌, IfOk, IsTrue};
ghost use Rattle.resin_value.specs.Under.scalar.Stops.{Gives};
ghost use Rattle.resin_value.specs.Keys.{is_lawful};
ghost use Rattle.resin_value.specs.Seen.{tree_of};
ghost use Rattle.resin_ops.specs.Conversions.{text_of, text_stop, number_of_value, int_of_value, key_of};

use itoa::Buffer;
use resin_value::under::lstr::{LText, TextFault};
use resin_value::under::scalar::{CallStop, ScriptFault, cast_int, number};
use resin_value::{Key, KeyText, Value};
use std::alloc::Global;

/// The value as a text: true is `1`, null and false are empty, an integer is its decimal digits, each with the integer's labels, and a text is
/// itself. `BadOperand` comes exactly for an array or an object.
pub fn to_text(alloc: Global, v: &Value) -> Result<LText, CallStop>
    ensures { Gives result (text_of (tree_of v.now)) }
{
    match v {
        Value::Null | Value::Bool(false) => LText::plain(alloc, b"").map_err(text_stop),
        Value::Bool(true) => LText::plain(alloc, b"1").map_err(text_stop),
        Value::Int(n, labels) => {
            let mut buffer = Buffer::new();
            LText::with_set(alloc, buffer.format(*n).as_bytes(), labels).map_err(text_stop)
        }
        Value::Text(text) => Ok(text.clone()?),
        Value::Arr(_) | Value::Obj(_) => Err(CallStop::Fault(ScriptFault::BadOperand)),
    }
}

// Why there is no text, as the end of a call.
fn text_stop(fault: TextFault) -> CallStop
    ensures { result ≡ text_stop fault }
{
    match fault {
        TextFault::TooLong => CallStop::Fault(ScriptFault::TextTooLong),
        TextFault::Memory => CallStop::Memory,
    }
}

/// The value as a number in arithmetic. `FloatNeeded` comes exactly for a text in a float form, `NotANumber` exactly for a text that is no number,
/// `BadOperand` exactly for an array or an object.
pub fn to_number(v: &Value) -> Result<i64, ScriptFault>
    ensures { result ≡ number_of_value (tree_of v.now) }
{
    match v.scalar() {
        Some(scalar) => Ok(number(&scalar)?),
        None => Err(ScriptFault::BadOperand),
    }
}

/// The value by the cast `(int)`. `FloatNeeded` comes exactly for a text that begins with a float form, `BadOperand` exactly for an array or an
/// object.
pub fn to_int(v: &Value) -> Result<i64, ScriptFault>
    ensures { result ≡ int_of_value (tree_of v.now) }
{
    match v.scalar() {
        Some(scalar) => Ok(cast_int(&scalar)?),
        None => Err(ScriptFault::BadOperand),
    }
}

/// The value as the key of an array: a text that is a canonical decimal in range is that integer, true and false are 1 and 0, and null is the
/// empty text. `BadOperand` comes exactly for an array or an object. The key may stand in an array.
pub fn to_key(alloc: Global, v: &Value) -> Result<Key, CallStop>
    ensures value { Gives result (key_of (tree_of v.now)) }
    ensures lawful { IfOk result (λ key. IsTrue (is_lawful key)) }
{
    match v {
        Value::Null => Ok(Key::Text(KeyText::new(alloc))),
        Value::Bool(b) => Ok(Key::Int(i64::from(*b))),
        Value::Int(n, _) => Ok(Key::Int(*n)),
        Value::Text(text) => Ok(Key::from_text(alloc, text.bytes())?),
        Value::Arr(_) | Value::Obj(_) => Err(CallStop::Fault(ScriptFault::BadOperand)),
    }
}
