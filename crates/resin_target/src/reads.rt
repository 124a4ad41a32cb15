//! What stands at an index and at a property of a value.
ghost use Rattle.std.specs.Prelude.{◌≡◌, IfOk, unwrap_or};
ghost use Rattle.std.specs.Option.{option_copied};
ghost use Rattle.resin_ops.specs.Under.value.declared.value.Value.{Value as AnyValue};
ghost use Rattle.resin_ops.specs.Places.{indexed};
ghost use Rattle.resin_target.specs.Reads.{GivesOrNoMemory, value_at, byte_of, at_index, field_of, at_property};

use resin_machine::Machine;
use resin_ops::under::lstr::LText;
use resin_ops::under::scalar::{CallStop, ScriptFault};
use resin_ops::under::value::{Arr, Key, Value};
use resin_ops::{index_text, to_key};
use std::alloc::{AllocError, Global};

/// A copy of the value at a key of an array, null where there is none.
pub(crate) fn value_at(array: &Arr, key: &Key) -> Result<Value, AllocError>
    ensures { IfOk result (λ v. v ≡ value_at key.now array.now) }
{
    match array.get(key) {
        Some(value) => value.clone(),
        None => Ok(Value::Null),
    }
}

// The byte of a text at a key; where reading is lenient, a key that is a text reads as null.
fn byte_at(alloc: Global, lenient: bool, text: &LText, key: &Key) -> Result<Value, CallStop>
    ensures { GivesOrNoMemory result (byte_of lenient (indexed key.now text.now)) }
{
    match index_text(alloc, text, key) {
        Ok(value) => Ok(value),
        Err(CallStop::Memory) => Err(CallStop::Memory),
        Err(_) if lenient => Ok(Value::Null),
        Err(stop) => Err(stop),
    }
}

// A copy of the value of a property of an object, null where there is none.
fn field_of(m: &Machine, o: u32, name: &[u8]) -> Result<Value, AllocError>
    ensures { IfOk result (λ v. v ≡ field_of o name.now m.now) }
{
    if !m.heap().has(o) {
        return Ok(Value::Null);
    }
    match m.heap().get(o, name) {
        Some(value) => value.clone(),
        None => Ok(Value::Null),
    }
}

/// `a[e]`, where `a` and `e` have these values. BadOperand comes where e is no key, and, unless reading is lenient, for a text key into a text
/// and for an index into an object. In `isset`, `empty` and the left of `??` reading is lenient.
pub fn at_index(alloc: Global, lenient: bool, e: &Value, here: &Value) -> Result<Value, CallStop>
    ensures { GivesOrNoMemory result (at_index lenient e.now here.now) }
{
    match here {
        Value::Null | Value::Bool(_) | Value::Int(_, _) => Ok(Value::Null),
        Value::Text(text) => {
            let key = to_key(alloc, e)?;
            byte_at(alloc, lenient, text, &key)
        }
        Value::Arr(array) => {
            let key = to_key(alloc, e)?;
            Ok(value_at(array, &key)?)
        }
        Value::Obj(_) if lenient => Ok(Value::Null),
        Value::Obj(_) => Err(CallStop::Fault(ScriptFault::BadOperand)),
    }
}

/// `a->p`, where `a` has this value: null where that is no object, or the object has no such property.
pub fn at_property(m: &Machine, name: &[u8], here: &Value) -> Result<Value, AllocError>
    ensures { IfOk result (λ v. v ≡ at_property name.now here.now m.now) }
{
    match here {
        Value::Obj(o) => field_of(m, *o, name),
        _ => Ok(Value::Null),
    }
}
