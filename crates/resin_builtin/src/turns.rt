//! How arguments are turned into their kinds.
ghost use Rattle.std.specs.Prelude.{◌≡◌};
ghost use Rattle.resin_array_fn.specs.Under.value.Seen.{tree_of};
ghost use Rattle.resin_array_fn.specs.Under.ops.Places.{seen_answer};
ghost use Rattle.resin_array_fn.specs.Under.text_fn.Stops.{GivesOrNoMemory};
ghost use Rattle.resin_builtin.specs.Signatures.{parameters, kind_at, null_is_default};
ghost use Rattle.resin_builtin.specs.Turns.{turned, turned_into, turned_text, turned_integer, turned_array, turned_text_or_array, integer_in_text};

use crate::answers::{number, text_value};
use crate::signatures::{ArgKind, Sig};
use resin_array_fn::under::ops::to_text;
use resin_array_fn::under::value::Value;
use resin_format::under::scalar::{CallStop, ErrorKind, NumFault, Scalar, ScriptFault};
use std::alloc::Global;

impl Sig {
    /// The argument with the number `i`, from 0, as its kind. A text that becomes an integer loses its labels: the caller merges them, and puts
    /// the merged set in. `TypeError` is thrown exactly where the kind doesn't take the value, `FloatNeeded` comes exactly for a text in a float
    /// form where an integer is wanted.
    pub fn turned(&self, alloc: Global, i: u8, value: &Value) -> Result<Value, CallStop>
        ensures { GivesOrNoMemory (seen_answer result)
            (turned (kind_at (parameters self.now.builtin) i) (null_is_default self.now.builtin i) (tree_of value.now)) }
    {
        match value {
            Value::Null if self.null_is_default(i) => Ok(Value::Null),
            _ => turned_into(alloc, self.kind(i), value),
        }
    }
}

/// A value as this kind, as `Sig::turned` turns it: TypeError is thrown exactly where the kind doesn't take the value; FloatNeeded comes exactly for
/// a text in a float form where an integer is wanted.
pub fn turned_into(alloc: Global, kind: ArgKind, value: &Value) -> Result<Value, CallStop>
    ensures { GivesOrNoMemory (seen_answer result) (turned_into kind (tree_of value.now)) }
{
    match kind {
        ArgKind::Text => turned_text(alloc, value),
        ArgKind::Integer => turned_integer(value),
        ArgKind::Array => turned_array(value),
        ArgKind::TextOrArray => turned_text_or_array(alloc, value),
        ArgKind::Any => Ok(value.clone()?),
    }
}

fn turned_text(alloc: Global, value: &Value) -> Result<Value, CallStop>
    ensures { GivesOrNoMemory (seen_answer result) (turned_text (tree_of value.now)) }
{
    match value {
        Value::Arr(_) | Value::Obj(_) => Err(CallStop::Throw(ErrorKind::Type)),
        Value::Null | Value::Bool(_) | Value::Int(_, _) | Value::Text(_) => {
            text_value(to_text(alloc, value))
        }
    }
}

fn turned_integer(value: &Value) -> Result<Value, CallStop>
    ensures { GivesOrNoMemory (seen_answer result) (turned_integer (tree_of value.now)) }
{
    match value {
        Value::Null => Ok(number(0)),
        Value::Bool(b) => Ok(number(i64::from(*b))),
        Value::Int(n, set) => Ok(Value::Int(*n, set.clone()?)),
        Value::Text(text) => integer_in_text(resin_format::under::scalar::number(&Scalar::Text(
            text.bytes(),
        ))),
        Value::Arr(_) | Value::Obj(_) => Err(CallStop::Throw(ErrorKind::Type)),
    }
}

// The integer that a whole text is.
fn integer_in_text(found: Result<i64, NumFault>) -> Result<Value, CallStop>
    ensures { seen_answer result ≡ integer_in_text found }
{
    match found {
        Ok(n) => Ok(number(n)),
        Err(NumFault::Float) => Err(CallStop::Fault(ScriptFault::FloatNeeded)),
        Err(NumFault::Not) => Err(CallStop::Throw(ErrorKind::Type)),
    }
}

fn turned_array(value: &Value) -> Result<Value, CallStop>
    ensures { GivesOrNoMemory (seen_answer result) (turned_array (tree_of value.now)) }
{
    match value {
        Value::Arr(array) => Ok(Value::Arr(array.clone()?)),
        Value::Null | Value::Bool(_) | Value::Int(_, _) | Value::Text(_) | Value::Obj(_) => {
            Err(CallStop::Throw(ErrorKind::Type))
        }
    }
}

fn turned_text_or_array(alloc: Global, value: &Value) -> Result<Value, CallStop>
    ensures { GivesOrNoMemory (seen_answer result) (turned_text_or_array (tree_of value.now)) }
{
    match value {
        Value::Arr(array) => Ok(Value::Arr(array.clone()?)),
        Value::Obj(_) => Err(CallStop::Throw(ErrorKind::Type)),
        Value::Null | Value::Bool(_) | Value::Int(_, _) | Value::Text(_) => {
            text_value(to_text(alloc, value))
        }
    }
}
