//! The functions of integers and of any values.
ghost use Rattle.std.specs.Prelude.{◌≡◌, Ok};
ghost use Rattle.resin_array_fn.specs.Under.value.Seen.{tree_of, trees_of};
ghost use Rattle.resin_array_fn.specs.Under.ops.Places.{seen_answer};
ghost use Rattle.resin_array_fn.specs.Under.text_fn.Stops.{GivesOrNoMemory};
ghost use Rattle.resin_array_fn.specs.Filled.{and_then};
ghost use Rattle.resin_builtin.specs.Arguments.{as_integer};
ghost use Rattle.resin_builtin.specs.Rows.{integer_row, magnitude, intval_row, quotient, intdiv_row, is_numeric, is_number_form, tested};
ghost use Rattle.std.specs.Prelude.{Some};

use crate::answers::{number, text_value};
use crate::arguments::number_at;
use crate::builtin::{OneInteger, Test};
use resin_array_fn::under::ops::to_int;
use resin_array_fn::under::value::Value;
use resin_format::under::bytes::{NumberForm, numeric};
use resin_format::under::escape_fn::chr;
use resin_format::under::label::PSet;
use resin_format::under::scalar::{CallStop, ErrorKind, ScriptFault};
use std::alloc::Global;

// A function of one integer, whose answer carries its labels.
pub(crate) fn integer_row(alloc: Global, row: OneInteger, value: &Value) -> Result<Value, CallStop>
    ensures { GivesOrNoMemory (seen_answer result) (and_then (as_integer (Some (tree_of value.now))) (λ n. integer_row row n.0 n.1)) }
{
    match value {
        Value::Int(n, set) => labelled_row(alloc, row, *n, set),
        Value::Null | Value::Bool(_) | Value::Text(_) | Value::Arr(_) | Value::Obj(_) => {
            Err(CallStop::Throw(ErrorKind::Type))
        }
    }
}

fn labelled_row(alloc: Global, row: OneInteger, n: i64, set: &PSet) -> Result<Value, CallStop>
    ensures { GivesOrNoMemory (seen_answer result) (integer_row row n set.now) }
{
    match row {
        OneInteger::Character => text_value(chr(alloc, n, set)),
        OneInteger::Magnitude => magnitude(n, set),
    }
}

fn magnitude(n: i64, set: &PSet) -> Result<Value, CallStop>
    ensures { GivesOrNoMemory (seen_answer result) (magnitude n set.now) }
{
    match n.checked_abs() {
        Some(m) => Ok(Value::Int(m, set.clone()?)),
        None => Err(CallStop::Fault(ScriptFault::IntegerOverflow)),
    }
}

// `intval` of a value, whose answer carries `set` where it is a text.
pub(crate) fn intval_row(value: &Value, set: &PSet) -> Result<Value, CallStop>
    ensures { GivesOrNoMemory (seen_answer result) (intval_row (tree_of value.now) set.now) }
{
    match value {
        Value::Int(n, own) => Ok(Value::Int(*n, own.clone()?)),
        Value::Text(_) => Ok(Value::Int(to_int(value)?, set.clone()?)),
        Value::Null | Value::Bool(_) | Value::Arr(_) | Value::Obj(_) => Ok(number(to_int(value)?)),
    }
}

// `intdiv`, whose answer carries `set`.
pub(crate) fn intdiv_row(args: &[Value], set: &PSet) -> Result<Value, CallStop>
    ensures { GivesOrNoMemory (seen_answer result) (intdiv_row (trees_of args.now) set.now) }
{
    let a = number_at(args, 0)?;
    let b = number_at(args, 1)?;
    quotient(a, b, set)
}

fn quotient(a: i64, b: i64, set: &PSet) -> Result<Value, CallStop>
    ensures { GivesOrNoMemory (seen_answer result) (quotient a b set.now) }
{
    if b == 0 {
        return Err(CallStop::Throw(ErrorKind::DivisionByZero));
    }
    match a.checked_div(b) {
        Some(n) => Ok(Value::Int(n, set.clone()?)),
        None => Err(CallStop::Throw(ErrorKind::Arithmetic)),
    }
}

// A test of a value.
pub(crate) fn tested(kind: Test, value: &Value) -> bool
    ensures { result ≡ tested kind (tree_of value.now) }
{
    match kind {
        Test::Null => matches!(value, Value::Null),
        Test::Bool => matches!(value, Value::Bool(_)),
        Test::Int => matches!(value, Value::Int(_, _)),
        Test::Text => matches!(value, Value::Text(_)),
        Test::Array => matches!(value, Value::Arr(_)),
        Test::Object => matches!(value, Value::Obj(_)),
        Test::Numeric => is_numeric(value),
    }
}

fn is_numeric(value: &Value) -> bool
    ensures { result ≡ is_numeric (tree_of value.now) }
{
    match value {
        Value::Int(_, _) => true,
        Value::Text(text) => is_number_form(numeric(text.bytes())),
        Value::Null | Value::Bool(_) | Value::Arr(_) | Value::Obj(_) => false,
    }
}

fn is_number_form(form: NumberForm) -> bool
    ensures { result ≡ is_number_form form }
{
    match form {
        NumberForm::Int(_) | NumberForm::Float => true,
        NumberForm::Not => false,
    }
}
