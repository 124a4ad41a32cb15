//! Answers as values. Lengths, places and booleans carry nothing.
ghost use Rattle.std.specs.Prelude.{◌≡◌};
ghost use Rattle.resin_array_fn.specs.Under.value.Seen.{tree_of};
ghost use Rattle.resin_array_fn.specs.Under.value.Trees.{text};
ghost use Rattle.resin_array_fn.specs.Under.ops.Places.{seen_answer};
ghost use Rattle.resin_builtin.specs.Rows.{mapped, number, place, tree_of_array};
ghost use Rattle.resin_array_fn.specs.Under.value.Trees.{boolean};

use resin_array_fn::under::value::{Arr, Value};
use resin_format::under::label::PSet;
use resin_format::under::lstr::LText;
use resin_format::under::scalar::CallStop;

pub(crate) fn number(n: i64) -> Value
    ensures { tree_of result ≡ number n }
{
    Value::Int(n, PSet::empty())
}

// A place, or false where there is none.
pub(crate) fn place(at: Option<i64>) -> Value
    ensures { tree_of result ≡ place at }
{
    match at {
        Some(n) => number(n),
        None => Value::Bool(false),
    }
}

pub(crate) fn text_value(answer: Result<LText, CallStop>) -> Result<Value, CallStop>
    ensures { seen_answer result ≡ mapped text answer }
{
    match answer {
        Ok(text) => Ok(Value::Text(text)),
        Err(stop) => Err(stop),
    }
}

pub(crate) fn array_value(answer: Result<Arr, CallStop>) -> Result<Value, CallStop>
    ensures { seen_answer result ≡ mapped tree_of_array answer }
{
    match answer {
        Ok(array) => Ok(Value::Arr(array)),
        Err(stop) => Err(stop),
    }
}

pub(crate) fn number_value(answer: Result<i64, CallStop>) -> Result<Value, CallStop>
    ensures { seen_answer result ≡ mapped number answer }
{
    match answer {
        Ok(n) => Ok(number(n)),
        Err(stop) => Err(stop),
    }
}

pub(crate) fn place_value(answer: Result<Option<i64>, CallStop>) -> Result<Value, CallStop>
    ensures { seen_answer result ≡ mapped place answer }
{
    match answer {
        Ok(at) => Ok(place(at)),
        Err(stop) => Err(stop),
    }
}

pub(crate) fn bool_value(answer: Result<bool, CallStop>) -> Result<Value, CallStop>
    ensures { seen_answer result ≡ mapped boolean answer }
{
    match answer {
        Ok(b) => Ok(Value::Bool(b)),
        Err(stop) => Err(stop),
    }
}
