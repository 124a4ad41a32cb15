//! Arguments of a call, by their places.
ghost use Rattle.std.specs.Prelude.{◌≡◌, ℕ, Ok, Err, Some, None, MatchResult};
ghost use Rattle.std.specs.List.{slice_get};
ghost use Rattle.std.specs.Option.{option_map};
ghost use Rattle.resin_array_fn.specs.Under.value.Seen.{tree_of, trees_of};
ghost use Rattle.resin_builtin.specs.Arguments.{as_text, as_number, as_integer, as_array, as_count, text_at, number_at};
ghost use Rattle.resin_builtin.specs.Arguments.{integer_at, array_at, value_at, count_at, flag_at, or_default};

use resin_array_fn::under::value::{Arr, Value};
use resin_format::under::lstr::LText;
use resin_format::under::scalar::{CallStop, ErrorKind};

fn as_text(value: &Value) -> Result<&LText, CallStop>
    ensures { MatchResult result (λ t. as_text (Some (tree_of value.now)) ≡ Ok t.now) (λ stop. as_text (Some (tree_of value.now)) ≡ Err stop) }
{
    match value {
        Value::Text(text) => Ok(text),
        Value::Null | Value::Bool(_) | Value::Int(_, _) | Value::Arr(_) | Value::Obj(_) => {
            Err(CallStop::Throw(ErrorKind::Type))
        }
    }
}

pub(crate) fn as_number(value: &Value) -> Result<i64, CallStop>
    ensures { result ≡ as_number (Some (tree_of value.now)) }
{
    match value {
        Value::Int(n, _) => Ok(*n),
        Value::Null | Value::Bool(_) | Value::Text(_) | Value::Arr(_) | Value::Obj(_) => {
            Err(CallStop::Throw(ErrorKind::Type))
        }
    }
}

fn as_array(value: &Value) -> Result<&Arr, CallStop>
    ensures { MatchResult result (λ a. as_array (Some (tree_of value.now)) ≡ Ok a.now) (λ stop. as_array (Some (tree_of value.now)) ≡ Err stop) }
{
    match value {
        Value::Arr(array) => Ok(array),
        Value::Null | Value::Bool(_) | Value::Int(_, _) | Value::Text(_) | Value::Obj(_) => {
            Err(CallStop::Throw(ErrorKind::Type))
        }
    }
}

fn as_count(value: &Value) -> Result<Option<i64>, CallStop>
    ensures { result ≡ as_count (Some (tree_of value.now)) }
{
    match value {
        Value::Null => Ok(None),
        Value::Int(n, _) => Ok(Some(*n)),
        Value::Bool(_) | Value::Text(_) | Value::Arr(_) | Value::Obj(_) => {
            Err(CallStop::Throw(ErrorKind::Type))
        }
    }
}

// The argument at a place, none where it is left out.
fn nth(args: &[Value], i: usize) -> Option<&Value>
    ensures { option_map (λ v. tree_of v.now) result ≡ slice_get (trees_of args.now) i }
{
    args.get(i)
}

// The text at a place.
pub(crate) fn text_at(args: &[Value], i: usize) -> Result<&LText, CallStop>
    ensures { MatchResult result (λ t. text_at (trees_of args.now) i ≡ Ok t.now) (λ stop. text_at (trees_of args.now) i ≡ Err stop) }
{
    match nth(args, i) {
        Some(value) => as_text(value),
        None => Err(CallStop::Throw(ErrorKind::Type)),
    }
}

// The text at a place, another one where it is left out.
pub(crate) fn text_or<'a>(
    args: &'a [Value],
    i: usize,
    other: &'a LText,
) -> Result<&'a LText, CallStop>
    ensures { MatchResult result (λ t. or_default as_text other.now (slice_get (trees_of args.now) i) ≡ Ok t.now)
        (λ stop. or_default as_text other.now (slice_get (trees_of args.now) i) ≡ Err stop) }
{
    match nth(args, i) {
        Some(value) => as_text(value),
        None => Ok(other),
    }
}

// The integer at a place, without its labels.
pub(crate) fn number_at(args: &[Value], i: usize) -> Result<i64, CallStop>
    ensures { result ≡ number_at (trees_of args.now) i }
{
    match nth(args, i) {
        Some(value) => as_number(value),
        None => Err(CallStop::Throw(ErrorKind::Type)),
    }
}

// The integer at a place, another one where it is left out.
pub(crate) fn number_or(args: &[Value], i: usize, other: i64) -> Result<i64, CallStop>
    ensures { result ≡ or_default as_number other (slice_get (trees_of args.now) i) }
{
    match nth(args, i) {
        Some(value) => as_number(value),
        None => Ok(other),
    }
}

// The array at a place.
pub(crate) fn array_at(args: &[Value], i: usize) -> Result<&Arr, CallStop>
    ensures { MatchResult result (λ a. array_at (trees_of args.now) i ≡ Ok a.now) (λ stop. array_at (trees_of args.now) i ≡ Err stop) }
{
    match nth(args, i) {
        Some(value) => as_array(value),
        None => Err(CallStop::Throw(ErrorKind::Type)),
    }
}

// The value at a place.
pub(crate) fn value_at(args: &[Value], i: usize) -> Result<&Value, CallStop>
    ensures { MatchResult result (λ v. value_at (trees_of args.now) i ≡ Ok (tree_of v.now)) (λ stop. value_at (trees_of args.now) i ≡ Err stop) }
{
    match nth(args, i) {
        Some(value) => Ok(value),
        None => Err(CallStop::Throw(ErrorKind::Type)),
    }
}

// The count at a place, none where it is left out.
pub(crate) fn count_at(args: &[Value], i: usize) -> Result<Option<i64>, CallStop>
    ensures { result ≡ count_at (trees_of args.now) i }
{
    match nth(args, i) {
        Some(value) => as_count(value),
        None => Ok(None),
    }
}

// The value at a place as a boolean, false where it is left out.
pub(crate) fn flag_at(args: &[Value], i: usize) -> bool
    ensures { result ≡ flag_at (trees_of args.now) i }
{
    match nth(args, i) {
        Some(value) => value.truth(),
        None => false,
    }
}
