//! `str_replace`.
ghost use Rattle.std.specs.Prelude.{◌≡◌, IfOk, replicate};
ghost use Rattle.resin_array_fn.specs.Under.value.Seen.{tree_of, trees_of};
ghost use Rattle.resin_array_fn.specs.Under.ops.Places.{seen_answer};
ghost use Rattle.resin_array_fn.specs.Under.text_fn.Stops.{GivesOrNoMemory, GivesCharged};
ghost use Rattle.resin_builtin.specs.Rows.{is_array};
ghost use Rattle.resin_builtin.specs.Calls.{searches_in, replacements_in, str_replace_row};

use crate::answers::text_value;
use crate::arguments::{text_at, value_at};
use resin_array_fn::texts_in;
use resin_array_fn::under::ops::to_text;
use resin_array_fn::under::text_fn::str_replace;
use resin_array_fn::under::value::Value;
use resin_format::under::lstr::{LText, Texts};
use resin_format::under::scalar::{CallStop, ErrorKind, Ticks};
use std::alloc::{AllocError, Global};

// `str_replace`, which charges each search.
pub(crate) fn str_replace_row(
    alloc: Global,
    args: &[Value],
    ticks: &mut Ticks,
) -> Result<Value, CallStop>
    ensures { GivesCharged (seen_answer result) ticks.new.left (str_replace_row (trees_of args.now) ticks.old.left) }
{
    let searched = value_at(args, 0)?;
    let with = value_at(args, 1)?;
    let s = text_at(args, 2)?;
    let searches = searches_in(alloc, searched)?;
    let count = searches.as_slice().len();
    let with = replacements_in(alloc, is_array(searched), with, count)?;
    text_value(str_replace(alloc, &searches, &with, s, ticks))
}

fn is_array(value: &Value) -> bool
    ensures { result ≡ is_array (tree_of value.now) }
{
    matches!(value, Value::Arr(_))
}

// What is searched.
fn searches_in(alloc: Global, value: &Value) -> Result<Texts, CallStop>
    ensures { GivesOrNoMemory result (searches_in (tree_of value.now)) }
{
    match value {
        Value::Arr(array) => texts_in(alloc, array),
        Value::Obj(_) => Err(CallStop::Throw(ErrorKind::Type)),
        Value::Null | Value::Bool(_) | Value::Int(_, _) | Value::Text(_) => {
            let text = to_text(alloc, value)?;
            Ok(copies(alloc, &text, 1)?)
        }
    }
}

// What so many searches become.
fn replacements_in(
    alloc: Global,
    beside_array: bool,
    value: &Value,
    count: usize,
) -> Result<Texts, CallStop>
    ensures { GivesOrNoMemory result (replacements_in beside_array (tree_of value.now) count) }
{
    match value {
        Value::Arr(array) if beside_array => texts_in(alloc, array),
        Value::Arr(_) | Value::Obj(_) => Err(CallStop::Throw(ErrorKind::Type)),
        Value::Null | Value::Bool(_) | Value::Int(_, _) | Value::Text(_) => {
            let text = to_text(alloc, value)?;
            Ok(copies(alloc, &text, count)?)
        }
    }
}

// A text so many times.
fn copies(alloc: Global, text: &LText, count: usize) -> Result<Texts, AllocError>
    ensures { IfOk result (λ texts. texts ≡ replicate count text.now) }
{
    let mut texts = Texts::new(alloc);
    for _made in 0..count {
        texts.push(text.clone()?)?;
    }
    Ok(texts)
}
