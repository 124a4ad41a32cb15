//! Calls of builtin functions.
ghost use Rattle.std.specs.Prelude.{◌≡◌, ◌+◌, ◌<◌, Err, OnOk, OnErr, sum_by};
ghost use Rattle.resin_array_fn.specs.Under.value.Seen.{tree_of, trees_of};
ghost use Rattle.resin_array_fn.specs.Under.ops.Places.{seen_answer};
ghost use Rattle.resin_array_fn.specs.Under.text_fn.Stops.{GivesOrNoMemory, GivesCharged};
ghost use Rattle.resin_format.specs.Under.label.Sets.{empty};
ghost use Rattle.resin_builtin.specs.Names.{builtin_named};
ghost use Rattle.resin_builtin.specs.Rows.{row_of_builtin};
ghost use Rattle.resin_builtin.specs.Calls.{cost, work, called, call_of};

use crate::answers::array_value;
use crate::arguments::{array_at, text_at, value_at};
use crate::array_rows::{
    array_key_exists_row, array_reverse_row, array_row, array_slice_row, in_array_row,
};
use crate::builtin::{Builtin, Digest, OneArray, OneInteger, OneText, Test, TwoTexts};
use crate::format_row::sprintf_row;
use crate::names::builtin_named;
use crate::replace_row::str_replace_row;
use crate::signatures::sig_of;
use crate::text_rows::{
    digest_row, implode_row, one_text_row, str_pad_row, str_repeat_row, strpos_row, substr_row,
    trim_row, two_text_row,
};
use crate::value_rows::{intdiv_row, integer_row, intval_row, tested};
use resin_array_fn::array_merge;
use resin_array_fn::under::value::{Value, Values};
use resin_format::under::label::PSet;
use resin_format::under::scalar::{CallStop, ErrorKind, ScriptFault, Spent, Ticks};
use std::alloc::Global;

/// Calls a builtin function by its name, in any case of ASCII letters, with arguments that were turned into their kinds. `set` is what `md5`,
/// `sha1` and `intdiv`, and `intval` of a text, give their answer as its labels.
///
/// A call costs a tick for each 256 bytes of a text and for each entry of an array that it takes, charged before the work, and the same for its
/// answer, charged after it; searches of `str_replace` and comparisons of `in_array` cost more. `FuelSpent` comes exactly where a charge is
/// larger than what is left. Another count of arguments throws `ArgumentCountError` and an argument of another kind `TypeError`; every other
/// exception and fault is that of the function. `UndefinedFunction` comes exactly for a name that no function has, and for `get_class`. Want of
/// memory may come in the place of any answer, and leaves the ticks as they were.
pub fn call(
    alloc: Global,
    name: &[u8],
    args: &Values,
    set: &PSet,
    ticks: &mut Ticks,
) -> Result<Value, CallStop>
    ensures answer { GivesCharged (seen_answer result) ticks.new.left (call_of (builtin_named name.now) (trees_of args.now) set.now ticks.old.left) }
    ensures kept { result ≡ Err CallStop.Memory → ticks.new.left ≡ ticks.old.left }
{
    let Some(builtin) = builtin_named(name) else {
        return Err(CallStop::Fault(ScriptFault::UndefinedFunction));
    };
    let before = ticks.left;
    match called(alloc, builtin, args.as_slice(), set, ticks) {
        Err(CallStop::Memory) => {
            ticks.left = before;
            Err(CallStop::Memory)
        }
        answer => answer,
    }
}

// A call, but for the ticks that want of memory leaves.
fn called(
    alloc: Global,
    builtin: Builtin,
    args: &[Value],
    set: &PSet,
    ticks: &mut Ticks,
) -> Result<Value, CallStop>
    ensures { GivesCharged (seen_answer result) ticks.new.left (called builtin (trees_of args.now) set.now ticks.old.left) }
{
    if !sig_of(builtin).takes(args.len()) {
        return Err(CallStop::Throw(ErrorKind::ArgumentCount));
    }
    pay(args, ticks)?;
    let answer = work(alloc, builtin, args, set, ticks)?;
    ticks.spend(cost(&answer))?;
    Ok(answer)
}

/// What a value costs that a call takes or gives: a tick for each 256 bytes of a text, and one for each entry of an array.
pub fn cost(value: &Value) -> u64
    ensures { result ≡ cost (tree_of value.now) }
{
    match value {
        Value::Text(text) => text.len() as u64 / 256,
        Value::Arr(array) => array.len() as u64,
        Value::Null | Value::Bool(_) | Value::Int(_, _) | Value::Obj(_) => 0,
    }
}

// Charges what a call takes, all of it or nothing.
fn pay(args: &[Value], ticks: &mut Ticks) -> Result<(), Spent>
    ensures charged { OnOk result (ticks.new.left + sum_by cost (trees_of args.now) ≡ ticks.old.left) }
    ensures short { OnErr result (ticks.old.left < sum_by cost (trees_of args.now)) }
    ensures kept { OnErr result (ticks.new.left ≡ ticks.old.left) }
{
    let mut left = ticks.left;
    for value in args {
        let cost = cost(value);
        if left < cost {
            return Err(Spent);
        }
        left -= cost;
    }
    ticks.left = left;
    Ok(())
}

// The work of a function.
fn work(
    alloc: Global,
    builtin: Builtin,
    args: &[Value],
    set: &PSet,
    ticks: &mut Ticks,
) -> Result<Value, CallStop>
    ensures { GivesCharged (seen_answer result) ticks.new.left (work builtin (trees_of args.now) set.now ticks.old.left) }
{
    match builtin {
        Builtin::StrReplace => str_replace_row(alloc, args, ticks),
        Builtin::InArray => in_array_row(args, ticks),
        _ => row_of_builtin(alloc, builtin, args, set),
    }
}

// The work of a function that costs nothing by itself.
fn row_of_builtin(
    alloc: Global,
    builtin: Builtin,
    args: &[Value],
    set: &PSet,
) -> Result<Value, CallStop>
    ensures { GivesOrNoMemory (seen_answer result) (row_of_builtin builtin (trees_of args.now) set.now) }
{
    match builtin {
        Builtin::OneText(row) => of_text(alloc, row, args),
        Builtin::Digest(row) => of_digest(alloc, row, args, set),
        Builtin::TwoTexts(row) => of_two_texts(alloc, row, args),
        Builtin::Trim(side) => trim_row(alloc, side, args),
        Builtin::OneInteger(row) => of_integer(alloc, row, args),
        Builtin::Test(kind) => of_test(kind, args),
        Builtin::OneArray(row) => of_array(alloc, row, args),
        Builtin::Substr => substr_row(alloc, args),
        Builtin::Strpos => strpos_row(args),
        Builtin::StrRepeat => str_repeat_row(alloc, args),
        Builtin::Implode => implode_row(alloc, args),
        Builtin::StrPad => str_pad_row(alloc, args),
        Builtin::Sprintf => sprintf_row(alloc, args),
        Builtin::Intval => of_intval(args, set),
        Builtin::Intdiv => intdiv_row(args, set),
        Builtin::ArrayMerge => array_value(array_merge(alloc, args)),
        Builtin::ArraySlice => array_slice_row(alloc, args),
        Builtin::ArrayReverse => array_reverse_row(alloc, args),
        Builtin::ArrayKeyExists => array_key_exists_row(alloc, args),
        Builtin::StrReplace | Builtin::InArray | Builtin::GetClass => {
            Err(CallStop::Fault(ScriptFault::UndefinedFunction))
        }
    }
}

fn of_text(alloc: Global, row: OneText, args: &[Value]) -> Result<Value, CallStop>
    ensures { GivesOrNoMemory (seen_answer result) (row_of_builtin (Builtin.OneText row) (trees_of args.now) empty) }
{
    let s = text_at(args, 0)?;
    one_text_row(alloc, row, s)
}

fn of_digest(alloc: Global, row: Digest, args: &[Value], set: &PSet) -> Result<Value, CallStop>
    ensures { GivesOrNoMemory (seen_answer result) (row_of_builtin (Builtin.Digest row) (trees_of args.now) set.now) }
{
    let s = text_at(args, 0)?;
    digest_row(alloc, row, s, set)
}

fn of_two_texts(alloc: Global, row: TwoTexts, args: &[Value]) -> Result<Value, CallStop>
    ensures { GivesOrNoMemory (seen_answer result) (row_of_builtin (Builtin.TwoTexts row) (trees_of args.now) empty) }
{
    let a = text_at(args, 0)?;
    let b = text_at(args, 1)?;
    two_text_row(alloc, row, a, b)
}

fn of_integer(alloc: Global, row: OneInteger, args: &[Value]) -> Result<Value, CallStop>
    ensures { GivesOrNoMemory (seen_answer result) (row_of_builtin (Builtin.OneInteger row) (trees_of args.now) empty) }
{
    match args.first() {
        Some(value) => integer_row(alloc, row, value),
        None => Err(CallStop::Throw(ErrorKind::Type)),
    }
}

fn of_test(kind: Test, args: &[Value]) -> Result<Value, CallStop>
    ensures { GivesOrNoMemory (seen_answer result) (row_of_builtin (Builtin.Test kind) (trees_of args.now) empty) }
{
    let value = value_at(args, 0)?;
    Ok(Value::Bool(tested(kind, value)))
}

fn of_array(alloc: Global, row: OneArray, args: &[Value]) -> Result<Value, CallStop>
    ensures { GivesOrNoMemory (seen_answer result) (row_of_builtin (Builtin.OneArray row) (trees_of args.now) empty) }
{
    let a = array_at(args, 0)?;
    array_row(alloc, row, a)
}

fn of_intval(args: &[Value], set: &PSet) -> Result<Value, CallStop>
    ensures { GivesOrNoMemory (seen_answer result) (row_of_builtin Builtin.Intval (trees_of args.now) set.now) }
{
    let value = value_at(args, 0)?;
    intval_row(value, set)
}
