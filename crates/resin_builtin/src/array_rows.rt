//! The functions of arrays.
ghost use Rattle.std.specs.Prelude.{◌≡◌};
ghost use Rattle.resin_array_fn.specs.Under.value.Seen.{trees_of};
ghost use Rattle.resin_array_fn.specs.Under.ops.Places.{seen_answer};
ghost use Rattle.resin_array_fn.specs.Under.text_fn.Stops.{GivesOrNoMemory};
ghost use Rattle.resin_builtin.specs.Rows.{array_row, array_slice_row, array_reverse_row, array_key_exists_row};
ghost use Rattle.resin_builtin.specs.Calls.{in_array_row};

use crate::answers::{array_value, bool_value, number_value};
use crate::arguments::{array_at, count_at, flag_at, number_at, value_at};
use crate::builtin::OneArray;
use resin_array_fn::under::value::{Arr, Value};
use resin_array_fn::{
    array_key_exists, array_keys, array_reverse, array_slice, array_values, count, in_array,
};
use resin_format::under::scalar::{CallStop, Ticks};
use std::alloc::Global;

// A function of one array.
pub(crate) fn array_row(alloc: Global, row: OneArray, a: &Arr) -> Result<Value, CallStop>
    ensures { GivesOrNoMemory (seen_answer result) (array_row row a.now) }
{
    match row {
        OneArray::Count => number_value(count(a)),
        OneArray::Keys => array_value(array_keys(alloc, a)),
        OneArray::Values => array_value(array_values(alloc, a)),
    }
}

pub(crate) fn array_slice_row(alloc: Global, args: &[Value]) -> Result<Value, CallStop>
    ensures { GivesOrNoMemory (seen_answer result) (array_slice_row (trees_of args.now)) }
{
    let a = array_at(args, 0)?;
    let offset = number_at(args, 1)?;
    let count = count_at(args, 2)?;
    array_value(array_slice(alloc, a, offset, count, flag_at(args, 3)))
}

pub(crate) fn array_reverse_row(alloc: Global, args: &[Value]) -> Result<Value, CallStop>
    ensures { GivesOrNoMemory (seen_answer result) (array_reverse_row (trees_of args.now)) }
{
    let a = array_at(args, 0)?;
    array_value(array_reverse(alloc, a, flag_at(args, 1)))
}

pub(crate) fn array_key_exists_row(alloc: Global, args: &[Value]) -> Result<Value, CallStop>
    ensures { GivesOrNoMemory (seen_answer result) (array_key_exists_row (trees_of args.now)) }
{
    let key = value_at(args, 0)?;
    let a = array_at(args, 1)?;
    bool_value(array_key_exists(alloc, key, a))
}

// `in_array`, which charges the comparisons.
pub(crate) fn in_array_row(args: &[Value], ticks: &mut Ticks) -> Result<Value, CallStop>
    ensures answer { seen_answer result ≡ (in_array_row (trees_of args.now) ticks.old.left).0 }
    ensures charged { ticks.new.left ≡ (in_array_row (trees_of args.now) ticks.old.left).1 }
{
    let needle = value_at(args, 0)?;
    let a = array_at(args, 1)?;
    bool_value(in_array(needle, a, flag_at(args, 2), ticks))
}
