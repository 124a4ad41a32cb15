//! Reading the values of fields.
ghost use Rattle.std.specs.Prelude.{◌≡◌, ◌≤◌, ◌+◌, IfOk};
ghost use Rattle.resin_value.specs.Changes.{height_in};
ghost use Rattle.resin_value.specs.Seen.{tree_of};
ghost use Rattle.resin_frozen.specs.Reading as spec;
ghost use Rattle.resin_frozen.specs.Reading.{plain_text};
ghost use Rattle.resin_frozen.specs.Reads.{Reads, ReadsValue, Is};

use crate::keys::{Keys, read_key};
use crate::rest::Rest;
use crate::stop::Stop;
use resin_value::under::label::PSet;
use resin_value::under::lstr::{LText, TextFault};
use resin_value::{Arr, Value};
use std::alloc::Global;

// What stands behind `b:`.
#[tactic(auto, unfolding(crate::specs::Reading::boolean_behind))]
fn read_boolean(rest: &mut Rest<'_>) -> Result<Value, Stop>
    ensures reads { ReadsValue (spec.boolean_behind rest.old) result rest.new }
    ensures low { IfOk result (λ v. height_in (tree_of v) ≤ 1) }
{
    let word = rest.take(2)?;
    if word == b"0;".as_slice() {
        Ok(Value::Bool(false))
    } else if word == b"1;".as_slice() {
        Ok(Value::Bool(true))
    } else {
        Err(Stop::Form)
    }
}

// A text without labels.
fn plain(alloc: Global, bytes: &[u8]) -> Result<LText, Stop>
    ensures { Is (plain_text bytes.now) result }
{
    match LText::plain(alloc, bytes) {
        Ok(text) => Ok(text),
        Err(TextFault::TooLong) => Err(Stop::Form),
        Err(TextFault::Memory) => Err(Stop::Memory),
    }
}

// What stands behind `s:`.
#[tactic(auto, unfolding(crate::specs::Reading::text_behind))]
fn read_text(alloc: Global, rest: &mut Rest<'_>) -> Result<Value, Stop>
    ensures reads { ReadsValue (spec.text_behind rest.old) result rest.new }
    ensures low { IfOk result (λ v. height_in (tree_of v) ≤ 1) }
{
    let bytes = rest.counted()?;
    let text = plain(alloc, bytes)?;
    Ok(Value::Text(text))
}

// A value that is no array, behind its first two bytes.
#[tactic(auto, unfolding(crate::specs::Reading::scalar_behind))]
fn read_scalar(alloc: Global, rest: &mut Rest<'_>, kind: &[u8]) -> Result<Value, Stop>
    ensures reads { ReadsValue (spec.scalar_behind kind.now rest.old) result rest.new }
    ensures low { IfOk result (λ v. height_in (tree_of v) ≤ 1) }
{
    if kind == b"N;".as_slice() {
        Ok(Value::Null)
    } else if kind == b"b:".as_slice() {
        read_boolean(rest)
    } else if kind == b"i:".as_slice() {
        let number = rest.integer()?;
        Ok(Value::Int(number, PSet::empty()))
    } else if kind == b"s:".as_slice() {
        read_text(alloc, rest)
    } else {
        Err(Stop::Form)
    }
}

// A value in which at most so many arrays stand one in another.
#[cycle(reading)]
#[tactic(auto, unfolding(crate::specs::Reading::value, crate::specs::Reading::value_with, crate::specs::Reading::array_behind))]
pub(crate) fn read_value(alloc: Global, rest: &mut Rest<'_>, room: usize) -> Result<Value, Stop>
    requires { room ≤ 8 }
    ensures reads { ReadsValue (spec.value room rest.old) result rest.new }
    ensures low { IfOk result (λ v. height_in (tree_of v) ≤ room + 1) }
{
    let kind = rest.take(2)?;
    if kind != b"a:".as_slice() {
        return read_scalar(alloc, rest, kind);
    }
    if room == 0 {
        return Err(Stop::Form);
    }
    let inner = room - 1;
    let array = read_braced(alloc, rest, inner, Keys::Lawful)?;
    Ok(Value::Arr(array))
}

// `n:{pairs}`, as an array of these pairs.
#[cycle(reading)]
#[tactic(auto, unfolding(crate::specs::Reading::braced))]
pub(crate) fn read_braced(
    alloc: Global,
    rest: &mut Rest<'_>,
    room: usize,
    keys: Keys,
) -> Result<Arr, Stop>
    requires { room ≤ 8 }
    ensures reads { Reads (spec.braced (spec.value room) keys rest.old) result rest.new }
    ensures low { IfOk result (λ a. a.height ≤ room + 1) }
{
    let count = rest.natural(b':')?;
    rest.literal(b"{")?;
    let array = Arr::new(alloc)?;
    let array = read_pairs(alloc, rest, room, keys, count, array)?;
    rest.literal(b"}")?;
    Ok(array)
}

// So many pairs, put into an array.
#[cycle(reading)]
fn read_pairs(
    alloc: Global,
    rest: &mut Rest<'_>,
    room: usize,
    keys: Keys,
    count: u64,
    array: Arr,
) -> Result<Arr, Stop>
    requires room { room ≤ 8 }
    requires low { array.height ≤ room + 1 }
    ensures reads { Reads (spec.pairs (spec.value room) keys count array rest.old) result rest.new }
    ensures low { IfOk result (λ a. a.height ≤ room + 1) }
{
    let mut array = array;
    for _i in 0..count {
        array = read_pair(alloc, rest, room, keys, array)?;
    }
    Ok(array)
}

// A pair, whose key isn't there yet, put into an array.
#[cycle(reading)]
#[tactic(auto, unfolding(crate::specs::Reading::pair))]
fn read_pair(
    alloc: Global,
    rest: &mut Rest<'_>,
    room: usize,
    keys: Keys,
    array: Arr,
) -> Result<Arr, Stop>
    requires room { room ≤ 8 }
    requires low { array.height ≤ room + 1 }
    ensures reads { Reads (spec.pair (spec.value room) keys array rest.old) result rest.new }
    ensures low { IfOk result (λ a. a.height ≤ room + 1) }
{
    let mut array = array;
    let key = read_key(alloc, rest, keys)?;
    if array.get(&key).is_some() {
        return Err(Stop::Form);
    }
    let value = read_value(alloc, rest, room)?;
    match array.put(&key, value) {
        Ok(()) => Ok(array),
        Err(_) => Err(Stop::Memory),
    }
}
