//! Stores into values, and what stands in them.
ghost use Rattle.std.specs.Prelude.{◌≡◌, ◌≤◌, ◌∷◌, [], IfOk, OnOk, IsTrue, Ok};
ghost use Rattle.resin_ops.specs.Under.value.Keys.{is_lawful};
ghost use Rattle.resin_ops.specs.Under.value.Changes.{empty as empty_array};
ghost use Rattle.resin_ops.specs.Under.value.declared.value.Value.{Value as AnyValue};
ghost use Rattle.resin_ops.specs.Under.value.Changes.{height_in};
ghost use Rattle.resin_ops.specs.Under.value.Seen.{tree_of};
ghost use Rattle.resin_target.specs.Reads.{GivesOrNoMemory, on, value_at as value_in};
ghost use Rattle.resin_target.specs.Stores as rule;
ghost use Rattle.resin_target.specs.Heights.{raised_to, height_of};

use crate::path::Index;
use crate::reads::value_at;
use resin_ops::to_key;
use resin_ops::under::scalar::{CallStop, ErrorKind, ScriptFault};
use resin_ops::under::value::{Arr, ArrFault, Key, MAX_HEIGHT, Value};
use std::alloc::{AllocError, Global};

// The key that an index means in an array.
fn key_in(alloc: Global, index: &Index, array: &Arr) -> Result<Key, CallStop>
    ensures value { GivesOrNoMemory result (rule.key_in index.now array.now) }
    ensures lawful { IfOk result (λ key. IsTrue (is_lawful key)) }
{
    match index {
        Index::At(value) => to_key(alloc, value),
        Index::Next => match array.next_key() {
            Some(n) => Ok(Key::Int(n)),
            None => Err(CallStop::Throw(ErrorKind::Plain)),
        },
    }
}

// The array that a value is; null makes one.
fn array_of(alloc: Global, here: Value) -> Result<Arr, CallStop>
    ensures { GivesOrNoMemory result (rule.on_array here (Ok empty_array) Ok) }
{
    match here {
        Value::Null => Ok(Arr::new(alloc)?),
        Value::Arr(array) => Ok(array),
        _ => Err(CallStop::Fault(ScriptFault::BadOperand)),
    }
}

// Takes the value at a key out of an array, of which nothing is copied where none else holds it: null stands there meanwhile. What is put there next
// makes the same of the array as it would have made before.
fn take_at(array: &mut Arr, key: &Key) -> Result<Value, AllocError>
    requires { IsTrue (is_lawful key.now) }
    ensures value { IfOk result (λ v. v ≡ value_in key.now array.old) }
    ensures next { OnOk result ((v : AnyValue) → rule.put_in key.now v array.new ≡ rule.put_in key.now v array.old) }
{
    let below = value_at(array, key)?;
    match array.put(key, Value::Null) {
        Ok(()) => Ok(below),
        Err(_) => Err(AllocError),
    }
}

// The array with a value put at a key, as a value.
fn put_in(array: Arr, key: &Key, v: Value) -> Result<Value, CallStop>
    requires { IsTrue (is_lawful key.now) }
    ensures { GivesOrNoMemory result (rule.put_in key.now v array) }
{
    let mut array = array;
    match array.put(key, v) {
        Ok(()) => Ok(Value::Arr(array)),
        Err(ArrFault::TooHigh) => Err(CallStop::Fault(ScriptFault::ArrayTooDeep)),
        Err(_) => Err(CallStop::Memory),
    }
}

// What stands here once a value is stored under one index: what stood there is overwritten, and not taken out first.
fn stored_last(alloc: Global, here: Value, index: &Index, v: Value) -> Result<Value, CallStop>
    ensures { GivesOrNoMemory result (rule.stored (index.now ∷ []) v here) }
{
    let array = array_of(alloc, here)?;
    let key = key_in(alloc, index, &array)?;
    put_in(array, &key, v)
}

/// What stands here once a value is stored under these indices. An array that none else holds is changed in its place.
#[cycle(storing)]
pub(crate) fn stored(
    alloc: Global,
    here: Value,
    indices: &[Index],
    v: Value,
) -> Result<Value, CallStop>
    ensures { GivesOrNoMemory result (rule.stored indices.now v here) }
{
    match indices {
        [] => Ok(v),
        [last] => stored_last(alloc, here, last, v),
        [index, rest @ ..] => {
            let mut array = array_of(alloc, here)?;
            let key = key_in(alloc, index, &array)?;
            let below = take_at(&mut array, &key)?;
            let below = stored(alloc, below, rest, v)?;
            put_in(array, &key, below)
        }
    }
}

/// What stands here once the key under these indices is taken out. An array that none else holds is changed in its place.
#[cycle(erasing)]
pub(crate) fn erased(alloc: Global, here: Value, indices: &[Index]) -> Result<Value, CallStop>
    ensures { GivesOrNoMemory result (rule.erased indices.now here) }
{
    match indices {
        [] => Ok(here),
        [index, rest @ ..] => match here {
            Value::Null => Ok(Value::Null),
            Value::Arr(array) => {
                let key = key_in(alloc, index, &array)?;
                changed_at(alloc, array, &key, rest)
            }
            _ => Err(CallStop::Fault(ScriptFault::BadOperand)),
        },
    }
}

// An array in which a key goes, or in which the value at the key changes, if there is one.
#[cycle(erasing)]
fn changed_at(alloc: Global, array: Arr, key: &Key, rest: &[Index]) -> Result<Value, CallStop>
    requires { IsTrue (is_lawful key.now) }
    ensures { GivesOrNoMemory result (rule.changed_at rest.now (λ below. rule.erased rest.now below) key.now array) }
{
    let mut array = array;
    if rest.is_empty() {
        let _was = array.remove(key)?;
        return Ok(Value::Arr(array));
    }
    if array.get(key).is_none() {
        return Ok(Value::Arr(array));
    }
    let below = take_at(&mut array, key)?;
    let below = erased(alloc, below, rest)?;
    put_in(array, key, below)
}

/// What stands under these indices; null where nothing does.
#[cycle(finding)]
pub(crate) fn found(alloc: Global, here: &Value, indices: &[Index]) -> Result<Value, CallStop>
    ensures { GivesOrNoMemory result (rule.found indices.now here.now) }
{
    match indices {
        [] => Ok(here.clone()?),
        [index, rest @ ..] => match here {
            Value::Null => Ok(Value::Null),
            Value::Arr(array) => {
                let key = key_in(alloc, index, array)?;
                found_below(alloc, array, &key, rest)
            }
            _ => Err(CallStop::Fault(ScriptFault::BadOperand)),
        },
    }
}

// The same under the value at a key.
#[cycle(finding)]
fn found_below(alloc: Global, array: &Arr, key: &Key, rest: &[Index]) -> Result<Value, CallStop>
    ensures { GivesOrNoMemory result (rule.found rest.now (value_in key.now array.now)) }
{
    match array.get(key) {
        Some(below) => found(alloc, below, rest),
        None => Ok(Value::Null),
    }
}

// The height that a value gives an array that holds it.
fn height_in(v: &Value) -> u32
    ensures value { result ≡ height_in (tree_of v.now) }
    ensures low { result ≤ 101 }
{
    match v {
        Value::Arr(array) => array.height() + 1,
        _ => 1,
    }
}

// The same of an array of this height, once a value of that height was put into it.
fn raised(height: u32, below: Result<u32, CallStop>) -> Result<u32, CallStop>
    ensures { result ≡ on below (raised_to height) }
{
    match below {
        Ok(below) => {
            let height = height.max(below);
            if height > MAX_HEIGHT {
                return Err(CallStop::Fault(ScriptFault::ArrayTooDeep));
            }
            Ok(height + 1)
        }
        Err(stop) => Err(stop),
    }
}

/// What `stored` comes to, without a change: how high the value would be, or why there is none.
#[cycle(heights)]
pub(crate) fn stored_height(
    alloc: Global,
    here: &Value,
    indices: &[Index],
    v: &Value,
) -> Result<u32, CallStop>
    ensures { GivesOrNoMemory result (height_of (rule.stored indices.now v.now here.now)) }
{
    match indices {
        [] => Ok(height_in(v)),
        [index, rest @ ..] => match here {
            Value::Null => {
                let array = Arr::new(alloc)?;
                height_with(alloc, &array, index, rest, v)
            }
            Value::Arr(array) => height_with(alloc, array, index, rest, v),
            _ => Err(CallStop::Fault(ScriptFault::BadOperand)),
        },
    }
}

// The same of a store into an array.
#[cycle(heights)]
fn height_with(
    alloc: Global,
    array: &Arr,
    index: &Index,
    rest: &[Index],
    v: &Value,
) -> Result<u32, CallStop>
    ensures { GivesOrNoMemory result (height_of (rule.with_change index.now (λ below. rule.stored rest.now v.now below) array.now)) }
{
    let key = key_in(alloc, index, array)?;
    if rest.is_empty() {
        return raised(array.height(), Ok(height_in(v)));
    }
    match array.get(&key) {
        Some(below) => raised(array.height(), stored_height(alloc, below, rest, v)),
        None => raised(array.height(), stored_height(alloc, &Value::Null, rest, v)),
    }
}

/// What `erased` comes to, without a change: how high the value would be, or why there is none.
#[cycle(erased_heights)]
pub(crate) fn erased_height(alloc: Global, here: &Value, indices: &[Index]) -> Result<u32, CallStop>
    ensures { GivesOrNoMemory result (height_of (rule.erased indices.now here.now)) }
{
    match indices {
        [] => Ok(height_in(here)),
        [index, rest @ ..] => match here {
            Value::Null => Ok(1),
            Value::Arr(array) => {
                let key = key_in(alloc, index, array)?;
                height_without(alloc, array, &key, rest)
            }
            _ => Err(CallStop::Fault(ScriptFault::BadOperand)),
        },
    }
}

// The same of an array in which a key goes, or in which the value at the key changes.
#[cycle(erased_heights)]
fn height_without(alloc: Global, array: &Arr, key: &Key, rest: &[Index]) -> Result<u32, CallStop>
    ensures { GivesOrNoMemory result (height_of (rule.changed_at rest.now (λ below. rule.erased rest.now below) key.now array.now)) }
{
    if rest.is_empty() {
        return Ok(array.height() + 1);
    }
    match array.get(key) {
        Some(below) => raised(array.height(), erased_height(alloc, below, rest)),
        None => Ok(array.height() + 1),
    }
}
