//! Arrays of the entries of others.
ghost use Rattle.std.specs.Prelude.{◌≡◌, ◌≤◌, ◌^◌, length, reverse, IfOk, Ok};
ghost use Rattle.resin_ops.specs.Under.value.Seen.{tree_of, trees_of};
ghost use Rattle.resin_text_fn.specs.Stops.{GivesOrNoMemory};
ghost use Rattle.resin_text_fn.specs.Rows.{part_start, part_end};
ghost use Rattle.resin_array_fn.specs.Rows.{count, key_value, array_keys, array_values, array_merge, array_slice, array_reverse};
ghost use Rattle.resin_array_fn.specs.Filled.{filled_on, with_kept_keys, and_then};

use crate::fill::{with_entry, with_next, with_part};
use resin_ops::under::label::PSet;
use resin_ops::under::lstr::LText;
use resin_ops::under::scalar::{CallStop, ErrorKind};
use resin_ops::under::value::{Arr, Key, Value};
use std::alloc::{AllocError, Global};

/// `count`: the number of entries. Want of memory stands for more than 9,223,372,036,854,775,807, which no memory holds.
pub fn count(a: &Arr) -> Result<i64, CallStop>
    ensures { GivesOrNoMemory result (Ok (count a.now)) }
{
    i64::try_from(a.len()).map_err(|_| CallStop::Memory)
}

/// `array_keys`: the keys, in order, as the values of a list. They carry nothing.
pub fn array_keys(alloc: Global, a: &Arr) -> Result<Arr, CallStop>
    ensures { GivesOrNoMemory result (array_keys a.now) }
{
    let mut out = Arr::new(alloc)?;
    for i in 0..a.len() {
        let (key, _) = a.entry(i);
        out = with_next(out, key_value(alloc, key)?)?;
    }
    Ok(out)
}

// A key as a value.
fn key_value(alloc: Global, key: &Key) -> Result<Value, AllocError>
    ensures { IfOk result (λ value. tree_of value ≡ key_value key.now) }
{
    match key {
        Key::Int(n) => Ok(Value::Int(*n, PSet::empty())),
        Key::Text(bytes) => match LText::plain(alloc, bytes.as_slice()) {
            Ok(text) => Ok(Value::Text(text)),
            // A key comes from a text, so that it isn't too long for one.
            Err(_) => Err(AllocError),
        },
    }
}

/// `array_values`: the values, in order, as those of a list. `ArrayTooDeep` comes exactly where the list would be more than 100 arrays high.
pub fn array_values(alloc: Global, a: &Arr) -> Result<Arr, CallStop>
    ensures { GivesOrNoMemory result (array_values a.now) }
{
    let mut out = Arr::new(alloc)?;
    for i in 0..a.len() {
        let (_, value) = a.entry(i);
        out = with_next(out, value.clone()?)?;
    }
    Ok(out)
}

/// `array_merge`: the entries of all arrays, one array after the other. Integer keys are numbered anew from 0; a text key that is there already
/// takes the later value in its place. `TypeError` is thrown at the first value that isn't an array, and `ArrayTooDeep` comes where the array
/// would be more than 100 arrays high, whichever is first.
pub fn array_merge(alloc: Global, arrays: &[Value]) -> Result<Arr, CallStop>
    ensures { GivesOrNoMemory result (array_merge (trees_of arrays.now)) }
{
    let mut out = Arr::new(alloc)?;
    for value in arrays {
        let Value::Arr(a) = value else {
            return Err(CallStop::Throw(ErrorKind::Type));
        };
        out = with_part(out, a, 0, a.len(), false)?;
    }
    Ok(out)
}

/// `array_slice`: the entries from `offset` on, `count` of them. A negative offset counts from the end, at least 0; past the end the answer is
/// empty. A negative count leaves that many off the end, and `None` takes all. Integer keys are numbered anew from 0 unless `keep`.
pub fn array_slice(
    alloc: Global,
    a: &Arr,
    offset: i64,
    count: Option<i64>,
    keep: bool,
) -> Result<Arr, CallStop>
    ensures { GivesOrNoMemory result (array_slice a.now offset count keep) }
{
    let start = part_start(offset, a.len());
    let end = part_end(count, start, a.len());
    with_part(Arr::new(alloc)?, a, start, end, keep)
}

// Where a part begins among so many entries.
fn part_start(offset: i64, len: usize) -> usize
    ensures value { result ≡ part_start offset len }
    ensures within { result ≤ len }
{
    let distance = offset.unsigned_abs() as usize;
    if offset < 0 {
        len.saturating_sub(distance)
    } else {
        distance.min(len)
    }
}

// Where it ends.
fn part_end(count: Option<i64>, start: usize, len: usize) -> usize
    requires { start ≤ len }
    ensures value { result ≡ part_end count start len }
    ensures within { result ≤ len }
{
    match count {
        None => len,
        Some(n) if n < 0 => len.saturating_sub(n.unsigned_abs() as usize).max(start),
        Some(n) => start + (n as usize).min(len - start),
    }
}

/// `array_reverse`: the entries in the other order. Integer keys are numbered anew from 0 unless `keep`.
pub fn array_reverse(alloc: Global, a: &Arr, keep: bool) -> Result<Arr, CallStop>
    ensures { GivesOrNoMemory result (array_reverse a.now keep) }
{
    let mut out = Arr::new(alloc)?;
    let mut left = a.len();
    while left > 0 {
        left -= 1;
        let (key, value) = a.entry(left);
        out = with_entry(out, key, value.clone()?, keep)?;
    }
    Ok(out)
}
