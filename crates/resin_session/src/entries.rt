//! Reading the entries of a session text.
ghost use Rattle.std.specs.Prelude.{◌≡◌, IfOk, IsTrue};
ghost use Rattle.resin_value.specs.Keys.{is_lawful};
ghost use Rattle.resin_session.specs.Reading as spec;
ghost use Rattle.resin_session.specs.Sessions.{array_of};
ghost use Rattle.resin_session.specs.Answers.{Reads, Is, IsValue, ReadsValue, ReadsArray};

use crate::labels::one_set;
use crate::rest::Rest;
use crate::stop::Stop;
use resin_value::under::bytes::canonical_key;
use resin_value::under::lstr::LText;
use resin_value::{Arr, Key, Value};
use std::alloc::Global;

// The kind of a value.
#[derive(Clone, Copy)]
pub(crate) enum Kind {
    Integer,
    Text,
}

// What an entry begins with: its kind, the lengths of its key and of its value.
#[derive(Clone, Copy)]
pub(crate) struct Head {
    kind: Kind,
    key_len: usize,
    value_len: usize,
}

// The kind that a letter stands for.
#[tactic(auto, unfolding(crate::specs::Reading::kind))]
fn kind_of(letter: &[u8]) -> Result<Kind, Stop>
    ensures { Is (spec.kind letter.now) result }
{
    if letter == b"s".as_slice() {
        Ok(Kind::Text)
    } else if letter == b"i".as_slice() {
        Ok(Kind::Integer)
    } else {
        Err(Stop::Form)
    }
}

// The head of the entry in front.
#[tactic(auto, unfolding(crate::specs::Reading::head))]
fn read_head(alloc: Global, rest: &mut Rest<'_>) -> Result<Head, Stop>
    ensures { Reads (spec.head rest.old) result rest.new }
{
    let letter = rest.plain(alloc, 1)?;
    let kind = kind_of(letter)?;
    rest.pass(alloc, b' ')?;
    let key_len = rest.count(alloc, b' ')?;
    let value_len = rest.count(alloc, b'\n')?;
    Ok(Head {
        kind,
        key_len,
        value_len,
    })
}

// A key of so many bytes.
#[tactic(auto, unfolding(crate::specs::Reading::key))]
fn read_key(alloc: Global, rest: &mut Rest<'_>, len: usize) -> Result<Key, Stop>
    ensures reads { Reads (spec.key len rest.old) result rest.new }
    ensures lawful { IfOk result (λ k. IsTrue (is_lawful k)) }
{
    let bytes = rest.plain(alloc, len)?;
    let key = Key::from_text(alloc, bytes)?;
    Ok(key)
}

// The integer that a text is, which has a set of its own.
#[tactic(auto, unfolding(crate::specs::Reading::number))]
fn number(text: &LText) -> Result<Value, Stop>
    ensures { IsValue (spec.number text.now) result }
{
    let Some(set) = one_set(text) else {
        return Err(Stop::Form);
    };
    let Some(number) = canonical_key(text.bytes()) else {
        return Err(Stop::Form);
    };
    Ok(Value::Int(number, set.clone()?))
}

// The value of a kind that a text is.
#[tactic(auto, unfolding(crate::specs::Reading::value))]
fn value(kind: Kind, text: LText) -> Result<Value, Stop>
    ensures { IsValue (spec.value kind text) result }
{
    match kind {
        Kind::Text => Ok(Value::Text(text)),
        Kind::Integer => number(&text),
    }
}

// The value behind a key, and the newline behind it.
#[tactic(auto, unfolding(crate::specs::Reading::value_line))]
fn read_value(alloc: Global, rest: &mut Rest<'_>, kind: Kind, len: usize) -> Result<Value, Stop>
    ensures { ReadsValue (spec.value_line kind len rest.old) result rest.new }
{
    let text = rest.take(alloc, len)?;
    rest.pass(alloc, b'\n')?;
    value(kind, text)
}

// The array with the entry in front, whose key isn't there yet.
#[tactic(auto, unfolding(crate::specs::Reading::more))]
pub(crate) fn read_entry(alloc: Global, rest: &mut Rest<'_>, array: Arr) -> Result<Arr, Stop>
    requires { array ≡ array_of array.entries }
    ensures { ReadsArray (spec.more array.entries rest.old) result rest.new }
{
    let mut array = array;
    let head = read_head(alloc, rest)?;
    let key = read_key(alloc, rest, head.key_len)?;
    if array.get(&key).is_some() {
        return Err(Stop::Form);
    }
    let value = read_value(alloc, rest, head.kind, head.value_len)?;
    match array.put(&key, value) {
        Ok(()) => Ok(array),
        Err(_) => Err(Stop::Memory),
    }
}
