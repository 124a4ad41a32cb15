//! Writing session texts.
ghost use Rattle.std.specs.Prelude.{◌≡◌, ◌++◌, ◌∷◌, [], true, length, decimal, OnOk, IfOk};
ghost use Rattle.std.specs.Fmt.{signed_decimal};
ghost use Rattle.std.specs.List.{list_all, AllByRecursion};
ghost use Rattle.resin_value.specs.Under.label.Sets.{empty};
ghost use Rattle.resin_value.specs.Under.lstr.Texts.{carrying};
ghost use Rattle.resin_value.specs.Under.lstr.Faults.{GivesText};
ghost use Rattle.resin_value.specs.Seen.{tree_of};
ghost use Rattle.resin_session.specs.Texts as texts;
ghost use Rattle.resin_session.specs.Sessions.{IsInteger, IsInRange, IsKept};
ghost use Rattle.resin_session.specs.Answers.{GivesSession};

use crate::fault::SessionFault;
use itoa::Buffer;
use resin_value::under::bytes::{Bytes, decimal};
use resin_value::under::label::PSet;
use resin_value::under::lstr::{Builder, LText, TextFault};
use resin_value::{Arr, Key, Value};
use std::alloc::{AllocError, Global};

// Whether a value is kept: an integer or a text.
fn is_storable(value: &Value) -> bool
    ensures { result ≡ texts.is_storable (tree_of value.now) }
{
    matches!(value, Value::Int(_, _) | Value::Text(_))
}

// Whether each value of an array is kept.
fn are_storable(array: &Arr) -> bool
    ensures { result ≡ list_all (λ e. texts.is_storable e.1) array.now.entries }
{
    for i in 0..array.len() {
        let (_, value) = array.entry(i);
        if !is_storable(value) {
            return false;
        }
    }
    true
}

// The letter of a value's kind.
fn letter(value: &Value) -> u8
    ensures { result ≡ texts.letter (tree_of value.now) }
{
    match value {
        Value::Int(_, _) => b'i',
        _ => b's',
    }
}

// An integer as a canonical decimal.
fn integer_text(alloc: Global, number: i64) -> Result<Bytes, AllocError>
    ensures text { IfOk result (λ bytes. bytes ≡ signed_decimal number) }
    ensures range { IsInteger number }
{
    decimal(alloc, number)
}

// A value as a text.
fn value_text(alloc: Global, value: &Value) -> Result<LText, TextFault>
    requires { texts.is_storable (tree_of value.now) ≡ true }
    ensures text { GivesText result (texts.value_text (tree_of value.now)) }
    ensures kept { IsKept (tree_of value.now) }
{
    match value {
        Value::Int(number, labels) => {
            let digits = integer_text(alloc, *number)?;
            LText::with_set(alloc, digits.as_slice(), labels)
        }
        Value::Text(text) => {
            let _short = text.len();
            Ok(text.clone()?)
        }
        _ => unreachable!(),
    }
}

// A key as bytes.
fn key_text(alloc: Global, key: &Key) -> Result<Bytes, AllocError>
    ensures text { IfOk result (λ bytes. bytes ≡ texts.key_text key.now) }
    ensures range { IsInRange key.now }
{
    match key {
        Key::Int(number) => integer_text(alloc, *number),
        Key::Text(text) => Bytes::from_slice(alloc, text.as_slice()),
    }
}

// Puts a length last, behind a blank.
fn push_len(text: &mut Bytes, len: usize) -> Result<(), AllocError>
    ensures { OnOk result (text.new ≡ text.old ++ 32 ∷ decimal len) }
{
    let mut buffer = Buffer::new();
    text.push(b' ')?;
    text.push_slice(buffer.format(len).as_bytes())
}

// What stands before a value of so many bytes.
fn head_text(alloc: Global, kind: u8, key: &[u8], len: usize) -> Result<Bytes, AllocError>
    ensures { IfOk result (λ bytes. bytes ≡ texts.head_text kind key.now len) }
{
    let mut text = Bytes::new(alloc);
    text.push(kind)?;
    push_len(&mut text, key.len())?;
    push_len(&mut text, len)?;
    text.push(b'\n')?;
    text.push_slice(key)?;
    Ok(text)
}

// Puts what stands before a value, the value and a newline last.
fn push_parts(out: Builder, head: &[u8], value: &LText) -> Result<Builder, TextFault>
    ensures { GivesText result (out ++ (carrying empty head.now ++ (value.now ++ carrying empty (10 ∷ [])))) }
{
    let none = PSet::empty();
    let out = out.append_bytes(head, &none)?;
    let out = out.append(value)?;
    out.append_bytes(b"\n", &none)
}

// Puts an entry last.
fn push_entry(alloc: Global, out: Builder, key: &Key, value: &Value) -> Result<Builder, TextFault>
    requires { texts.is_storable (tree_of value.now) ≡ true }
    ensures text { GivesText result (out ++ texts.entry_text (key.now, tree_of value.now)) }
    ensures key { OnOk result (IsInRange key.now) }
    ensures kept { OnOk result (IsKept (tree_of value.now)) }
{
    let text = value_text(alloc, value)?;
    let bytes = key_text(alloc, key)?;
    let name = bytes.as_slice();
    let kind = letter(value);
    let len = text.len();
    let head = head_text(alloc, kind, name, len)?;
    push_parts(out, head.as_slice(), &text)
}

// The text of entries whose values are all kept.
fn entries_text(alloc: Global, array: &Arr) -> Result<LText, TextFault>
    requires { list_all (λ e. texts.is_storable e.1) array.now.entries ≡ true }
    ensures text { GivesText result (texts.session_text array.now.entries) }
    ensures keys { OnOk result (AllByRecursion (λ e. IsInRange e.0) array.now.entries) }
    ensures values { OnOk result (AllByRecursion (λ e. IsKept e.1) array.now.entries) }
{
    let mut out = Builder::new(alloc);
    for i in 0..array.len() {
        let (key, value) = array.entry(i);
        out = push_entry(alloc, out, key, value)?;
    }
    Ok(out.finish()?)
}

/// The session text of an array: what `read_session` gives the entries of the array back from, in their order. `NotStorable` comes exactly
/// where a value is neither an integer nor a text, `TooLong` exactly where all are and the text would pass 16,777,216 bytes.
pub fn write_session(alloc: Global, array: &Arr) -> Result<LText, SessionFault>
    ensures { GivesSession array.now.entries result }
{
    if !are_storable(array) {
        return Err(SessionFault::NotStorable);
    }
    let _len = array.len();
    let session = entries_text(alloc, array)?;
    Ok(session)
}
