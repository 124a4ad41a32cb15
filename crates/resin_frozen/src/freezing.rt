//! Writing policy texts.
ghost use Rattle.std.specs.Prelude.{◌≡◌, ◌≤◌, ◌++◌, OnOk, IfOk, Some, true, length, decimal, option_copied};
ghost use Rattle.std.specs.List.{list_all};
ghost use Rattle.std.specs.Map.{lookup};
ghost use Rattle.std.specs.Str.{bytes_eq};
ghost use Rattle.resin_value.specs.Under.lstr.declared.limits.TheConstants.{LONGEST};
ghost use Rattle.resin_value.specs.Under.lstr.Texts.{bytes_of};
ghost use Rattle.resin_value.specs.Arrays.{row_of};
ghost use Rattle.resin_value.specs.Seen.{tree_of};
ghost use Rattle.resin_frozen.specs.Texts as texts;
ghost use Rattle.resin_frozen.specs.Policies.{ROOM, IsPolicyText, IsCount, IsInteger, IsWholeKey, is_name, is_field_key, is_storable, are_storable};
ghost use Rattle.resin_frozen.specs.Policies.{IsWhole, AreWhole, pairs_of, lost, named, text_of, frozen, HasFieldNames, tree_of_array};
ghost use Rattle.resin_frozen.specs.Reads.{Writes, Freezes};

use crate::fault::FreezeFault;
use crate::frozen::Frozen;
use crate::keys::{is_field_key, is_name};
use itoa::Buffer;
use resin_items::SharedBytes;
use resin_value::under::bytes::Bytes;
use resin_value::under::lstr::LText;
use resin_value::{Arr, Fields, Key, Value};
use std::alloc::{AllocError, Global};

// Puts a number last, in decimal.
fn push_number(text: &mut Bytes, number: usize) -> Result<(), AllocError>
    ensures { OnOk result (text.new ≡ text.old ++ decimal number) }
{
    let mut buffer = Buffer::new();
    text.push_slice(buffer.format(number).as_bytes())
}

// Puts bytes behind their count last: `n:"bytes"`.
fn push_quoted(text: &mut Bytes, bytes: &[u8]) -> Result<(), AllocError>
    ensures text { OnOk result (text.new ≡ text.old ++ texts.quoted bytes.now) }
    ensures count { IsCount (length bytes.now) }
{
    push_number(text, bytes.len())?;
    text.push_slice(b":\"")?;
    text.push_slice(bytes)?;
    text.push(b'"')
}

// Puts an integer last.
fn push_integer(text: &mut Bytes, number: i64) -> Result<(), AllocError>
    ensures text { OnOk result (text.new ≡ text.old ++ texts.integer_text number) }
    ensures range { IsInteger number }
{
    let mut buffer = Buffer::new();
    text.push_slice(b"i:")?;
    text.push_slice(buffer.format(number).as_bytes())?;
    text.push_slice(b";")
}

// Puts bytes as a text last.
fn push_bytes(text: &mut Bytes, bytes: &[u8]) -> Result<(), AllocError>
    ensures text { OnOk result (text.new ≡ text.old ++ texts.bytes_text bytes.now) }
    ensures count { IsCount (length bytes.now) }
{
    let _count = bytes.len();
    text.push_slice(b"s:")?;
    push_quoted(text, bytes)?;
    text.push_slice(b";")
}

// Puts a text without its labels last.
fn push_text(text: &mut Bytes, value: &LText) -> Result<(), AllocError>
    ensures text { OnOk result (text.new ≡ text.old ++ texts.bytes_text (bytes_of value.now)) }
    ensures short { length value.now ≤ LONGEST }
{
    let _short = value.len();
    push_bytes(text, value.bytes())
}

fn push_boolean(text: &mut Bytes, b: bool) -> Result<(), AllocError>
    ensures { OnOk result (text.new ≡ text.old ++ texts.boolean_text b) }
{
    if b {
        text.push_slice(b"b:1;")
    } else {
        text.push_slice(b"b:0;")
    }
}

fn push_key(text: &mut Bytes, key: &Key) -> Result<(), AllocError>
    ensures text { OnOk result (text.new ≡ text.old ++ texts.key_text key.now) }
    ensures whole { IsWholeKey key.now }
{
    match key {
        Key::Int(number) => push_integer(text, *number),
        Key::Text(bytes) => push_bytes(text, bytes.as_slice()),
    }
}

// Puts a value last, in which at most so many arrays may stand one in another.
#[cycle(freezing)]
fn push_value(text: &mut Bytes, value: &Value, room: usize) -> Result<(), FreezeFault>
    ensures { Writes text.old (texts.value_text (tree_of value.now))
        (is_storable room (tree_of value.now)) (IsWhole room (tree_of value.now)) result text.new }
{
    match value {
        Value::Null => text.push_slice(b"N;")?,
        Value::Bool(b) => push_boolean(text, *b)?,
        Value::Int(number, _) => push_integer(text, *number)?,
        Value::Text(bytes) => push_text(text, bytes)?,
        Value::Arr(array) => return push_array(text, array, room),
        Value::Obj(_) => return Err(FreezeFault::NotStorable),
    }
    Ok(())
}

// Puts an array last, where at most so many may stand one in another, this one counted.
#[cycle(freezing)]
fn push_array(text: &mut Bytes, array: &Arr, room: usize) -> Result<(), FreezeFault>
    ensures { Writes text.old (texts.value_text (tree_of_array array.now))
        (is_storable room (tree_of_array array.now)) (IsWhole room (tree_of_array array.now)) result text.new }
{
    if room == 0 {
        return Err(FreezeFault::NotStorable);
    }
    text.push_slice(b"a:")?;
    push_number(text, array.len())?;
    text.push_slice(b":{")?;
    let inner = room - 1;
    push_pairs(text, array, inner)?;
    text.push(b'}')?;
    Ok(())
}

// Puts the pairs of an array last.
#[cycle(freezing)]
fn push_pairs(text: &mut Bytes, array: &Arr, room: usize) -> Result<(), FreezeFault>
    ensures { Writes text.old (texts.pairs_text (row_of array.now.entries))
        (are_storable room (row_of array.now.entries)) (AreWhole room (row_of array.now.entries)) result text.new }
{
    for i in 0..array.len() {
        let (key, value) = array.entry(i);
        push_key(text, key)?;
        push_value(text, value, room)?;
    }
    Ok(())
}

// Puts fields as pairs last.
fn push_fields(text: &mut Bytes, fields: &[(Bytes, Value)]) -> Result<(), FreezeFault>
    ensures { Writes text.old (texts.pairs_text (row_of (pairs_of fields.now)))
        (are_storable ROOM (row_of (pairs_of fields.now))) (AreWhole ROOM (row_of (pairs_of fields.now))) result text.new }
{
    for (name, value) in fields {
        push_bytes(text, name.as_slice())?;
        push_value(text, value, 8)?;
    }
    Ok(())
}

// Puts what stands before the pairs of a policy last.
fn push_head(text: &mut Bytes, class: &[u8], count: usize) -> Result<(), AllocError>
    ensures { OnOk result (text.new ≡ text.old ++ texts.policy_head class.now count) }
{
    text.push_slice(b"O:")?;
    push_quoted(text, class)?;
    text.push(b':')?;
    push_number(text, count)?;
    text.push_slice(b":{")
}

// The text that was written, in shared hands.
fn finished(alloc: Global, text: &Bytes) -> Result<Frozen, AllocError>
    requires { IsPolicyText text.now }
    ensures { IfOk result (λ f. f ≡ text.now) }
{
    let bytes = SharedBytes::from_slice(alloc, text.as_slice())?;
    Ok(Frozen::kept(bytes))
}

// The text of a class and its fields.
fn freeze_fields(
    alloc: Global,
    class: &[u8],
    fields: &[(Bytes, Value)],
) -> Result<Frozen, FreezeFault>
    requires name { is_name class.now ≡ true }
    requires short { length class.now ≤ LONGEST }
    requires names { HasFieldNames fields.now }
    ensures { Freezes (text_of (Some (class.now, pairs_of fields.now))) result }
{
    let count = fields.len();
    let mut text = Bytes::new(alloc);
    push_head(&mut text, class, count)?;
    push_fields(&mut text, fields)?;
    text.push(b'}')?;
    Ok(finished(alloc, &text)?)
}

// The text of a class and pairs.
fn freeze_pairs(alloc: Global, class: &[u8], pairs: &Arr) -> Result<Frozen, FreezeFault>
    requires name { is_name class.now ≡ true }
    requires short { length class.now ≤ LONGEST }
    requires names { list_all (λ e. is_field_key e.0) pairs.now.entries ≡ true }
    ensures { Freezes (text_of (Some (class.now, pairs.now.entries))) result }
{
    let count = pairs.len();
    let mut text = Bytes::new(alloc);
    push_head(&mut text, class, count)?;
    push_pairs(&mut text, pairs, 8)?;
    text.push(b'}')?;
    Ok(finished(alloc, &text)?)
}

// The value of the field of a name.
fn field<'a>(fields: &'a [(Bytes, Value)], name: &[u8]) -> Option<&'a Value>
    ensures { option_copied result ≡ lookup (bytes_eq name.now) fields.now }
{
    for (other, value) in fields {
        if other.as_slice() == name {
            return Some(value);
        }
    }
    None
}

// Whether each key is a name.
fn are_names(pairs: &Arr) -> bool
    ensures { result ≡ list_all (λ e. is_field_key e.0) pairs.now.entries }
{
    for i in 0..pairs.len() {
        let (key, _) = pairs.entry(i);
        if !is_field_key(key) {
            return false;
        }
    }
    true
}

// The text of what a lost policy was.
fn freeze_lost(alloc: Global, fields: &Fields) -> Result<Frozen, FreezeFault>
    ensures { Freezes (text_of (lost fields.now)) result }
{
    let fields = fields.as_slice();
    match (field(fields, b"of"), field(fields, b"fields")) {
        (Some(Value::Text(class)), Some(Value::Arr(pairs))) => freeze_named(alloc, class, pairs),
        _ => Err(FreezeFault::NotStorable),
    }
}

// The text of the class of a name and pairs, where these are names.
fn freeze_named(alloc: Global, class: &LText, pairs: &Arr) -> Result<Frozen, FreezeFault>
    ensures { Freezes (text_of (named (bytes_of class.now) pairs.now.entries)) result }
{
    let _short = class.len();
    if is_name(class.bytes()) && are_names(pairs) {
        freeze_pairs(alloc, class.bytes(), pairs)
    } else {
        Err(FreezeFault::NotStorable)
    }
}

/// The policy text of an object of the class `class` with these fields, without the labels inside them. The class and the names of the
/// fields must be names, the class at most 16,777,216 bytes long, and no two fields may have one name. For `LostPolicy` it is the text of
/// the class that the field `of` names, with the pairs of the array `fields`: what the policy was before its class was missing.
///
/// `NotStorable` comes exactly where a field holds an object, or more than 8 arrays one in another; for `LostPolicy` exactly where `of`
/// isn't a text that is a name, or `fields` isn't an array whose keys are names and whose values can be stored.
pub fn freeze(alloc: Global, class: &[u8], fields: &Fields) -> Result<Frozen, FreezeFault>
    requires name { is_name class.now ≡ true }
    requires short { length class.now ≤ LONGEST }
    requires names { HasFieldNames fields.now }
    ensures { Freezes (frozen class.now fields.now) result }
{
    if class == b"LostPolicy".as_slice() {
        freeze_lost(alloc, fields)
    } else {
        freeze_fields(alloc, class, fields.as_slice())
    }
}
