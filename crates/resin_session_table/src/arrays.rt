//! How arrays are spelled in a row, read and written.

use crate::texts::{decimal_in, long_value, push_bytes, push_text, text_in};
use resin_value::under::bytes::canonical_key;
use resin_value::under::label::PSet;
use resin_value::under::lstr::{LText, TextFault};
use resin_value::{Arr, ArrFault, Key, Value};
use std::alloc::{AllocError, Global};

// The integer that a text spells, with the set of its first byte.
fn integer(text: &LText) -> Result<Value, AllocError> {
    let set = match text.runs() {
        [run, ..] => run.set.clone()?,
        [] => PSet::empty(),
    };
    Ok(Value::Int(canonical_key(text.bytes()).unwrap_or(0), set))
}

fn value_in(alloc: Global, field: &[u8]) -> Result<Value, TextFault> {
    match field {
        [b'i', rest @ ..] => Ok(integer(&text_in(alloc, rest)?)?),
        [b's', rest @ ..] => Ok(Value::Text(text_in(alloc, rest)?)),
        [b't', ..] => Ok(Value::Bool(true)),
        [b'a', ..] => Ok(Value::Arr(Arr::new(alloc)?)),
        [b'o', ..] => Ok(Value::Obj(1)),
        _ => Ok(Value::Null),
    }
}

fn key_in(alloc: Global, field: &[u8]) -> Result<Key, TextFault> {
    let text = text_in(alloc, field)?;
    Ok(Key::from_text(alloc, text.bytes())?)
}

// Puts a value at a key that may stand in an array.
fn put(array: &mut Arr, key: &Key, value: Value) -> Result<(), TextFault> {
    if !key.is_lawful() {
        return Err(TextFault::TooLong);
    }
    match array.put(key, value) {
        Ok(()) => Ok(()),
        Err(ArrFault::Memory) => Err(TextFault::Memory),
        Err(_) => Err(TextFault::TooLong),
    }
}

// Does to an array what an item says.
fn take_item(alloc: Global, array: &mut Arr, item: &[u8]) -> Result<(), TextFault> {
    if let [b'!', rest @ ..] = item {
        let key = key_in(alloc, rest)?;
        array.remove(&key)?;
        return Ok(());
    }
    match item.iter().position(|b| *b == b'=') {
        Some(end) => {
            let key = key_in(alloc, &item[..end])?;
            put(array, &key, value_in(alloc, &item[end + 1..])?)
        }
        None => Ok(()),
    }
}

/// The array that items spell.
pub fn array_in(alloc: Global, field: &[u8]) -> Result<Arr, TextFault> {
    let mut array = Arr::new(alloc)?;
    for item in field.split(|b| *b == b'|') {
        take_item(alloc, &mut array, item)?;
    }
    Ok(array)
}

/// An array with a long value at `k`, whose length stands in front, and the items behind it.
pub fn long_array(alloc: Global, field: &[u8]) -> Result<Arr, TextFault> {
    let mut array = Arr::new(alloc)?;
    for (i, item) in field.split(|b| *b == b'|').enumerate() {
        if i == 0 {
            let value = long_value(alloc, decimal_in(item))?;
            put(&mut array, &key_in(alloc, b"k")?, Value::Text(value))?;
        } else {
            take_item(alloc, &mut array, item)?;
        }
    }
    Ok(array)
}

/// The array of the integers 0, 1 and so on.
pub fn many(alloc: Global, count: u32) -> Result<Arr, TextFault> {
    let mut array = Arr::new(alloc)?;
    for i in 0..count {
        let number = i64::from(i);
        put(
            &mut array,
            &Key::Int(number),
            Value::Int(number, PSet::empty()),
        )?;
    }
    Ok(array)
}

fn push_key(out: &mut String, key: &Key) -> Result<(), AllocError> {
    match key {
        Key::Int(number) => {
            write!(out, "{number}")?;
            Ok(())
        }
        Key::Text(text) => {
            out.push('\'')?;
            push_bytes(out, text.as_slice())?;
            out.push('\'')
        }
    }
}

fn push_value(out: &mut String, value: &Value) -> Result<(), AllocError> {
    match value {
        Value::Int(number, set) => {
            write!(out, "i{number}<")?;
            for policy in set.as_slice() {
                write!(out, "{policy}")?;
            }
            out.push('>')
        }
        Value::Text(text) => {
            out.push('s')?;
            push_text(out, text)
        }
        _ => out.push('?'),
    }
}

/// The next key of an array, how high it is, and its entries.
pub fn shown_array(alloc: Global, array: &Arr) -> Result<String, AllocError> {
    let mut out = String::new(alloc);
    match array.next_key() {
        Some(key) => write!(out, "next {key}, height {}:", array.height())?,
        None => write!(out, "no next, height {}:", array.height())?,
    }
    for i in 0..array.len() {
        let (key, value) = array.entry(i);
        out.push('|')?;
        push_key(&mut out, key)?;
        out.push('=')?;
        push_value(&mut out, value)?;
    }
    Ok(out)
}
