//! The arrays of forms.
ghost use Rattle.std.specs.Prelude.{◌≡◌, ◌≢◌, IfOk, OnOk, IsTrue, Some, None, is_none, ◌==◌, ◌&&◌, length, []};
ghost use Rattle.resin_value.specs.Keys.{is_lawful};
ghost use Rattle.resin_value.specs.Changes.{next_of};
ghost use Rattle.resin_value.specs.Seen.{tree_of};
ghost use Rattle.resin_inputs.specs.Forms.{plain, array_in, array_or_new, with_entry, put_array, put_entry, put_pair, form_array};
ghost use Rattle.resin_value.specs.Changes.{lookup};

use crate::names::{entry_of, name_key, text_key};
use crate::puts::{plain, put};
use resin_value::{Arr, Key, Value};
use std::alloc::{AllocError, Global};

/// The array of the pairs of a form. A value without escapes is copied once, into its text.
pub(crate) fn form_array(alloc: Global, form: &[u8]) -> Result<Arr, AllocError>
    ensures { IfOk result (λ array. array ≡ form_array form.now) }
{
    let mut array = Arr::new(alloc)?;
    for pair in form_urlencoded::parse(alloc, form) {
        let (name, value) = pair?;
        put_pair(alloc, &mut array, name.as_bytes(), value.as_bytes())?;
    }
    Ok(array)
}

// Puts one more pair.
fn put_pair(alloc: Global, array: &mut Arr, name: &[u8], value: &[u8]) -> Result<(), AllocError>
    ensures { OnOk result (array.new ≡ put_pair array.old (name.now, value.now)) }
{
    if name.len() == 0 {
        return Ok(());
    }
    let text = plain(alloc, value)?;
    match entry_of(name) {
        None => put(array, &name_key(alloc, name)?, text),
        Some((outer, inner)) => put_entry(alloc, array, &name_key(alloc, outer)?, inner, text),
    }
}

// Puts a value under k into the array at a key.
fn put_entry(
    alloc: Global,
    array: &mut Arr,
    key: &Key,
    k: &[u8],
    value: Value,
) -> Result<(), AllocError>
    requires { IsTrue (is_lawful key.now) }
    ensures { OnOk result (array.new ≡ put_entry key.now k.now (tree_of value) array.old) }
{
    let mut inner = array_at(alloc, array, key)?;
    if k.len() == 0 && inner.next_key().is_none() {
        return Ok(());
    }
    // The array in its place is let go, so that its entries are moved and not copied.
    put(array, key, Value::Null)?;
    add_entry(alloc, &mut inner, k, value)?;
    put(array, key, Value::Arr(inner))
}

// The array at a key, a new one where something else or nothing stands there.
fn array_at(alloc: Global, array: &Arr, key: &Key) -> Result<Arr, AllocError>
    ensures { IfOk result (λ inner. inner ≡ array_or_new (lookup key.now array.now.entries)) }
{
    match array.get(key) {
        Some(value) => array_in(alloc, value),
        None => Arr::new(alloc),
    }
}

// The array that a value is, a new one in place of every other value.
fn array_in(alloc: Global, value: &Value) -> Result<Arr, AllocError>
    ensures { IfOk result (λ inner. inner ≡ array_in (tree_of value.now)) }
{
    match value {
        Value::Arr(inner) => inner.clone(),
        Value::Null | Value::Bool(_) | Value::Int(_, _) | Value::Text(_) | Value::Obj(_) => {
            Arr::new(alloc)
        }
    }
}

// Puts a value under k, last where k is empty and there is a next key.
fn add_entry(alloc: Global, array: &mut Arr, k: &[u8], value: Value) -> Result<(), AllocError>
    ensures { OnOk result (Some array.new ≡ with_entry k.now (tree_of value) array.old) }
{
    if k.len() > 0 {
        return put(array, &text_key(alloc, k)?, value);
    }
    match array.append(value) {
        Ok(()) => Ok(()),
        Err(_) => Err(AllocError),
    }
}
