//! The fields of an object.
ghost use Rattle.std.specs.Prelude.{◌≡◌, ◌<◌, ◌↔◌, [], Some, IsTrue, position, length, slice_get, remove};
ghost use Rattle.std.specs.Prelude.{is_some, IsSome, None, MatchOption, IfOk, OnOk, OnErr, option_copied};
ghost use Rattle.std.specs.Str.{bytes_eq};
ghost use Rattle.std.specs.Map.{lookup, values_of};
ghost use Rattle.indexmap.specs.IndexMap.{keys, set_value_at};
ghost use Rattle.resin_heap.specs.Objects.{field, with_field, without_field, HasDistinctNames};

use indexmap::IndexMap;
use resin_items::SharedBytes;
use resin_names::{FieldName, place_of};
use resin_value::under::bytes::Bytes;
use resin_value::{Fields, Value};
use std::alloc::{AllocError, Global};
use std::marker::Model;
use std::mem;

/// The fields of an object: names with values, in the order in which the names were first set. A name is found by hashing.
#[derive(Drop)]
pub struct ObjectFields {
    map: IndexMap<FieldName, Value>,
    alloc: Global,
}

impl Model for ObjectFields {
    ghost use Rattle.resin_value.specs.Values.{FieldList, fields_code};

    ghost Value = { FieldList };

    ghost coded = { fields_code };

    ghost view = { λ f. f.map.entries };
}

// Writes a value at a place, and answers the old one.
fn exchange_at(map: &mut IndexMap<FieldName, Value>, i: usize, v: Value) -> Value
    requires { i < length map.old.entries }
    ensures old { slice_get (values_of map.old.entries) i ≡ Some result }
    ensures new { map.new.entries ≡ set_value_at map.old.entries i v }
{
    let slot = map.get_index_mut(i).unwrap();
    mem::replace(slot, v)
}

// Writes a value at a place.
fn write_at(map: &mut IndexMap<FieldName, Value>, i: usize, v: Value)
    requires { i < length map.old.entries }
    ensures { map.new.entries ≡ set_value_at map.old.entries i v }
{
    let _old = exchange_at(map, i, v);
}

// Puts a value at a name that is kept from now on.
fn insert(
    alloc: Global,
    map: &mut IndexMap<FieldName, Value>,
    name: &[u8],
    v: Value,
) -> Result<(), AllocError>
    ensures ok { OnOk result (map.new.entries ≡ with_field name.now v map.old.entries) }
    ensures err { OnErr result (map.new.entries ≡ map.old.entries) }
{
    let kept = FieldName::kept(SharedBytes::from_slice(alloc, name)?);
    map.insert(kept, v)?;
    Ok(())
}

// Takes out the field at a place.
fn remove_at(map: &mut IndexMap<FieldName, Value>, i: usize)
    ensures { map.new.entries ≡ remove map.old.entries i }
{
    let _field = map.shift_remove_index(i);
}

impl ObjectFields {
    /// No fields. It takes no memory.
    pub fn new(alloc: Global) -> ObjectFields
        ensures { result ≡ [] }
    {
        ObjectFields {
            map: IndexMap::new(alloc),
            alloc,
        }
    }

    /// How many fields there are.
    pub fn len(&self) -> usize
        ensures value { result ≡ length self.now }
        ensures distinct { HasDistinctNames self.now }
    {
        self.map.len()
    }

    /// Whether there are no fields.
    pub fn is_empty(&self) -> bool
        ensures { IsTrue result ↔ (self.now ≡ []) }
    {
        self.map.is_empty()
    }

    /// The value of a field, `None` exactly where no field has the name.
    pub fn get(&self, name: &[u8]) -> Option<&Value>
        ensures { option_copied result ≡ field name.now self.now }
    {
        let i = place_of(&self.map, name)?;
        let (_, value) = self.map.get_index(i)?;
        Some(value)
    }

    /// The name and the value at a place, in the order of the fields.
    pub fn entry(&self, i: usize) -> (&[u8], &Value)
        requires { i < length self.now }
        ensures { slice_get self.now i ≡ Some (result.0.now, result.1.now) }
    {
        let (name, value) = self.map.get_index(i).unwrap();
        (name.as_slice(), value)
    }

    /// Gives a field a value: in its place where the field is there, else last. After want of memory nothing is changed.
    pub fn set(&mut self, name: &[u8], v: Value) -> Result<(), AllocError>
        ensures ok { OnOk result (self.new ≡ with_field name.now v self.old) }
        ensures err { OnErr result (self.new ≡ self.old) }
    {
        match place_of(&self.map, name) {
            Some(i) => {
                write_at(&mut self.map, i, v);
                Ok(())
            }
            None => insert(self.alloc, &mut self.map, name, v),
        }
    }

    /// Puts a value in the place of a field's, and answers the old one. The field must be there. It takes no memory.
    pub fn exchange(&mut self, name: &[u8], v: Value) -> Value
        requires { IsSome (field name.now self.old) }
        ensures old { field name.now self.old ≡ Some result }
        ensures new { self.new ≡ with_field name.now v self.old }
    {
        let i = place_of(&self.map, name).unwrap();
        exchange_at(&mut self.map, i, v)
    }

    /// Takes out the field of a name, and says whether there was one. The others keep their order. It takes no memory.
    pub fn unset(&mut self, name: &[u8]) -> bool
        ensures found { result ≡ is_some (field name.now self.old) }
        ensures left { self.new ≡ without_field name.now self.old }
    {
        match place_of(&self.map, name) {
            Some(i) => {
                remove_at(&mut self.map, i);
                true
            }
            None => false,
        }
    }

    /// The fields as a list, whose values are copies that share what they hold.
    pub fn to_list(&self, alloc: Global) -> Result<Fields, AllocError>
        ensures { IfOk result (λ list. list ≡ self.now) }
    {
        let mut list = Fields::new(alloc);
        for i in 0..self.len() {
            let (name, value) = self.entry(i);
            list.push((Bytes::from_slice(alloc, name)?, value.clone()?))?;
        }
        Ok(list)
    }
}
