//! Objects, by their numbers.
ghost use Rattle.std.specs.Prelude.{◌≡◌, ◌+◌, ◌<◌, ◌↔◌, IsTrue, [], ◌∷◌, ◌++◌, Some, length, is_some, IsSome, IfOk, OnOk, OnErr, option_copied};
ghost use Rattle.resin_heap.specs.Objects.{field, with_field, without_field, class_at, fields_at, with_fields, IsObject};

use crate::fields::ObjectFields;
use resin_value::Value;
use std::alloc::{AllocError, Global};
use std::marker::Model;

/// The most objects that a request may make.
pub const MOST_OBJECTS: u32 = u32::MAX;

/// An object: the number of its class, and its fields.
#[derive(Drop)]
pub struct Object {
    pub class: u32,
    pub fields: ObjectFields,
}

/// The objects of a request, numbered from 1 in the order in which they were made. Contracts see the list of them. None is ever taken out.
#[derive(Drop)]
pub struct Heap {
    objects: Vec<Object>,
    alloc: Global,
}

impl Model for Heap {
    ghost use Rattle.std.specs.Prelude.{List, ◌≤◌, length};
    ghost use Rattle.resin_heap.specs.declared.heap.Object.{Object};
    ghost use Rattle.resin_heap.specs.Objects.{objects_code};

    ghost Value = { List Object };

    ghost coded = { objects_code };

    ghost view = { λ h. h.objects.items };

    ghost invariant = { λ h. length h.objects.items ≤ 4294967295 };
}

impl Heap {
    /// No objects. It takes no memory.
    pub fn new(alloc: Global) -> Heap
        ensures { result ≡ [] }
    {
        Heap {
            objects: Vec::new(alloc),
            alloc,
        }
    }

    /// How many objects were made, which is the number of the last.
    pub fn len(&self) -> u32
        ensures { result ≡ length self.now }
    {
        self.objects.len() as u32
    }

    /// Whether no object was made.
    pub fn is_empty(&self) -> bool
        ensures { IsTrue result ↔ (self.now ≡ []) }
    {
        self.objects.is_empty()
    }

    /// Whether an object has the number.
    pub fn has(&self, o: u32) -> bool
        ensures { IsTrue result ↔ IsObject self.now o }
    {
        o > 0 && o <= self.len()
    }

    /// Makes an object of a class, without fields, and answers its number: one more than the last. After want of memory none is made.
    pub fn make(&mut self, class: u32) -> Result<u32, AllocError>
        requires { length self.old < MOST_OBJECTS }
        ensures number { IfOk result (λ o. o ≡ length self.old + 1) }
        ensures made { OnOk result (self.new ≡ self.old ++ record { class = class; fields = [] } ∷ []) }
        ensures err { OnErr result (self.new ≡ self.old) }
    {
        let number = self.len() + 1;
        let fields = ObjectFields::new(self.alloc);
        self.objects.push(Object { class, fields })?;
        Ok(number)
    }

    /// The class of an object.
    pub fn class_of(&self, o: u32) -> u32
        requires { IsObject self.now o }
        ensures { result ≡ class_at self.now o }
    {
        self.objects[(o - 1) as usize].class
    }

    /// The fields of an object, in the order in which their names were first set.
    pub fn fields(&self, o: u32) -> &ObjectFields
        requires { IsObject self.now o }
        ensures { result.now ≡ fields_at self.now o }
    {
        &self.objects[(o - 1) as usize].fields
    }

    /// The value of a field of an object, `None` exactly where it has none of that name.
    pub fn get(&self, o: u32, name: &[u8]) -> Option<&Value>
        requires { IsObject self.now o }
        ensures { option_copied result ≡ field name.now (fields_at self.now o) }
    {
        self.fields(o).get(name)
    }

    /// Gives a field of an object a value: in its place where the object has the field, else last. After want of memory nothing is changed.
    pub fn set(&mut self, o: u32, name: &[u8], v: Value) -> Result<(), AllocError>
        requires { IsObject self.old o }
        ensures ok { OnOk result (self.new ≡ with_fields self.old o (with_field name.now v (fields_at self.old o))) }
        ensures err { OnErr result (self.new ≡ self.old) }
    {
        let object = &mut self.objects[(o - 1) as usize];
        object.fields.set(name, v)?;
        Ok(())
    }

    /// Puts a value in the place of that of a field, and answers the old one, which may so be changed without a copy and put back. The object
    /// must have the field. It takes no memory.
    pub fn exchange(&mut self, o: u32, name: &[u8], v: Value) -> Value
        requires made { IsObject self.old o }
        requires there { IsSome (field name.now (fields_at self.old o)) }
        ensures old { field name.now (fields_at self.old o) ≡ Some result }
        ensures new { self.new ≡ with_fields self.old o (with_field name.now v (fields_at self.old o)) }
    {
        let object = &mut self.objects[(o - 1) as usize];
        object.fields.exchange(name, v)
    }

    /// Takes a field out of an object, and says whether it had it. The other fields keep their order. It takes no memory.
    pub fn unset(&mut self, o: u32, name: &[u8]) -> bool
        requires { IsObject self.old o }
        ensures found { result ≡ is_some (field name.now (fields_at self.old o)) }
        ensures left { self.new ≡ with_fields self.old o (without_field name.now (fields_at self.old o)) }
    {
        let object = &mut self.objects[(o - 1) as usize];
        object.fields.unset(name)
    }
}
