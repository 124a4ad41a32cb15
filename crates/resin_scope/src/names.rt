//! Maps from names.
ghost use Rattle.std.specs.Prelude.{◌≡◌, Some, OnOk, OnErr, IsTrue};
ghost use Rattle.std.specs.Option.{option_copied};
ghost use Rattle.std.specs.FinMap.{empty, get, contains_key, insert, remove};
ghost use Rattle.resin_scope.specs.Names.{name_order};

use std::alloc::{AllocError, Global};
use std::collections::BTreeMap;
use std::marker::Model;
use std::mem;

/// What each of some names stands for. A name is found in the order of the bytes, in steps of the logarithm of how many names there are,
/// whatever they are.
#[derive(Drop)]
pub struct NameMap<V> {
    alloc: Global,
    values: BTreeMap<Vec<u8>, V>,
}

impl<V> Model for NameMap<V> {
    ghost use Rattle.std.specs.FinMap.{from_entries};
    ghost use Rattle.resin_scope.specs.Names.{Named, named_code, by_bytes};

    ghost Value = { Named V };

    ghost coded = { named_code V.code };

    ghost view = { λ m. from_entries (by_bytes m.values.entries) };
}

impl<V: Drop> NameMap<V> {
    /// No names. It takes no memory.
    pub fn new(alloc: Global) -> NameMap<V>
        ensures { result ≡ empty }
    {
        NameMap {
            alloc,
            values: BTreeMap::new(alloc),
        }
    }

    /// What a name stands for.
    pub fn get(&self, name: &[u8]) -> Option<&V>
        ensures { option_copied result ≡ get self.now name.now }
    {
        self.values.get(name)
    }

    /// Whether a name stands for something.
    pub fn has(&self, name: &[u8]) -> bool
        ensures { result ≡ contains_key self.now name.now }
    {
        self.get(name).is_some()
    }

    /// Lets a name stand for a value. After want of memory the map is as before.
    pub fn put(&mut self, name: &[u8], value: V) -> Result<(), AllocError>
        ensures ok { OnOk result (self.new ≡ insert self.old name.now value) }
        ensures err { OnErr result (self.new ≡ self.old) }
    {
        match self.values.get_mut(name) {
            Some(slot) => {
                *slot = value;
                Ok(())
            }
            None => self.add(name, value),
        }
    }

    // Lets a new name stand for a value.
    fn add(&mut self, name: &[u8], value: V) -> Result<(), AllocError>
        ensures ok { OnOk result (self.new ≡ insert self.old name.now value) }
        ensures err { OnErr result (self.new ≡ self.old) }
    {
        let name = Vec::from_slice(self.alloc, name)?;
        self.values.insert(name, value)?;
        Ok(())
    }

    /// Puts a value in the place of that of a name, and answers the old one. It takes no memory.
    pub fn exchange(&mut self, name: &[u8], value: V) -> V
        requires { IsTrue (contains_key self.old name.now) }
        ensures was { get self.old name.now ≡ Some result }
        ensures after { self.new ≡ insert self.old name.now value }
    {
        match self.values.get_mut(name) {
            Some(slot) => mem::replace(slot, value),
            None => unreachable!(),
        }
    }

    /// Takes a name out. It takes no memory.
    pub fn remove(&mut self, name: &[u8])
        ensures { self.new ≡ remove self.old name.now }
    {
        let _value = self.values.remove(name);
    }
}
