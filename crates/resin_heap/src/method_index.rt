//! The methods that the objects of each class have, by their names.
ghost use Rattle.std.specs.Prelude.{◌≡◌, ◌<◌, List, ℕ, Some, None, IfOk, length, position, if◌then◌else◌};
ghost use Rattle.std.specs.Map.{lookup};
ghost use Rattle.indexmap.specs.IndexMap.{keys};
ghost use Rattle.resin_names.specs.Names.{same_name};
ghost use Rattle.resin_heap.specs.Branches.{Grown};
ghost use Rattle.resin_heap.specs.MethodIndex.{no_methods, reached, own_or, IsRoot, Keeps};

use crate::branches::Branches;
use crate::class::MOST_METHODS;
use crate::classes::MethodAt;
use indexmap::IndexMap;
use resin_items::SharedBytes;
use resin_names::{CaselessName, SoughtName, place_of};
use resin_tree::Function;
use std::alloc::{AllocError, Global};
use std::marker::Model;

// The names of all methods, numbered in the order in which they came, and a tree for each class, which keeps the method that a call on its objects
// reaches at the number of the method's name. A class shares its parent's tree but for the ways to its own methods.
#[derive(Drop)]
pub(crate) struct MethodIndex {
    names: IndexMap<CaselessName, ()>,
    branches: Branches,
}

impl Model for MethodIndex {
    ghost use Rattle.indexmap.specs.IndexMap.{keys};
    ghost use Rattle.resin_heap.specs.MethodIndex.{Index, index_code};

    ghost Value = { Index };

    ghost coded = { index_code };

    ghost view = { λ m. record { names = keys m.names; branches = m.branches } };
}

impl Clone for MethodIndex {
    ghost use Rattle.std.specs.Prelude.{◌≡◌};

    ghost is_clone = { λ m copy. copy ≡ m };

    fn clone(&self) -> Result<MethodIndex, AllocError> {
        Ok(MethodIndex {
            names: self.names.clone()?,
            branches: self.branches.clone()?,
        })
    }
}

// The number of a name, which it is given where it has none.
fn number_of(
    names: &mut IndexMap<CaselessName, ()>,
    name: &SharedBytes,
) -> Result<usize, AllocError>
    ensures grown { Grown (keys names.old) (keys names.new) }
    ensures number { IfOk result (λ number. position (same_name name.now) (keys names.new) ≡ Some number) }
{
    match place_of(names, SoughtName::lent(name.as_slice())) {
        Some(number) => Ok(number),
        None => put_last(names, name),
    }
}

// Puts a name last that has no number, and answers that which it is given.
fn put_last(names: &mut IndexMap<CaselessName, ()>, name: &SharedBytes) -> Result<usize, AllocError>
    requires { lookup (same_name name.now) names.old.entries ≡ None }
    ensures grown { Grown (keys names.old) (keys names.new) }
    ensures number { IfOk result (λ number. position (same_name name.now) (keys names.new) ≡ Some number) }
{
    let number = names.len();
    names.insert(CaselessName::kept(name.clone()?), ())?;
    Ok(number)
}

impl MethodIndex {
    // No methods. It takes no memory.
    pub(crate) fn new(alloc: Global) -> MethodIndex
        ensures { result ≡ no_methods }
    {
        MethodIndex {
            names: IndexMap::new(alloc),
            branches: Branches::new(alloc),
        }
    }

    // The method of a name in a tree, in any case of its ASCII letters.
    pub(crate) fn find(&self, tree: Option<u32>, name: &[u8]) -> Option<MethodAt>
        ensures { result ≡ reached self.now tree name.now }
    {
        let number = place_of(&self.names, SoughtName::lent(name))?;
        self.branches.get(tree, number)
    }

    // Makes a tree with one more method, which goes before one of its name, and answers it. Other trees stay what they are.
    fn put(
        &mut self,
        tree: Option<u32>,
        name: &SharedBytes,
        method: MethodAt,
    ) -> Result<u32, AllocError>
        requires { IsRoot self.old tree }
        ensures keeps { Keeps self.old self.new }
        ensures root { IfOk result (λ new. IsRoot self.new (Some new)) }
        ensures put { IfOk result (λ new. (wanted : List ℕ) → reached self.new (Some new) wanted
            ≡ (if same_name wanted name.now then Some method else reached self.old tree wanted)) }
    {
        let number = number_of(&mut self.names, name)?;
        self.branches.put(tree, number, method)
    }

    // Makes the tree of a class, from that of its parent and its own methods, of which the first of a name counts. Other trees stay what they are.
    pub(crate) fn with_own(
        &mut self,
        tree: Option<u32>,
        class: u32,
        methods: &[Function],
    ) -> Result<Option<u32>, AllocError>
        requires root { IsRoot self.old tree }
        requires few { length methods.now < MOST_METHODS }
        ensures keeps { Keeps self.old self.new }
        ensures root { IfOk result (λ new. IsRoot self.new new) }
        ensures finds { IfOk result (λ new. (wanted : List ℕ) → reached self.new new wanted
            ≡ own_or class methods.now wanted (reached self.old tree wanted)) }
    {
        let mut tree = tree;
        let mut left = methods.len();
        while left > 0 {
            left -= 1;
            let index = left as u32;
            tree = Some(self.put(tree, &methods[left].name, MethodAt { class, index })?);
        }
        Ok(tree)
    }
}
