//! Classes, by their numbers.
ghost use Rattle.std.specs.Prelude.{◌≡◌, ◌+◌, ◌<◌, ◌≤◌, ◌++◌, ◌∷◌, [], ◌↔◌, false, Some, None, Err, IfOk, IfErr};
ghost use Rattle.std.specs.Prelude.{IfSome, IsSome, IsTrue, OnOk, OnErr, length, reverse, slice_get};
ghost use Rattle.resin_scan.specs.Words.{IsName};
ghost use Rattle.std.specs.List.{flat_map};
ghost use Rattle.std.specs.Option.{option_map_or};
ghost use Rattle.resin_heap.specs.Classes.{class_names, find_class, parent_in, parent_of, is_a, line};
ghost use Rattle.resin_heap.specs.Classes.{method_of, function_at, own_properties, properties_of, NamesNoParent};
ghost use Rattle.resin_heap.specs.Prelude.{prelude, StartsWithPrelude};

use crate::class::MOST_METHODS;
use crate::table::ClassTable;
use resin_tree::{ClassDecl, Function};
use std::alloc::{AllocError, Global};
use std::marker::Model;
use std::rc::Rc;

/// The most classes that a request may have.
pub const MOST_CLASSES: u32 = u32::MAX;

/// Why a class is not declared.
#[derive(Clone, Copy, Debug, Eq, PartialEq)]
pub enum ClassFault {
    /// A class of that name is there already.
    Redeclared,
    /// The parent isn't there.
    NoParent,
    /// Memory ran out.
    Memory,
}

impl From<AllocError> for ClassFault {
    ghost use Rattle.resin_heap.specs.declared.classes.ClassFault.{ClassFault};

    ghost from_gives = { λ _ fault. fault ≡ ClassFault.Memory };

    fn from(_error: AllocError) -> ClassFault {
        ClassFault::Memory
    }
}

/// Where a method stands: the number of the class that declares it, and its place in that declaration, from 0.
#[derive(Clone, Copy, Debug, Eq, PartialEq)]
pub struct MethodAt {
    pub class: u32,
    pub index: u32,
}

// Puts a class last, once no other classes share the table.
fn append_to(
    table: &mut Rc<ClassTable>,
    c: &ClassDecl,
    parent: Option<u32>,
) -> Result<(), AllocError>
    requires few_classes { length table.old.value < MOST_CLASSES }
    requires few_methods { length c.now.methods < MOST_METHODS }
    requires fresh { find_class table.old.value c.now.name ≡ None }
    requires under { parent ≡ parent_in table.old.value c.now }
    ensures ok { OnOk result (table.new.value ≡ table.old.value ++ c.now ∷ []) }
    ensures err { OnErr result (table.new.value ≡ table.old.value) }
{
    let own = Rc::make_mut(table)?;
    own.append(c, parent)
}

/// The classes of a request, numbered from 0 in the order of their declarations, those of the runtime first. Contracts see the list of the
/// declarations. Names ignore ASCII case. Copies share their classes until one of them declares another.
#[derive(Drop)]
pub struct Classes {
    table: Rc<ClassTable>,
}

impl Model for Classes {
    ghost use Rattle.resin_heap.specs.Classes.{Table};
    ghost use Rattle.resin_heap.specs.Codes.{table_code};

    ghost Value = { Table };

    ghost coded = { table_code };

    ghost use Rattle.resin_heap.specs.Prelude.{StartsWithPrelude};

    ghost view = { λ c. c.table.value };

    ghost invariant = { λ c. StartsWithPrelude c.table.value };
}

impl Clone for Classes {
    ghost is_clone = { λ c copy. copy ≡ c };

    /// One more owner of the same classes. It fails only where the count of owners is full.
    fn clone(&self) -> Result<Classes, AllocError> {
        let table = self.table.clone()?;
        Ok(Classes { table })
    }
}

impl Classes {
    /// The classes of the runtime alone.
    pub fn new(alloc: Global) -> Result<Classes, AllocError>
        ensures { IfOk result (λ classes. classes ≡ prelude) }
    {
        let table = ClassTable::new(alloc)?;
        Ok(Classes {
            table: Rc::new(alloc, table)?,
        })
    }

    /// How many classes there are. Those of the runtime are always the first.
    pub fn len(&self) -> u32
        ensures value { result ≡ length self.now }
        ensures begins { StartsWithPrelude self.now }
    {
        self.table.len()
    }

    /// The number of the class of a name, in any case of its ASCII letters; `None` exactly where there is none.
    pub fn find(&self, name: &[u8]) -> Option<u32>
        ensures value { result ≡ find_class self.now name.now }
        ensures within { IfSome result (λ c. c < length self.now) }
    {
        self.table.find(name)
    }

    /// Declares a class, and answers its number. `Redeclared` comes exactly where a class of its name is there, `NoParent` exactly where none is and
    /// the parent that it names isn't there. After any refusal nothing is changed.
    pub fn declare(&mut self, c: &ClassDecl) -> Result<u32, ClassFault>
        requires few_classes { length self.old < MOST_CLASSES }
        requires few_methods { length c.now.methods < MOST_METHODS }
        ensures number { IfOk result (λ n. n ≡ length self.old) }
        ensures declared { OnOk result (self.new ≡ self.old ++ c.now ∷ []) }
        ensures redeclared { (result ≡ Err ClassFault.Redeclared) ↔ IsSome (find_class self.old c.now.name) }
        ensures no_parent { (result ≡ Err ClassFault.NoParent) ↔ ((find_class self.old c.now.name ≡ None) × NamesNoParent self.old c.now) }
        ensures err { OnErr result (self.new ≡ self.old) }
    {
        if self.find(c.name.as_slice()).is_some() {
            return Err(ClassFault::Redeclared);
        }
        let parent = self.parent_for(c)?;
        let number = self.len();
        self.append(c, parent)?;
        Ok(number)
    }

    // The number of the class that a declaration names as its parent.
    fn parent_for(&self, c: &ClassDecl) -> Result<Option<u32>, ClassFault>
        ensures ok { IfOk result (λ parent. (parent ≡ parent_in self.now c.now) × ¬ (NamesNoParent self.now c.now)) }
        ensures err { IfErr result (λ fault. (fault ≡ ClassFault.NoParent) × NamesNoParent self.now c.now) }
    {
        let Some(name) = &c.parent else {
            return Ok(None);
        };
        match self.find(name.as_slice()) {
            Some(parent) => Ok(Some(parent)),
            None => Err(ClassFault::NoParent),
        }
    }

    // Puts a class last whose name is new and whose parent is known.
    fn append(&mut self, c: &ClassDecl, parent: Option<u32>) -> Result<(), AllocError>
        requires few_classes { length self.old < MOST_CLASSES }
        requires few_methods { length c.now.methods < MOST_METHODS }
        requires fresh { find_class self.old c.now.name ≡ None }
        requires under { parent ≡ parent_in self.old c.now }
        ensures ok { OnOk result (self.new ≡ self.old ++ c.now ∷ []) }
        ensures err { OnErr result (self.new ≡ self.old) }
    {
        append_to(&mut self.table, c, parent)
    }

    /// The declaration of a class, as it was declared.
    pub fn declaration(&self, c: u32) -> &ClassDecl
        requires { c < length self.now }
        ensures { slice_get self.now c ≡ Some result.now }
    {
        self.table.declaration(c)
    }

    /// The name of a class, as it is written in its declaration.
    pub fn class_name(&self, c: u32) -> &[u8]
        requires { c < length self.now }
        ensures value { slice_get (class_names self.now) c ≡ Some result.now }
        ensures name { IsName result.now }
    {
        self.declaration(c).name.as_slice()
    }

    /// The number of the parent of a class, `None` exactly where it has none. It is smaller than the class's own.
    pub fn parent(&self, c: u32) -> Option<u32>
        requires { c < length self.now }
        ensures value { result ≡ parent_of self.now c }
        ensures smaller { IfSome result (λ parent. parent < c) }
    {
        self.table.parent(c)
    }

    /// Whether a class is another one, or stands under it at any depth.
    pub fn is_a(&self, c: u32, other: u32) -> bool
        requires { c < length self.now }
        ensures { result ≡ is_a self.now c other }
    {
        let mut at = c;
        while at > other {
            match self.towards(at, other) {
                Some(above) => at = above,
                None => return false,
            }
        }
        at == other
    }

    // A class above another one, such that both are alike under a third one of a smaller number.
    fn towards(&self, c: u32, other: u32) -> Option<u32>
        requires within { c < length self.now }
        requires above { other < c }
        ensures alike { is_a self.now c other ≡ option_map_or (λ above. is_a self.now above other) result false }
        ensures smaller { IfSome result (λ above. above < c) }
    {
        self.table.towards(c, other)
    }

    /// The method that a call by this name on an object of a class reaches, in any case of its ASCII letters: the class's own, else that of the
    /// nearest class above it that has one; `None` exactly where there is none.
    pub fn method(&self, c: u32, name: &[u8]) -> Option<MethodAt>
        requires { c < length self.now }
        ensures value { result ≡ method_of self.now c name.now }
        ensures there { IfSome result (λ at. IsSome (function_at self.now at)) }
    {
        self.table.method(c, name)
    }

    /// The declaration of a method.
    pub fn function(&self, at: MethodAt) -> &Function
        requires { IsSome (function_at self.now at) }
        ensures { function_at self.now at ≡ Some result.now }
    {
        let methods = self.declaration(at.class).methods.get();
        &methods.as_slice()[at.index as usize]
    }

    /// A class and those above it, from the topmost on: the order in which an object of the class is given its properties.
    pub fn ancestry(&self, alloc: Global, c: u32) -> Result<Vec<u32>, AllocError>
        requires { c < length self.now }
        ensures { IfOk result (λ numbers. numbers.items ≡ reverse (line self.now c)) }
    {
        let mut numbers = Vec::new(alloc);
        let mut next = Some(c);
        while let Some(at) = next {
            numbers.push(at)?;
            next = self.parent(at);
        }
        numbers.reverse();
        Ok(numbers)
    }

    /// The classes that give an object of a class its properties, from the topmost on: those of its ancestry that declare any.
    pub fn property_classes(&self, alloc: Global, c: u32) -> Result<Vec<u32>, AllocError>
        requires { c < length self.now }
        ensures { IfOk result (λ numbers. flat_map (own_properties self.now) numbers.items ≡ properties_of self.now c) }
    {
        let mut numbers = Vec::new(alloc);
        let mut next = self.giver(c);
        while let Some(at) = next {
            numbers.push(at)?;
            next = self.giver_above(at);
        }
        numbers.reverse();
        Ok(numbers)
    }

    // The nearest class that declares properties: a class or one above it.
    fn giver(&self, c: u32) -> Option<u32>
        requires { c < length self.now }
        ensures all { properties_of self.now c ≡ option_map_or (properties_of self.now) result [] }
        ensures near { IfSome result (λ giver. giver ≤ c) }
    {
        self.table.giver(c)
    }

    // The nearest class above another one that declares properties.
    fn giver_above(&self, c: u32) -> Option<u32>
        requires { c < length self.now }
        ensures all { properties_of self.now c ≡ option_map_or (properties_of self.now) result [] ++ own_properties self.now c }
        ensures smaller { IfSome result (λ giver. giver < c) }
    {
        match self.parent(c) {
            Some(parent) => self.giver(parent),
            None => None,
        }
    }
}
