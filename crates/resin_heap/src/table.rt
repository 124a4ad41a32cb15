//! The table of classes by their names, which copies of the classes share.
ghost use Rattle.std.specs.Prelude.{◌≡◌, ◌<◌, ◌≤◌, ◌++◌, ◌∷◌, [], false, Some, None, IfOk, IfSome, IsSome, OnOk, OnErr, length, slice_get};
ghost use Rattle.std.specs.Map.{keys_of, values_of};
ghost use Rattle.std.specs.Option.{option_map, option_map_or};
ghost use Rattle.resin_heap.specs.Classes.{class_names, find_class, parent_in, parent_of, is_a, method_of, function_at, properties_of};
ghost use Rattle.resin_heap.specs.Prelude.{prelude, number_of, name_of, parent_class, declaration_of};
ghost use Rattle.resin_heap.specs.Tables.{declared, with_class, giver_of, LeadsTo, AllStand, StandsUnder};

use crate::class::{Class, Jump, MOST_METHODS, Standing};
use crate::classes::{MOST_CLASSES, MethodAt};
use crate::method_index::MethodIndex;
use crate::prelude::{PRELUDE_LEN, PreludeClass};
use indexmap::IndexMap;
use resin_names::{CaselessName, SoughtName, place_of};
use resin_tree::ClassDecl;
use std::alloc::{AllocError, Global};
use std::marker::Model;

// What copies of the classes share: the classes by their names, in the order of their numbers, and the methods of them all.
#[derive(Drop)]
pub(crate) struct ClassTable {
    by_name: IndexMap<CaselessName, Class>,
    methods: MethodIndex,
}

impl Model for ClassTable {
    ghost use Rattle.resin_heap.specs.Classes.{Table};
    ghost use Rattle.resin_heap.specs.Codes.{table_code};

    ghost Value = { Table };

    ghost coded = { table_code };

    ghost use Rattle.resin_heap.specs.Tables.{declared, IsTable};

    ghost view = { λ t. declared t.by_name.entries };

    ghost invariant = { λ t. IsTable t.by_name.entries t.methods };
}

impl Clone for ClassTable {
    ghost is_clone = { λ t copy. copy ≡ t };

    fn clone(&self) -> Result<ClassTable, AllocError> {
        Ok(ClassTable {
            by_name: self.by_name.clone()?,
            methods: self.methods.clone()?,
        })
    }
}

// The class of a number.
fn class_at(by_name: &IndexMap<CaselessName, Class>, c: u32) -> &Class
    requires { c < length by_name.now.entries }
    ensures { slice_get (values_of by_name.now.entries) c ≡ Some result.now }
{
    let (_, class) = by_name.get_index(c as usize).unwrap();
    class
}

// The jump of a class that goes under another one. Where two jumps of one length follow each other, it takes both at once, so lengths double.
fn jump_over(by_name: &IndexMap<CaselessName, Class>, parent: u32) -> Jump
    requires within { parent < length by_name.now.entries }
    requires stand { AllStand by_name.now.entries }
    ensures { LeadsTo (declared by_name.now.entries) parent result.to }
{
    match both_at_once(by_name, parent) {
        Some(jump) => jump,
        None => Jump {
            to: parent,
            steps: 1,
        },
    }
}

// The jump from a class and the one behind it as one, with the step to the class, where both are of one length.
fn both_at_once(by_name: &IndexMap<CaselessName, Class>, c: u32) -> Option<Jump>
    requires within { c < length by_name.now.entries }
    requires stand { AllStand by_name.now.entries }
    ensures { IfSome result (λ jump. LeadsTo (declared by_name.now.entries) c jump.to) }
{
    let first = class_at(by_name, c).standing.jump?;
    let second = class_at(by_name, first.to).standing.jump?;
    if second.steps != first.steps {
        return None;
    }
    Some(Jump {
        to: second.to,
        steps: first.steps.saturating_mul(2).saturating_add(1),
    })
}

// Where a class stands that goes last, and has nothing of its own.
fn under(by_name: &IndexMap<CaselessName, Class>, parent: Option<u32>) -> Standing
    requires within { IfSome parent (λ p. p < length by_name.now.entries) }
    requires stand { AllStand by_name.now.entries }
    ensures { StandsUnder by_name.now.entries parent result }
{
    let Some(parent) = parent else {
        return Standing {
            parent: None,
            jump: None,
            giver: None,
            methods: None,
        };
    };
    let above = class_at(by_name, parent).standing;
    Standing {
        parent: Some(parent),
        jump: Some(jump_over(by_name, parent)),
        giver: above.giver,
        methods: above.methods,
    }
}

// The nearest class that declares properties: the class of a number, else one above it.
fn giver(c: &ClassDecl, number: u32, above: Option<u32>) -> Option<u32>
    ensures { result ≡ giver_of c.now.properties number above }
{
    if c.properties.get().is_empty() {
        above
    } else {
        Some(number)
    }
}

// Puts a class last whose name is new.
fn add(
    by_name: &mut IndexMap<CaselessName, Class>,
    c: &ClassDecl,
    standing: Standing,
) -> Result<(), AllocError>
    requires fresh { find_class (declared by_name.old.entries) c.now.name ≡ None }
    requires named { keys_of by_name.old.entries ≡ class_names (declared by_name.old.entries) }
    ensures ok { OnOk result (by_name.new.entries
        ≡ with_class by_name.old.entries (record { declaration = c.now; standing = standing })) }
    ensures err { OnErr result (by_name.new.entries ≡ by_name.old.entries) }
{
    let class = Class {
        declaration: c.clone()?,
        standing,
    };
    by_name.insert(CaselessName::kept(c.name.bytes()?), class)?;
    Ok(())
}

impl ClassTable {
    // No classes. It takes no memory.
    fn empty(alloc: Global) -> ClassTable
        ensures { result ≡ [] }
    {
        ClassTable {
            by_name: IndexMap::new(alloc),
            methods: MethodIndex::new(alloc),
        }
    }

    // The classes of the runtime alone.
    pub(crate) fn new(alloc: Global) -> Result<ClassTable, AllocError>
        ensures { IfOk result (λ table. table ≡ prelude) }
    {
        let mut table = ClassTable::empty(alloc);
        for number in 0..PRELUDE_LEN {
            let class = PreludeClass::numbered(number).unwrap();
            append_prelude(alloc, &mut table, class)?;
        }
        Ok(table)
    }

    // How many classes there are.
    pub(crate) fn len(&self) -> u32
        ensures { result ≡ length self.now }
    {
        self.by_name.len() as u32
    }

    // The number of the class of a name.
    pub(crate) fn find(&self, name: &[u8]) -> Option<u32>
        ensures value { result ≡ find_class self.now name.now }
        ensures within { IfSome result (λ c. c < length self.now) }
    {
        match place_of(&self.by_name, SoughtName::lent(name)) {
            Some(i) => Some(i as u32),
            None => None,
        }
    }

    // Puts a class last whose name is new and whose parent is known.
    pub(crate) fn append(&mut self, c: &ClassDecl, parent: Option<u32>) -> Result<(), AllocError>
        requires few_classes { length self.old < MOST_CLASSES }
        requires few_methods { length c.now.methods < MOST_METHODS }
        requires fresh { find_class self.old c.now.name ≡ None }
        requires under { parent ≡ parent_in self.old c.now }
        ensures ok { OnOk result (self.new ≡ self.old ++ c.now ∷ []) }
        ensures err { OnErr result (self.new ≡ self.old) }
    {
        let number = self.by_name.len() as u32;
        let above = under(&self.by_name, parent);
        let own = c.methods.get().as_slice();
        let methods = self.methods.with_own(above.methods, number, own)?;
        let standing = Standing {
            parent,
            jump: above.jump,
            giver: giver(c, number, above.giver),
            methods,
        };
        add(&mut self.by_name, c, standing)
    }

    // The declaration of a class.
    pub(crate) fn declaration(&self, c: u32) -> &ClassDecl
        requires { c < length self.now }
        ensures { slice_get self.now c ≡ Some result.now }
    {
        &class_at(&self.by_name, c).declaration
    }

    // The number of the parent of a class.
    pub(crate) fn parent(&self, c: u32) -> Option<u32>
        requires { c < length self.now }
        ensures { result ≡ parent_of self.now c }
    {
        class_at(&self.by_name, c).standing.parent
    }

    // A class above another one, as far up as is known, such that both are alike under a third one of a smaller number. `None` where there is none
    // above.
    pub(crate) fn towards(&self, c: u32, other: u32) -> Option<u32>
        requires within { c < length self.now }
        requires above { other < c }
        ensures alike { is_a self.now c other ≡ option_map_or (λ above. is_a self.now above other) result false }
        ensures smaller { IfSome result (λ above. above < c) }
    {
        let standing = &class_at(&self.by_name, c).standing;
        match standing.jump {
            Some(jump) if jump.to >= other => Some(jump.to),
            _ => standing.parent,
        }
    }

    // The nearest class that declares properties, which so has all that the class has: itself or one above.
    pub(crate) fn giver(&self, c: u32) -> Option<u32>
        requires { c < length self.now }
        ensures all { properties_of self.now c ≡ option_map_or (properties_of self.now) result [] }
        ensures near { IfSome result (λ giver. giver ≤ c) }
    {
        class_at(&self.by_name, c).standing.giver
    }

    // The method that a call by a name on an object of a class reaches.
    pub(crate) fn method(&self, c: u32, name: &[u8]) -> Option<MethodAt>
        requires { c < length self.now }
        ensures value { result ≡ method_of self.now c name.now }
        ensures there { IfSome result (λ at. IsSome (function_at self.now at)) }
    {
        let tree = class_at(&self.by_name, c).standing.methods;
        self.methods.find(tree, name)
    }
}

// The number of the parent of a class of the runtime.
fn parent_number(class: PreludeClass) -> Option<u32>
    ensures { result ≡ option_map number_of (parent_class class) }
{
    match class.parent() {
        Some(parent) => Some(parent.number()),
        None => None,
    }
}

// Puts a class of the runtime last.
fn append_prelude(
    alloc: Global,
    table: &mut ClassTable,
    class: PreludeClass,
) -> Result<(), AllocError>
    requires few { length table.old < MOST_CLASSES }
    requires fresh { find_class table.old (name_of class) ≡ None }
    requires under { option_map number_of (parent_class class) ≡ parent_in table.old (declaration_of class) }
    ensures { OnOk result (table.new ≡ table.old ++ declaration_of class ∷ []) }
{
    let declaration = class.declaration(alloc)?;
    table.append(&declaration, parent_number(class))
}
