//! New objects.
ghost use Rattle.resin_step_functions.specs.Under.meaning_forms.Calls.{class_to_make, property_value, set_properties, set_property, with_properties};
ghost use Rattle.resin_step_functions.specs.Under.meaning_forms.Runs.{Runs};
ghost use Rattle.resin_step_functions.specs.Under.heap.Classes.{own_properties};
ghost use Rattle.resin_step_objects.specs.Beginnings.{Begins};
ghost use Rattle.resin_tree.specs.declared.declaration.Property.{Property as AnyProperty};
ghost use Rattle.std.specs.Prelude.{List, OnOk, ◌++◌, ◌≡◌};

use crate::constants::constant_value;
use resin_step_functions::under::heap::PreludeClass;
use resin_step_functions::under::machine::{Machine, Stop};
use resin_step_functions::under::scalar::ScriptFault;
use resin_step_functions::under::value::Value;
use resin_tree::Property;
use std::alloc::Global;

// The value that a property is given.
fn property_value(alloc: Global, m: &mut Machine, p: &Property) -> Result<Value, Stop>
    ensures does { Runs (property_value p.now.default) m.old result m.new }
    ensures kept { OnOk result (m.new.classes ≡ m.old.classes) }
{
    match &p.default {
        Some(c) => constant_value(alloc, m, c),
        None => Ok(Value::Null),
    }
}

// A property of a new object.
fn set_property(alloc: Global, m: &mut Machine, o: u32, p: &Property) -> Result<(), Stop>
    ensures does { Runs (set_property o p.now) m.old result m.new }
    ensures kept { OnOk result (m.new.classes ≡ m.old.classes) }
{
    let v = property_value(alloc, m, p)?;
    m.set_field(o, p.name.as_slice(), v)
}

// The properties that one class declares, of a list that begins with them.
fn set_properties(alloc: Global, m: &mut Machine, o: u32, class: u32) -> Result<(), Stop>
    ensures begins { (rest : List AnyProperty)
        → Begins (set_properties o (own_properties m.old.classes class ++ rest)) (set_properties o rest) m.old result m.new }
    ensures kept { OnOk result (m.new.classes ≡ m.old.classes) }
{
    if class >= m.classes().len() {
        return Ok(());
    }
    let shared = m.classes().declaration(class).properties.clone()?;
    let properties = shared.get().as_slice();
    for p in properties {
        set_property(alloc, m, o, p)?;
    }
    Ok(())
}

/// A new object with its properties, those of the topmost class first.
pub fn with_properties(alloc: Global, m: &mut Machine, class: u32) -> Result<u32, Stop>
    ensures { Runs (with_properties class) m.old result m.new }
{
    let o = m.make_object(class)?;
    if class >= m.classes().len() {
        return Ok(o);
    }
    let declaring = m.classes().property_classes(alloc, class)?;
    let line = declaring.as_slice();
    for c in line {
        set_properties(alloc, m, o, *c)?;
    }
    Ok(o)
}

/// The class of `new`; UndefinedClass comes exactly where there is none of the name, and for Throwable.
pub fn makeable(m: &Machine, name: &[u8]) -> Result<u32, Stop>
    ensures { Runs (class_to_make name.now) m.now result m.now }
{
    let class = m.find_class(name)?;
    if class == PreludeClass::Throwable.number() {
        return Err(m.fault(ScriptFault::UndefinedClass));
    }
    Ok(class)
}
