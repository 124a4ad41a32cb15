//! What a call reaches.
ghost use Rattle.resin_step_functions.specs.Under.meaning_forms.Calls.{object_of, parent_class};
ghost use Rattle.resin_step_functions.specs.Under.meaning_forms.Merges.{values_in};
ghost use Rattle.resin_step_functions.specs.Under.meaning_forms.Runs.{Runs};
ghost use Rattle.resin_step_functions.specs.Under.value.Seen.{trees_of};
ghost use Rattle.std.specs.Prelude.{IfOk, ◌≡◌};
ghost use Rattle.resin_step_functions.specs.Under.heap.Classes.{parent_of};
ghost use Rattle.std.specs.Option.{option_and_then};
ghost use Rattle.std.specs.Str.{str_to_ascii_lowercase};

use resin_step_functions::under::machine::{Machine, Stop};
use resin_step_functions::under::scalar::ScriptFault;
use resin_step_functions::under::value::{Arr, Value, Values};
use std::alloc::{AllocError, Global};

/// The values of an array, as arguments.
pub fn values_in(alloc: Global, a: &Arr) -> Result<Values, AllocError>
    ensures { IfOk result (λ vs. trees_of vs ≡ values_in a.now) }
{
    let mut out = Values::new(alloc);
    let mut i = 0;
    while i < a.len() {
        let (_key, v) = a.entry(i);
        out.push(v.clone()?)?;
        i += 1;
    }
    Ok(out)
}

/// A name in lower case.
pub fn lowered(alloc: Global, name: &[u8]) -> Result<Vec<u8>, AllocError>
    ensures { IfOk result (λ lower. lower.items ≡ str_to_ascii_lowercase name.now) }
{
    name.iter().map(|b| b.to_ascii_lowercase()).collect(alloc)
}

/// The object that a value is; BadOperand comes for any other value.
pub fn object_of(m: &Machine, v: &Value) -> Result<u32, Stop>
    ensures { Runs (object_of v.now) m.now result m.now }
{
    match v {
        Value::Obj(o) => Ok(*o),
        _ => Err(m.fault(ScriptFault::BadOperand)),
    }
}

// The class above another.
fn class_above(m: &Machine, class: u32) -> Option<u32>
    ensures { result ≡ parent_of m.now.classes class }
{
    if class >= m.classes().len() {
        return None;
    }
    m.classes().parent(class)
}

// The class above the one that declares the running method, if there is one.
fn class_above_running(m: &Machine) -> Option<u32>
    ensures { result ≡ option_and_then (parent_of m.now.classes) m.now.running }
{
    match m.running() {
        Some(class) => class_above(m, class),
        None => None,
    }
}

/// The class above the one that declares the running method; UndefinedClass comes exactly where there is none.
pub fn parent_class(m: &Machine) -> Result<u32, Stop>
    ensures { Runs parent_class m.now result m.now }
{
    match class_above_running(m) {
        Some(class) => Ok(class),
        None => Err(m.fault(ScriptFault::UndefinedClass)),
    }
}
