//! Parameters, methods that were found, and the bodies of the methods of the runtime's own classes.
ghost use Rattle.resin_step_functions.specs.Under.meaning_forms.Invoke.{argument_for, bind, default_value};
ghost use Rattle.resin_step_functions.specs.Under.meaning_forms.Invoke.{find_method, method_named, own_body, result_of};
ghost use Rattle.resin_step_functions.specs.Under.meaning_forms.Runs.{Runs, on_ok};
ghost use Rattle.resin_step_objects.specs.Methods.{seen_method};
ghost use Rattle.std.specs.Option.{option_copied, option_map};
ghost use Rattle.std.specs.Prelude.{IfOk, slice_get, ◌≡◌};

use crate::constants::constant_value;
use resin_step_functions::under::heap::{MethodAt, PreludeClass, PreludeMethod};
use resin_step_functions::under::machine::{Machine, Stop};
use resin_step_functions::under::meaning_forms::Course;
use resin_step_functions::under::scalar::ScriptFault;
use resin_step_functions::under::step_parts::reads::object_list;
use resin_step_functions::under::value::{Value, Values};
use resin_tree::{Function, Parameter};
use std::alloc::{AllocError, Global};

// The value of a parameter that gets no argument.
fn default_value(alloc: Global, m: &mut Machine, p: &Parameter) -> Result<Value, Stop>
    ensures { Runs (default_value p.now.default) m.old result m.new }
{
    match &p.default {
        Some(c) => constant_value(alloc, m, c),
        None => m.throw(PreludeClass::ArgumentCountError, b""),
    }
}

// The argument at a place, where one is given.
fn given_at(values: &[Value], i: usize) -> Option<&Value>
    ensures { option_copied result ≡ slice_get values.now i }
{
    values.get(i)
}

// The value of a parameter: its argument, or what stands for one that isn't given.
fn argument_for(
    alloc: Global,
    m: &mut Machine,
    p: &Parameter,
    given: Option<&Value>,
) -> Result<Value, Stop>
    ensures { Runs (argument_for p.now (option_copied given.entry)) m.old result m.new }
{
    match given {
        Some(v) => Ok(v.clone()?),
        None => default_value(alloc, m, p),
    }
}

/// Gives each parameter its argument; further arguments are ignored. A parameter without an argument gets its default, and
/// ArgumentCountError is thrown where it has none.
pub fn bind(
    alloc: Global,
    m: &mut Machine,
    parameters: &[Parameter],
    args: Values,
) -> Result<(), Stop>
    ensures { Runs (bind parameters.now args) m.old result m.new }
{
    let values = args.as_slice();
    for (i, p) in parameters.iter().enumerate() {
        let v = argument_for(alloc, m, p, given_at(values, i))?;
        m.assign(p.name.as_slice(), v)?;
    }
    Ok(())
}

/// What a call answers.
pub fn result_of(course: Course) -> Value
    ensures { result ≡ result_of course }
{
    match course {
        Course::Return(v) => v,
        Course::Next | Course::Break | Course::Continue => Value::Null,
    }
}

// Gives the two properties of an exception the values of the parameters.
fn construct(m: &mut Machine, this: u32) -> Result<Value, Stop>
    ensures { Runs (own_body PreludeMethod.Construct this) m.old result m.new }
{
    let message = m.read(b"message")?;
    let code = m.read(b"code")?;
    m.set_field(this, b"message", message)?;
    m.set_field(this, b"code", code)?;
    Ok(Value::Null)
}

/// What a method of the runtime's own classes does, in a call that has its arguments.
pub fn own_body(
    alloc: Global,
    m: &mut Machine,
    method: PreludeMethod,
    this: u32,
) -> Result<Value, Stop>
    ensures { Runs (own_body method this) m.old result m.new }
{
    match method {
        PreludeMethod::Construct => construct(m, this),
        PreludeMethod::GetMessage => m.read_field(this, b"message"),
        PreludeMethod::GetCode => m.read_field(this, b"code"),
        PreludeMethod::Allow => Ok(Value::Null),
        PreludeMethod::MergeToItself => {
            let list = m.settle(object_list(alloc, &[this]))?;
            Ok(Value::Arr(list))
        }
        PreludeMethod::Refuse => m.throw(PreludeClass::PolicyException, b""),
        PreludeMethod::FilterRead => m.read(b"data"),
        PreludeMethod::FilterWrite => m.read(b"data"),
        PreludeMethod::FilterFunction => m.read(b"args"),
    }
}

/// A method that was found, with its declaration.
#[derive(Drop)]
pub struct Method {
    pub at: MethodAt,
    pub function: Function,
}

/// The method of a name that the objects of a class have.
pub fn method_named(m: &Machine, class: u32, name: &[u8]) -> Result<Option<Method>, AllocError>
    ensures { IfOk result (λ found. option_map seen_method found ≡ method_named class name.now m.now) }
{
    if class >= m.classes().len() {
        return Ok(None);
    }
    match m.classes().method(class, name) {
        Some(at) => Ok(Some(Method {
            at,
            function: m.classes().function(at).clone()?,
        })),
        None => Ok(None),
    }
}

/// The same, where it must be there: UndefinedMethod comes exactly where it isn't.
pub fn find_method(m: &Machine, class: u32, name: &[u8]) -> Result<Method, Stop>
    ensures { Runs (find_method class name.now) m.now (on_ok seen_method result) m.now }
{
    match method_named(m, class, name)? {
        Some(method) => Ok(method),
        None => Err(m.fault(ScriptFault::UndefinedMethod)),
    }
}
