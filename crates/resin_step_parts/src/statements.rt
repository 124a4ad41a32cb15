//! Parts of statements.
ghost use Rattle.resin_meaning_forms.specs.Assignments.{stored_value};
ghost use Rattle.resin_meaning_forms.specs.Operators.{fits};
ghost use Rattle.resin_meaning_forms.specs.Runs.{Runs};
ghost use Rattle.resin_meaning_forms.specs.Statements.{assign_entry, assign_key, bind_all, closing, key_value, object_or_none, throw, turn_end};
ghost use Rattle.resin_meaning_forms.specs.Under.meaning.Programs.{caught};
ghost use Rattle.resin_meaning_forms.specs.Under.tree.declared.statement.Catch.{out-Catch};
ghost use Rattle.resin_meaning_forms.specs.Under.value.Seen.{tree_of};
ghost use Rattle.std.specs.List.{list_any};
ghost use Rattle.std.specs.Prelude.{IfOk, IfSome, length, slice_get, ◌<◌, ◌≡◌};

use crate::operators::{fits, is_object_under};
use crate::reads::{number, plain};
use resin_meaning_forms::Course;
use resin_meaning_forms::under::heap::PreludeClass;
use resin_meaning_forms::under::items::SharedBytes;
use resin_meaning_forms::under::machine::{Machine, Stop};
use resin_meaning_forms::under::scalar::ScriptFault;
use resin_meaning_forms::under::target::{Path, store};
use resin_meaning_forms::under::tree::{Catch, Target};
use resin_meaning_forms::under::value::{Arr, Key, Value};
use std::alloc::{AllocError, Global};

/// An exception as a value.
pub fn catch<A>(end: Result<A, Stop>) -> Result<Result<A, u32>, Stop>
    ensures { result ≡ caught end }
{
    match end {
        Ok(v) => Ok(Ok(v)),
        Err(Stop::Thrown(o)) => Ok(Err(o)),
        Err(Stop::Exit) => Err(Stop::Exit),
        Err(Stop::Fault(fault, line)) => Err(Stop::Fault(fault, line)),
        Err(Stop::Keeper) => Err(Stop::Keeper),
        Err(Stop::Memory) => Err(Stop::Memory),
    }
}

/// Each of these names means the variable of the top level.
pub fn bind_all(m: &mut Machine, names: &[SharedBytes]) -> Result<Course, Stop>
    ensures { Runs (bind_all names.now) m.old result m.new }
{
    for name in names {
        m.bind_global(name.as_slice())?;
    }
    Ok(Course::Next)
}

/// Throws an object under Throwable; BadOperand comes for any other value.
pub fn throw(m: &Machine, v: &Value) -> Result<Course, Stop>
    ensures { Runs (throw v.now) m.now result m.now }
{
    if !is_object_under(m, PreludeClass::Throwable, v) {
        return Err(m.fault(ScriptFault::BadOperand));
    }
    Err(Stop::Thrown(object_or_none(v)))
}

// The number of an object, 0 for any other value.
fn object_or_none(v: &Value) -> u32
    ensures { result ≡ object_or_none v.now }
{
    match v {
        Value::Obj(o) => *o,
        Value::Null | Value::Bool(_) | Value::Int(_, _) | Value::Text(_) | Value::Arr(_) => 0,
    }
}

/// What a turn's end means for the loop: nothing where the loop goes on, else how it ends.
pub fn turn_end(course: Course) -> Option<Course>
    ensures { result ≡ turn_end course }
{
    match course {
        Course::Next | Course::Continue => None,
        Course::Break => Some(Course::Next),
        Course::Return(v) => Some(Course::Return(v)),
    }
}

/// A key as a value.
pub fn key_value(alloc: Global, key: &Key) -> Result<Value, AllocError>
    ensures { IfOk result (λ v. v ≡ key_value key.now) }
{
    match key {
        Key::Int(n) => Ok(number(*n)),
        Key::Text(bytes) => Ok(Value::Text(plain(alloc, bytes.as_slice())?)),
    }
}

// Gives the first variable of a `foreach`, where there are two, the key of an entry.
fn assign_key(
    alloc: Global,
    m: &mut Machine,
    kx: &Option<SharedBytes>,
    key: &Key,
) -> Result<(), Stop>
    ensures { Runs (assign_key kx.now key.now) m.old result m.new }
{
    let Some(kx) = kx else {
        return Ok(());
    };
    let key = key_value(alloc, key)?;
    m.assign(kx.as_slice(), key)
}

/// Gives the variables of a `foreach` the key and the value of an entry.
pub fn assign_entry(
    alloc: Global,
    m: &mut Machine,
    kx: &Option<SharedBytes>,
    x: &[u8],
    a: &Arr,
    i: usize,
) -> Result<(), Stop>
    requires { i < length a.now.entries }
    ensures { IfSome (slice_get a.now.entries i) (λ e. Runs (assign_entry kx.now x.now e) m.old result m.new) }
{
    let (key, v) = a.entry(i);
    assign_key(alloc, m, kx, key)?;
    let v = v.clone()?;
    m.assign(x, v)
}

// Whether one of these classes fits.
fn one_fits(m: &Machine, names: &[SharedBytes], thrown: &Value) -> bool
    ensures { result ≡ list_any (λ name. fits name (tree_of thrown.now) m.now) names.now }
{
    names.iter().any(|name| fits(m, name.as_slice(), thrown))
}

/// Whether a `catch` has a class that fits.
pub fn catches(m: &Machine, c: &Catch, thrown: &Value) -> bool
    ensures { result ≡ list_any (λ name. fits name (tree_of thrown.now) m.now) (out-Catch c.now).classes }
{
    one_fits(m, c.classes.as_slice(), thrown)
}

/// How a `try` ends whose last part ended so.
pub fn closing(course: Course, end: Result<Course, u32>) -> Result<Course, Stop>
    ensures { result ≡ closing course end }
{
    match course {
        Course::Next => match end {
            Ok(course) => Ok(course),
            Err(o) => Err(Stop::Thrown(o)),
        },
        Course::Break => Ok(Course::Break),
        Course::Continue => Ok(Course::Continue),
        Course::Return(v) => Ok(Course::Return(v)),
    }
}

/// Stores a value, and answers it.
pub fn stored_value(
    alloc: Global,
    m: &mut Machine,
    t: &Target,
    path: &Path,
    v: Value,
) -> Result<Value, Stop>
    ensures { Runs (stored_value t.now.variable path.now v) m.old result m.new }
{
    let answer = v.clone()?;
    store(alloc, m, &t.variable, path, v)?;
    Ok(answer)
}
