//! Steps on targets.
ghost use Rattle.std.specs.Prelude.{◌≡◌, IsOk};
ghost use Rattle.resin_machine.specs.Steps.{Acts, ActsLoosely};
ghost use Rattle.resin_target.specs.declared.place.Place.{Place as AnyPlace};
ghost use Rattle.resin_target.specs.Reads.{GivesOrNoMemory};
ghost use Rattle.resin_target.specs.Heights.{height_of};
ghost use Rattle.resin_target.specs.Stores as rule;
ghost use Rattle.resin_target.specs.Targets as step;

use crate::path::{Hop, Index, Path};
use crate::place::{Place, value_at};
use crate::reads::{at_index, at_property};
use crate::stores::{erased, erased_height, found, stored, stored_height};
use resin_machine::under::items::SharedBytes;
use resin_machine::{Machine, Stop};
use resin_ops::under::scalar::{CallStop, ScriptFault};
use resin_ops::under::value::Value;
use std::alloc::{AllocError, Global};

// What stands under indices of a place.
fn found_at(alloc: Global, m: &Machine, at: &Place, indices: &[Index]) -> Result<Value, CallStop>
    ensures { GivesOrNoMemory result (rule.found indices.now (step.standing at.now m.now)) }
{
    match value_at(m, at) {
        Some(here) => found(alloc, here, indices),
        None => found(alloc, &Value::Null, indices),
    }
}

// The object that a value is; null is none.
fn object_in(v: &Value) -> Result<Option<u32>, CallStop>
    ensures { result ≡ step.object_in v.now }
{
    match v {
        Value::Null => Ok(None),
        Value::Obj(o) => Ok(Some(*o)),
        _ => Err(CallStop::Fault(ScriptFault::BadOperand)),
    }
}

// The property that indices lead to from a place; none where null stands before it.
fn hopped(alloc: Global, m: &Machine, at: &Place, hop: &Hop) -> Result<Option<Place>, CallStop>
    ensures { GivesOrNoMemory result (step.hopped hop.now at.now m.now) }
{
    let below = found_at(alloc, m, at, hop.indices.as_slice())?;
    match object_in(&below)? {
        Some(o) => Ok(Some(Place::Property(o, hop.property.clone()?))),
        None => Ok(None),
    }
}

// The variable, or the property of an object, that the postfixes up to the last property lead to; none where null stands before one of them.
fn reached(
    alloc: Global,
    m: &Machine,
    name: &SharedBytes,
    path: &Path,
) -> Result<Option<Place>, CallStop>
    ensures { GivesOrNoMemory result (step.reached path.now.hops (AnyPlace.Variable name.now) m.now) }
{
    let mut at = Place::Variable(name.clone()?);
    for hop in path.hops.as_slice() {
        match hopped(alloc, m, &at, hop)? {
            Some(further) => at = further,
            None => return Ok(None),
        }
    }
    Ok(Some(at))
}

// Takes the value at a place out, of which nothing is copied; null stands there meanwhile.
fn take(m: &mut Machine, at: &Place) -> Result<Value, Stop>
    ensures acts { Acts (step.take_place at.now) m.old result m.new }
{
    match at {
        Place::Variable(name) => Ok(m.take(name.as_slice())),
        Place::Property(o, name) => m.take_field(*o, name.as_slice()),
    }
}

// Puts a value at a place.
fn put(m: &mut Machine, at: &Place, v: Value) -> Result<(), Stop>
    ensures acts { Acts (step.put_at_place at.now v) m.old result m.new }
{
    match at {
        Place::Variable(name) => m.assign(name.as_slice(), v),
        Place::Property(o, name) => m.set_field(*o, name.as_slice(), v),
    }
}

// Whether a store at a place can be done, by the height that it would give.
fn height_at(
    alloc: Global,
    m: &Machine,
    at: &Place,
    indices: &[Index],
    v: &Value,
) -> Result<u32, CallStop>
    ensures { GivesOrNoMemory result (height_of (rule.stored indices.now v.now (step.standing at.now m.now))) }
{
    match value_at(m, at) {
        Some(here) => stored_height(alloc, here, indices, v),
        None => stored_height(alloc, &Value::Null, indices, v),
    }
}

// A store under indices of a place that can be done, in the array's place where none else holds it.
fn store_key(
    alloc: Global,
    m: &mut Machine,
    at: &Place,
    indices: &[Index],
    v: Value,
) -> Result<(), Stop>
    requires { IsOk (rule.stored indices.now v (step.standing at.now m.old)) }
    ensures acts { ActsLoosely (step.store_there at.now indices.now v) m.old result m.new }
{
    let here = take(m, at)?;
    match stored(alloc, here, indices, v) {
        Ok(changed) => put(m, at, changed),
        Err(_) => Err(Stop::Memory),
    }
}

// A store at a place, where no index is left, or under indices of it.
fn store_there(
    alloc: Global,
    m: &mut Machine,
    at: &Place,
    indices: &[Index],
    v: Value,
) -> Result<(), Stop>
    ensures acts { ActsLoosely (step.store_there at.now indices.now v) m.old result m.new }
{
    if indices.is_empty() {
        return put(m, at, v);
    }
    match height_at(alloc, m, at, indices, &v) {
        Ok(_) => store_key(alloc, m, at, indices, v),
        Err(stop) => m.settle(Err(stop)),
    }
}

/// `t = v`, where t is a variable with these postfixes. It is BadOperand exactly where an index stands under a value that is neither null nor an
/// array, an index is no key, or a property is set of no object; an Error is thrown where an array has no next index; ArrayTooDeep comes where an
/// array would be more than 100 high. Keys are turned from the left, and nothing is changed unless all is well. An array that none else holds is
/// changed in its place.
pub fn store(
    alloc: Global,
    m: &mut Machine,
    name: &SharedBytes,
    path: &Path,
    v: Value,
) -> Result<(), Stop>
    ensures acts { ActsLoosely (step.store name.now path.now v) m.old result m.new }
{
    if path.is_alone() {
        return m.assign(name.as_slice(), v);
    }
    match reached(alloc, m, name, path) {
        Ok(Some(at)) => store_there(alloc, m, &at, path.indices.as_slice(), v),
        Ok(None) => Err(m.fault(ScriptFault::BadOperand)),
        Err(stop) => m.settle(Err(stop)),
    }
}

// The value under indices of a value, as an expression reads it.
fn read_indices(alloc: Global, here: Value, indices: &[Index]) -> Result<Value, CallStop>
    ensures { GivesOrNoMemory result (step.read_indices indices.now here) }
{
    let mut here = here;
    for index in indices {
        here = match index {
            Index::At(e) => at_index(alloc, false, e, &here)?,
            Index::Next => Value::Null,
        };
    }
    Ok(here)
}

// The value of a property behind indices of a value.
fn read_hop(alloc: Global, m: &Machine, here: Value, hop: &Hop) -> Result<Value, CallStop>
    ensures { GivesOrNoMemory result (step.read_hop hop.now here m.now) }
{
    let object = read_indices(alloc, here, hop.indices.as_slice())?;
    Ok(at_property(m, hop.property.as_slice(), &object)?)
}

// The value of a target.
fn value_of(alloc: Global, m: &Machine, name: &SharedBytes, path: &Path) -> Result<Value, CallStop>
    ensures { GivesOrNoMemory result (step.value_of name.now path.now m.now) }
{
    let mut here = match m.variable(name.as_slice()) {
        Some(value) => value.clone()?,
        None => Value::Null,
    };
    for hop in path.hops.as_slice() {
        here = read_hop(alloc, m, here, hop)?;
    }
    read_indices(alloc, here, path.indices.as_slice())
}

/// The value of a variable with these postfixes, as an expression reads it.
pub fn fetch(alloc: Global, m: &mut Machine, name: &SharedBytes, path: &Path) -> Result<Value, Stop>
    ensures acts { ActsLoosely (step.fetch name.now path.now) m.old result m.new }
{
    let answer = value_of(alloc, m, name, path);
    m.settle(answer)
}

// Takes a variable or a property out.
fn remove(m: &mut Machine, at: &Place) -> Result<(), Stop>
    ensures acts { Acts (step.remove_place at.now) m.old result m.new }
{
    match at {
        Place::Variable(name) => {
            m.unset(name.as_slice());
            Ok(())
        }
        Place::Property(o, name) => m.unset_field(*o, name.as_slice()),
    }
}

// Whether the key under indices of a place can go, by the height that would be left.
fn height_left(alloc: Global, m: &Machine, at: &Place, indices: &[Index]) -> Result<u32, CallStop>
    ensures { GivesOrNoMemory result (height_of (rule.erased indices.now (step.standing at.now m.now))) }
{
    match value_at(m, at) {
        Some(here) => erased_height(alloc, here, indices),
        None => erased_height(alloc, &Value::Null, indices),
    }
}

// Whether nothing stands at a place.
fn is_null_at(m: &Machine, at: &Place) -> bool
    ensures { result ≡ step.is_null (step.standing at.now m.now) }
{
    match value_at(m, at) {
        Some(Value::Null) | None => true,
        Some(_) => false,
    }
}

// Takes the key under indices of a place out, where that can be done: in the array's place where none else holds it.
fn erase_key(alloc: Global, m: &mut Machine, at: &Place, indices: &[Index]) -> Result<(), Stop>
    requires { IsOk (rule.erased indices.now (step.standing at.now m.old)) }
    ensures acts { ActsLoosely (step.erase_key at.now indices.now) m.old result m.new }
{
    let here = take(m, at)?;
    match erased(alloc, here, indices) {
        Ok(changed) => put(m, at, changed),
        Err(_) => Err(Stop::Memory),
    }
}

// `unset` of the place, or of a key under indices of it.
fn erase_there(alloc: Global, m: &mut Machine, at: &Place, indices: &[Index]) -> Result<(), Stop>
    ensures acts { ActsLoosely (step.erase_there at.now indices.now) m.old result m.new }
{
    if indices.is_empty() {
        return remove(m, at);
    }
    if is_null_at(m, at) {
        return Ok(());
    }
    match height_left(alloc, m, at, indices) {
        Ok(_) => erase_key(alloc, m, at, indices),
        Err(stop) => m.settle(Err(stop)),
    }
}

/// `unset(t)`, where t is a variable with these postfixes. A key or a property that isn't there, or stands under null, leaves everything as it
/// is. It is BadOperand exactly where an index stands under another value that is no array, an index is no key, or a property is unset of another
/// value that is no object. An array that none else holds is changed in its place.
pub fn erase(alloc: Global, m: &mut Machine, name: &SharedBytes, path: &Path) -> Result<(), Stop>
    ensures acts { ActsLoosely (step.erase name.now path.now) m.old result m.new }
{
    match reached(alloc, m, name, path) {
        Ok(Some(at)) => erase_there(alloc, m, &at, path.indices.as_slice()),
        Ok(None) => Ok(()),
        Err(stop) => m.settle(Err(stop)),
    }
}
