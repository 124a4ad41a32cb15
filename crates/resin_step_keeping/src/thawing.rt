//! What a read makes of an entry.
ghost use Rattle.resin_step_parts.specs.Under.store.Entries.{lift, marks, plain_bytes, Marked};
ghost use Rattle.resin_step_parts.specs.Under.heap.declared.prelude.PreludeClass.TheVariants.{LostPolicy};
ghost use Rattle.resin_step_parts.specs.Under.meaning_forms.Keeping as meaning;
ghost use Rattle.resin_step_parts.specs.Under.meaning_forms.Runs.{Runs, on_ok};
ghost use Rattle.resin_step_parts.specs.Under.value.declared.key.Key.{Key as AnyKey};
ghost use Rattle.std.specs.Prelude.{◌≡◌, ◌<◌, [], length};

use crate::labels::{distinct_labels, labelled};
use crate::lists::put;
use resin_frozen::{Frozen, said};
use resin_shadow::FrozenRuns;
use resin_step_parts::reads::plain;
use resin_step_parts::under::base::Entry;
use resin_step_parts::under::heap::PreludeClass;
use resin_step_parts::under::label::PSet;
use resin_step_parts::under::lstr::{LONGEST, LText};
use resin_step_parts::under::machine::{Machine, Stop};
use resin_step_parts::under::scalar::ScriptFault;
use resin_step_parts::under::store::policies_of;
use resin_step_parts::under::value::{Arr, Key, Value};
use std::alloc::Global;

/// The text that a read makes of an entry: its bytes, each with an object for each of its policies. TextTooLong comes exactly where there are more
/// than 16,777,216 bytes, else BadShadow where the shadow text isn't one of so many bytes, at the running line, which is 0 where no statement runs.
///
/// Each policy text of the entry takes a tick, which is charged before the first object is made; then each is one object, in the order of
/// the shadow's table, made without a constructor. Where its class is declared, is under `Policy` and isn't `LostPolicy`, the object is of
/// that class and has its fields; else it is a `LostPolicy` that keeps the name of the class in `of` and the fields in `fields`.
pub fn thaw_entry(alloc: Global, m: &mut Machine, entry: &Entry) -> Result<LText, Stop>
    ensures { Runs (meaning.thaw_entry (lift entry.now)) m.old result m.new }
{
    let bytes = entry.bytes.as_slice();
    if bytes.len() > LONGEST {
        return Err(m.fault(ScriptFault::TextTooLong));
    }
    let runs = policies_of(alloc, entry)?;
    match runs {
        Some(runs) => thaw_marked(alloc, m, bytes, &runs),
        None => Err(m.fault(ScriptFault::BadShadow)),
    }
}

// Bytes with objects for the policies that they carry.
fn thaw_marked(
    alloc: Global,
    m: &mut Machine,
    bytes: &[u8],
    runs: &FrozenRuns,
) -> Result<LText, Stop>
    ensures { (d : Marked) → plain_bytes d ≡ bytes.now → marks d ≡ runs.now → Runs (meaning.thaw_marked d) m.old result m.new }
{
    let parts = runs.parts(alloc)?;
    let policies = parts.policies.as_slice();
    m.charge(policies.len() as u64)?;
    let objects = thaw_policies(alloc, m, policies)?;
    let numbers = objects.as_slice();
    let text = labelled(alloc, bytes, numbers, &parts)?;
    Ok(text)
}

/// The sets of objects that bytes with these policies carry, each once, in the order in which they first occur. The objects are charged and
/// made as those of an entry are, though no text is made of the bytes: there may be more of them than a text has.
pub fn thaw_sets(alloc: Global, m: &mut Machine, runs: &FrozenRuns) -> Result<Vec<PSet>, Stop>
    ensures { Runs (meaning.thaw_sets runs.now) m.old (on_ok (λ v. v.items) result) m.new }
{
    let parts = runs.parts(alloc)?;
    let policies = parts.policies.as_slice();
    let count = policies.len() as u64;
    m.charge(count)?;
    let objects = thaw_policies(alloc, m, policies)?;
    let sets = distinct_labels(alloc, objects.as_slice(), &parts)?;
    Ok(sets)
}

// An object for each of some policy texts, in order.
fn thaw_policies(alloc: Global, m: &mut Machine, texts: &[Frozen]) -> Result<Vec<u32>, Stop>
    ensures { Runs (meaning.thaw_policies [] texts.now) m.old (on_ok (λ v. v.items) result) m.new }
{
    let mut objects = Vec::new(alloc);
    for text in texts {
        let object = thaw_policy(alloc, m, text)?;
        put(&mut objects, object)?;
    }
    Ok(objects)
}

// An object for a policy text.
fn thaw_policy(alloc: Global, m: &mut Machine, text: &Frozen) -> Result<u32, Stop>
    ensures { Runs (meaning.thaw_policy text.now) m.old result m.new }
{
    let (class, fields) = said(alloc, text)?;
    let name = class.as_slice();
    match policy_class(m, name) {
        Some(class) => make_policy(m, class, &fields),
        None => make_lost(alloc, m, name, fields),
    }
}

// The class of a name, where stored policies of it can be objects of it.
fn policy_class(m: &Machine, name: &[u8]) -> Option<u32>
    ensures { result ≡ meaning.policy_class name.now m.now }
{
    let class = m.classes().find(name)?;
    if is_able(m, class) { Some(class) } else { None }
}

// Whether a class is under Policy, and isn't that of lost policies.
fn is_able(m: &Machine, class: u32) -> bool
    requires { class < length m.now.classes }
    ensures { result ≡ meaning.is_able m.now class }
{
    m.classes().is_a(class, PreludeClass::Policy.number())
        && class != PreludeClass::LostPolicy.number()
}

// An object of a class with fields.
fn make_policy(m: &mut Machine, class: u32, fields: &Arr) -> Result<u32, Stop>
    ensures { Runs (meaning.make_policy class fields.now.entries) m.old result m.new }
{
    let object = m.make_object(class)?;
    set_fields(m, object, fields)?;
    Ok(object)
}

// Gives an object fields, in order.
fn set_fields(m: &mut Machine, object: u32, fields: &Arr) -> Result<(), Stop>
    ensures { Runs (meaning.set_fields object fields.now.entries) m.old result m.new }
{
    for i in 0..fields.len() {
        let (key, value) = fields.entry(i);
        m.set_field(object, name_in(key), value.clone()?)?;
    }
    Ok(())
}

// The name of a field by its key.
fn name_in(key: &Key) -> &[u8]
    ensures { result.now ≡ meaning.name_in key.now }
{
    match key {
        Key::Text(name) => name.as_slice(),
        Key::Int(_) => &[],
    }
}

// A lost policy that keeps the name of a class and fields.
fn make_lost(alloc: Global, m: &mut Machine, name: &[u8], fields: Arr) -> Result<u32, Stop>
    ensures { Runs (meaning.make_lost name.now fields) m.old result m.new }
{
    let of = plain(alloc, name)?;
    let object = m.make_object(PreludeClass::LostPolicy.number())?;
    m.set_field(object, b"of", Value::Text(of))?;
    m.set_field(object, b"fields", Value::Arr(fields))?;
    Ok(object)
}
