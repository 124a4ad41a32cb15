//! Constant expressions.
ghost use Rattle.resin_step_functions.specs.Under.builtin.Rows.{mapped};
ghost use Rattle.resin_step_functions.specs.Under.meaning_forms.Invoke.{addition_of, constant_program, constant_value, item_value, with_items};
ghost use Rattle.resin_step_functions.specs.Under.meaning_forms.Runs.{Runs};
ghost use Rattle.resin_step_functions.specs.Under.ops.Places.{seen_answer};
ghost use Rattle.resin_step_functions.specs.Under.target.Reads.{GivesOrNoMemory};
ghost use Rattle.resin_step_functions.specs.Under.value.Changes.{empty as no_entries};
ghost use Rattle.resin_step_functions.specs.Under.value.Keys.{is_lawful};
ghost use Rattle.resin_step_functions.specs.Under.value.Seen.{tree_of};
ghost use Rattle.std.specs.Prelude.{IfOk, IfSome, IsTrue, OnOk, Ok, map, ◌≡◌};

use resin_step_functions::under::machine::{Machine, Stop};
use resin_step_functions::under::ops::to_key;
use resin_step_functions::under::scalar::CallStop;
use resin_step_functions::under::step_parts::reads::{literal_value, with_entry};
use resin_step_functions::under::value::{Arr, Key, Value};
use resin_tree::{Constant, ConstantItem};
use std::alloc::Global;

/// The value of a constant expression, as a step.
pub fn constant_value(alloc: Global, m: &mut Machine, c: &Constant) -> Result<Value, Stop>
    ensures does { Runs (constant_program c.now) m.old result m.new }
    ensures kept { OnOk result (m.new.classes ≡ m.old.classes) }
{
    m.settle(constant(alloc, c))
}

// The value of a constant expression.
#[cycle(constant)]
fn constant(alloc: Global, c: &Constant) -> Result<Value, CallStop>
    ensures { GivesOrNoMemory (seen_answer result) (constant_value c.now) }
{
    match c {
        Constant::Literal(l) => Ok(literal_value(alloc, l)?),
        Constant::Array(items) => Ok(Value::Arr(constant_array(alloc, items.as_slice())?)),
    }
}

// The key and the value of an item of a constant array; there may be no key.
#[cycle(constant)]
fn addition(alloc: Global, item: &ConstantItem) -> Result<(Option<Key>, Value), CallStop>
    ensures value { GivesOrNoMemory (mapped (λ e. (e.0, tree_of e.1)) result) (addition_of (item_value item.now)) }
    ensures lawful { IfOk result (λ e. IfSome e.0 (λ k. IsTrue (is_lawful k))) }
{
    let Some(k) = &item.key else {
        return Ok((None, constant(alloc, &item.value)?));
    };
    let key = constant(alloc, k)?;
    let value = constant(alloc, &item.value)?;
    let at = to_key(alloc, &key)?;
    Ok((Some(at), value))
}

#[cycle(constant)]
fn constant_array(alloc: Global, items: &[ConstantItem]) -> Result<Arr, CallStop>
    ensures { GivesOrNoMemory result (with_items (Ok no_entries) (map item_value items.now)) }
{
    let mut a = Arr::new(alloc)?;
    for item in items {
        let (key, value) = addition(alloc, item)?;
        a = with_entry(a, &key, value)?;
    }
    Ok(a)
}
