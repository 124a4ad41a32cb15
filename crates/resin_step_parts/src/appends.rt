//! `.=` of a variable alone: its text grows in its place.
ghost use Rattle.resin_meaning_forms.specs.Runs.{Runs, on_ok};
ghost use Rattle.resin_meaning_forms.specs.Under.lstr.Texts.{Text as LabelledText};
ghost use Rattle.resin_meaning_forms.specs.Under.machine.Steps.{ActsLoosely};
ghost use Rattle.resin_meaning_forms.specs.Under.machine.Variables.{variable};
ghost use Rattle.resin_meaning_forms.specs.Under.value.Trees.{text as text_tree};
ghost use Rattle.resin_meaning_forms.specs.Under.value.declared.value.Value.{Value as AnyValue};
ghost use Rattle.resin_step_parts.specs.Appends.{appended, joint, put, text_length};
ghost use Rattle.std.specs.Prelude.{IfSome, OnOk, Some, length, ◌++◌, ◌+◌, ◌≡◌, ◌≤◌};

use crate::operators::{charge_two, concatenated};
use crate::statements::stored_value;
use resin_meaning_forms::under::lstr::{LONGEST, LText};
use resin_meaning_forms::under::machine::{Machine, Stop};
use resin_meaning_forms::under::scalar::ScriptFault;
use resin_meaning_forms::under::target::{Path, fetch};
use resin_meaning_forms::under::tree::Target;
use resin_meaning_forms::under::value::Value;
use std::alloc::{AllocError, Global};

// The length of the text that a variable holds, if it holds one.
fn text_length(m: &Machine, name: &[u8]) -> Option<usize>
    ensures value { result ≡ text_length (variable name.now m.now) }
    ensures short { IfSome result (λ n. n ≤ LONGEST) }
{
    match m.variable(name) {
        Some(Value::Text(text)) => Some(text.len()),
        _ => None,
    }
}

// Charges two texts of these lengths and the one that they make, which is not made yet: TextTooLong comes exactly where it would be too long.
fn charge_joint(m: &mut Machine, first: usize, second: usize) -> Result<(), Stop>
    requires first_short { first ≤ LONGEST }
    requires second_short { second ≤ LONGEST }
    ensures does { (a b : LabelledText) → length a ≡ first → length b ≡ second
        → Runs (joint (text_tree a) (text_tree b)) m.old (on_ok (λ _. AnyValue.Text (a ++ b)) result) m.new }
    ensures same { OnOk result (m.new ≡ record m.old { ticks = m.new.ticks }) }
    ensures short { OnOk result (first + second ≤ LONGEST) }
{
    m.charge_bytes(first as u64)?;
    m.charge_bytes(second as u64)?;
    let both = first + second;
    if both > LONGEST {
        return Err(m.fault(ScriptFault::TextTooLong));
    }
    m.charge_bytes(both as u64)
}

// Puts a text that was taken out of a variable back, with more behind it, and answers it. After want of memory it is put back as it was.
fn put_longer(
    alloc: Global,
    m: &mut Machine,
    name: &[u8],
    text: LText,
    more: &LText,
) -> Result<Value, Stop>
    ensures acts { ActsLoosely (put name.now (AnyValue.Text (text ++ more.now))) m.old result m.new }
{
    let mut text = text;
    let end = text.append(alloc, more);
    let answer: Result<LText, AllocError> = text.clone();
    m.assign(name, Value::Text(text))?;
    match end {
        Ok(()) => Ok(Value::Text(answer?)),
        Err(_) => Err(Stop::Memory),
    }
}

// Puts a text behind the one that a variable holds: in its place where none else holds that.
fn extend(alloc: Global, m: &mut Machine, name: &[u8], more: &LText) -> Result<Value, Stop>
    ensures acts { (x : LabelledText) → variable name.now m.old ≡ Some (AnyValue.Text x)
        → ActsLoosely (put name.now (AnyValue.Text (x ++ more.now))) m.old result m.new }
{
    match m.take(name) {
        Value::Text(text) => put_longer(alloc, m, name, text, more),
        _ => Err(Stop::Memory),
    }
}

// `t .= y`, where the text is made anew.
fn combine(alloc: Global, m: &mut Machine, t: &Target, y: &Value) -> Result<Value, Stop>
    ensures { Runs (appended t.now.variable y.now) m.old result m.new }
{
    let path = Path::new(alloc);
    let x = fetch(alloc, m, &t.variable, &path)?;
    charge_two(m, &x, y)?;
    let v = concatenated(alloc, m, &x, y)?;
    stored_value(alloc, m, t, &path, v)
}

/// `t .= y`, where t is a variable without postfixes; the value is the text that is stored. A text that none else holds grows in its place, so that
/// many appends take time in proportion to what they append. It is BadOperand exactly where one of both is an array or an object, TextTooLong where
/// the text would be too long, and FuelSpent where the two texts and the one that they make can't be charged; then no variable is changed.
pub fn append(alloc: Global, m: &mut Machine, t: &Target, y: &Value) -> Result<Value, Stop>
    ensures { Runs (appended t.now.variable y.now) m.old result m.new }
{
    let Value::Text(more) = y else {
        return combine(alloc, m, t, y);
    };
    let Some(length) = text_length(m, t.variable.as_slice()) else {
        return combine(alloc, m, t, y);
    };
    charge_joint(m, length, more.len())?;
    extend(alloc, m, t.variable.as_slice(), more)
}
