//! Parts of values, and values that need no other.
ghost use Rattle.std.specs.Prelude.{◌≡◌, map, IfOk, IfSome, IsTrue};
ghost use Rattle.resin_meaning_forms.specs.Under.label.Sets.{empty as no_labels};
ghost use Rattle.resin_meaning_forms.specs.Under.lstr.Texts.{carrying};
ghost use Rattle.resin_meaning_forms.specs.Under.value.declared.value.Value.{Value as AnyValue};
ghost use Rattle.resin_meaning_forms.specs.Under.value.Keys.{is_lawful};
ghost use Rattle.resin_meaning_forms.specs.Under.value.Trees.{object};
ghost use Rattle.resin_meaning_forms.specs.Under.value.Seen.{tree_of, trees_of};
ghost use Rattle.resin_meaning_forms.specs.Under.value.Values.{value_of};
ghost use Rattle.resin_meaning_forms.specs.Under.ops.Conversions.{key_of, text_stop};
ghost use Rattle.resin_meaning_forms.specs.Under.array_fn.Filled.{added_at, array_stop, filled, in_order};
ghost use Rattle.resin_meaning_forms.specs.Under.machine.Steps.{ActsLoosely};
ghost use Rattle.resin_meaning_forms.specs.Under.machine.Objects.{settled};
ghost use Rattle.resin_meaning_forms.specs.Under.target.Reads.{GivesOrNoMemory, at_index, at_property};
ghost use Rattle.resin_meaning_forms.specs.Parts.{text_cost};
ghost use Rattle.resin_meaning_forms.specs.Invoke.{constant_of, literal_of};
ghost use Rattle.resin_meaning_forms.specs.Operands.{is_nothing};

use resin_meaning_forms::under::items::SharedBytes;
use resin_meaning_forms::under::label::PSet;
use resin_meaning_forms::under::lstr::{LText, TextFault};
use resin_meaning_forms::under::machine::{Machine, Stop};
use resin_meaning_forms::under::ops::to_key;
use resin_meaning_forms::under::scalar::{CallStop, ErrorKind, ScriptFault};
use resin_meaning_forms::under::target::{at_index, at_property};
use resin_meaning_forms::under::tree::{ConstantName, Literal};
use resin_meaning_forms::under::value::{Arr, ArrFault, Key, Value};
use std::alloc::{AllocError, Global};

/// A text without labels. It must be no longer than a text may be, or it finds no memory.
pub fn plain(alloc: Global, bytes: &[u8]) -> Result<LText, AllocError>
    ensures { IfOk result (λ t. t ≡ carrying no_labels bytes.now) }
{
    match LText::plain(alloc, bytes) {
        Ok(text) => Ok(text),
        Err(_) => Err(AllocError),
    }
}

// A text without labels that shares these bytes. They must be no more than a text may have, or it finds no memory.
fn shared_text(alloc: Global, bytes: &SharedBytes) -> Result<LText, AllocError>
    ensures { IfOk result (λ t. t ≡ carrying no_labels bytes.now) }
{
    match LText::shared(alloc, bytes.handle()?) {
        Ok(text) => Ok(text),
        Err(_) => Err(AllocError),
    }
}

/// An integer that carries nothing.
pub fn number(n: i64) -> Value
    ensures { result ≡ AnyValue.Int n no_labels }
{
    Value::Int(n, PSet::empty())
}

/// The value of a constant's name.
pub fn constant_value(alloc: Global, name: ConstantName) -> Result<Value, AllocError>
    ensures { IfOk result (λ v. v ≡ value_of (constant_of name)) }
{
    match name {
        ConstantName::Null => Ok(Value::Null),
        ConstantName::True => Ok(Value::Bool(true)),
        ConstantName::False => Ok(Value::Bool(false)),
        ConstantName::IntMax => Ok(number(i64::MAX)),
        ConstantName::IntMin => Ok(number(i64::MIN)),
        ConstantName::EndOfLine => Ok(Value::Text(plain(alloc, b"\n")?)),
        ConstantName::FileAppend => Ok(number(8)),
        ConstantName::PadLeft => Ok(number(0)),
        ConstantName::PadRight => Ok(number(1)),
    }
}

/// The value of a literal; it carries nothing. A text shares the bytes of the literal.
pub fn literal_value(alloc: Global, literal: &Literal) -> Result<Value, AllocError>
    ensures { IfOk result (λ v. v ≡ value_of (literal_of literal.now)) }
{
    match literal {
        Literal::Int(n) => Ok(number(*n)),
        Literal::Text(bytes) => Ok(Value::Text(shared_text(alloc, bytes)?)),
        Literal::Constant(name) => constant_value(alloc, *name),
    }
}

/// Why nothing was put into an array, as the end of a call.
pub fn array_stop(fault: ArrFault) -> CallStop
    ensures { result ≡ array_stop fault }
{
    match fault {
        ArrFault::NoNextKey => CallStop::Throw(ErrorKind::Plain),
        ArrFault::TooHigh => CallStop::Fault(ScriptFault::ArrayTooDeep),
        ArrFault::Memory => CallStop::Memory,
    }
}

/// Why there is no text, as the end of a call.
pub fn text_stop(fault: TextFault) -> CallStop
    ensures { result ≡ text_stop fault }
{
    match fault {
        TextFault::TooLong => CallStop::Fault(ScriptFault::TextTooLong),
        TextFault::Memory => CallStop::Memory,
    }
}

/// An array with a value put at a key, or at the next one.
pub fn with_entry(mut a: Arr, key: &Option<Key>, v: Value) -> Result<Arr, CallStop>
    requires lawful { IfSome key.now (λ k. IsTrue (is_lawful k)) }
    ensures { GivesOrNoMemory result (added_at key.now (tree_of v) a) }
{
    let put = match key {
        Some(key) => a.put(key, v),
        None => a.append(v),
    };
    match put {
        Ok(()) => Ok(a),
        Err(fault) => Err(array_stop(fault)),
    }
}

/// The list of some values.
pub fn list(alloc: Global, values: &[Value]) -> Result<Arr, CallStop>
    ensures { GivesOrNoMemory result (filled (in_order (trees_of values.now))) }
{
    let mut out = Arr::new(alloc)?;
    for v in values {
        out = with_entry(out, &None, v.clone()?)?;
    }
    Ok(out)
}

/// The list of some objects.
pub fn object_list(alloc: Global, objects: &[u32]) -> Result<Arr, CallStop>
    ensures { GivesOrNoMemory result (filled (in_order (map object objects.now))) }
{
    let mut out = Arr::new(alloc)?;
    for o in objects {
        out = with_entry(out, &None, Value::Obj(*o))?;
    }
    Ok(out)
}

/// What a text costs that an operator takes or gives.
pub fn text_cost(v: &Value) -> u64
    ensures { result ≡ text_cost (tree_of v.now) }
{
    match v {
        Value::Text(t) => t.len() as u64 / 256,
        Value::Null | Value::Bool(_) | Value::Int(_, _) | Value::Arr(_) | Value::Obj(_) => 0,
    }
}

/// Whether a value is null.
pub fn is_nothing(v: &Value) -> bool
    ensures { result ≡ is_nothing v.now }
{
    match v {
        Value::Null => true,
        Value::Bool(_) | Value::Int(_, _) | Value::Text(_) | Value::Arr(_) | Value::Obj(_) => false,
    }
}

/// A value as a key.
pub fn keyed(alloc: Global, m: &mut Machine, k: &Value) -> Result<Key, Stop>
    ensures acts { ActsLoosely (settled (key_of (tree_of k.now))) m.old result m.new }
    ensures lawful { IfOk result (λ key. IsTrue (is_lawful key)) }
{
    m.settle(to_key(alloc, k))
}

/// `v[k]`, leniently where the value is only asked for.
pub fn index_of(
    alloc: Global,
    m: &mut Machine,
    lenient: bool,
    v: &Value,
    k: &Value,
) -> Result<Value, Stop>
    ensures acts { ActsLoosely (settled (at_index lenient k.now v.now)) m.old result m.new }
{
    m.settle(at_index(alloc, lenient, k, v))
}

/// `v->p`
pub fn property_of(m: &Machine, v: &Value, name: &[u8]) -> Result<Value, AllocError>
    ensures { IfOk result (λ w. w ≡ at_property name.now v.now m.now) }
{
    at_property(m, name, v)
}
