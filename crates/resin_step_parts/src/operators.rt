//! Operators that call no code of scripts.
ghost use Rattle.std.specs.Prelude.{◌≡◌, ◌≤◌, ◌++◌, IfOk};
ghost use Rattle.std.specs.Option.{option_map_or};
ghost use Rattle.resin_meaning_forms.specs.Under.label.Sets.{empty as no_labels};
ghost use Rattle.resin_meaning_forms.specs.Under.value.Trees.{Tree, object};
ghost use Rattle.resin_meaning_forms.specs.Under.value.Seen.{tree_of, trees_of};
ghost use Rattle.resin_meaning_forms.specs.Under.heap.Classes.{is_a};
ghost use Rattle.resin_meaning_forms.specs.Under.heap.Objects.{IsObject, class_at};
ghost use Rattle.resin_meaning_forms.specs.Under.machine.Steps.{Acts, ActsLoosely, charge};
ghost use Rattle.resin_meaning_forms.specs.Under.machine.Objects.{settled};
ghost use Rattle.resin_meaning_forms.specs.Under.target.Reads.{GivesOrNoMemory};
ghost use Rattle.resin_meaning_forms.specs.Runs.{Runs};
ghost use Rattle.resin_meaning_forms.specs.Parts.{Evals, charge_both, charged, given, text_cost};
ghost use Rattle.resin_meaning_forms.specs.Merges.{is_of_class, is_under};
ghost use Rattle.resin_meaning_forms.specs.Operators.{too_long, concatenated, calculated, combined_by, compare_fault, or_fault, or_spent};
ghost use Rattle.resin_meaning_forms.specs.Operators.{compared, equal, identical, order, labelled, sign_of, own_set, fits, instance_of};

use crate::reads::{number, text_cost, text_stop};
use resin_meaning_forms::under::heap::PreludeClass;
use resin_meaning_forms::under::label::PSet;
use resin_meaning_forms::under::lstr::LText;
use resin_meaning_forms::under::machine::{Machine, Stop};
use resin_meaning_forms::under::ops::{Arith, to_text};
use resin_meaning_forms::under::scalar::{CallStop, ScriptFault, Spent, Ticks};
use resin_meaning_forms::under::tree::{Combining, Comparison};
use resin_meaning_forms::under::value::{CompareFault, Value, equal, identical, order};
use std::alloc::{AllocError, Global};
use std::cmp::Ordering;

/// Charges the text that a value is.
pub fn charge_one(m: &mut Machine, v: &Value) -> Result<(), Stop>
    ensures acts { Acts (charge (text_cost (tree_of v.now))) m.old result m.new }
{
    m.charge(text_cost(v))
}

/// Charges the texts that two values are.
pub fn charge_two(m: &mut Machine, x: &Value, y: &Value) -> Result<(), Stop>
    ensures { Runs (charge_both (tree_of x.now) (tree_of y.now)) m.old result m.new }
{
    charge_one(m, x)?;
    charge_one(m, y)
}

/// Charges the texts among some values.
pub fn charge_all(m: &mut Machine, vs: &[Value]) -> Result<(), Stop>
    ensures { Runs (charged (trees_of vs.now)) m.old result m.new }
{
    for v in vs {
        charge_one(m, v)?;
    }
    Ok(())
}

/// A value that is given once its text is charged.
pub fn given(m: &mut Machine, v: Value) -> Result<Value, Stop>
    ensures { Runs (given (tree_of v)) m.old result m.new }
{
    charge_one(m, &v)?;
    Ok(v)
}

/// The operator on numbers, `None` for `.`.
pub fn arithmetic(op: Combining) -> Option<Arith>
    ensures { (ev : Evals) (x y : Tree) → combined_by ev op x y ≡ option_map_or (λ by. calculated ev by x y) result (concatenated x y) }
{
    match op {
        Combining::Multiply => Some(Arith::Mul),
        Combining::Divide => Some(Arith::Div),
        Combining::Remainder => Some(Arith::Rem),
        Combining::Add => Some(Arith::Add),
        Combining::Subtract => Some(Arith::Sub),
        Combining::Concat => None,
    }
}

/// One text behind the other.
pub fn joined(alloc: Global, a: &LText, b: &LText) -> Result<LText, CallStop>
    ensures { GivesOrNoMemory result (too_long (a.now ++ b.now)) }
{
    match a.concat(alloc, b) {
        Ok(t) => Ok(t),
        Err(fault) => Err(text_stop(fault)),
    }
}

/// `x . y`
pub fn concatenated(alloc: Global, m: &mut Machine, x: &Value, y: &Value) -> Result<Value, Stop>
    ensures { Runs (concatenated (tree_of x.now) (tree_of y.now)) m.old result m.new }
{
    let a = m.settle(to_text(alloc, x))?;
    let b = m.settle(to_text(alloc, y))?;
    let t = m.settle(joined(alloc, &a, &b))?;
    given(m, Value::Text(t))
}

// What a comparison that faults means.
fn compare_fault(fault: CompareFault) -> CallStop
    ensures { result ≡ compare_fault fault }
{
    match fault {
        CompareFault::Object => CallStop::Fault(ScriptFault::ObjectComparison),
        CompareFault::Operand => CallStop::Fault(ScriptFault::BadOperand),
        CompareFault::Float => CallStop::Fault(ScriptFault::FloatNeeded),
        CompareFault::Spent => CallStop::Fault(ScriptFault::FuelSpent),
    }
}

// The same of its answer.
fn or_fault<T>(answer: Result<T, CompareFault>) -> Result<T, CallStop>
    ensures { result ≡ or_fault answer }
{
    match answer {
        Ok(value) => Ok(value),
        Err(fault) => Err(compare_fault(fault)),
    }
}

// The same where it faults only for want of ticks.
fn or_spent(answer: Result<bool, Spent>) -> Result<bool, CallStop>
    ensures { result ≡ or_spent answer }
{
    match answer {
        Ok(value) => Ok(value),
        Err(_) => Err(CallStop::Fault(ScriptFault::FuelSpent)),
    }
}

// What a comparison answered that left so many ticks.
fn charged_down(m: &mut Machine, left: u64, answer: Result<bool, CallStop>) -> Result<bool, Stop>
    requires { left ≤ m.old.ticks }
    ensures acts { ActsLoosely (λ s. settled answer (record s { ticks = left })) m.old result m.new }
{
    let count = m.ticks() - left;
    m.charge(count)?;
    m.settle(answer)
}

/// `x == y`
pub fn are_equal(m: &mut Machine, x: &Value, y: &Value) -> Result<bool, Stop>
    ensures { Runs (equal (tree_of x.now) (tree_of y.now)) m.old result m.new }
{
    let mut ticks = Ticks { left: m.ticks() };
    let answer = or_fault(equal(x, y, &mut ticks));
    charged_down(m, ticks.left, answer)
}

// `x === y`
fn are_identical(m: &mut Machine, x: &Value, y: &Value) -> Result<bool, Stop>
    ensures { Runs (identical (tree_of x.now) (tree_of y.now)) m.old result m.new }
{
    let mut ticks = Ticks { left: m.ticks() };
    let answer = or_spent(identical(x, y, &mut ticks));
    charged_down(m, ticks.left, answer)
}

// The order of two values.
fn order_of(m: &mut Machine, x: &Value, y: &Value) -> Result<Ordering, Stop>
    ensures { Runs (order (tree_of x.now) (tree_of y.now)) m.old result m.new }
{
    let mut ticks = Ticks { left: 0 };
    m.settle(or_fault(order(x, y, &mut ticks)))
}

// -1, 0 or 1
fn sign_of(o: Ordering) -> Value
    ensures { result ≡ labelled (sign_of o) no_labels }
{
    match o {
        Ordering::Less => number(-1),
        Ordering::Equal => number(0),
        Ordering::Greater => number(1),
    }
}

/// A comparison of two values.
pub fn compared(m: &mut Machine, op: Comparison, x: &Value, y: &Value) -> Result<Value, Stop>
    ensures { Runs (compared op x.now y.now) m.old result m.new }
{
    charge_two(m, x, y)?;
    match op {
        Comparison::Less => Ok(Value::Bool(order_of(m, x, y)?.is_lt())),
        Comparison::LessOrEqual => Ok(Value::Bool(order_of(m, x, y)?.is_le())),
        Comparison::Greater => Ok(Value::Bool(order_of(m, x, y)?.is_gt())),
        Comparison::GreaterOrEqual => Ok(Value::Bool(order_of(m, x, y)?.is_ge())),
        Comparison::Equal => Ok(Value::Bool(are_equal(m, x, y)?)),
        Comparison::NotEqual => Ok(Value::Bool(!are_equal(m, x, y)?)),
        Comparison::Identical => Ok(Value::Bool(are_identical(m, x, y)?)),
        Comparison::NotIdentical => Ok(Value::Bool(!are_identical(m, x, y)?)),
        Comparison::Compare => Ok(sign_of(order_of(m, x, y)?)),
    }
}

/// Whether a value is an object of the class of this name, or of one under it. Nothing fits a class that isn't declared.
pub fn fits(m: &Machine, name: &[u8], v: &Value) -> bool
    ensures { result ≡ fits name.now (tree_of v.now) m.now }
{
    match v {
        Value::Obj(o) => object_fits(m, name, *o),
        Value::Null | Value::Bool(_) | Value::Int(_, _) | Value::Text(_) | Value::Arr(_) => false,
    }
}

// The same of an object.
fn object_fits(m: &Machine, name: &[u8], o: u32) -> bool
    ensures { result ≡ fits name.now (object o) m.now }
{
    if m.heap().has(o) {
        match m.classes().find(name) {
            Some(class) => is_of(m, o, class),
            None => false,
        }
    } else {
        false
    }
}

// Whether an object is of a class, or of one under it.
fn is_of(m: &Machine, o: u32, class: u32) -> bool
    requires { IsObject m.now.heap o }
    ensures { result ≡ is_a m.now.classes (class_at m.now.heap o) class }
{
    let of = m.heap().class_of(o);
    let classes = m.classes();
    if of < classes.len() {
        classes.is_a(of, class)
    } else {
        of == class
    }
}

/// Whether a value is an object of a class of the runtime, or of one under it.
pub fn is_object_under(m: &Machine, class: PreludeClass, v: &Value) -> bool
    ensures { result ≡ is_under class m.now (tree_of v.now) }
{
    match v {
        Value::Obj(o) => object_is_under(m, class, *o),
        Value::Null | Value::Bool(_) | Value::Int(_, _) | Value::Text(_) | Value::Arr(_) => false,
    }
}

// The same of an object.
fn object_is_under(m: &Machine, class: PreludeClass, o: u32) -> bool
    ensures { result ≡ is_under class m.now (object o) }
{
    is_object_of(m, class.number(), o)
}

/// Whether there is an object of this number that is of the class of a number, or of one under it.
pub fn is_object_of(m: &Machine, class: u32, o: u32) -> bool
    ensures { result ≡ is_of_class class m.now o }
{
    if m.heap().has(o) {
        is_of(m, o, class)
    } else {
        false
    }
}

/// `x instanceof name`
pub fn instance_of(m: &mut Machine, name: &[u8], x: &Value) -> Result<Value, Stop>
    ensures { Runs (instance_of name.now x.now) m.old result m.new }
{
    charge_one(m, x)?;
    Ok(Value::Bool(fits(m, name, x)))
}

/// The set that an integer carries; nothing for other values but texts.
pub fn own_set(v: &Value) -> Result<PSet, AllocError>
    ensures { IfOk result (λ s. s ≡ own_set (tree_of v.now)) }
{
    match v {
        Value::Int(_, set) => set.clone(),
        Value::Null | Value::Bool(_) | Value::Text(_) | Value::Arr(_) | Value::Obj(_) => {
            Ok(PSet::empty())
        }
    }
}
