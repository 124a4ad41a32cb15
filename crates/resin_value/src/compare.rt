//! Comparisons of values: `===`, `==` and the order that `<` and `<=>` ask for.
ghost use Rattle.std.specs.Prelude.{◌≡◌, length};
ghost use Rattle.resin_value.specs.Seen.{tree_of};
ghost use Rattle.resin_value.specs.Arrays.{row_of};
ghost use Rattle.resin_value.specs.Compare.{is_switch, equal_in_order, order_trees, equal_trees, equal_rows, identical_trees, identical_rows};

use crate::value::{Entries, Value};
use resin_scalar::{Spent, Ticks, compare};
use std::cmp::Ordering;

/// Why two values have no answer.
#[derive(Clone, Copy, Debug, Eq, PartialEq)]
pub enum CompareFault {
    /// An object was compared with something else than itself, null or a boolean.
    Object,
    /// An array has no order.
    Operand,
    /// Two numbers were to be compared, and one is a text in a float form.
    Float,
    /// A pair of values was to be looked at, and no tick was left.
    Spent,
}

impl From<Spent> for CompareFault {
    ghost use Rattle.resin_value.specs.declared.compare.CompareFault.{CompareFault};

    ghost from_gives = { λ _ fault. fault ≡ CompareFault.Spent };

    fn from(_spent: Spent) -> CompareFault {
        CompareFault::Spent
    }
}

/// Whether two values are identical (`===`): of the same kind and value, arrays with the same keys in the same order and identical values, objects by
/// number. Two arrays with as many entries cost one tick for each pair that is looked at; `Spent` comes exactly where none is left for the next one.
#[cycle(identical)]
pub fn identical(a: &Value, b: &Value, t: &mut Ticks) -> Result<bool, Spent>
    ensures answer { result ≡ (identical_trees (tree_of a.now) (tree_of b.now) t.old.left).0 }
    ensures charged { t.new.left ≡ (identical_trees (tree_of a.now) (tree_of b.now) t.old.left).1 }
{
    match (a, b) {
        (Value::Null, Value::Null) => Ok(true),
        (Value::Bool(x), Value::Bool(y)) => Ok(*x == *y),
        (Value::Int(x, _), Value::Int(y, _)) => Ok(*x == *y),
        (Value::Text(x), Value::Text(y)) => Ok(x.bytes() == y.bytes()),
        (Value::Obj(x), Value::Obj(y)) => Ok(*x == *y),
        (Value::Arr(x), Value::Arr(y)) => {
            if x.len() != y.len() {
                return Ok(false);
            }
            identical_entries(&x.body.entries, &y.body.entries, t)
        }
        _ => Ok(false),
    }
}

// Whether as many entries are identical, pair by pair.
#[cycle(identical)]
fn identical_entries(x: &Entries, y: &Entries, t: &mut Ticks) -> Result<bool, Spent>
    requires { length x.now ≡ length y.now }
    ensures answer { result ≡ (identical_rows (row_of x.now) (row_of y.now) t.old.left).0 }
    ensures charged { t.new.left ≡ (identical_rows (row_of x.now) (row_of y.now) t.old.left).1 }
{
    for i in 0..x.list.len() {
        t.spend(1)?;
        let a = &x.list[i];
        let b = &y.list[i];
        if !a.key.same(&b.key) {
            return Ok(false);
        }
        if !identical(&a.value, &b.value, t)? {
            return Ok(false);
        }
    }
    Ok(true)
}

/// Whether two values are equal (`==`). Two arrays with as many entries cost one tick for each pair that is looked at; `Spent` comes exactly
/// where none is left for the next one, `Object` exactly where an object meets another object, an array or a scalar other than null and booleans,
/// `Float` exactly where two numbers were to be compared and one is a text in a float form; `Operand` never comes.
#[cycle(equal)]
pub fn equal(a: &Value, b: &Value, t: &mut Ticks) -> Result<bool, CompareFault>
    ensures answer { result ≡ (equal_trees (tree_of a.now) (tree_of b.now) t.old.left).0 }
    ensures charged { t.new.left ≡ (equal_trees (tree_of a.now) (tree_of b.now) t.old.left).1 }
{
    match (a, b) {
        (Value::Arr(x), Value::Arr(y)) => {
            if x.len() != y.len() {
                return Ok(false);
            }
            equal_entries(&x.body.entries, &y.body.entries, t)
        }
        _ => equal_apart(a, b),
    }
}

// Whether the entries of the first are equal to those of the second at the same keys.
#[cycle(equal)]
fn equal_entries(x: &Entries, y: &Entries, t: &mut Ticks) -> Result<bool, CompareFault>
    ensures answer { result ≡ (equal_rows (row_of x.now) y.now t.old.left).0 }
    ensures charged { t.new.left ≡ (equal_rows (row_of x.now) y.now t.old.left).1 }
{
    for i in 0..x.list.len() {
        t.spend(1)?;
        let a = &x.list[i];
        let Some(w) = y.get(&a.key) else {
            return Ok(false);
        };
        if !equal(&a.value, w, t)? {
            return Ok(false);
        }
    }
    Ok(true)
}

// `==` of two values that aren't both arrays.
fn equal_apart(a: &Value, b: &Value) -> Result<bool, CompareFault>
    ensures { result ≡ equal_in_order (order_trees (tree_of a.now) (tree_of b.now)) }
{
    match in_order(a, b) {
        Ok(order) => Ok(order.is_eq()),
        Err(CompareFault::Operand) => Ok(false),
        Err(fault) => Err(fault),
    }
}

/// The order of two values (`<`, `<=>`). It costs nothing, since arrays have no order. `Object` comes exactly where an object meets another
/// object, an array or a scalar other than null and booleans, `Operand` exactly where an array meets an array or such a scalar, `Float` exactly
/// where two numbers were to be compared and one is a text in a float form; `Spent` never comes.
pub fn order(a: &Value, b: &Value, t: &mut Ticks) -> Result<Ordering, CompareFault>
    ensures answer { result ≡ order_trees (tree_of a.now) (tree_of b.now) }
    ensures charged { t.new.left ≡ t.old.left }
{
    let _ = t;
    in_order(a, b)
}

// The order of two values.
fn in_order(a: &Value, b: &Value) -> Result<Ordering, CompareFault>
    ensures { result ≡ order_trees (tree_of a.now) (tree_of b.now) }
{
    if let (Some(x), Some(y)) = (a.scalar(), b.scalar()) {
        return match compare(&x, &y) {
            Ok(order) => Ok(order),
            Err(_) => Err(CompareFault::Float),
        };
    }
    if is_switch(a) || is_switch(b) {
        return Ok(a.truth().cmp(&b.truth()));
    }
    match (a, b) {
        (Value::Obj(m), Value::Obj(n)) if *m == *n => Ok(Ordering::Equal),
        (Value::Obj(_), _) | (_, Value::Obj(_)) => Err(CompareFault::Object),
        _ => Err(CompareFault::Operand),
    }
}

// Whether a value is null or a boolean.
fn is_switch(v: &Value) -> bool
    ensures { result ≡ is_switch (tree_of v.now) }
{
    matches!(v, Value::Null | Value::Bool(_))
}
