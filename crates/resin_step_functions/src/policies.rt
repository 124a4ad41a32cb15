//! Functions that work on the state: they mark data with policies, and set filters.
ghost use Rattle.resin_step_parts.specs.Under.meaning_forms.Functions.{channel_among, channel_for, class_name, nameable, number_in};
ghost use Rattle.resin_step_parts.specs.Under.meaning_forms.Functions.{object_under, policies_of, state_work, with_policy, without_policy};
ghost use Rattle.resin_step_parts.specs.Under.meaning_forms.Merges.{with_answer};
ghost use Rattle.resin_step_parts.specs.Under.meaning_forms.Runs.{Runs, on_ok};
ghost use Rattle.resin_step_parts.specs.Under.meaning_forms.declared.callee.StateFunction.TheVariants.{PolicyAdd, PolicyRemove, PolicyGet};
ghost use Rattle.resin_step_parts.specs.Under.meaning_forms.declared.callee.StateFunction.TheVariants.{FilterAdd, FilterRemove, FilterFunctionAdd};
ghost use Rattle.resin_step_parts.specs.Under.label.Sets.{numbers, set_of};
ghost use Rattle.resin_step_parts.specs.Under.value.Seen.{tree_of, trees_of};
ghost use Rattle.resin_step_parts.specs.Under.value.Trees.{text};
ghost use Rattle.std.specs.Prelude.{IfOk, [], ◌∷◌, ◌≡◌};

use crate::guards::{page_structure, query_structure};
use resin_step_parts::operators::is_object_under;
use resin_step_parts::reads::{object_list, plain};
use resin_step_parts::under::heap::PreludeClass;
use resin_step_parts::under::journal::Channel;
use resin_step_parts::under::label::PSet;
use resin_step_parts::under::lstr::LText;
use resin_step_parts::under::machine::{Machine, Stop};
use resin_step_parts::under::meaning_forms::StateFunction;
use resin_step_parts::under::scalar::ScriptFault;
use resin_step_parts::under::value::Value;
use std::alloc::{AllocError, Global};

// The channel of a name that a script may use.
fn channel_among(name: &[u8]) -> Option<Channel>
    ensures { result ≡ channel_among nameable name.now }
{
    if b"http".as_slice() == name {
        Some(Channel::Http)
    } else if b"header".as_slice() == name {
        Some(Channel::Header)
    } else if b"email".as_slice() == name {
        Some(Channel::Email)
    } else if b"file".as_slice() == name {
        Some(Channel::File)
    } else if b"sql".as_slice() == name {
        Some(Channel::Sql)
    } else if b"code".as_slice() == name {
        Some(Channel::Code)
    } else if b"input".as_slice() == name {
        Some(Channel::Input)
    } else {
        None
    }
}

// The number of an object, 0 for any other value.
fn number_in(v: &Value) -> u32
    ensures { result ≡ number_in (tree_of v.now) }
{
    match v {
        Value::Obj(o) => *o,
        Value::Null | Value::Bool(_) | Value::Int(_, _) | Value::Text(_) | Value::Arr(_) => 0,
    }
}

// The number of an object of a class of the runtime, or of one under it; BadOperand comes for any other value.
fn object_under(m: &Machine, class: PreludeClass, v: &Value) -> Result<u32, Stop>
    ensures { Runs (object_under class (tree_of v.now)) m.now result m.now }
{
    if !is_object_under(m, class, v) {
        return Err(m.fault(ScriptFault::BadOperand));
    }
    Ok(number_in(v))
}

// An integer or a text with a policy added; BadOperand comes for any other value.
fn with_policy(alloc: Global, m: &Machine, v: &Value, p: u32) -> Result<Value, Stop>
    ensures { Runs (with_policy p (tree_of v.now)) m.now (on_ok tree_of result) m.now }
{
    match v {
        Value::Int(n, set) => Ok(Value::Int(*n, set.with(alloc, p)?)),
        Value::Text(t) => Ok(Value::Text(t.mark(alloc, p)?)),
        _ => Err(m.fault(ScriptFault::BadOperand)),
    }
}

// An integer or a text without a policy; BadOperand comes for any other value.
fn without_policy(alloc: Global, m: &Machine, v: &Value, p: u32) -> Result<Value, Stop>
    ensures { Runs (without_policy p (tree_of v.now)) m.now (on_ok tree_of result) m.now }
{
    match v {
        Value::Int(n, set) => Ok(Value::Int(*n, set.without(alloc, p)?)),
        Value::Text(t) => Ok(Value::Text(t.unmark(alloc, p)?)),
        _ => Err(m.fault(ScriptFault::BadOperand)),
    }
}

// The set of these numbers, from those of each half: so a number is copied once for each halving, and not once for each number.
fn set_of(alloc: Global, numbers: &[u32]) -> Result<PSet, AllocError>
    ensures { IfOk result (λ s. s ≡ set_of numbers.now) }
{
    match numbers {
        [] => Ok(PSet::empty()),
        [only] => {
            let one = PSet::empty().with(alloc, *only)?;
            Ok(one)
        }
        _ => {
            let half = numbers.len() / 2;
            let front = set_of(alloc, &numbers[..half])?;
            let behind = set_of(alloc, &numbers[half..])?;
            front.union(alloc, &behind)
        }
    }
}

// The policies of a text as one set.
fn policies_of(alloc: Global, t: &LText) -> Result<PSet, AllocError>
    ensures { IfOk result (λ s. numbers s ≡ policies_of (text t.now)) }
{
    let list = t.policies_in_order(alloc)?;
    set_of(alloc, list.as_slice())
}

// The policies of a value as one set.
fn set_in(alloc: Global, v: &Value) -> Result<PSet, AllocError>
    ensures { IfOk result (λ s. numbers s ≡ policies_of (tree_of v.now)) }
{
    match v {
        Value::Int(_, set) => set.clone(),
        Value::Text(t) => policies_of(alloc, t),
        _ => Ok(PSet::empty()),
    }
}

// The list of the policies of a value.
fn policy_list(alloc: Global, m: &mut Machine, v: &Value) -> Result<Value, Stop>
    ensures { Runs (state_work PolicyGet (tree_of v.now ∷ [])) m.old (on_ok tree_of result) m.new }
{
    let set = set_in(alloc, v)?;
    let list = m.settle(object_list(alloc, set.as_slice()))?;
    Ok(Value::Arr(list))
}

// A value with a policy added that is an object under Policy.
fn add_policy(alloc: Global, m: &mut Machine, v: &Value, p: &Value) -> Result<Value, Stop>
    ensures { Runs (state_work PolicyAdd (tree_of v.now ∷ tree_of p.now ∷ [])) m.old (on_ok tree_of result) m.new }
{
    let o = object_under(m, PreludeClass::Policy, p)?;
    with_policy(alloc, m, v, o)
}

// A value without a policy that is an object under Policy.
fn remove_policy(alloc: Global, m: &mut Machine, v: &Value, p: &Value) -> Result<Value, Stop>
    ensures { Runs (state_work PolicyRemove (tree_of v.now ∷ tree_of p.now ∷ [])) m.old (on_ok tree_of result) m.new }
{
    let o = object_under(m, PreludeClass::Policy, p)?;
    without_policy(alloc, m, v, o)
}

// The channel of a name; ValueError is thrown where there is none.
fn named_channel(m: &mut Machine, name: &LText) -> Result<Channel, Stop>
    ensures { Runs (channel_for name.now) m.old result m.new }
{
    match channel_among(name.bytes()) {
        Some(channel) => Ok(channel),
        None => m.throw(PreludeClass::ValueError, b""),
    }
}

// A filter is asked last on a channel.
fn add_filter(m: &mut Machine, name: &Value, f: &Value) -> Result<Value, Stop>
    ensures { Runs (state_work FilterAdd (tree_of name.now ∷ tree_of f.now ∷ [])) m.old (on_ok tree_of result) m.new }
{
    let Value::Text(name) = name else {
        return m.throw(PreludeClass::ArgumentCountError, b"");
    };
    let channel = named_channel(m, name)?;
    let o = object_under(m, PreludeClass::Filter, f)?;
    m.add_filter(channel, o)?;
    Ok(Value::Null)
}

// A filter is taken off a channel.
fn remove_filter(m: &mut Machine, name: &Value, f: &Value) -> Result<Value, Stop>
    ensures { Runs (state_work FilterRemove (tree_of name.now ∷ tree_of f.now ∷ [])) m.old (on_ok tree_of result) m.new }
{
    let Value::Text(name) = name else {
        return m.throw(PreludeClass::ArgumentCountError, b"");
    };
    let channel = named_channel(m, name)?;
    let o = object_under(m, PreludeClass::Filter, f)?;
    m.remove_filter(channel, o);
    Ok(Value::Null)
}

// A filter is asked last on the arguments of a function.
fn add_function_filter(m: &mut Machine, name: &Value, f: &Value) -> Result<Value, Stop>
    ensures { Runs (state_work FilterFunctionAdd (tree_of name.now ∷ tree_of f.now ∷ [])) m.old (on_ok tree_of result) m.new }
{
    let Value::Text(name) = name else {
        return m.throw(PreludeClass::ArgumentCountError, b"");
    };
    let o = object_under(m, PreludeClass::Filter, f)?;
    m.add_function_filter(name.bytes(), o)?;
    Ok(Value::Null)
}

// The name of the class of an object; TypeError is thrown for any other value.
fn class_name(alloc: Global, m: &mut Machine, v: &Value) -> Result<Value, Stop>
    ensures { Runs (class_name (tree_of v.now)) m.old (on_ok tree_of result) m.new }
{
    let Value::Obj(o) = v else {
        return m.throw(PreludeClass::TypeError, b"");
    };
    Ok(Value::Text(plain(alloc, m.name_of(*o))?))
}

/// The work of a function that works on the state, once its arguments are turned into their kinds: BadOperand, ValueError and TypeError
/// come as the function says, and ArgumentCountError is thrown where arguments are missing.
pub fn state_work(
    alloc: Global,
    m: &mut Machine,
    f: StateFunction,
    args: &[Value],
) -> Result<Value, Stop>
    ensures { Runs (state_work f (trees_of args.now)) m.old (on_ok tree_of result) m.new }
{
    match args {
        [] => m.throw(PreludeClass::ArgumentCountError, b""),
        [first] => work_on_one(alloc, m, f, first),
        [first, second, ..] => work_on_two(alloc, m, f, first, second),
    }
}

// The same of one argument.
fn work_on_one(
    alloc: Global,
    m: &mut Machine,
    f: StateFunction,
    first: &Value,
) -> Result<Value, Stop>
    ensures { Runs (state_work f (tree_of first.now ∷ [])) m.old (on_ok tree_of result) m.new }
{
    match f {
        StateFunction::PolicyGet => policy_list(alloc, m, first),
        StateFunction::GetClass => class_name(alloc, m, first),
        _ => m.throw(PreludeClass::ArgumentCountError, b""),
    }
}

// The same of two arguments.
fn work_on_two(
    alloc: Global,
    m: &mut Machine,
    f: StateFunction,
    first: &Value,
    second: &Value,
) -> Result<Value, Stop>
    ensures { Runs (state_work f (tree_of first.now ∷ tree_of second.now ∷ [])) m.old (on_ok tree_of result) m.new }
{
    match f {
        StateFunction::PolicyAdd => add_policy(alloc, m, first, second),
        StateFunction::PolicyRemove => remove_policy(alloc, m, first, second),
        StateFunction::PolicyGet => policy_list(alloc, m, first),
        StateFunction::FilterAdd => add_filter(m, first, second),
        StateFunction::FilterRemove => remove_filter(m, first, second),
        StateFunction::FilterFunctionAdd => add_function_filter(m, first, second),
        StateFunction::GetClass => class_name(alloc, m, first),
        StateFunction::SqlStructure => query_structure(alloc, m, first, second),
        StateFunction::HtmlStructure => page_structure(alloc, m, first, second),
    }
}

/// The policies that a policy answered are added to a set; BadOperand comes where it answered no array of policies.
pub fn with_answered(alloc: Global, m: &Machine, so_far: PSet, answer: &Value) -> Result<PSet, Stop>
    ensures { Runs (with_answer so_far answer.now) m.now result m.now }
{
    let Value::Arr(a) = answer else {
        return Err(m.fault(ScriptFault::BadOperand));
    };
    let mut out = so_far;
    let mut i = a.len();
    while i > 0 {
        i -= 1;
        let (_key, v) = a.entry(i);
        if !is_object_under(m, PreludeClass::Policy, v) {
            return Err(m.fault(ScriptFault::BadOperand));
        }
        out = out.with(alloc, number_in(v))?;
    }
    Ok(out)
}
