//! Policies that answer themselves alone where they meet others, as the runtime's own `merge` does.
ghost use Rattle.std.specs.Prelude.{IfSome, IsTrue};
ghost use Rattle.std.specs.List.{All};
ghost use Rattle.resin_eval_merges.specs.OwnMerge.{AnswersItself, HasOwnMerge};

use resin_eval_nested::under::heap::PreludeClass;
use resin_eval_nested::under::machine::Machine;

// Whether the `merge` that the objects of a class have is the one of `Policy`, and none of a script.
fn has_own_merge(m: &Machine, class: u32) -> bool
    ensures { IsTrue result → HasOwnMerge m.now.classes class }
{
    let classes = m.classes();
    if class >= classes.len() {
        return false;
    }
    match classes.method(class, b"merge") {
        Some(at) => at.class == PreludeClass::Policy.number(),
        None => false,
    }
}

// The same, where `known` is a class of which it is known.
fn is_own(m: &Machine, known: Option<u32>, class: u32) -> bool
    requires { IfSome known (HasOwnMerge m.now.classes) }
    ensures { IsTrue result → HasOwnMerge m.now.classes class }
{
    if let Some(it) = known {
        if it == class {
            return true;
        }
    }
    has_own_merge(m, class)
}

// The class of a policy that answers itself alone, `None` for others. `known` is the class of another one, which isn't looked at again.
fn own_class(m: &Machine, known: Option<u32>, o: u32) -> Option<u32>
    requires { IfSome known (HasOwnMerge m.now.classes) }
    ensures own { IfSome result (HasOwnMerge m.now.classes) }
    ensures itself { IfSome result (λ class. AnswersItself m.now o) }
{
    if !m.heap().has(o) {
        return None;
    }
    let class = m.heap().class_of(o);
    if is_own(m, known, class) {
        Some(class)
    } else {
        None
    }
}

// Whether each of these policies answers itself alone. Of neighbours that have one class, the first is looked at.
pub(crate) fn answer_themselves(m: &Machine, policies: &[u32]) -> bool
    ensures { IsTrue result → All (AnswersItself m.now) policies.now }
{
    let mut known = None;
    for o in policies {
        known = own_class(m, known, *o);
        if known.is_none() {
            return false;
        }
    }
    true
}
