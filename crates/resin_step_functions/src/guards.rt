//! Guards against injection: whether data of a class of policies stands in the harmless places of a query or a page.
ghost use Rattle.resin_step_parts.specs.Under.guard.Verdicts.{html_verdict, sql_verdict};
ghost use Rattle.resin_step_parts.specs.Under.label.Sets.{insert};
ghost use Rattle.resin_step_parts.specs.Under.meaning_forms.Functions.{is_pass, marks_under, state_work, structure};
ghost use Rattle.resin_step_parts.specs.Under.meaning_forms.Merges.{is_of_class};
ghost use Rattle.resin_step_parts.specs.Under.meaning_forms.Runs.{Runs, on_ok};
ghost use Rattle.resin_step_parts.specs.Under.meaning_forms.declared.callee.StateFunction.TheVariants.{SqlStructure, HtmlStructure};
ghost use Rattle.resin_step_parts.specs.Under.value.Seen.{tree_of};
ghost use Rattle.std.specs.Prelude.{IfOk, [], ◌∷◌, ◌≡◌, if◌then◌else◌};

use resin_step_parts::operators::is_object_of;
use resin_step_parts::under::guard::{Guard, html_guard, sql_guard};
use resin_step_parts::under::heap::PreludeClass;
use resin_step_parts::under::label::PSet;
use resin_step_parts::under::lstr::LText;
use resin_step_parts::under::machine::{Machine, Stop};
use resin_step_parts::under::value::Value;
use std::alloc::{AllocError, Global};

// A set with a policy, if its class is the one of a number, or under it.
fn with_one(
    alloc: Global,
    m: &Machine,
    class: u32,
    set: PSet,
    policy: u32,
) -> Result<PSet, AllocError>
    ensures { IfOk result (λ s. s ≡ (if is_of_class class m.now policy then insert set policy else set)) }
{
    if is_object_of(m, class, policy) {
        set.with(alloc, policy)
    } else {
        Ok(set)
    }
}

// The policies of a text whose class is the one of a number, or under it.
fn marks_under(alloc: Global, m: &Machine, class: u32, text: &LText) -> Result<PSet, AllocError>
    ensures { IfOk result (λ s. s ≡ marks_under class text.now m.now) }
{
    let list = text.policies_in_order(alloc)?;
    let policies = list.as_slice();
    let mut set = PSet::empty();
    let mut i = policies.len();
    while i > 0 {
        i -= 1;
        set = with_one(alloc, m, class, set, policies[i])?;
    }
    Ok(set)
}

fn is_pass(verdict: Guard) -> bool
    ensures { result ≡ is_pass verdict }
{
    match verdict {
        Guard::Pass => true,
        Guard::Bad { .. } | Guard::Untrusted { .. } => false,
    }
}

// Whether each byte of a query that carries a policy of the class stands in a text or integer literal.
fn guarded_query(alloc: Global, m: &Machine, text: &LText, class: &LText) -> Result<Value, Stop>
    ensures { Runs (structure sql_verdict text.now class.now) m.now (on_ok tree_of result) m.now }
{
    let class = m.find_class(class.bytes())?;
    let bad = marks_under(alloc, m, class, text)?;
    let verdict = sql_guard(alloc, text, &bad)?;
    Ok(Value::Bool(is_pass(verdict)))
}

// Whether each byte of a page that carries a policy of the class is data, or stands in the value of a harmless attribute.
fn guarded_page(alloc: Global, m: &Machine, text: &LText, class: &LText) -> Result<Value, Stop>
    ensures { Runs (structure html_verdict text.now class.now) m.now (on_ok tree_of result) m.now }
{
    let class = m.find_class(class.bytes())?;
    let bad = marks_under(alloc, m, class, text)?;
    let verdict = html_guard(alloc, text, &bad)?;
    Ok(Value::Bool(is_pass(verdict)))
}

/// `sql_structure`, once its arguments are texts: `true` exactly where the text is a statement, and each byte that carries a policy of the
/// class stands in a text or integer literal of it. UndefinedClass comes exactly for an unknown class.
pub fn query_structure(
    alloc: Global,
    m: &mut Machine,
    text: &Value,
    class: &Value,
) -> Result<Value, Stop>
    ensures { Runs (state_work SqlStructure (tree_of text.now ∷ tree_of class.now ∷ [])) m.old (on_ok tree_of result) m.new }
{
    let Value::Text(text) = text else {
        return m.throw(PreludeClass::ArgumentCountError, b"");
    };
    let Value::Text(class) = class else {
        return m.throw(PreludeClass::ArgumentCountError, b"");
    };
    guarded_query(alloc, m, text, class)
}

/// `html_structure`, once its arguments are texts: `true` exactly where the text is a page, and each byte that carries a policy of the
/// class is data, or stands in the value of a harmless attribute. UndefinedClass comes exactly for an unknown class.
pub fn page_structure(
    alloc: Global,
    m: &mut Machine,
    text: &Value,
    class: &Value,
) -> Result<Value, Stop>
    ensures { Runs (state_work HtmlStructure (tree_of text.now ∷ tree_of class.now ∷ [])) m.old (on_ok tree_of result) m.new }
{
    let Value::Text(text) = text else {
        return m.throw(PreludeClass::ArgumentCountError, b"");
    };
    let Value::Text(class) = class else {
        return m.throw(PreludeClass::ArgumentCountError, b"");
    };
    guarded_page(alloc, m, text, class)
}
