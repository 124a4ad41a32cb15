//! Merges, and the operators that make them.
ghost use Rattle.resin_eval_nested.specs.Under.meaning_forms.Forms as form;
ghost use Rattle.resin_eval_nested.specs.Under.meaning_forms.Merges.{fold_on, fold_sets, no_policies};
ghost use Rattle.resin_eval_nested.specs.Nested.{Nests, means};
ghost use Rattle.resin_eval_nested.specs.Running.{Performs};
ghost use Rattle.resin_eval_nested.specs.Under.label.Sets.{numbers};
ghost use Rattle.resin_eval_nested.specs.Under.value.Seen.{tree_of};
ghost use Rattle.resin_eval_merges.specs.Asked.{each_asked};
ghost use Rattle.std.specs.Prelude.{◌&&◌, ◌≡◌};

use crate::own_merge::answer_themselves;
use crate::unions::union_of;
use resin_eval_nested::nested::{Evaluator, Nested, Outcome};
use resin_eval_nested::run::Run;
use resin_eval_nested::under::base::{Files, Tables};
use resin_eval_nested::under::label::PSet;
use resin_eval_nested::under::lstr::LText;
use resin_eval_nested::under::machine::Stop;
use resin_eval_nested::under::ops::{Arith, arith, to_int, to_number, to_text};
use resin_eval_nested::under::scalar::{CallStop, ScriptFault};
use resin_eval_nested::under::step_functions::policies::with_answered;
use resin_eval_nested::under::step_parts::operators::{
    arithmetic, charge_one, charge_two, concatenated, given, own_set,
};
use resin_eval_nested::under::step_parts::reads::{number, object_list};
use resin_eval_nested::under::step_parts::values::{negated, ruled};
use resin_eval_nested::under::value::{Value, Values};
use resin_tree::{Combining, Unary};
use std::alloc::Global;

/// Merges, and the operators that make them, by an evaluator.
#[derive(Drop)]
pub struct Merger<'e, F, T, N> {
    pub by: &'e Evaluator<F, T, N>,
}

impl<
    F: Files,
    T: Tables,
    N: Fn(Global, u32, Nested<'_>, &mut Run<F, T>) -> Result<Outcome, Stop> + Copy,
> Merger<'_, F, T, N> {
    // One policy is asked what is carried where it meets others. The channels are closed meanwhile, as in a check.
    fn ask_merge(&self, run: &mut Run<F, T>, policy: u32, others: &[u32]) -> Result<Value, Stop>
        requires { Nests F.Files T.Tables N.pre N.post self.now.by.now }
        ensures { Performs F.Files T.Tables (form.ask_merge (means self.now.by.now) others.now policy) run.old result run.new }
    {
        let set = run.machine.settle(object_list(self.by.alloc, others))?;
        let mut args = Values::new(self.by.alloc);
        args.push(Value::Arr(set))?;
        let was = run.machine.hush();
        let answer = self.by.call_object(run, policy, b"merge", args);
        run.machine.restore(was);
        answer
    }

    // Each of some policies is asked, one after the other, and what they answer is added up.
    fn ask_merges(
        &self,
        run: &mut Run<F, T>,
        others: &[u32],
        policies: &[u32],
        so_far: PSet,
    ) -> Result<PSet, Stop>
        requires { Nests F.Files T.Tables N.pre N.post self.now.by.now }
        ensures { Performs F.Files T.Tables (form.ask_merges (means self.now.by.now) others.now policies.now so_far) run.old result run.new }
    {
        let mut out = so_far;
        for p in policies {
            let answer = self.ask_merge(run, *p, others)?;
            out = with_answered(self.by.alloc, &run.machine, out, &answer)?;
        }
        Ok(out)
    }

    // What two values carry together where one of them carries a policy: each policy is asked.
    fn asked(&self, run: &mut Run<F, T>, a: &PSet, b: &PSet) -> Result<PSet, Stop>
        requires { Nests F.Files T.Tables N.pre N.post self.now.by.now }
        ensures { Performs F.Files T.Tables (each_asked (means self.now.by.now) (numbers a.now) (numbers b.now)) run.old result run.new }
    {
        let left = a.as_slice();
        let right = b.as_slice();
        let first = self.ask_merges(run, right, left, PSet::empty())?;
        self.ask_merges(run, left, right, first)
    }

    /// What a value carries that is computed from two: nothing where neither carries a policy, and else what each policy of the first
    /// answers about those of the second, and then each of the second about those of the first. BadOperand comes where one answers anything
    /// but an array of policies; what a merge of a script ends with, as an exception, goes on.
    pub fn merge(&self, run: &mut Run<F, T>, a: &PSet, b: &PSet) -> Result<PSet, Stop>
        requires { Nests F.Files T.Tables N.pre N.post self.now.by.now }
        ensures { Performs F.Files T.Tables (form.merge (means self.now.by.now) a.now b.now) run.old result run.new }
    {
        if are_empty(a, b) {
            return Ok(PSet::empty());
        }
        let both = a.union(self.by.alloc, b)?;
        if answer_themselves(&run.machine, both.as_slice()) {
            return Ok(both);
        }
        self.asked(run, a, b)
    }

    // A set and those behind it as one, from the left.
    fn fold_on(&self, run: &mut Run<F, T>, so_far: PSet, sets: &[PSet]) -> Result<PSet, Stop>
        requires { Nests F.Files T.Tables N.pre N.post self.now.by.now }
        ensures { Performs F.Files T.Tables (fold_on (means self.now.by.now) so_far sets.now) run.old result run.new }
    {
        let mut both = so_far;
        for set in sets {
            both = self.merge(run, &both, set)?;
        }
        Ok(both)
    }

    // Sets as one, merged from the left, one after the other.
    fn fold_asked(&self, run: &mut Run<F, T>, sets: &[PSet]) -> Result<PSet, Stop>
        requires { Nests F.Files T.Tables N.pre N.post self.now.by.now }
        ensures { Performs F.Files T.Tables (fold_sets (means self.now.by.now) sets.now) run.old result run.new }
    {
        let [first, rest @ ..] = sets else {
            return Ok(PSet::empty());
        };
        let first = first.clone()?;
        self.fold_on(run, first, rest)
    }

    /// Sets as one, merged from the left; where there is none, nothing. A single set stays as it is, and no policy is asked. It stops as
    /// `merge` does.
    pub fn fold_sets(&self, run: &mut Run<F, T>, sets: &[PSet]) -> Result<PSet, Stop>
        requires { Nests F.Files T.Tables N.pre N.post self.now.by.now }
        ensures { Performs F.Files T.Tables (fold_sets (means self.now.by.now) sets.now) run.old result run.new }
    {
        if sets.len() < 2 {
            return self.fold_asked(run, sets);
        }
        let all = union_of(self.by.alloc, sets)?;
        if answer_themselves(&run.machine, all.as_slice()) {
            return Ok(all);
        }
        self.fold_asked(run, sets)
    }

    /// What a text carries that is read as one value: its distinct sets as one, merged from the left in the order in which they first stand
    /// in it. A single set stays as it is, and no policy is asked. It stops as `merge` does.
    pub fn folded(&self, run: &mut Run<F, T>, t: &LText) -> Result<PSet, Stop>
        requires { Nests F.Files T.Tables N.pre N.post self.now.by.now }
        ensures { Performs F.Files T.Tables (form.folded (means self.now.by.now) t.now) run.old result run.new }
    {
        let sets = t.distinct_sets(self.by.alloc)?;
        self.fold_sets(run, sets.as_slice())
    }

    /// What a value carries that was turned into a number: an integer its own set, a text its sets as one, and every other value nothing.
    /// It stops as `merge` does.
    pub fn set_of_number(&self, run: &mut Run<F, T>, v: &Value) -> Result<PSet, Stop>
        requires { Nests F.Files T.Tables N.pre N.post self.now.by.now }
        ensures { Performs F.Files T.Tables (form.set_of_number (means self.now.by.now) (tree_of v.now)) run.old result run.new }
    {
        match v {
            Value::Text(t) => self.folded(run, t),
            _ => Ok(own_set(v)?),
        }
    }

    // A number made of two values: both are turned first, then it is computed, and then their sets are merged.
    fn calculated(
        &self,
        run: &mut Run<F, T>,
        op: Arith,
        x: &Value,
        y: &Value,
    ) -> Result<Value, Stop>
        requires { Nests F.Files T.Tables N.pre N.post self.now.by.now }
        ensures { Performs F.Files T.Tables (form.calculated (means self.now.by.now) op (tree_of x.now) (tree_of y.now)) run.old result run.new }
    {
        let a = run.machine.settle(ruled(to_number(x)))?;
        let b = run.machine.settle(ruled(to_number(y)))?;
        let n = run.machine.settle(arith(op, a, b))?;
        let left = self.set_of_number(run, x)?;
        let right = self.set_of_number(run, y)?;
        let set = self.merge(run, &left, &right)?;
        Ok(Value::Int(n, set))
    }

    /// A number or a text made of two values, as an operator and `+=` and its kin make it, with what both carry. BadOperand comes for an
    /// array or an object, NotANumber and FloatNeeded for texts in arithmetic as `to_number` says, IntegerOverflow, FloatNeeded and
    /// DivisionByZeroError as the operator does, TextTooLong for a text of more than 16,777,216 bytes, and FuelSpent where the texts cost
    /// more ticks than are left; and it stops as `merge` does.
    pub fn combined(
        &self,
        run: &mut Run<F, T>,
        op: Combining,
        x: &Value,
        y: &Value,
    ) -> Result<Value, Stop>
        requires { Nests F.Files T.Tables N.pre N.post self.now.by.now }
        ensures { Performs F.Files T.Tables (form.combined (means self.now.by.now) op x.now y.now) run.old result run.new }
    {
        charge_two(&mut run.machine, x, y)?;
        match arithmetic(op) {
            Some(op) => self.calculated(run, op, x, y),
            None => concatenated(self.by.alloc, &mut run.machine, x, y),
        }
    }

    // A number with what a value carries.
    fn signed(
        &self,
        run: &mut Run<F, T>,
        n: Result<i64, CallStop>,
        x: &Value,
    ) -> Result<Value, Stop>
        requires { Nests F.Files T.Tables N.pre N.post self.now.by.now }
        ensures { Performs F.Files T.Tables (form.signed (means self.now.by.now) (tree_of x.now) n) run.old result run.new }
    {
        let n = run.machine.settle(n)?;
        let set = self.set_of_number(run, x)?;
        Ok(Value::Int(n, set))
    }

    /// An operator or a cast on one value; a number has what the value carries. BadOperand comes for an array or an object where a number
    /// or a text is made, NotANumber and FloatNeeded for texts as `to_number` and `to_int` say, IntegerOverflow for the negative of the
    /// least integer, and FuelSpent where the texts cost more ticks than are left; and it stops as `merge` does.
    pub fn unary(&self, run: &mut Run<F, T>, op: Unary, x: &Value) -> Result<Value, Stop>
        requires { Nests F.Files T.Tables N.pre N.post self.now.by.now }
        ensures { Performs F.Files T.Tables (form.unary (means self.now.by.now) op x.now) run.old result run.new }
    {
        charge_one(&mut run.machine, x)?;
        match op {
            Unary::Minus => self.signed(run, negated(x), x),
            Unary::Plus => { self.signed(run, ruled(to_number(x)), x) }
            Unary::Not => Ok(Value::Bool(!x.truth())),
            Unary::ToInt => self.signed(run, ruled(to_int(x)), x),
            Unary::ToText => {
                let t = run.machine.settle(to_text(self.by.alloc, x))?;
                given(&mut run.machine, Value::Text(t))
            }
            Unary::ToBool => Ok(Value::Bool(x.truth())),
        }
    }

    /// One more than a value, for `++`: of an integer, or of null as 0. BadOperand comes for any other value, and IntegerOverflow above the
    /// largest integer; and it stops as `merge` does, since the policies of the integer are asked.
    pub fn incremented(&self, run: &mut Run<F, T>, v: &Value) -> Result<Value, Stop>
        requires { Nests F.Files T.Tables N.pre N.post self.now.by.now }
        ensures { Performs F.Files T.Tables (form.incremented (means self.now.by.now) v.now) run.old result run.new }
    {
        match v {
            Value::Int(n, set) => {
                let n = run.machine.settle(arith(Arith::Add, *n, 1))?;
                let empty = PSet::empty();
                let set = self.merge(run, set, &empty)?;
                Ok(Value::Int(n, set))
            }
            Value::Null => Ok(number(1)),
            _ => Err(run.machine.fault(ScriptFault::BadOperand)),
        }
    }

    /// One less than an integer, for `--`. BadOperand comes for any other value, null too, and IntegerOverflow below the least integer; and
    /// it stops as `merge` does, since the policies of the integer are asked.
    pub fn decremented(&self, run: &mut Run<F, T>, v: &Value) -> Result<Value, Stop>
        requires { Nests F.Files T.Tables N.pre N.post self.now.by.now }
        ensures { Performs F.Files T.Tables (form.decremented (means self.now.by.now) v.now) run.old result run.new }
    {
        match v {
            Value::Int(n, set) => {
                let n = run.machine.settle(arith(Arith::Sub, *n, 1))?;
                let empty = PSet::empty();
                let set = self.merge(run, set, &empty)?;
                Ok(Value::Int(n, set))
            }
            _ => Err(run.machine.fault(ScriptFault::BadOperand)),
        }
    }
}

// Whether neither of two sets has a policy.
fn are_empty(a: &PSet, b: &PSet) -> bool
    ensures { result ≡ (no_policies (numbers a.now) && no_policies (numbers b.now)) }
{
    a.as_slice().is_empty() && b.as_slice().is_empty()
}
