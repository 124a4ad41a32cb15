//! Functions of the runtime once their arguments are evaluated: the arguments are turned into their kinds, and then comes the work.
ghost use Rattle.resin_eval_merges.specs.Under.builtin.Names.{builtin_named};
ghost use Rattle.resin_eval_merges.specs.Under.builtin.Signatures.{kind_at, null_is_default, parameters};
ghost use Rattle.resin_eval_merges.specs.Under.builtin.declared.builtin.Builtin.TheVariants.{Intval, Intdiv, Sprintf};
ghost use Rattle.resin_eval_merges.specs.Under.meaning_forms.Forms as form;
ghost use Rattle.resin_eval_merges.specs.Under.meaning_forms.Functions.{argument, arguments_on, format_argument, format_arguments};
ghost use Rattle.resin_eval_merges.specs.Under.meaning_forms.Runs.{on_ok};
ghost use Rattle.resin_eval_merges.specs.Under.eval_nested.Nested.{Nests, means};
ghost use Rattle.resin_eval_merges.specs.Under.eval_nested.Running.{Performs};
ghost use Rattle.resin_eval_merges.specs.Under.value.Seen.{tree_of, trees_of};
ghost use Rattle.resin_eval_merges.specs.Under.value.Trees.{text as text_tree};
ghost use Rattle.std.specs.Prelude.{Some, [], false, ◌≡◌, ◌∷◌};

use resin_eval_merges::merges::Merger;
use resin_eval_merges::under::base::{Files, Tables};
use resin_eval_merges::under::builtin::{
    ArgKind, Builtin, Sig, cost, int_places, signature, turned_into,
};
use resin_eval_merges::under::eval_nested::nested::{Evaluator, Nested, Outcome};
use resin_eval_merges::under::eval_nested::run::Run;
use resin_eval_merges::under::label::PSet;
use resin_eval_merges::under::lstr::LText;
use resin_eval_merges::under::machine::Stop;
use resin_eval_merges::under::meaning_forms::StateFunction;
use resin_eval_merges::under::ops::to_int;
use resin_eval_merges::under::scalar::ScriptFault;
use resin_eval_merges::under::step_functions::functions::{
    kinds_of, miscounted, place, take_all, work,
};
use resin_eval_merges::under::step_functions::policies::state_work;
use resin_eval_merges::under::step_parts::values::ruled;
use resin_eval_merges::under::value::{Value, Values};
use std::alloc::Global;

/// Functions of the runtime, by an evaluator.
#[derive(Drop)]
pub struct Builtins<'e, F, T, N> {
    pub by: &'e Evaluator<F, T, N>,
}

impl<
    F: Files,
    T: Tables,
    N: Fn(Global, u32, Nested<'_>, &mut Run<F, T>) -> Result<Outcome, Stop> + Copy,
> Builtins<'_, F, T, N> {
    // ---- arguments

    // The integer that a text was read as carries what the text carries.
    fn with_folded(
        &self,
        run: &mut Run<F, T>,
        argument: &Value,
        value: Value,
    ) -> Result<Value, Stop>
        requires { Nests F.Files T.Tables N.pre N.post self.now.by.now }
        ensures { Performs F.Files T.Tables (form.with_folded (means self.now.by.now) (tree_of argument.now) (tree_of value))
            run.old (on_ok tree_of result) run.new }
    {
        match argument {
            Value::Text(t) => match value {
                Value::Int(n, _) => {
                    let set = Merger { by: self.by }.folded(run, t)?;
                    Ok(Value::Int(n, set))
                }
                value => Ok(value),
            },
            _ => Ok(value),
        }
    }

    // An argument of sprintf that its format reads as an integer.
    fn cast_argument(&self, run: &mut Run<F, T>, v: &Value) -> Result<Value, Stop>
        requires { Nests F.Files T.Tables N.pre N.post self.now.by.now }
        ensures { Performs F.Files T.Tables (form.cast_argument (means self.now.by.now) (tree_of v.now)) run.old (on_ok tree_of result) run.new }
    {
        let n = run.machine.settle(ruled(to_int(v)))?;
        let set = Merger { by: self.by }.set_of_number(run, v)?;
        Ok(Value::Int(n, set))
    }

    // The i-th argument of sprintf behind its format.
    fn format_argument(
        &self,
        run: &mut Run<F, T>,
        format: &LText,
        i: usize,
        v: &Value,
    ) -> Result<Value, Stop>
        requires { Nests F.Files T.Tables N.pre N.post self.now.by.now }
        ensures { Performs F.Files T.Tables (format_argument (means self.now.by.now) format.now i (tree_of v.now))
            run.old (on_ok tree_of result) run.new }
    {
        if int_places(format, i) {
            return self.cast_argument(run, v);
        }
        Ok(v.clone()?)
    }

    // A format and the arguments behind it.
    fn behind_format(
        &self,
        run: &mut Run<F, T>,
        format: &LText,
        rest: &[Value],
    ) -> Result<Values, Stop>
        requires { Nests F.Files T.Tables N.pre N.post self.now.by.now }
        ensures { Performs F.Files T.Tables (format_arguments (means self.now.by.now) format.now (text_tree format.now ∷ []) 0 (trees_of rest.now))
            run.old (on_ok trees_of result) run.new }
    {
        let mut out = Values::new(self.by.alloc);
        out.push(Value::Text(format.clone()?))?;
        let mut i = 0;
        for v in rest {
            let read = self.format_argument(run, format, i, v)?;
            out.push(read)?;
            i += 1;
        }
        Ok(out)
    }

    // An argument as a value of its kind.
    fn argument(&self, run: &mut Run<F, T>, sig: &Sig, i: u8, v: &Value) -> Result<Value, Stop>
        requires { Nests F.Files T.Tables N.pre N.post self.now.by.now }
        ensures { Performs F.Files T.Tables (argument (means self.now.by.now)
            (kind_at (parameters sig.now.builtin) i) (null_is_default sig.now.builtin i) (tree_of v.now))
            run.old (on_ok tree_of result) run.new }
    {
        let turned = sig.turned(self.by.alloc, i, v);
        let turned = run.machine.settle(turned)?;
        self.with_folded(run, v, turned)
    }

    // The arguments of sprintf.
    fn format_arguments(
        &self,
        run: &mut Run<F, T>,
        sig: &Sig,
        args: &[Value],
    ) -> Result<Values, Stop>
        requires nests { Nests F.Files T.Tables N.pre N.post self.now.by.now }
        requires format { sig.now.builtin ≡ Sprintf }
        ensures { Performs F.Files T.Tables (form.sprintf_arguments (means self.now.by.now) (trees_of args.now))
            run.old (on_ok trees_of result) run.new }
    {
        let [first, rest @ ..] = args else {
            return Ok(Values::new(self.by.alloc));
        };
        let format = self.argument(run, sig, 0, first)?;
        match &format {
            Value::Text(format) => self.behind_format(run, format, rest),
            _ => Ok(Values::new(self.by.alloc)),
        }
    }

    // The arguments of every other function, each by its place.
    fn placed_arguments(
        &self,
        run: &mut Run<F, T>,
        sig: &Sig,
        args: &[Value],
    ) -> Result<Values, Stop>
        requires { Nests F.Files T.Tables N.pre N.post self.now.by.now }
        ensures { Performs F.Files T.Tables (arguments_on (means self.now.by.now) sig.now.builtin [] 0 (trees_of args.now))
            run.old (on_ok trees_of result) run.new }
    {
        let mut out = Values::new(self.by.alloc);
        let mut i = 0;
        for v in args {
            let value = self.argument(run, sig, place(i), v)?;
            out.push(value)?;
            i += 1;
        }
        Ok(out)
    }

    // The arguments, turned into their kinds from the left.
    fn arguments(&self, run: &mut Run<F, T>, sig: &Sig, args: &[Value]) -> Result<Values, Stop>
        requires { Nests F.Files T.Tables N.pre N.post self.now.by.now }
        ensures { Performs F.Files T.Tables (form.arguments (means self.now.by.now) sig.now.builtin (trees_of args.now))
            run.old (on_ok trees_of result) run.new }
    {
        match sig.builtin {
            Builtin::Sprintf => self.format_arguments(run, sig, args),
            _ => self.placed_arguments(run, sig, args),
        }
    }

    // What the text carries that stands first.
    fn text_set(&self, run: &mut Run<F, T>, args: &[Value]) -> Result<PSet, Stop>
        requires { Nests F.Files T.Tables N.pre N.post self.now.by.now }
        ensures { Performs F.Files T.Tables (form.answer_set (means self.now.by.now) Intval (trees_of args.now)) run.old result run.new }
    {
        let [first, ..] = args else {
            return Ok(PSet::empty());
        };
        match first {
            Value::Text(t) => Merger { by: self.by }.folded(run, t),
            _ => Ok(PSet::empty()),
        }
    }

    // What two integers carry.
    fn quotient_set(&self, run: &mut Run<F, T>, a: &Value, b: &Value) -> Result<PSet, Stop>
        requires { Nests F.Files T.Tables N.pre N.post self.now.by.now }
        ensures { Performs F.Files T.Tables (form.answer_set (means self.now.by.now) Intdiv (tree_of a.now ∷ tree_of b.now ∷ []))
            run.old result run.new }
    {
        match a {
            Value::Int(_, left) => match b {
                Value::Int(_, right) => Merger { by: self.by }.merge(run, left, right),
                _ => Ok(PSet::empty()),
            },
            _ => Ok(PSet::empty()),
        }
    }

    // What two integers carry that stand first.
    fn quotients_set(&self, run: &mut Run<F, T>, args: &[Value]) -> Result<PSet, Stop>
        requires { Nests F.Files T.Tables N.pre N.post self.now.by.now }
        ensures { Performs F.Files T.Tables (form.answer_set (means self.now.by.now) Intdiv (trees_of args.now)) run.old result run.new }
    {
        match args {
            [a, b, ..] => self.quotient_set(run, a, b),
            _ => Ok(PSet::empty()),
        }
    }

    // What the answer of some functions carries; that of each other one nothing.
    fn answer_set(
        &self,
        run: &mut Run<F, T>,
        builtin: Builtin,
        args: &[Value],
    ) -> Result<PSet, Stop>
        requires { Nests F.Files T.Tables N.pre N.post self.now.by.now }
        ensures { Performs F.Files T.Tables (form.answer_set (means self.now.by.now) builtin (trees_of args.now)) run.old result run.new }
    {
        match builtin {
            Builtin::Digest(_) => self.text_set(run, args),
            Builtin::Intval => self.text_set(run, args),
            Builtin::Intdiv => self.quotients_set(run, args),
            _ => Ok(PSet::empty()),
        }
    }

    /// A call of a function that works on its arguments alone; the name is one of its own.
    ///
    /// Another count of arguments throws ArgumentCountError. An argument that isn't of its kind stops the call before the work, the
    /// leftmost one first; the work spends ticks, and throws or is the fault that the function's rows say.
    pub fn builtin(
        &self,
        run: &mut Run<F, T>,
        known: Builtin,
        name: &[u8],
        args: &Values,
    ) -> Result<Value, Stop>
        requires nests { Nests F.Files T.Tables N.pre N.post self.now.by.now }
        requires named { builtin_named name.now ≡ Some known }
        ensures { Performs F.Files T.Tables (form.builtin (means self.now.by.now) known (trees_of args.now)) run.old result run.new }
    {
        let Some(sig) = signature(name) else {
            return Err(run.machine.fault(ScriptFault::UndefinedFunction));
        };
        if !sig.takes(args.as_slice().len()) {
            return miscounted(&mut run.machine);
        }
        let turned = self.arguments(run, &sig, args.as_slice())?;
        let set = self.answer_set(run, known, turned.as_slice())?;
        work(self.by.alloc, &mut run.machine, known, name, &turned, &set)
    }

    // An argument as a value of this kind.
    fn argument_as(&self, run: &mut Run<F, T>, kind: ArgKind, v: &Value) -> Result<Value, Stop>
        requires { Nests F.Files T.Tables N.pre N.post self.now.by.now }
        ensures { Performs F.Files T.Tables (argument (means self.now.by.now) kind false (tree_of v.now)) run.old (on_ok tree_of result) run.new }
    {
        let turned = turned_into(self.by.alloc, kind, v);
        let turned = run.machine.settle(turned)?;
        self.with_folded(run, v, turned)
    }

    /// The arguments, each turned into its kind, from the left; those behind the last kind are left out.
    ///
    /// TypeError is thrown where a kind doesn't take its argument, and FloatNeeded comes for a text in a float form where an integer is wanted.
    pub fn arguments_of(
        &self,
        run: &mut Run<F, T>,
        kinds: &[ArgKind],
        args: &[Value],
    ) -> Result<Values, Stop>
        requires { Nests F.Files T.Tables N.pre N.post self.now.by.now }
        ensures { Performs F.Files T.Tables (form.arguments_of (means self.now.by.now) kinds.now (trees_of args.now))
            run.old (on_ok trees_of result) run.new }
    {
        let mut out = Values::new(self.by.alloc);
        let mut i = 0;
        while i < kinds.len() && i < args.len() {
            let kind = kinds[i];
            let value = self.argument_as(run, kind, &args[i])?;
            out.push(value)?;
            i += 1;
        }
        Ok(out)
    }

    /// A call of a function that works on the state.
    ///
    /// Another count of arguments throws ArgumentCountError. The arguments are turned into their kinds from the left, what the work takes
    /// is charged, then comes the work, whose throws and faults are the call's, and then what it gives is charged.
    pub fn state_function(
        &self,
        run: &mut Run<F, T>,
        f: StateFunction,
        args: &Values,
    ) -> Result<Value, Stop>
        requires { Nests F.Files T.Tables N.pre N.post self.now.by.now }
        ensures { Performs F.Files T.Tables (form.state_function (means self.now.by.now) f (trees_of args.now)) run.old result run.new }
    {
        let kinds = kinds_of(f);
        if args.as_slice().len() != kinds.len() {
            return miscounted(&mut run.machine);
        }
        let turned = self.arguments_of(run, kinds, args.as_slice())?;
        take_all(&mut run.machine, turned.as_slice())?;
        let answer = state_work(self.by.alloc, &mut run.machine, f, turned.as_slice())?;
        run.machine.charge(cost(&answer))?;
        Ok(answer)
    }
}
