//! Assignments: the index expressions of the target come first, then the right side, then the old value where the form needs it, and last
//! the value is stored.
ghost use Rattle.resin_eval_merges.specs.Under.meaning_forms.Forms as form;
ghost use Rattle.resin_eval_merges.specs.Under.eval_nested.Nested.{Nests, means};
ghost use Rattle.resin_eval_merges.specs.Under.eval_nested.Running.{Performs};
ghost use Rattle.resin_tree.specs.declared.expression.Combining.{Combining as AnyCombining};
ghost use Rattle.resin_eval_merges.specs.Under.target.Paths.{no_postfix};
ghost use Rattle.resin_eval_assign.specs.Compounds.{combined_there};
ghost use Rattle.std.specs.Prelude.{IsTrue, if◌then◌else◌, ◌≡◌, ◌↔◌};

use resin_eval_merges::merges::Merger;
use resin_eval_merges::under::base::{Files, Tables};
use resin_eval_merges::under::eval_nested::nested::{Evaluator, Nested, Outcome};
use resin_eval_merges::under::eval_nested::run::Run;
use resin_eval_merges::under::machine::Stop;
use resin_eval_merges::under::step_parts::appends::append;
use resin_eval_merges::under::step_parts::reads::is_nothing;
use resin_eval_merges::under::step_parts::statements::stored_value;
use resin_eval_merges::under::target::{Index, Path, fetch, store};
use resin_eval_merges::under::value::Value;
use resin_tree::{Assignment, Combining, Expr, PathStep, Target};
use std::alloc::Global;

// Whether it is `.=` of a variable alone.
fn is_append(op: Combining, path: &Path) -> bool
    ensures { IsTrue result ↔ ((op ≡ AnyCombining.Concat) × (path.now ≡ no_postfix)) }
{
    match op {
        Combining::Concat => path.is_alone(),
        _ => false,
    }
}

/// Assignments, by an evaluator.
#[derive(Drop)]
pub struct Assigner<'e, F, T, N> {
    pub by: &'e Evaluator<F, T, N>,
}

impl<
    F: Files,
    T: Tables,
    N: Fn(Global, u32, Nested<'_>, &mut Run<F, T>) -> Result<Outcome, Stop> + Copy,
> Assigner<'_, F, T, N> {
    // One more postfix.
    fn step(&self, run: &mut Run<F, T>, path: Path, s: &PathStep) -> Result<Path, Stop>
        requires { Nests F.Files T.Tables N.pre N.post self.now.by.now }
        ensures { Performs F.Files T.Tables (form.step (means self.now.by.now) path s.now) run.old result run.new }
    {
        match s {
            PathStep::Index(e) => {
                let v = self.by.expr(run, e.get())?;
                Ok(path.with_index(Index::At(v))?)
            }
            PathStep::Append => Ok(path.with_index(Index::Next)?),
            PathStep::Property(p) => Ok(path.with_property(self.by.alloc, p.clone()?)?),
        }
    }

    /// The postfixes of a target, their index expressions evaluated from the left. It stops only as these do.
    pub fn steps(&self, run: &mut Run<F, T>, path: &[PathStep]) -> Result<Path, Stop>
        requires { Nests F.Files T.Tables N.pre N.post self.now.by.now }
        ensures { Performs F.Files T.Tables (form.steps (means self.now.by.now) path.now) run.old result run.new }
    {
        let mut out = Path::new(self.by.alloc);
        for s in path {
            out = self.step(run, out, s)?;
        }
        Ok(out)
    }

    // `t = e`
    fn assign(&self, run: &mut Run<F, T>, t: &Target, e: &Expr) -> Result<Value, Stop>
        requires { Nests F.Files T.Tables N.pre N.post self.now.by.now }
        ensures { Performs F.Files T.Tables (form.assign (means self.now.by.now) t.now e.now) run.old result run.new }
    {
        let path = self.steps(run, t.path.as_slice())?;
        let v = self.by.expr(run, e)?;
        stored_value(self.by.alloc, &mut run.machine, t, &path, v)
    }

    // `t += e` and its kin: the old value is read once the right side stands.
    fn compound(
        &self,
        run: &mut Run<F, T>,
        op: Combining,
        t: &Target,
        e: &Expr,
    ) -> Result<Value, Stop>
        requires { Nests F.Files T.Tables N.pre N.post self.now.by.now }
        ensures { Performs F.Files T.Tables (form.compound (means self.now.by.now) op t.now e.now) run.old result run.new }
    {
        let path = self.steps(run, t.path.as_slice())?;
        let y = self.by.expr(run, e)?;
        self.combine(run, op, t, &path, &y)
    }

    // The old value and the right side are combined, and stored. Behind the text of a variable alone a text is put in its place.
    fn combine(
        &self,
        run: &mut Run<F, T>,
        op: Combining,
        t: &Target,
        path: &Path,
        y: &Value,
    ) -> Result<Value, Stop>
        requires { Nests F.Files T.Tables N.pre N.post self.now.by.now }
        ensures { Performs F.Files T.Tables (combined_there (means self.now.by.now) op t.now.variable path.now y.now) run.old result run.new }
    {
        if is_append(op, path) {
            return append(self.by.alloc, &mut run.machine, t, y);
        }
        let x = fetch(self.by.alloc, &mut run.machine, &t.variable, path)?;
        let v = Merger { by: self.by }.combined(run, op, &x, y)?;
        stored_value(self.by.alloc, &mut run.machine, t, path, v)
    }

    // `t ??= e`: the right side is evaluated only where the target is null.
    fn coalesce_assign(&self, run: &mut Run<F, T>, t: &Target, e: &Expr) -> Result<Value, Stop>
        requires { Nests F.Files T.Tables N.pre N.post self.now.by.now }
        ensures { Performs F.Files T.Tables (form.coalesce_assign (means self.now.by.now) t.now e.now) run.old result run.new }
    {
        let path = self.steps(run, t.path.as_slice())?;
        let x = fetch(self.by.alloc, &mut run.machine, &t.variable, &path)?;
        if !is_nothing(&x) {
            return Ok(x);
        }
        let v = self.by.expr(run, e)?;
        stored_value(self.by.alloc, &mut run.machine, t, &path, v)
    }

    // One more, or one less.
    fn stepped(&self, run: &mut Run<F, T>, up: bool, v: &Value) -> Result<Value, Stop>
        requires { Nests F.Files T.Tables N.pre N.post self.now.by.now }
        ensures { Performs F.Files T.Tables
            ((if up then form.incremented (means self.now.by.now) else form.decremented (means self.now.by.now)) v.now)
            run.old result run.new }
    {
        if up {
            return Merger { by: self.by }.incremented(run, v);
        }
        Merger { by: self.by }.decremented(run, v)
    }

    // Counts a target up or down: the value that stood before, and the one that is stored.
    fn counted(&self, run: &mut Run<F, T>, up: bool, t: &Target) -> Result<(Value, Value), Stop>
        requires { Nests F.Files T.Tables N.pre N.post self.now.by.now }
        ensures { Performs F.Files T.Tables (form.changed (means self.now.by.now)
            (if up then form.incremented (means self.now.by.now) else form.decremented (means self.now.by.now)) t.now)
            run.old result run.new }
    {
        let path = self.steps(run, t.path.as_slice())?;
        let old = fetch(self.by.alloc, &mut run.machine, &t.variable, &path)?;
        let new = self.stepped(run, up, &old)?;
        let answer = new.clone()?;
        store(self.by.alloc, &mut run.machine, &t.variable, &path, new)?;
        Ok((old, answer))
    }

    /// A form that writes to a target: its value is the one that is stored, for `x++` and `x--` the one that stood there before, and for
    /// `??=` the one that stands there if that isn't null. It stops as the expressions in it do, as the operator does, and, as
    /// `resin_target::store` says, where nothing can be stored there.
    pub fn assignment(&self, run: &mut Run<F, T>, a: &Assignment) -> Result<Value, Stop>
        requires { Nests F.Files T.Tables N.pre N.post self.now.by.now }
        ensures { Performs F.Files T.Tables (form.assignment_form (means self.now.by.now) a.now) run.old result run.new }
    {
        match a {
            Assignment::Assign(t, e) => self.assign(run, t, e.get()),
            Assignment::Compound(op, t, e) => { self.compound(run, *op, t, e.get()) }
            Assignment::CoalesceAssign(t, e) => { self.coalesce_assign(run, t, e.get()) }
            Assignment::PreIncrement(t) => {
                let both = self.counted(run, true, t)?;
                Ok(both.1)
            }
            Assignment::PreDecrement(t) => {
                let both = self.counted(run, false, t)?;
                Ok(both.1)
            }
            Assignment::PostIncrement(t) => {
                let both = self.counted(run, true, t)?;
                Ok(both.0)
            }
            Assignment::PostDecrement(t) => {
                let both = self.counted(run, false, t)?;
                Ok(both.0)
            }
        }
    }
}
