//! What nests in an evaluation: expressions, statements and source texts, through a function value that evaluates them.
//!
//! A part of an evaluation doesn't call the evaluator itself, but is given it: so each part is proved on its own, by what the function value
//! is required to do, and only the evaluator, which gives itself, recurs. It takes one evaluation off the room that is left each time.
ghost use Rattle.resin_step_objects.specs.Under.meaning_forms.Forms as form;
ghost use Rattle.resin_eval_nested.specs.Nested.{Nests, means};
ghost use Rattle.resin_eval_nested.specs.Running.{Performs};
ghost use Rattle.resin_step_objects.specs.Under.lstr.declared.limits.TheConstants.{LONGEST};
ghost use Rattle.resin_step_objects.specs.Under.meaning_forms.Sources.{source};
ghost use Rattle.std.specs.Prelude.{OnOk, ◌<◌, ◌≤◌, length};

use crate::leaves::{literal, variable};
use crate::run::Run;
use resin_step_objects::under::base::{Files, Tables};
use resin_step_objects::under::machine::Stop;
use resin_step_objects::under::meaning_forms::Course;
use resin_step_objects::under::value::{Value, Values};
use resin_tree::{Expr, Stmt};
use std::alloc::Global;
use std::marker::PhantomData;

/// What nests in an evaluation.
#[derive(Clone, Copy)]
pub enum Nested<'e> {
    /// An expression, for its value.
    Value(&'e Expr),
    /// An expression that is only asked for, as `isset` asks: what isn't there is null.
    Asked(&'e Expr),
    /// A statement, at its own line.
    Statement(&'e Stmt),
    /// A source text, of at most 16,777,216 bytes, that runs in the variables of the running call.
    Source(&'e [u8]),
}

/// How it ends, if nothing stops it.
#[derive(Drop)]
pub enum Outcome {
    /// The value of an expression.
    Value(Value),
    /// How a statement goes on, or a source text ends.
    Course(Course),
}

/// Evaluates what nests in a form by a function value, where `room` more evaluations may be open. The forms themselves are methods, here
/// and in structs of the crates above that hold one of these.
#[derive(Drop)]
pub struct Evaluator<F, T, N> {
    pub alloc: Global,
    pub room: u32,
    pub nested: N,
    pub of: PhantomData<(F, T)>,
}

impl<
    F: Files,
    T: Tables,
    N: Fn(Global, u32, Nested<'_>, &mut Run<F, T>) -> Result<Outcome, Stop> + Copy,
> Evaluator<F, T, N> {
    /// The value of an expression.
    pub fn expr(&self, run: &mut Run<F, T>, e: &Expr) -> Result<Value, Stop>
        requires { Nests F.Files T.Tables N.pre N.post self.now }
        ensures does { Performs F.Files T.Tables ((means self.now).expr e.now) run.old result run.new }
        ensures spent { OnOk result (run.new.machine.ticks < run.old.machine.ticks) }
    {
        match e {
            Expr::Literal(l) => literal(self.alloc, self.room, &mut run.machine, l),
            Expr::Variable(x) => variable(self.room, &mut run.machine, x.as_slice()),
            _ => self.branch(run, e),
        }
    }

    // The value of an expression, by the function value.
    fn branch(&self, run: &mut Run<F, T>, e: &Expr) -> Result<Value, Stop>
        requires { Nests F.Files T.Tables N.pre N.post self.now }
        ensures does { Performs F.Files T.Tables ((means self.now).expr e.now) run.old result run.new }
        ensures spent { OnOk result (run.new.machine.ticks < run.old.machine.ticks) }
    {
        match (self.nested)(self.alloc, self.room, Nested::Value(e), run)? {
            Outcome::Value(end) => Ok(end),
            Outcome::Course(_) => unreachable!(),
        }
    }

    /// The value of an expression that is only asked for.
    pub fn soft(&self, run: &mut Run<F, T>, e: &Expr) -> Result<Value, Stop>
        requires { Nests F.Files T.Tables N.pre N.post self.now }
        ensures { Performs F.Files T.Tables ((means self.now).soft e.now) run.old result run.new }
    {
        match (self.nested)(self.alloc, self.room, Nested::Asked(e), run)? {
            Outcome::Value(end) => Ok(end),
            Outcome::Course(_) => unreachable!(),
        }
    }

    /// A statement, at its own line.
    pub fn stmt(&self, run: &mut Run<F, T>, s: &Stmt) -> Result<Course, Stop>
        requires { Nests F.Files T.Tables N.pre N.post self.now }
        ensures does { Performs F.Files T.Tables ((means self.now).stmt s.now) run.old result run.new }
        ensures spent { OnOk result (run.new.machine.ticks < run.old.machine.ticks) }
    {
        match (self.nested)(self.alloc, self.room, Nested::Statement(s), run)? {
            Outcome::Course(end) => Ok(end),
            Outcome::Value(_) => unreachable!(),
        }
    }

    /// A source text, in the variables of the running call: its program is read, its functions and classes are declared, then its statements run.
    pub fn source(&self, run: &mut Run<F, T>, src: &[u8]) -> Result<Course, Stop>
        requires nests { Nests F.Files T.Tables N.pre N.post self.now }
        requires short { length src.now ≤ LONGEST }
        ensures { Performs F.Files T.Tables (source (means self.now) src.now) run.old result run.new }
    {
        match (self.nested)(self.alloc, self.room, Nested::Source(src), run)? {
            Outcome::Course(end) => Ok(end),
            Outcome::Value(_) => unreachable!(),
        }
    }

    /// Expressions, from the left.
    pub fn values(&self, run: &mut Run<F, T>, es: &[Expr]) -> Result<Values, Stop>
        requires { Nests F.Files T.Tables N.pre N.post self.now }
        ensures { Performs F.Files T.Tables (form.values (means self.now) es.now) run.old result run.new }
    {
        let mut vs = Values::new(self.alloc);
        for e in es {
            let v = self.expr(run, e)?;
            vs.push(v)?;
        }
        Ok(vs)
    }
}
