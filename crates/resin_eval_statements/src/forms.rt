//! Statements: what each does, and how it goes on, to the next one or by `break`, `continue` or `return`.
ghost use Rattle.resin_eval_writes.specs.Under.meaning_forms.Forms as form;
ghost use Rattle.resin_eval_writes.specs.Under.meaning_forms.Runs.{on_ok, Runs};
ghost use Rattle.resin_eval_writes.specs.Under.meaning_forms.Statements.{assign_caught, catch_for, from_default, run_cases};
ghost use Rattle.resin_eval_writes.specs.Under.eval_nested.Nested.{Nests, means};
ghost use Rattle.resin_eval_writes.specs.Under.eval_nested.Running.{Performs};
ghost use Rattle.std.specs.Option.{option_copied};
ghost use Rattle.std.specs.Prelude.{◌≡◌, suc, drop, true, Some};

use resin_eval_assign::assign::Assigner;
use resin_eval_writes::under::base::{Files, Tables};
use resin_eval_writes::under::eval_nested::nested::{Evaluator, Nested, Outcome};
use resin_eval_writes::under::eval_nested::run::Run;
use resin_eval_writes::under::items::{Boxed, SharedBytes};
use resin_eval_writes::under::machine::{Machine, Stop};
use resin_eval_writes::under::meaning_forms::Course;
use resin_eval_writes::under::scalar::ScriptFault;
use resin_eval_writes::under::step_parts::operators::are_equal;
use resin_eval_writes::under::step_parts::statements::{
    assign_entry, bind_all, catch, catches, closing, throw, turn_end,
};
use resin_eval_writes::under::target::erase;
use resin_eval_writes::under::value::{Arr, Value};
use resin_eval_writes::writes::Writer;
use resin_tree::{Branch, Case, Catch, Expr, Loop, Simple, Stmt, StmtKind, Target};
use std::alloc::Global;

/// Statements, by an evaluator.
#[derive(Drop)]
pub struct Statements<'e, F, T, N> {
    pub by: &'e Evaluator<F, T, N>,
}

impl<
    F: Files,
    T: Tables,
    N: Fn(Global, u32, Nested<'_>, &mut Run<F, T>) -> Result<Outcome, Stop> + Copy,
> Statements<'_, F, T, N> {
    // ---- statements that hold no other

    // `echo`: each operand is evaluated and then written.
    fn echo_all(&self, run: &mut Run<F, T>, es: &[Expr]) -> Result<Course, Stop>
        requires { Nests F.Files T.Tables N.pre N.post self.now.by.now }
        ensures { Performs F.Files T.Tables (form.echo_all (means self.now.by.now) es.now) run.old result run.new }
    {
        for e in es {
            let v = self.by.expr(run, e)?;
            Writer { by: self.by }.echo(run, &v)?;
        }
        Ok(Course::Next)
    }

    // `unset`
    fn unset_all(&self, run: &mut Run<F, T>, ts: &[Target]) -> Result<Course, Stop>
        requires { Nests F.Files T.Tables N.pre N.post self.now.by.now }
        ensures { Performs F.Files T.Tables (form.unset_all (means self.now.by.now) ts.now) run.old result run.new }
    {
        for t in ts {
            let path = Assigner { by: self.by }.steps(run, t.path.as_slice())?;
            erase(self.by.alloc, &mut run.machine, &t.variable, &path)?;
        }
        Ok(Course::Next)
    }

    // A statement that holds no other.
    fn simple(&self, run: &mut Run<F, T>, s: &Simple) -> Result<Course, Stop>
        requires { Nests F.Files T.Tables N.pre N.post self.now.by.now }
        ensures { Performs F.Files T.Tables (form.simple_form (means self.now.by.now) s.now) run.old result run.new }
    {
        match s {
            Simple::Inline(bytes) => {
                Writer { by: self.by }.inline(run, bytes.as_slice())?;
                Ok(Course::Next)
            }
            Simple::Do(e) => {
                let _v = self.by.expr(run, e)?;
                Ok(Course::Next)
            }
            Simple::Echo(es) => self.echo_all(run, es.as_slice()),
            Simple::Return(e) => match e {
                Some(e) => {
                    let v = self.by.expr(run, e)?;
                    Ok(Course::Return(v))
                }
                None => Ok(Course::Return(Value::Null)),
            },
            Simple::Throw(e) => {
                let v = self.by.expr(run, e)?;
                throw(&run.machine, &v)
            }
            Simple::Break => Ok(Course::Break),
            Simple::Continue => Ok(Course::Continue),
            Simple::Unset(ts) => self.unset_all(run, ts.as_slice()),
            Simple::Global(names) => bind_all(&mut run.machine, names.as_slice()),
            Simple::Exit => {
                run.machine.awake()?;
                Err(Stop::Exit)
            }
        }
    }

    // ---- `if`

    // `if`: the first branch whose condition holds, else the `else`.
    fn branches(
        &self,
        run: &mut Run<F, T>,
        bs: &[Branch],
        other: &Option<Boxed<Stmt>>,
    ) -> Result<Course, Stop>
        requires { Nests F.Files T.Tables N.pre N.post self.now.by.now }
        ensures { Performs F.Files T.Tables (form.branches (means self.now.by.now) other.now bs.now) run.old result run.new }
    {
        for b in bs {
            let v = self.by.expr(run, &b.condition)?;
            if v.truth() {
                return self.by.stmt(run, b.body.get());
            }
        }
        match other {
            Some(s) => self.by.stmt(run, s.get()),
            None => Ok(Course::Next),
        }
    }

    // ---- loops

    // `while`
    fn while_loop(&self, run: &mut Run<F, T>, e: &Expr, body: &Stmt) -> Result<Course, Stop>
        requires { Nests F.Files T.Tables N.pre N.post self.now.by.now }
        ensures { Performs F.Files T.Tables (form.while_turns (suc run.old.machine.ticks) (means self.now.by.now) e.now body.now)
            run.old result run.new }
    {
        loop {
            let v = self.by.expr(run, e)?;
            if !v.truth() {
                return Ok(Course::Next);
            }
            let course = self.by.stmt(run, body)?;
            if let Some(end) = turn_end(course) {
                return Ok(end);
            }
        }
    }

    // All expressions are evaluated, and the last one decides; none is true.
    fn last_holds(&self, run: &mut Run<F, T>, es: &[Expr]) -> Result<bool, Stop>
        requires { Nests F.Files T.Tables N.pre N.post self.now.by.now }
        ensures { Performs F.Files T.Tables (form.last_holds (means self.now.by.now) true es.now) run.old result run.new }
    {
        let mut so_far = true;
        for e in es {
            let v = self.by.expr(run, e)?;
            so_far = v.truth();
        }
        Ok(so_far)
    }

    // Expressions that are evaluated for what they do.
    fn run_all(&self, run: &mut Run<F, T>, es: &[Expr]) -> Result<(), Stop>
        requires { Nests F.Files T.Tables N.pre N.post self.now.by.now }
        ensures { Performs F.Files T.Tables (form.run_all (means self.now.by.now) es.now) run.old result run.new }
    {
        for e in es {
            let _v = self.by.expr(run, e)?;
        }
        Ok(())
    }

    // The turns of a `for`.
    fn for_loop(
        &self,
        run: &mut Run<F, T>,
        tests: &[Expr],
        after: &[Expr],
        body: &Stmt,
    ) -> Result<Course, Stop>
        requires { Nests F.Files T.Tables N.pre N.post self.now.by.now }
        ensures { Performs F.Files T.Tables (form.for_turns (suc run.old.machine.ticks) (means self.now.by.now) tests.now after.now body.now)
            run.old result run.new }
    {
        loop {
            let more = self.last_holds(run, tests)?;
            if !more {
                return Ok(Course::Next);
            }
            let course = self.by.stmt(run, body)?;
            if let Some(end) = turn_end(course) {
                return Ok(end);
            }
            self.run_all(run, after)?;
        }
    }

    // The turns of a `foreach`: over the entries as they stood when it began.
    fn each_entry(
        &self,
        run: &mut Run<F, T>,
        a: &Arr,
        kx: &Option<SharedBytes>,
        x: &[u8],
        body: &Stmt,
    ) -> Result<Course, Stop>
        requires { Nests F.Files T.Tables N.pre N.post self.now.by.now }
        ensures { Performs F.Files T.Tables (form.each_entry (means self.now.by.now) kx.now x.now body.now a.now.entries) run.old result run.new }
    {
        let mut i = 0;
        while i < a.len() {
            assign_entry(self.by.alloc, &mut run.machine, kx, x, a, i)?;
            let course = self.by.stmt(run, body)?;
            if let Some(end) = turn_end(course) {
                return Ok(end);
            }
            i += 1;
        }
        Ok(Course::Next)
    }

    // A loop.
    fn looped(&self, run: &mut Run<F, T>, l: &Loop) -> Result<Course, Stop>
        requires { Nests F.Files T.Tables N.pre N.post self.now.by.now }
        ensures { Performs F.Files T.Tables (form.loop_form (means self.now.by.now) l.now) run.old result run.new }
    {
        match l {
            Loop::While(e, body) => self.while_loop(run, e, body.get()),
            Loop::DoWhile(body, e) => {
                let course = self.by.stmt(run, body.get())?;
                match turn_end(course) {
                    Some(end) => Ok(end),
                    None => self.while_loop(run, e, body.get()),
                }
            }
            Loop::For(first, tests, after, body) => {
                self.run_all(run, first.as_slice())?;
                self.for_loop(run, tests.as_slice(), after.as_slice(), body.get())
            }
            Loop::Foreach(e, kx, x, body) => {
                let v = self.by.expr(run, e)?;
                match &v {
                    Value::Arr(a) => self.each_entry(run, a, kx, x.as_slice(), body.get()),
                    _ => Err(run.machine.fault(ScriptFault::BadOperand)),
                }
            }
        }
    }

    // ---- `switch`

    // The number of the first case that is equal to the subject, else that of `default:`, else the number of cases.
    fn chosen(&self, run: &mut Run<F, T>, v: &Value, cs: &[Case]) -> Result<usize, Stop>
        requires { Nests F.Files T.Tables N.pre N.post self.now.by.now }
        ensures { Performs F.Files T.Tables (form.chosen (means self.now.by.now) v.now (from_default cs.now) cs.now)
            run.old (on_ok (λ i. drop i cs.now) result) run.new }
    {
        let mut i = 0;
        while i < cs.len() {
            let at = i;
            i += 1;
            let Some(e) = &cs[at].condition else {
                continue;
            };
            let w = self.by.expr(run, e)?;
            let same = are_equal(&mut run.machine, v, &w)?;
            if same {
                return Ok(at);
            }
        }
        Ok(default_of(cs))
    }

    // The statements of the cases from this one on.
    fn run_cases(&self, run: &mut Run<F, T>, cs: &[Case], from: usize) -> Result<Course, Stop>
        requires { Nests F.Files T.Tables N.pre N.post self.now.by.now }
        ensures { Performs F.Files T.Tables (run_cases (means self.now.by.now) (drop from cs.now)) run.old result run.new }
    {
        let mut i = from;
        while i < cs.len() {
            let statements = cs[i].statements.as_slice();
            match self.by.block(run, statements)? {
                Course::Next => {}
                Course::Break | Course::Continue => return Ok(Course::Next),
                Course::Return(v) => return Ok(Course::Return(v)),
            }
            i += 1;
        }
        Ok(Course::Next)
    }

    // `switch`
    fn switch(&self, run: &mut Run<F, T>, e: &Expr, cs: &[Case]) -> Result<Course, Stop>
        requires { Nests F.Files T.Tables N.pre N.post self.now.by.now }
        ensures { Performs F.Files T.Tables (form.switch (means self.now.by.now) e.now cs.now) run.old result run.new }
    {
        let v = self.by.expr(run, e)?;
        let from = self.chosen(run, &v, cs)?;
        self.run_cases(run, cs, from)
    }

    // ---- `try`

    // An object that was thrown goes to a `catch`, or on.
    fn catching(&self, run: &mut Run<F, T>, cs: &[Catch], o: u32) -> Result<Course, Stop>
        requires { Nests F.Files T.Tables N.pre N.post self.now.by.now }
        ensures { Performs F.Files T.Tables (form.catching (means self.now.by.now) cs.now o) run.old result run.new }
    {
        match catch_for(&run.machine, cs, o) {
            Some(c) => {
                assign_caught(&mut run.machine, &c.variable, o)?;
                self.by.block(run, c.statements.as_slice())
            }
            None => Err(Stop::Thrown(o)),
        }
    }

    // A body with its `catch` clauses.
    fn with_catches(&self, run: &mut Run<F, T>, body: &[Stmt], cs: &[Catch]) -> Result<Course, Stop>
        requires { Nests F.Files T.Tables N.pre N.post self.now.by.now }
        ensures { Performs F.Files T.Tables (form.with_catches (means self.now.by.now) body.now cs.now) run.old result run.new }
    {
        let end = catch(self.by.block(run, body))?;
        match end {
            Ok(course) => Ok(course),
            Err(o) => self.catching(run, cs, o),
        }
    }

    // A `try` with a `finally`, which runs unless something stops the script; a jump or an exception out of it replaces how the rest ended.
    fn with_last(
        &self,
        run: &mut Run<F, T>,
        body: &[Stmt],
        cs: &[Catch],
        last: &[Stmt],
    ) -> Result<Course, Stop>
        requires { Nests F.Files T.Tables N.pre N.post self.now.by.now }
        ensures { Performs F.Files T.Tables (form.try_form (means self.now.by.now) body.now cs.now (Some last.now)) run.old result run.new }
    {
        let end = catch(self.with_catches(run, body, cs))?;
        let course = self.by.block(run, last)?;
        closing(course, end)
    }

    /// What a statement does, its line apart, and how it goes on. It stops as the expressions and statements in it do, and `echo` as a
    /// write to the page does. BadOperand comes where `foreach` goes over no array, `throw` throws no object under Throwable, or nothing
    /// can be unset there, as `resin_target::erase` says; an exception that no `catch` fits goes on; `exit` stops, and is ChannelInCheck
    /// where a check, a merge or a filter runs.
    pub fn statement(&self, run: &mut Run<F, T>, k: &StmtKind) -> Result<Course, Stop>
        requires { Nests F.Files T.Tables N.pre N.post self.now.by.now }
        ensures { Performs F.Files T.Tables (form.stmt_form (means self.now.by.now) k.now) run.old result run.new }
    {
        match k {
            StmtKind::Simple(s) => self.simple(run, s),
            StmtKind::Block(ss) => self.by.block(run, ss.as_slice()),
            StmtKind::If(bs, other) => { self.branches(run, bs.as_slice(), other) }
            StmtKind::Loop(l) => self.looped(run, l),
            StmtKind::Switch(e, cs) => self.switch(run, e, cs.as_slice()),
            StmtKind::Try(body, cs, last) => match last {
                Some(last) => self.with_last(run, body.as_slice(), cs.as_slice(), last.as_slice()),
                None => self.with_catches(run, body.as_slice(), cs.as_slice()),
            },
        }
    }
}

// The number of `default:`, else the number of cases.
fn default_of(cs: &[Case]) -> usize
    ensures { drop result cs.now ≡ from_default cs.now }
{
    let mut i = 0;
    for c in cs {
        match &c.condition {
            Some(_) => i += 1,
            None => return i,
        }
    }
    i
}

// The first `catch` with a class that fits the object.
fn catch_for<'a>(m: &Machine, cs: &'a [Catch], o: u32) -> Option<&'a Catch>
    ensures { option_copied result ≡ catch_for o cs.now m.now }
{
    for c in cs {
        if catches(m, c, &Value::Obj(o)) {
            return Some(c);
        }
    }
    None
}

// Gives the variable of a `catch` the object.
fn assign_caught(m: &mut Machine, x: &Option<SharedBytes>, o: u32) -> Result<(), Stop>
    ensures { Runs (assign_caught x.now o) m.old result m.new }
{
    match x {
        Some(x) => m.assign(x.as_slice(), Value::Obj(o)),
        None => Ok(()),
    }
}
