//! Evaluation, by walking the tree. `room` is how many more evaluations may be open. What nests in an evaluation is evaluated by a function
//! value, so that each form is proved on its own; `evaluation` alone recurs, by giving itself, with less room each time. A source text runs
//! its statements with the room that it has.
ghost use Rattle.resin_eval_calls.specs.Under.meaning_forms.Expressions.{item_key, items, turned_key};
ghost use Rattle.resin_eval_calls.specs.Under.meaning_forms.Forms as form;
ghost use Rattle.resin_eval_calls.specs.Under.meaning_forms.Invoke.{block};
ghost use Rattle.resin_eval_calls.specs.Under.meaning_forms.Programs.{evals};
ghost use Rattle.resin_eval_calls.specs.Under.meaning_forms.Runs.{Runs};
ghost use Rattle.resin_eval_calls.specs.Under.meaning_forms.Sources.{file, statement_in};
ghost use Rattle.resin_eval_calls.specs.Under.eval_nested.Nested.{Ends, Nests, means};
ghost use Rattle.resin_eval_calls.specs.Under.eval_nested.Running.{Performs, at};
ghost use Rattle.resin_eval_calls.specs.Under.value.Changes.{empty};
ghost use Rattle.resin_eval_calls.specs.Under.value.Keys.{is_lawful};
ghost use Rattle.std.specs.List.{filter_map};
ghost use Rattle.std.specs.Prelude.{◌<◌, IfOk, IfSome, IsTrue, OnOk, suc};

use crate::sources::read_nested;
use resin_eval_calls::calls::Caller;
use resin_eval_calls::under::base::{Files, Tables};
use resin_eval_calls::under::eval_merges::merges::Merger;
use resin_eval_calls::under::eval_nested::nested::{Evaluator, Nested, Outcome};
use resin_eval_calls::under::eval_nested::run::Run;
use resin_eval_calls::under::items::Boxed;
use resin_eval_calls::under::machine::{Machine, Stop};
use resin_eval_calls::under::meaning_forms::Course;
use resin_eval_calls::under::scalar::ScriptFault;
use resin_eval_calls::under::step_parts::declarations::declare_all;
use resin_eval_calls::under::step_parts::operators::{charge_all, compared, given, instance_of};
use resin_eval_calls::under::step_parts::reads::{
    index_of, is_nothing, keyed, literal_value, property_of, with_entry,
};
use resin_eval_calls::under::step_parts::values::texts_joined;
use resin_eval_calls::under::value::{Arr, Key, Value};
use resin_eval_statements::forms::Statements;
use resin_eval_statements::under::eval_assign::assign::Assigner;
use resin_tree::{Access, ArrayItem, Expr, Item, Operation, Program, Stmt, Test};
use std::alloc::Global;
use std::marker::PhantomData;

/// Evaluates an expression or a statement where `room` more evaluations may be open. It takes one of them and a tick, and gives itself to
/// what nests further in. DepthSpent comes exactly where none is left. A source text takes none, and its statements have the same room.
/// Else it stops as what it evaluates does: by an exception, `exit`, a script fault with its line, a keeper call that failed, or want of
/// memory, with which the journal, what the keepers hold and the calls made stand at a moment that the evaluation goes through.
#[cycle(walk)]
pub fn evaluation<F: Files, T: Tables>(
    alloc: Global,
    room: u32,
    what: Nested<'_>,
    run: &mut Run<F, T>,
) -> Result<Outcome, Stop>
    ensures { Ends room what.entry (at F.Files T.Tables run.old) result (at F.Files T.Tables run.new) }
{
    if let Nested::Source(src) = what {
        let p = read_nested(alloc, &run.machine, src)?;
        let course = run_file(alloc, room, run, &p)?;
        return Ok(Outcome::Course(course));
    }
    if room == 0 {
        return Err(run.machine.fault(ScriptFault::DepthSpent));
    }
    let evaluator = Evaluator {
        alloc,
        room: room - 1,
        nested: evaluation::<F, T>,
        of: PhantomData,
    };
    let interpreter = Interpreter { by: &evaluator };
    match what {
        Nested::Value(e) => {
            let v = interpreter.expr_by(run, e)?;
            Ok(Outcome::Value(v))
        }
        Nested::Asked(e) => {
            let v = interpreter.soft_by(run, e)?;
            Ok(Outcome::Value(v))
        }
        Nested::Statement(s) => {
            let course = interpreter.stmt_by(run, s)?;
            Ok(Outcome::Course(course))
        }
        Nested::Source(_) => unreachable!(),
    }
}

/// The functions and classes of a file are declared in their order, then its statements run, where `room` more evaluations may be open. It
/// stops as `evaluation` does.
#[cycle(walk)]
pub fn run_file<F: Files, T: Tables>(
    alloc: Global,
    room: u32,
    run: &mut Run<F, T>,
    p: &Program,
) -> Result<Course, Stop>
    ensures { Performs F.Files T.Tables (file (evals room) p.now) run.old result run.new }
{
    declare_all(&mut run.machine, p.items.as_slice())?;
    run_items(alloc, room, run, p.items.as_slice())
}

// The statements of a file, one after the other, as long as each ends with going on.
#[cycle(walk)]
fn run_items<F: Files, T: Tables>(
    alloc: Global,
    room: u32,
    run: &mut Run<F, T>,
    items: &[Item],
) -> Result<Course, Stop>
    ensures { Performs F.Files T.Tables (block (evals room) (filter_map statement_in items.now)) run.old result run.new }
{
    for item in items {
        if let Item::Statement(s) = item {
            match run_statement(alloc, room, run, s)? {
                Course::Next => {}
                Course::Break => return Ok(Course::Break),
                Course::Continue => return Ok(Course::Continue),
                Course::Return(v) => return Ok(Course::Return(v)),
            }
        }
    }
    Ok(Course::Next)
}

// A statement of a file.
#[cycle(walk)]
fn run_statement<F: Files, T: Tables>(
    alloc: Global,
    room: u32,
    run: &mut Run<F, T>,
    s: &Stmt,
) -> Result<Course, Stop>
    ensures { Performs F.Files T.Tables ((evals room).stmt s.now) run.old result run.new }
{
    match evaluation(alloc, room, Nested::Statement(s), run)? {
        Outcome::Course(course) => Ok(course),
        Outcome::Value(_) => unreachable!(),
    }
}

/// Expressions and statements by their forms, by an evaluator.
#[derive(Drop)]
pub struct Interpreter<'e, F, T, N> {
    pub by: &'e Evaluator<F, T, N>,
}

impl<
    F: Files,
    T: Tables,
    N: Fn(Global, u32, Nested<'_>, &mut Run<F, T>) -> Result<Outcome, Stop> + Copy,
> Interpreter<'_, F, T, N> {
    /// The value of an expression, in which `room` more evaluations may be open. It stops as `evaluation` does.
    pub fn expr_by(&self, run: &mut Run<F, T>, e: &Expr) -> Result<Value, Stop>
        requires { Nests F.Files T.Tables N.pre N.post self.now.by.now }
        ensures does { Performs F.Files T.Tables ((evals (suc self.now.by.now.room)).expr e.now) run.old result run.new }
        ensures spent { OnOk result (run.new.machine.ticks < run.old.machine.ticks) }
    {
        run.machine.charge(1)?;
        self.expression(run, e)
    }

    /// The value of an expression that is only asked for, as `isset` asks, in which `room` more evaluations may be open: what isn't there
    /// is null. It stops as `evaluation` does.
    pub fn soft_by(&self, run: &mut Run<F, T>, e: &Expr) -> Result<Value, Stop>
        requires { Nests F.Files T.Tables N.pre N.post self.now.by.now }
        ensures { Performs F.Files T.Tables ((evals (suc self.now.by.now.room)).soft e.now) run.old result run.new }
    {
        run.machine.charge(1)?;
        match e {
            Expr::Access(a) => self.soft_access(run, a),
            _ => self.expression(run, e),
        }
    }

    /// A statement, at its own line, in which `room` more evaluations may be open; then the line is what it was. It stops as `evaluation` does.
    pub fn stmt_by(&self, run: &mut Run<F, T>, s: &Stmt) -> Result<Course, Stop>
        requires { Nests F.Files T.Tables N.pre N.post self.now.by.now }
        ensures does { Performs F.Files T.Tables ((evals (suc self.now.by.now.room)).stmt s.now) run.old result run.new }
        ensures spent { OnOk result (run.new.machine.ticks < run.old.machine.ticks) }
    {
        let was = run.machine.set_line(s.line);
        let end = self.ticked(run, s);
        let _own = run.machine.set_line(was);
        end
    }

    // A statement with its tick.
    fn ticked(&self, run: &mut Run<F, T>, s: &Stmt) -> Result<Course, Stop>
        requires { Nests F.Files T.Tables N.pre N.post self.now.by.now }
        ensures does { Performs F.Files T.Tables (form.ticked_form (means self.now.by.now) s.now.kind) run.old result run.new }
        ensures spent { OnOk result (run.new.machine.ticks < run.old.machine.ticks) }
    {
        run.machine.charge(1)?;
        Statements { by: self.by }.statement(run, &s.kind)
    }

    // An expression by its form.
    fn expression(&self, run: &mut Run<F, T>, e: &Expr) -> Result<Value, Stop>
        requires { Nests F.Files T.Tables N.pre N.post self.now.by.now }
        ensures { Performs F.Files T.Tables (form.expr_form (means self.now.by.now) e.now) run.old result run.new }
    {
        match e {
            Expr::Literal(l) => Ok(literal_value(self.by.alloc, l)?),
            Expr::Variable(x) => run.machine.read(x.as_slice()),
            Expr::Array(is) => self.array(run, is.as_slice()),
            Expr::Join(es) => self.interpolation(run, es.as_slice()),
            Expr::Access(a) => self.access(run, a),
            Expr::Operation(o) => self.operation(run, o),
            Expr::Test(t) => self.test(run, t),
            Expr::Assignment(a) => Assigner { by: self.by }.assignment(run, a),
            Expr::Call(c) => Caller { by: self.by }.called(run, c),
        }
    }

    // The key of an item of an array, where it has one.
    fn item_key(
        &self,
        run: &mut Run<F, T>,
        key: &Option<Boxed<Expr>>,
    ) -> Result<Option<Value>, Stop>
        requires { Nests F.Files T.Tables N.pre N.post self.now.by.now }
        ensures { Performs F.Files T.Tables (item_key (means self.now.by.now) key.now) run.old result run.new }
    {
        match key {
            Some(e) => {
                let k = self.by.expr(run, e.get())?;
                Ok(Some(k))
            }
            None => Ok(None),
        }
    }

    // The items of an array, one after the other.
    fn items(&self, run: &mut Run<F, T>, is: &[ArrayItem]) -> Result<Arr, Stop>
        requires { Nests F.Files T.Tables N.pre N.post self.now.by.now }
        ensures { Performs F.Files T.Tables (items (means self.now.by.now) empty is.now) run.old result run.new }
    {
        let mut a = Arr::new(self.by.alloc)?;
        for i in is {
            let k = self.item_key(run, &i.key)?;
            let v = self.by.expr(run, i.value.get())?;
            let key = turned_key(self.by.alloc, &mut run.machine, &k)?;
            let put = with_entry(a, &key, v);
            a = run.machine.settle(put)?;
        }
        Ok(a)
    }

    // An array by its items.
    fn array(&self, run: &mut Run<F, T>, is: &[ArrayItem]) -> Result<Value, Stop>
        requires { Nests F.Files T.Tables N.pre N.post self.now.by.now }
        ensures { Performs F.Files T.Tables (form.array_form (means self.now.by.now) is.now) run.old result run.new }
    {
        let a = self.items(run, is)?;
        Ok(Value::Arr(a))
    }

    // A text with interpolation.
    fn interpolation(&self, run: &mut Run<F, T>, es: &[Expr]) -> Result<Value, Stop>
        requires { Nests F.Files T.Tables N.pre N.post self.now.by.now }
        ensures { Performs F.Files T.Tables (form.interpolated (means self.now.by.now) es.now) run.old result run.new }
    {
        let vs = self.by.values(run, es)?;
        charge_all(&mut run.machine, vs.as_slice())?;
        let text = texts_joined(self.by.alloc, &mut run.machine, vs.as_slice())?;
        given(&mut run.machine, Value::Text(text))
    }

    // A part of a value.
    fn access(&self, run: &mut Run<F, T>, a: &Access) -> Result<Value, Stop>
        requires { Nests F.Files T.Tables N.pre N.post self.now.by.now }
        ensures { Performs F.Files T.Tables (form.access_form (means self.now.by.now) a.now) run.old result run.new }
    {
        match a {
            Access::Index(b, e) => {
                let v = self.by.expr(run, b.get())?;
                let k = self.by.expr(run, e.get())?;
                index_of(self.by.alloc, &mut run.machine, false, &v, &k)
            }
            Access::Property(b, p) => {
                let v = self.by.expr(run, b.get())?;
                Ok(property_of(&run.machine, &v, p.as_slice())?)
            }
        }
    }

    // The same where it is only asked for.
    fn soft_access(&self, run: &mut Run<F, T>, a: &Access) -> Result<Value, Stop>
        requires { Nests F.Files T.Tables N.pre N.post self.now.by.now }
        ensures { Performs F.Files T.Tables (form.soft_access_form (means self.now.by.now) a.now) run.old result run.new }
    {
        match a {
            Access::Index(b, e) => {
                let v = self.by.soft(run, b.get())?;
                let k = self.by.expr(run, e.get())?;
                index_of(self.by.alloc, &mut run.machine, true, &v, &k)
            }
            Access::Property(b, p) => {
                let v = self.by.soft(run, b.get())?;
                Ok(property_of(&run.machine, &v, p.as_slice())?)
            }
        }
    }

    // Operators that evaluate all their operands.
    fn operation(&self, run: &mut Run<F, T>, o: &Operation) -> Result<Value, Stop>
        requires { Nests F.Files T.Tables N.pre N.post self.now.by.now }
        ensures { Performs F.Files T.Tables (form.operation_form (means self.now.by.now) o.now) run.old result run.new }
    {
        match o {
            Operation::Unary(op, a) => {
                let x = self.by.expr(run, a.get())?;
                Merger { by: self.by }.unary(run, *op, &x)
            }
            Operation::Combine(op, a, b) => {
                let x = self.by.expr(run, a.get())?;
                let y = self.by.expr(run, b.get())?;
                Merger { by: self.by }.combined(run, *op, &x, &y)
            }
            Operation::Compare(op, a, b) => {
                let x = self.by.expr(run, a.get())?;
                let y = self.by.expr(run, b.get())?;
                compared(&mut run.machine, *op, &x, &y)
            }
            Operation::InstanceOf(a, c) => {
                let x = self.by.expr(run, a.get())?;
                instance_of(&mut run.machine, c.as_slice(), &x)
            }
        }
    }

    // Operators that may leave an operand out, and questions.
    fn test(&self, run: &mut Run<F, T>, t: &Test) -> Result<Value, Stop>
        requires { Nests F.Files T.Tables N.pre N.post self.now.by.now }
        ensures { Performs F.Files T.Tables (form.test_form (means self.now.by.now) t.now) run.old result run.new }
    {
        match t {
            Test::And(a, b) => {
                let x = self.by.expr(run, a.get())?;
                if !x.truth() {
                    return Ok(Value::Bool(false));
                }
                let y = self.by.expr(run, b.get())?;
                Ok(Value::Bool(y.truth()))
            }
            Test::Or(a, b) => {
                let x = self.by.expr(run, a.get())?;
                if x.truth() {
                    return Ok(Value::Bool(true));
                }
                let y = self.by.expr(run, b.get())?;
                Ok(Value::Bool(y.truth()))
            }
            Test::Coalesce(a, b) => {
                let x = self.by.soft(run, a.get())?;
                if is_nothing(&x) {
                    return self.by.expr(run, b.get());
                }
                Ok(x)
            }
            Test::Choice(c, a, b) => {
                let x = self.by.expr(run, c.get())?;
                if x.truth() {
                    return self.by.expr(run, a.get());
                }
                self.by.expr(run, b.get())
            }
            Test::Either(c, b) => {
                let x = self.by.expr(run, c.get())?;
                if x.truth() {
                    return Ok(x);
                }
                self.by.expr(run, b.get())
            }
            Test::Isset(es) => self.all_set(run, es.as_slice()),
            Test::Empty(e) => {
                let x = self.by.soft(run, e.get())?;
                Ok(Value::Bool(!x.truth()))
            }
        }
    }

    // Whether no operand of `isset` is null.
    fn all_set(&self, run: &mut Run<F, T>, es: &[Expr]) -> Result<Value, Stop>
        requires { Nests F.Files T.Tables N.pre N.post self.now.by.now }
        ensures { Performs F.Files T.Tables (form.all_set (means self.now.by.now) es.now) run.old result run.new }
    {
        for e in es {
            let v = self.by.soft(run, e)?;
            if is_nothing(&v) {
                return Ok(Value::Bool(false));
            }
        }
        Ok(Value::Bool(true))
    }
}

// The same as a key.
fn turned_key(alloc: Global, m: &mut Machine, k: &Option<Value>) -> Result<Option<Key>, Stop>
    ensures turned { Runs (turned_key k.now) m.old result m.new }
    ensures lawful { IfOk result (λ key. IfSome key (λ k. IsTrue (is_lawful k))) }
{
    match k {
        Some(k) => {
            let key = keyed(alloc, m, k)?;
            Ok(Some(key))
        }
        None => Ok(None),
    }
}
