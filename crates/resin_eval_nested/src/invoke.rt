//! Calls of functions and methods that were found and whose arguments are evaluated.
ghost use Rattle.resin_step_objects.specs.Under.meaning_forms.Forms as form;
ghost use Rattle.resin_eval_nested.specs.Nested.{Nests, means};
ghost use Rattle.resin_eval_nested.specs.Running.{Performs};

use crate::nested::{Evaluator, Nested, Outcome};
use crate::run::Run;
use resin_step_objects::invoke::{bind, find_method, own_body, result_of};
use resin_step_objects::under::base::{Files, Tables};
use resin_step_objects::under::heap::{MethodAt, PreludeMethod};
use resin_step_objects::under::machine::Stop;
use resin_step_objects::under::meaning_forms::Course;
use resin_step_objects::under::value::{Value, Values};
use resin_tree::{Function, Stmt};
use std::alloc::Global;

impl<
    F: Files,
    T: Tables,
    N: Fn(Global, u32, Nested<'_>, &mut Run<F, T>) -> Result<Outcome, Stop> + Copy,
> Evaluator<F, T, N> {
    /// Statements, one after the other.
    pub fn block(&self, run: &mut Run<F, T>, ss: &[Stmt]) -> Result<Course, Stop>
        requires { Nests F.Files T.Tables N.pre N.post self.now }
        ensures { Performs F.Files T.Tables (form.block (means self.now) ss.now) run.old result run.new }
    {
        for s in ss {
            match self.stmt(run, s)? {
                Course::Next => {}
                Course::Break => return Ok(Course::Break),
                Course::Continue => return Ok(Course::Continue),
                Course::Return(v) => return Ok(Course::Return(v)),
            }
        }
        Ok(Course::Next)
    }

    fn script_body(&self, run: &mut Run<F, T>, f: &Function, args: Values) -> Result<Value, Stop>
        requires { Nests F.Files T.Tables N.pre N.post self.now }
        ensures { Performs F.Files T.Tables (form.bound_body (means self.now) f.now args) run.old result run.new }
    {
        bind(
            self.alloc,
            &mut run.machine,
            f.parameters.get().as_slice(),
            args,
        )?;
        let course = self.block(run, f.body.get().as_slice())?;
        Ok(result_of(course))
    }

    /// A function of a script, in a call of its own.
    pub fn call_script(
        &self,
        run: &mut Run<F, T>,
        f: &Function,
        args: Values,
    ) -> Result<Value, Stop>
        requires { Nests F.Files T.Tables N.pre N.post self.now }
        ensures { Performs F.Files T.Tables (form.call_script (means self.now) f.now args) run.old result run.new }
    {
        let was = run.machine.enter(None)?;
        let end = self.script_body(run, f, args);
        run.machine.leave(was);
        end
    }

    fn method_body(
        &self,
        run: &mut Run<F, T>,
        at: MethodAt,
        f: &Function,
        this: u32,
        args: Values,
    ) -> Result<Value, Stop>
        requires { Nests F.Files T.Tables N.pre N.post self.now }
        ensures { Performs F.Files T.Tables (form.bound_method (means self.now) at f.now this args) run.old result run.new }
    {
        run.machine.assign(b"this", Value::Obj(this))?;
        match PreludeMethod::at(at) {
            Some(own) => {
                bind(
                    self.alloc,
                    &mut run.machine,
                    f.parameters.get().as_slice(),
                    args,
                )?;
                own_body(self.alloc, &mut run.machine, own, this)
            }
            None => self.script_body(run, f, args),
        }
    }

    /// A method on an object, in a call of its own.
    pub fn run_method(
        &self,
        run: &mut Run<F, T>,
        at: MethodAt,
        f: &Function,
        this: u32,
        args: Values,
    ) -> Result<Value, Stop>
        requires { Nests F.Files T.Tables N.pre N.post self.now }
        ensures { Performs F.Files T.Tables (form.run_method (means self.now) at f.now this args) run.old result run.new }
    {
        let was = run.machine.enter(Some(at.class))?;
        let end = self.method_body(run, at, f, this, args);
        run.machine.leave(was);
        end
    }

    /// A method of an object that the runtime calls by its name.
    pub fn call_object(
        &self,
        run: &mut Run<F, T>,
        o: u32,
        name: &[u8],
        args: Values,
    ) -> Result<Value, Stop>
        requires { Nests F.Files T.Tables N.pre N.post self.now }
        ensures { Performs F.Files T.Tables (form.call_object (means self.now) o name.now args) run.old result run.new }
    {
        let class = run.machine.class_of(o)?;
        let found = find_method(&run.machine, class, name)?;
        self.run_method(run, found.at, &found.function, o, args)
    }
}
