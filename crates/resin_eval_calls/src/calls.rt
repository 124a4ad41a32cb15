//! Calls: what a call reaches is found first, then its arguments are evaluated, then the filters of a function are asked, and then it runs.
ghost use Rattle.resin_eval_calls.specs.Ends.{seen_end};
ghost use Rattle.resin_eval_channels.specs.Under.meaning_forms.Calls.{constructed, function_filtered};
ghost use Rattle.resin_eval_channels.specs.Under.meaning_forms.Forms as form;
ghost use Rattle.resin_eval_channels.specs.Under.meaning_forms.Runs.{Runs, on_ok};
ghost use Rattle.resin_eval_channels.specs.Under.eval_nested.Nested.{Nests, means};
ghost use Rattle.resin_eval_channels.specs.Under.eval_nested.Running.{Performs};
ghost use Rattle.resin_eval_channels.specs.Under.step_objects.Methods.{seen_method};
ghost use Rattle.resin_eval_channels.specs.Under.step_parts.Callees.{IsCalled};
ghost use Rattle.resin_eval_channels.specs.Under.value.Seen.{tree_of, trees_of};
ghost use Rattle.resin_tree.specs.declared.expression.Call.TheVariants as written;
ghost use Rattle.std.specs.Option.{option_map};
ghost use Rattle.std.specs.Prelude.{map};

use crate::imports::Importer;
use resin_eval_channels::channels::Sender;
use resin_eval_channels::under::base::{Files, Tables};
use resin_eval_channels::under::eval_functions::arguments::Builtins;
use resin_eval_channels::under::eval_nested::nested::{Evaluator, Nested, Outcome};
use resin_eval_channels::under::eval_nested::run::Run;
use resin_eval_channels::under::journal::Channel;
use resin_eval_channels::under::machine::{Machine, Stop};
use resin_eval_channels::under::meaning_forms::Callee;
use resin_eval_channels::under::scalar::ScriptFault;
use resin_eval_channels::under::step_objects::calls::{
    lowered, object_of, parent_class, values_in,
};
use resin_eval_channels::under::step_objects::invoke::{Method, find_method, method_named};
use resin_eval_channels::under::step_objects::objects::{makeable, with_properties};
use resin_eval_channels::under::step_parts::names::find_callee;
use resin_eval_channels::under::step_parts::reads::{list, plain};
use resin_eval_channels::under::step_parts::statements::catch;
use resin_eval_channels::under::value::{Value, Values};
use resin_tree::{Boxed, Call, Expr, Import, Items, SharedBytes};
use std::alloc::Global;

/// Calls, by an evaluator.
#[derive(Drop)]
pub struct Caller<'e, F, T, N> {
    pub by: &'e Evaluator<F, T, N>,
}

impl<
    F: Files,
    T: Tables,
    N: Fn(Global, u32, Nested<'_>, &mut Run<F, T>) -> Result<Outcome, Stop> + Copy,
> Caller<'_, F, T, N> {
    // A filter is asked about the arguments of a function.
    fn ask_function_filter(
        &self,
        run: &mut Run<F, T>,
        name: &[u8],
        filter: u32,
        args: &Values,
    ) -> Result<Values, Stop>
        requires { Nests F.Files T.Tables N.pre N.post self.now.by.now }
        ensures { Performs F.Files T.Tables (form.filter_function (means self.now.by.now) name.now filter (map tree_of args.now))
            run.old (on_ok trees_of result) run.new }
    {
        let list = run.machine.settle(list(self.by.alloc, args.as_slice()))?;
        let mut asked = Values::new(self.by.alloc);
        let told = plain(self.by.alloc, name)?;
        asked.push(Value::Text(told))?;
        asked.push(Value::Arr(list))?;
        let answer = self.by.call_object(run, filter, b"filter_func", asked)?;
        match &answer {
            Value::Arr(a) => Ok(values_in(self.by.alloc, a)?),
            _ => Err(run.machine.fault(ScriptFault::BadOperand)),
        }
    }

    // The filters of a function are asked in turn, each about the answer of the one before.
    fn ask_function_filters(
        &self,
        run: &mut Run<F, T>,
        name: &[u8],
        chain: &[u32],
        args: Values,
    ) -> Result<Values, Stop>
        requires { Nests F.Files T.Tables N.pre N.post self.now.by.now }
        ensures { Performs F.Files T.Tables (form.ask_function_filters (means self.now.by.now) name.now chain.now (map tree_of args))
            run.old (on_ok trees_of result) run.new }
    {
        let mut args = args;
        for f in chain {
            let was = run.machine.hush();
            let came = self.ask_function_filter(run, name, *f, &args);
            run.machine.restore(was);
            let end = catch(came)?;
            args = filter_answer(&mut run.machine, *f, end)?;
        }
        Ok(args)
    }

    // The arguments as the filters of a function leave them; its chain is taken as it stands now.
    fn filtered(&self, run: &mut Run<F, T>, name: &[u8], args: Values) -> Result<Values, Stop>
        requires { Nests F.Files T.Tables N.pre N.post self.now.by.now }
        ensures { Performs F.Files T.Tables (form.filtered (means self.now.by.now) name.now (map tree_of args))
            run.old (on_ok trees_of result) run.new }
    {
        let name = lowered(self.by.alloc, name)?;
        let chain = run
            .machine
            .chains()
            .func_chain(name.as_slice())
            .to_vec(self.by.alloc)?;
        self.ask_function_filters(run, name.as_slice(), chain.as_slice(), args)
    }

    /// Calls a function that was found, once its arguments are evaluated. The filters of its name are asked first, in turn, and their
    /// answer is what it gets.
    ///
    /// A filter that answers no array is the fault BadOperand; what a filter throws is noted as a denial on `func`, and goes on. Else it
    /// stops as the function does.
    pub fn call_found(
        &self,
        run: &mut Run<F, T>,
        name: &[u8],
        callee: &Callee,
        args: Values,
    ) -> Result<Value, Stop>
        requires nests { Nests F.Files T.Tables N.pre N.post self.now.by.now }
        requires found { IsCalled name.now callee.now }
        ensures { Performs F.Files T.Tables (form.call_found (means self.now.by.now) name.now callee.now args) run.old result run.new }
    {
        let args = self.filtered(run, name, args)?;
        match callee {
            Callee::Script(f) => self.by.call_script(run, f, args),
            Callee::Builtin(b) => Builtins { by: self.by }.builtin(run, *b, name, &args),
            Callee::State(f) => Builtins { by: self.by }.state_function(run, *f, &args),
            Callee::Channel(f) => Sender { by: self.by }.channel_function(run, *f, &args),
        }
    }

    // The constructor runs, where there is one; else the arguments are passed over.
    fn construct(
        &self,
        run: &mut Run<F, T>,
        o: u32,
        args: Values,
        constructor: &Option<Method>,
    ) -> Result<(), Stop>
        requires { Nests F.Files T.Tables N.pre N.post self.now.by.now }
        ensures { Performs F.Files T.Tables (constructed (means self.now.by.now) o args (option_map seen_method constructor.now))
            run.old result run.new }
    {
        match constructor {
            Some(found) => {
                let _null = self.by.run_method(run, found.at, &found.function, o, args)?;
                Ok(())
            }
            None => Ok(()),
        }
    }

    // A new object, whose constructor ran.
    fn new_object(&self, run: &mut Run<F, T>, class: u32, args: Values) -> Result<Value, Stop>
        requires { Nests F.Files T.Tables N.pre N.post self.now.by.now }
        ensures { Performs F.Files T.Tables (form.new_object (means self.now.by.now) class args) run.old result run.new }
    {
        let o = with_properties(self.by.alloc, &mut run.machine, class)?;
        let constructor = method_named(&run.machine, class, b"__construct")?;
        self.construct(run, o, args, &constructor)?;
        Ok(Value::Obj(o))
    }

    // A call of a function.
    fn function_call(
        &self,
        run: &mut Run<F, T>,
        name: &SharedBytes,
        es: &Items<Expr>,
    ) -> Result<Value, Stop>
        requires { Nests F.Files T.Tables N.pre N.post self.now.by.now }
        ensures { Performs F.Files T.Tables (form.call_form (means self.now.by.now) (written.Function name.now es.now)) run.old result run.new }
    {
        let callee = find_callee(&run.machine, name.as_slice())?;
        let args = self.by.values(run, es.as_slice())?;
        self.call_found(run, name.as_slice(), &callee, args)
    }

    // A call of a method.
    fn method_call(
        &self,
        run: &mut Run<F, T>,
        a: &Boxed<Expr>,
        name: &SharedBytes,
        es: &Items<Expr>,
    ) -> Result<Value, Stop>
        requires { Nests F.Files T.Tables N.pre N.post self.now.by.now }
        ensures { Performs F.Files T.Tables (form.call_form (means self.now.by.now) (written.Method a.now name.now es.now)) run.old result run.new }
    {
        let v = self.by.expr(run, a.get())?;
        let o = object_of(&run.machine, &v)?;
        let class = run.machine.class_of(o)?;
        let found = find_method(&run.machine, class, name.as_slice())?;
        let args = self.by.values(run, es.as_slice())?;
        self.by.run_method(run, found.at, &found.function, o, args)
    }

    // A call of a method of the parent class.
    fn parent_call(
        &self,
        run: &mut Run<F, T>,
        name: &SharedBytes,
        es: &Items<Expr>,
    ) -> Result<Value, Stop>
        requires { Nests F.Files T.Tables N.pre N.post self.now.by.now }
        ensures { Performs F.Files T.Tables (form.call_form (means self.now.by.now) (written.Parent name.now es.now)) run.old result run.new }
    {
        let class = parent_class(&run.machine)?;
        let found = find_method(&run.machine, class, name.as_slice())?;
        let this = run.machine.read(b"this")?;
        let o = object_of(&run.machine, &this)?;
        let args = self.by.values(run, es.as_slice())?;
        self.by.run_method(run, found.at, &found.function, o, args)
    }

    // A new object.
    fn new_call(
        &self,
        run: &mut Run<F, T>,
        name: &SharedBytes,
        es: &Items<Expr>,
    ) -> Result<Value, Stop>
        requires { Nests F.Files T.Tables N.pre N.post self.now.by.now }
        ensures { Performs F.Files T.Tables (form.call_form (means self.now.by.now) (written.New name.now es.now)) run.old result run.new }
    {
        let class = makeable(&run.machine, name.as_slice())?;
        let args = self.by.values(run, es.as_slice())?;
        self.new_object(run, class, args)
    }

    // An import.
    fn import_call(&self, run: &mut Run<F, T>, kind: Import, e: &Boxed<Expr>) -> Result<Value, Stop>
        requires { Nests F.Files T.Tables N.pre N.post self.now.by.now }
        ensures { Performs F.Files T.Tables (form.call_form (means self.now.by.now) (written.Import kind e.now)) run.old result run.new }
    {
        let v = self.by.expr(run, e.get())?;
        Importer { by: self.by }.import(run, kind, &v)
    }

    /// A call as it is written: of a function, a method, a method of the parent class, `new`, or an import. What it reaches is found first,
    /// then its arguments are evaluated from the left, and then it runs. A constructor runs where the class has one.
    ///
    /// What isn't there is the fault that says so: UndefinedFunction, UndefinedMethod, UndefinedClass; what is no object is BadOperand. Else it stops
    /// as its parts, the import and the code that it runs do.
    pub fn called(&self, run: &mut Run<F, T>, c: &Call) -> Result<Value, Stop>
        requires { Nests F.Files T.Tables N.pre N.post self.now.by.now }
        ensures { Performs F.Files T.Tables (form.call_form (means self.now.by.now) c.now) run.old result run.new }
    {
        match c {
            Call::Function(name, es) => self.function_call(run, name, es),
            Call::Method(a, name, es) => self.method_call(run, a, name, es),
            Call::Parent(name, es) => self.parent_call(run, name, es),
            Call::New(name, es) => self.new_call(run, name, es),
            Call::Import(kind, e) => self.import_call(run, *kind, e),
        }
    }
}

// What a filter's end means: its answer is the arguments from then on, or its exception is noted and goes on.
fn filter_answer(m: &mut Machine, filter: u32, end: Result<Values, u32>) -> Result<Values, Stop>
    ensures { Runs (function_filtered filter (seen_end end)) m.old (on_ok trees_of result) m.new }
{
    match end {
        Ok(answer) => Ok(answer),
        Err(thrown) => {
            m.deny_filter_outside(Channel::Func, filter, 0, thrown)?;
            Err(Stop::Thrown(thrown))
        }
    }
}
