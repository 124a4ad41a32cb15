//! The inputs of a request: each value passes the filters of inputs, then they are set.
ghost use Rattle.resin_eval_calls.specs.Under.target.Reads.{GivesOrNoMemory};
ghost use Rattle.std.specs.Prelude.{◌≡◌, IfOk, IsTrue, Some};
ghost use Rattle.resin_eval_calls.specs.Under.eval_nested.Nested.{Nests, means};
ghost use Rattle.resin_eval_calls.specs.Under.eval_nested.Running.{Performs};
ghost use Rattle.resin_eval_calls.specs.Under.meaning_forms.Inputs as inputs;
ghost use Rattle.resin_eval_calls.specs.Under.meaning_forms.Programs.{evals, most_open};
ghost use Rattle.resin_eval_calls.specs.Under.meaning_forms.Runs.{on_ok};
ghost use Rattle.resin_eval_calls.specs.Under.meaning_forms.Writes.{plain as plain_text};
ghost use Rattle.resin_eval_calls.specs.Under.builtin.Under.array_fn.Filled.{added_at};
ghost use Rattle.resin_eval_calls.specs.Under.value.Keys.{is_lawful};
ghost use Rattle.resin_eval_calls.specs.Under.value.Seen.{tree_of};

use crate::run::evaluation;
use crate::top::MOST_OPEN;
use resin_eval_calls::under::base::{Files, Tables};
use resin_eval_calls::under::bytes::decimal;
use resin_eval_calls::under::eval_nested::nested::{Evaluator, Nested, Outcome};
use resin_eval_calls::under::eval_nested::run::Run;
use resin_eval_calls::under::eval_writes::leaving::{context_of, text_key, with_text};
use resin_eval_calls::under::eval_writes::reading::Reader;
use resin_eval_calls::under::journal::Channel;
use resin_eval_calls::under::lstr::LText;
use resin_eval_calls::under::machine::Stop;
use resin_eval_calls::under::scalar::CallStop;
use resin_eval_calls::under::step_parts::reads::{array_stop, plain};
use resin_eval_calls::under::value::{Arr, Key, Value};
use std::alloc::{AllocError, Global};
use std::marker::PhantomData;

// A key as text.
fn key_text(alloc: Global, key: &Key) -> Result<LText, AllocError>
    ensures { IfOk result (λ t. t ≡ plain_text (inputs.key_text key.now)) }
{
    match key {
        Key::Int(n) => plain(alloc, decimal(alloc, *n)?.as_slice()),
        Key::Text(bytes) => plain(alloc, bytes.as_slice()),
    }
}

// What a filter of inputs is told: the array by its name, and the outermost key.
fn input_context(alloc: Global, name: &[u8], key: &Key) -> Result<Value, AllocError>
    ensures { IfOk result (λ v. v ≡ inputs.input_context name.now (inputs.key_text key.now)) }
{
    let context = context_of(alloc, b"input")?;
    let at_name = text_key(alloc, b"name")?;
    let context = with_text(context, &at_name, plain(alloc, name)?)?;
    let at_key = text_key(alloc, b"key")?;
    Ok(Value::Arr(with_text(context, &at_key, key_text(alloc, key)?)?))
}

// An array with a value put at a key.
fn with_value(mut a: Arr, key: &Key, v: Value) -> Result<Arr, CallStop>
    requires { IsTrue (is_lawful key.now) }
    ensures { GivesOrNoMemory result (added_at (Some key.now) (tree_of v) a) }
{
    match a.put(key, v) {
        Ok(()) => Ok(a),
        Err(fault) => Err(array_stop(fault)),
    }
}

// Filters of inputs, by an evaluator.
#[derive(Drop)]
struct Inputs<'e, F, T, N> {
    by: &'e Evaluator<F, T, N>,
}

impl<
    F: Files,
    T: Tables,
    N: Fn(Global, u32, Nested<'_>, &mut Run<F, T>) -> Result<Outcome, Stop> + Copy,
> Inputs<'_, F, T, N> {
    // A text as its filters give it; another value stays.
    fn filtered_text(&self, run: &mut Run<F, T>, context: &Value, v: &Value) -> Result<Value, Stop>
        requires { Nests F.Files T.Tables N.pre N.post self.now.by.now }
        ensures { Performs F.Files T.Tables (inputs.filtered_text (means self.now.by.now) context.now (tree_of v.now))
            run.old (on_ok tree_of result) run.new }
    {
        match v {
            Value::Text(t) => {
                let t = t.clone()?;
                let read = Reader { by: self.by }.read_through(run, Channel::Input, context, t)?;
                Ok(Value::Text(read))
            }
            _ => Ok(v.clone()?),
        }
    }

    // The values of an array that is an input, whose filters are told its key.
    fn filtered_texts(&self, run: &mut Run<F, T>, context: &Value, a: &Arr) -> Result<Arr, Stop>
        requires { Nests F.Files T.Tables N.pre N.post self.now.by.now }
        ensures { Performs F.Files T.Tables (inputs.filtered_texts (means self.now.by.now) context.now a.now) run.old result run.new }
    {
        let mut all = a.clone()?;
        for i in 0..a.len() {
            let (key, v) = a.entry(i);
            let v = self.filtered_text(run, context, v)?;
            let put = with_value(all, key, v);
            all = run.machine.settle(put)?;
        }
        Ok(all)
    }

    // An input: a text, or an array of texts.
    fn filtered_input(
        &self,
        run: &mut Run<F, T>,
        name: &[u8],
        key: &Key,
        v: &Value,
    ) -> Result<Value, Stop>
        requires { Nests F.Files T.Tables N.pre N.post self.now.by.now }
        ensures { Performs F.Files T.Tables (inputs.filtered_input (means self.now.by.now) name.now key.now (tree_of v.now))
            run.old (on_ok tree_of result) run.new }
    {
        let context = input_context(self.by.alloc, name, key)?;
        match v {
            Value::Arr(a) => {
                let all = self.filtered_texts(run, &context, a)?;
                Ok(Value::Arr(all))
            }
            _ => self.filtered_text(run, &context, v),
        }
    }

    // The inputs of one array, which has this name.
    fn filtered_array(&self, run: &mut Run<F, T>, name: &[u8], a: &Arr) -> Result<Arr, Stop>
        requires { Nests F.Files T.Tables N.pre N.post self.now.by.now }
        ensures { Performs F.Files T.Tables (inputs.filtered_array (means self.now.by.now) name.now a.now) run.old result run.new }
    {
        let mut all = a.clone()?;
        for i in 0..a.len() {
            let (key, v) = a.entry(i);
            let v = self.filtered_input(run, name, key, v)?;
            let put = with_value(all, key, v);
            all = run.machine.settle(put)?;
        }
        Ok(all)
    }
}

/// Sets `$_GET`, `$_POST`, `$_COOKIE` and `$_SERVER`, once each value passed the filters of inputs, in this order. The value at a key may
/// be an array of texts: then the filters are asked about each of them, and are told that key.
///
/// # Errors
///
/// How a filter stops; no input is set then.
pub fn set_inputs<F: Files, T: Tables>(
    alloc: Global,
    run: &mut Run<F, T>,
    get: &Arr,
    post: &Arr,
    cookie: &Arr,
    server: &Arr,
) -> Result<(), Stop>
    ensures { Performs F.Files T.Tables (inputs.set_inputs (evals most_open) get.now post.now cookie.now server.now) run.old result run.new }
{
    let evaluator = Evaluator {
        alloc,
        room: MOST_OPEN,
        nested: evaluation::<F, T>,
        of: PhantomData,
    };
    let filters = Inputs { by: &evaluator };
    let get = filters.filtered_array(run, b"get", get)?;
    let post = filters.filtered_array(run, b"post", post)?;
    let cookie = filters.filtered_array(run, b"cookie", cookie)?;
    let server = filters.filtered_array(run, b"server", server)?;
    run.machine.assign(b"_GET", Value::Arr(get))?;
    run.machine.assign(b"_POST", Value::Arr(post))?;
    run.machine.assign(b"_COOKIE", Value::Arr(cookie))?;
    run.machine.assign(b"_SERVER", Value::Arr(server))
}
