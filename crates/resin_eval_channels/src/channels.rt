//! Functions of channels once their arguments are evaluated: headers, the status, mail, output buffers, files and tables.
ghost use Rattle.resin_eval_queries.specs.Under.meaning_forms.Channels.{flushed, is_count, is_one_line, is_open, leave_status};
ghost use Rattle.resin_eval_queries.specs.Under.meaning_forms.Channels.{mail_context, only_looks, status_in, text_or_false};
ghost use Rattle.resin_eval_queries.specs.Under.meaning_forms.Forms as form;
ghost use Rattle.resin_eval_queries.specs.Under.meaning_forms.Runs.{Runs, on_ok};
ghost use Rattle.resin_eval_queries.specs.Under.meaning_forms.declared.callee.ChannelFunction.TheVariants.{FileExists, FileGetContents};
ghost use Rattle.resin_eval_queries.specs.Under.meaning_forms.declared.callee.ChannelFunction.TheVariants.{FilePutContents, Header, Mail};
ghost use Rattle.resin_eval_queries.specs.Under.meaning_forms.declared.callee.ChannelFunction.TheVariants.{ResponseCode, SqlQuery, Unlink};
ghost use Rattle.resin_eval_queries.specs.Under.eval_nested.Nested.{Nests, means};
ghost use Rattle.resin_eval_queries.specs.Under.eval_nested.Running.{Performs};
ghost use Rattle.resin_eval_queries.specs.Under.lstr.Texts.{bytes_of};
ghost use Rattle.resin_eval_queries.specs.Under.machine.Steps.{awake};
ghost use Rattle.resin_eval_queries.specs.Under.machine.declared.stop.Stop.TheVariants.{Fault};
ghost use Rattle.resin_eval_queries.specs.Under.meaning.Programs.{act, give};
ghost use Rattle.resin_eval_queries.specs.Under.scalar.declared.faults.ScriptFault.TheVariants.{UndefinedFunction};
ghost use Rattle.resin_eval_queries.specs.Under.value.Seen.{tree_of, trees_of};
ghost use Rattle.resin_eval_queries.specs.Under.value.Trees.{text as text_tree};
ghost use Rattle.std.specs.Prelude.{Err, IfOk, [], decimal, if◌then◌else◌, ◌&&◌, ◌≡◌, ◌∷◌};

use crate::files::{Shelf, exists, flags_in, unlink};
use resin_eval_queries::queries::Querier;
use resin_eval_queries::under::base::{Files, Tables};
use resin_eval_queries::under::eval_functions::arguments::Builtins;
use resin_eval_queries::under::eval_nested::nested::{Evaluator, Nested, Outcome};
use resin_eval_queries::under::eval_nested::run::Run;
use resin_eval_queries::under::eval_writes::leaving::{context_of, text_key, with_text};
use resin_eval_queries::under::eval_writes::writes::Writer;
use resin_eval_queries::under::heap::PreludeClass;
use resin_eval_queries::under::lstr::LText;
use resin_eval_queries::under::machine::{Machine, Stop};
use resin_eval_queries::under::meaning_forms::{ChannelFunction, Outgoing};
use resin_eval_queries::under::ops::to_text;
use resin_eval_queries::under::scalar::ScriptFault;
use resin_eval_queries::under::step_functions::functions::miscounted;
use resin_eval_queries::under::step_parts::channels::{
    channel_kinds, flag_in, is_one_line, needed, only_looks,
};
use resin_eval_queries::under::step_parts::operators::{charge_all, given};
use resin_eval_queries::under::step_parts::reads::number;
use resin_eval_queries::under::value::{Value, Values};
use std::alloc::{AllocError, Global};

// Values that are not of the kinds that a function takes, or are too few; none such reach the work of a call.
fn unfit<A>(m: &Machine) -> Result<A, Stop>
    ensures { result ≡ Err (Fault UndefinedFunction m.now.line) }
{
    Err(m.fault(ScriptFault::UndefinedFunction))
}

// The number of a status that may be set.
fn status_in(n: i64) -> Option<u16>
    ensures { result ≡ status_in n }
{
    if n < 200 || n > 599 {
        return None;
    }
    Some(n as u16)
}

// The status that a value names.
fn status_of(v: &Value) -> Option<u16>
    ensures { result ≡ form.status_of (tree_of v.now) }
{
    match v {
        Value::Int(n, _) => status_in(*n),
        Value::Null | Value::Bool(_) | Value::Text(_) | Value::Arr(_) | Value::Obj(_) => None,
    }
}

/// Functions of channels, by an evaluator.
#[derive(Drop)]
pub struct Sender<'e, F, T, N> {
    pub by: &'e Evaluator<F, T, N>,
}

impl<
    F: Files,
    T: Tables,
    N: Fn(Global, u32, Nested<'_>, &mut Run<F, T>) -> Result<Outcome, Stop> + Copy,
> Sender<'_, F, T, N> {
    // A status leaves, and the answer is the one that was.
    fn leave_status(&self, run: &mut Run<F, T>, status: u16, told: LText) -> Result<Value, Stop>
        requires nests { Nests F.Files T.Tables N.pre N.post self.now.by.now }
        requires decimal { bytes_of told ≡ decimal status }
        ensures { Performs F.Files T.Tables (leave_status (means self.now.by.now) status told) run.old (on_ok tree_of result) run.new }
    {
        let was = run.machine.stage().status();
        let context = Value::Arr(context_of(self.by.alloc, b"header")?);
        let what = Outgoing::Status(status);
        Writer { by: self.by }.leave(run, &what, &context, told)?;
        Ok(number(i64::from(was)))
    }

    // The status that was, once this one is written.
    fn set_status(&self, run: &mut Run<F, T>, n: &Value) -> Result<Value, Stop>
        requires { Nests F.Files T.Tables N.pre N.post self.now.by.now }
        ensures { Performs F.Files T.Tables (form.set_status (means self.now.by.now) (form.status_of (tree_of n.now)) (tree_of n.now))
            run.old (on_ok tree_of result) run.new }
    {
        let Some(status) = status_of(n) else {
            return run.machine.throw(PreludeClass::ValueError, b"");
        };
        let told = to_text(self.by.alloc, n);
        let told = run.machine.settle(told)?;
        self.leave_status(run, status, told)
    }

    // A status is set by the first argument.
    fn status_work(&self, run: &mut Run<F, T>, args: &[Value]) -> Result<Value, Stop>
        requires { Nests F.Files T.Tables N.pre N.post self.now.by.now }
        ensures { Performs F.Files T.Tables (form.channel_work (means self.now.by.now) ResponseCode (trees_of args.now))
            run.old (on_ok tree_of result) run.new }
    {
        match args {
            [n, ..] => self.set_status(run, n),
            [] => unfit(&run.machine),
        }
    }

    // A header line leaves: the first argument, whether it takes the place of others being the second.
    fn header_work(&self, run: &mut Run<F, T>, args: &[Value]) -> Result<Value, Stop>
        requires { Nests F.Files T.Tables N.pre N.post self.now.by.now }
        ensures { Performs F.Files T.Tables (form.channel_work (means self.now.by.now) Header (trees_of args.now))
            run.old (on_ok tree_of result) run.new }
    {
        let [line, rest @ ..] = args else {
            return unfit(&run.machine);
        };
        let Value::Text(line) = line else {
            return unfit(&run.machine);
        };
        let context = Value::Arr(context_of(self.by.alloc, b"header")?);
        let what = Outgoing::Header(flag_in(rest));
        let line = line.clone()?;
        Writer { by: self.by }.leave(run, &what, &context, line)?;
        Ok(Value::Null)
    }

    // A mail leaves.
    fn leave_mail(
        &self,
        run: &mut Run<F, T>,
        to: &LText,
        subject: &LText,
        message: &LText,
    ) -> Result<Value, Stop>
        requires { Nests F.Files T.Tables N.pre N.post self.now.by.now }
        ensures { Performs F.Files T.Tables
            (form.channel_work (means self.now.by.now) Mail (text_tree to.now ∷ text_tree subject.now ∷ text_tree message.now ∷ []))
            run.old (on_ok tree_of result) run.new }
    {
        if !are_one_line(to, subject) {
            return run.machine.throw(PreludeClass::ValueError, b"");
        }
        let context = mail_context(self.by.alloc, to)?;
        let what = Outgoing::Mail(to.clone()?, subject.clone()?);
        let text = message.clone()?;
        Writer { by: self.by }.leave(run, &what, &context, text)?;
        Ok(Value::Bool(true))
    }

    // A mail of three texts leaves.
    fn mail_of(
        &self,
        run: &mut Run<F, T>,
        to: &Value,
        subject: &Value,
        message: &Value,
    ) -> Result<Value, Stop>
        requires { Nests F.Files T.Tables N.pre N.post self.now.by.now }
        ensures { Performs F.Files T.Tables
            (form.channel_work (means self.now.by.now) Mail (tree_of to.now ∷ tree_of subject.now ∷ tree_of message.now ∷ []))
            run.old (on_ok tree_of result) run.new }
    {
        match to {
            Value::Text(to) => match subject {
                Value::Text(subject) => match message {
                    Value::Text(message) => self.leave_mail(run, to, subject, message),
                    _ => unfit(&run.machine),
                },
                _ => unfit(&run.machine),
            },
            _ => unfit(&run.machine),
        }
    }

    // A mail leaves: to whom, the subject and the message are the arguments.
    fn mail_work(&self, run: &mut Run<F, T>, args: &[Value]) -> Result<Value, Stop>
        requires { Nests F.Files T.Tables N.pre N.post self.now.by.now }
        ensures { Performs F.Files T.Tables (form.channel_work (means self.now.by.now) Mail (trees_of args.now))
            run.old (on_ok tree_of result) run.new }
    {
        match args {
            [to, subject, message, ..] => self.mail_of(run, to, subject, message),
            _ => unfit(&run.machine),
        }
    }

    // A buffer that closed goes into the next one, or leaves where there is none.
    fn flushed(&self, run: &mut Run<F, T>, closed: Option<LText>) -> Result<Value, Stop>
        requires { Nests F.Files T.Tables N.pre N.post self.now.by.now }
        ensures { Performs F.Files T.Tables (flushed (means self.now.by.now) closed) run.old (on_ok tree_of result) run.new }
    {
        match closed {
            Some(text) => {
                Writer { by: self.by }.write_page(run, text)?;
                Ok(Value::Bool(true))
            }
            None => Ok(Value::Bool(false)),
        }
    }

    // A file is written: its path, the data and perhaps the flags are the arguments.
    fn put_work(&self, run: &mut Run<F, T>, args: &[Value]) -> Result<Value, Stop>
        requires { Nests F.Files T.Tables N.pre N.post self.now.by.now }
        ensures { Performs F.Files T.Tables (form.channel_work (means self.now.by.now) FilePutContents (trees_of args.now))
            run.old (on_ok tree_of result) run.new }
    {
        let [path, data, rest @ ..] = args else {
            return unfit(&run.machine);
        };
        let Value::Text(path) = path else {
            return unfit(&run.machine);
        };
        let Value::Text(data) = data else {
            return unfit(&run.machine);
        };
        Shelf { by: self.by }.put_contents(run, path.bytes(), data, flags_in(rest))
    }

    // A file is read: its path is the first argument.
    fn get_work(&self, run: &mut Run<F, T>, args: &[Value]) -> Result<Value, Stop>
        requires { Nests F.Files T.Tables N.pre N.post self.now.by.now }
        ensures { Performs F.Files T.Tables (form.channel_work (means self.now.by.now) FileGetContents (trees_of args.now))
            run.old (on_ok tree_of result) run.new }
    {
        let [path, ..] = args else {
            return unfit(&run.machine);
        };
        let Value::Text(path) = path else {
            return unfit(&run.machine);
        };
        Shelf { by: self.by }.get_contents(run, path.bytes())
    }

    // A file is taken out: its path is the first argument.
    fn unlink_work(&self, run: &mut Run<F, T>, args: &[Value]) -> Result<Value, Stop>
        ensures { Performs F.Files T.Tables (form.channel_work (means self.now.by.now) Unlink (trees_of args.now))
            run.old (on_ok tree_of result) run.new }
    {
        let [path, ..] = args else {
            return unfit(&run.machine);
        };
        let Value::Text(path) = path else {
            return unfit(&run.machine);
        };
        unlink(run, path.bytes())
    }

    // A file is looked for: its path is the first argument.
    fn exists_work(&self, run: &mut Run<F, T>, args: &[Value]) -> Result<Value, Stop>
        ensures { Performs F.Files T.Tables (form.channel_work (means self.now.by.now) FileExists (trees_of args.now))
            run.old (on_ok tree_of result) run.new }
    {
        let [path, ..] = args else {
            return unfit(&run.machine);
        };
        let Value::Text(path) = path else {
            return unfit(&run.machine);
        };
        exists(run, path.bytes())
    }

    // A statement over tables: its text is the first argument.
    fn query_work(&self, run: &mut Run<F, T>, args: &[Value]) -> Result<Value, Stop>
        requires { Nests F.Files T.Tables N.pre N.post self.now.by.now }
        ensures { Performs F.Files T.Tables (form.channel_work (means self.now.by.now) SqlQuery (trees_of args.now))
            run.old (on_ok tree_of result) run.new }
    {
        let [query, ..] = args else {
            return unfit(&run.machine);
        };
        let Value::Text(query) = query else {
            return unfit(&run.machine);
        };
        Querier { by: self.by }.sql_query(run, query)
    }

    // The work of a call.
    fn channel_work(
        &self,
        run: &mut Run<F, T>,
        f: ChannelFunction,
        args: &[Value],
    ) -> Result<Value, Stop>
        requires { Nests F.Files T.Tables N.pre N.post self.now.by.now }
        ensures { Performs F.Files T.Tables (form.channel_work (means self.now.by.now) f (trees_of args.now)) run.old (on_ok tree_of result) run.new }
    {
        match f {
            ChannelFunction::BufferStart => {
                run.machine.open_buffer()?;
                Ok(Value::Bool(true))
            }
            ChannelFunction::BufferGetClean => Ok(text_or_false(run.machine.close_buffer()?)),
            ChannelFunction::BufferEndClean => Ok(is_open(run.machine.close_buffer()?)),
            ChannelFunction::BufferEndFlush => {
                let closed = run.machine.close_buffer()?;
                self.flushed(run, closed)
            }
            ChannelFunction::Header => self.header_work(run, args),
            ChannelFunction::ResponseCode => self.status_work(run, args),
            ChannelFunction::Mail => self.mail_work(run, args),
            ChannelFunction::FilePutContents => self.put_work(run, args),
            ChannelFunction::FileGetContents => self.get_work(run, args),
            ChannelFunction::Unlink => self.unlink_work(run, args),
            ChannelFunction::FileExists => self.exists_work(run, args),
            ChannelFunction::SqlQuery => self.query_work(run, args),
        }
    }

    /// A call of a function of a channel.
    ///
    /// ChannelInCheck comes first, where a check, a merge or a filter that the runtime called makes the call, unless the function only looks.
    /// Then another count of arguments throws ArgumentCountError; the arguments are turned into their kinds from the left; the texts among
    /// them are charged; then comes the work; and the text that it gives is charged. ValueError is thrown for a status that may not be set,
    /// for a header line that sets no header, and for a mail whose address or subject has more than one line. What leaves asks its filters
    /// and its policies, which may throw. A file that is read or written stops as `Shelf` says, a statement over tables as `Querier` does.
    pub fn channel_function(
        &self,
        run: &mut Run<F, T>,
        f: ChannelFunction,
        args: &Values,
    ) -> Result<Value, Stop>
        requires { Nests F.Files T.Tables N.pre N.post self.now.by.now }
        ensures { Performs F.Files T.Tables (form.channel_function (means self.now.by.now) f (trees_of args.now)) run.old result run.new }
    {
        may_run(&run.machine, f)?;
        if !is_count(f, args.as_slice().len()) {
            return miscounted(&mut run.machine);
        }
        let kinds = channel_kinds(f);
        let turned = Builtins { by: self.by }.arguments_of(run, kinds, args.as_slice())?;
        charge_all(&mut run.machine, turned.as_slice())?;
        let answer = self.channel_work(run, f, turned.as_slice())?;
        given(&mut run.machine, answer)
    }
}

// What the checks of a mail are told.
fn mail_context(alloc: Global, to: &LText) -> Result<Value, AllocError>
    ensures { IfOk result (λ v. v ≡ mail_context to.now) }
{
    let context = context_of(alloc, b"email")?;
    let key = text_key(alloc, b"email")?;
    Ok(Value::Arr(with_text(context, &key, to.clone()?)?))
}

// Whether neither an address nor a subject has a byte that ends a line.
fn are_one_line(to: &LText, subject: &LText) -> bool
    ensures { result ≡ (is_one_line to.now && is_one_line subject.now) }
{
    is_one_line(to) && is_one_line(subject)
}

// The text of a buffer that closed, or false.
fn text_or_false(closed: Option<LText>) -> Value
    ensures { tree_of result ≡ text_or_false closed }
{
    match closed {
        Some(text) => Value::Text(text),
        None => Value::Bool(false),
    }
}

// Whether a buffer closed.
fn is_open(closed: Option<LText>) -> Value
    ensures { tree_of result ≡ is_open closed }
{
    match closed {
        Some(_) => Value::Bool(true),
        None => Value::Bool(false),
    }
}

// A check may make the call only where it looks.
fn may_run(m: &Machine, f: ChannelFunction) -> Result<(), Stop>
    ensures { Runs (if only_looks f then give tt else act awake) m.now result m.now }
{
    if only_looks(f) {
        return Ok(());
    }
    m.awake()
}

// Whether so many arguments may stand.
fn is_count(f: ChannelFunction, count: usize) -> bool
    ensures { result ≡ is_count f count }
{
    needed(f) <= count && count <= channel_kinds(f).len()
}
