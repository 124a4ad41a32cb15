//! Imports: another file runs in the variables of the running call.
ghost use Rattle.resin_eval_channels.specs.Under.eval_nested.Nested.{Nests, means};
ghost use Rattle.resin_eval_channels.specs.Under.eval_nested.Running.{Performs};
ghost use Rattle.resin_eval_channels.specs.Under.lstr.Texts.{bytes_of};
ghost use Rattle.resin_eval_channels.specs.Under.meaning_forms.Imports as imports;
ghost use Rattle.resin_eval_channels.specs.Under.meaning_forms.Runs.{Runs, on_ok};
ghost use Rattle.resin_eval_channels.specs.Under.store.Entries.{lift};
ghost use Rattle.std.specs.Option.{option_map};
ghost use Rattle.std.specs.Prelude.{◌≡◌, ◌&&◌};

use resin_eval_channels::under::base::{Entry, Files, Tables};
use resin_eval_channels::under::bytes::lawful_path;
use resin_eval_channels::under::eval_nested::nested::{Evaluator, Nested, Outcome};
use resin_eval_channels::under::eval_nested::run::Run;
use resin_eval_channels::under::eval_writes::reading::{Reader, path_context};
use resin_eval_channels::under::heap::PreludeClass;
use resin_eval_channels::under::journal::Channel;
use resin_eval_channels::under::label::PSet;
use resin_eval_channels::under::lstr::LText;
use resin_eval_channels::under::machine::{Machine, Stop};
use resin_eval_channels::under::meaning_forms::Course;
use resin_eval_channels::under::ops::to_text;
use resin_eval_channels::under::step_keeping::thawing::thaw_entry;
use resin_eval_channels::under::value::Value;
use resin_tree::Import;
use std::alloc::Global;

/// Imports, by an evaluator.
#[derive(Drop)]
pub struct Importer<'e, F, T, N> {
    pub by: &'e Evaluator<F, T, N>,
}

// Whether a file that was imported is passed over.
fn is_once(kind: Import) -> bool
    ensures { result ≡ imports.is_once kind }
{
    match kind {
        Import::IncludeOnce | Import::RequireOnce => true,
        Import::Include | Import::Require => false,
    }
}

// Whether a path is passed over, which was imported or not.
fn passes_over(kind: Import, was: bool) -> bool
    ensures { result ≡ (imports.is_once kind && was) }
{
    is_once(kind) && was
}

// Whether a file that is missing throws Error.
fn is_required(kind: Import) -> bool
    ensures { result ≡ imports.is_required kind }
{
    match kind {
        Import::Require | Import::RequireOnce => true,
        Import::Include | Import::IncludeOnce => false,
    }
}

// What an import is as a value: what the file returned, else 1.
fn value_of_course(course: Course) -> Value
    ensures { result ≡ imports.value_of_course course }
{
    match course {
        Course::Return(v) => v,
        Course::Next | Course::Break | Course::Continue => Value::Int(1, PSet::empty()),
    }
}

// What an import is of a file that isn't there.
fn missing(m: &mut Machine, kind: Import) -> Result<Value, Stop>
    ensures { Runs (imports.missing kind) m.old result m.new }
{
    if is_required(kind) {
        return m.throw(PreludeClass::Error, b"");
    }
    Ok(Value::Bool(false))
}

impl<
    F: Files,
    T: Tables,
    N: Fn(Global, u32, Nested<'_>, &mut Run<F, T>) -> Result<Outcome, Stop> + Copy,
> Importer<'_, F, T, N> {
    /// The text of an entry as source text: it is thawed, and passes the filters of source text; its labels mean nothing from there on.
    /// Then the path counts as imported.
    ///
    /// # Errors
    ///
    /// `TextTooLong` and `BadShadow` where the entry can't be thawed, and how a filter stops.
    pub fn code_of(&self, run: &mut Run<F, T>, path: &[u8], e: &Entry) -> Result<LText, Stop>
        requires { Nests F.Files T.Tables N.pre N.post self.now.by.now }
        ensures { Performs F.Files T.Tables (imports.code_of (means self.now.by.now) path.now (lift e.now)) run.old (on_ok bytes_of result) run.new }
    {
        let text = thaw_entry(self.by.alloc, &mut run.machine, e)?;
        let context = path_context(self.by.alloc, Channel::Code, path)?;
        let src = Reader { by: self.by }.read_through(run, Channel::Code, &context, text)?;
        run.machine.import(path)?;
        Ok(src)
    }

    // The file at a path runs, whose entry was read.
    fn run_entry(&self, run: &mut Run<F, T>, path: &[u8], e: &Entry) -> Result<Value, Stop>
        requires { Nests F.Files T.Tables N.pre N.post self.now.by.now }
        ensures { Performs F.Files T.Tables (imports.run_entry (means self.now.by.now) path.now (lift e.now)) run.old result run.new }
    {
        let src = self.code_of(run, path, e)?;
        let _len = src.len();
        let course = self.by.source(run, src.bytes())?;
        Ok(value_of_course(course))
    }

    // The same where there may be no such file.
    fn run_found(
        &self,
        run: &mut Run<F, T>,
        kind: Import,
        path: &[u8],
        found: &Option<Entry>,
    ) -> Result<Value, Stop>
        requires { Nests F.Files T.Tables N.pre N.post self.now.by.now }
        ensures { Performs F.Files T.Tables (imports.run_found (means self.now.by.now) kind path.now (option_map lift found.now))
            run.old result run.new }
    {
        match found {
            Some(e) => self.run_entry(run, path, e),
            None => missing(&mut run.machine, kind),
        }
    }

    // The file at a lawful path is imported, unless it was and the form asks for that.
    fn run_path(&self, run: &mut Run<F, T>, kind: Import, path: &[u8]) -> Result<Value, Stop>
        requires { Nests F.Files T.Tables N.pre N.post self.now.by.now }
        ensures { Performs F.Files T.Tables (imports.run_path (means self.now.by.now) kind path.now) run.old result run.new }
    {
        let was = run.machine.is_imported(path);
        if passes_over(kind, was) {
            return Ok(Value::Bool(true));
        }
        let found = run.read_file(path)?;
        self.run_found(run, kind, path, &found)
    }

    // The file of a name is imported.
    fn import_named(&self, run: &mut Run<F, T>, kind: Import, name: &LText) -> Result<Value, Stop>
        requires { Nests F.Files T.Tables N.pre N.post self.now.by.now }
        ensures { Performs F.Files T.Tables (imports.import_named (means self.now.by.now) kind name.now) run.old result run.new }
    {
        run.machine.charge_bytes(name.len() as u64)?;
        let path = name.bytes();
        if !lawful_path(path) {
            return run.machine.throw(PreludeClass::ValueError, b"");
        }
        self.run_path(run, kind, path)
    }

    /// Imports the file whose path is the text of a value. It is the value that the file returns, else 1. Where the path was imported, a
    /// `_once` form is true, and nothing is read; where there is no such file, `include` and `include_once` are false.
    ///
    /// # Errors
    ///
    /// `ChannelInCheck` in a check, a merge or a filter of the runtime; `BadOperand` where the value is no text; an exception of `ValueError`
    /// where no file may have the path, and of `Error` where `require` or `require_once` finds no file; `TextTooLong` and `BadShadow` where the
    /// entry can't be thawed; `Syntax` and `TooDeep` with the line in that file; and how a filter, a declaration or a statement of the file stops.
    pub fn import(&self, run: &mut Run<F, T>, kind: Import, v: &Value) -> Result<Value, Stop>
        requires { Nests F.Files T.Tables N.pre N.post self.now.by.now }
        ensures { Performs F.Files T.Tables (imports.import_value (means self.now.by.now) kind v.now) run.old result run.new }
    {
        run.machine.awake()?;
        let name = to_text(self.by.alloc, v);
        let name = run.machine.settle(name)?;
        self.import_named(run, kind, &name)
    }
}
