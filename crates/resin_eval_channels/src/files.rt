//! Functions on files once their arguments are evaluated: policies are kept beside the bytes, and come back with them.
ghost use Rattle.resin_eval_queries.specs.Under.meaning_forms.Files.{append_flag, behind_found, behind_held, contents_of, exists, flags_in};
ghost use Rattle.resin_eval_queries.specs.Under.meaning_forms.Files.{get_contents, is_flag, put_contents, put_data, to_hold, unlink};
ghost use Rattle.resin_eval_queries.specs.Under.meaning_forms.Reading as passing;
ghost use Rattle.resin_eval_queries.specs.Under.meaning_forms.Runs.{Runs, on_ok};
ghost use Rattle.resin_eval_queries.specs.Under.eval_nested.Nested.{Nests, means};
ghost use Rattle.resin_eval_queries.specs.Under.eval_nested.Running.{Performs};
ghost use Rattle.resin_eval_queries.specs.Under.journal.declared.channel.Channel.TheVariants.{File};
ghost use Rattle.resin_eval_queries.specs.Under.lstr.Texts.{bytes_of};
ghost use Rattle.resin_eval_queries.specs.Under.store.Entries.{lift};
ghost use Rattle.resin_eval_queries.specs.Under.value.Seen.{tree_of, trees_of};
ghost use Rattle.std.specs.Option.{option_map};
ghost use Rattle.std.specs.Ordering.{int_eq};
ghost use Rattle.resin_eval_channels.specs.Held.{IsHeld, marked, written};
ghost use Rattle.std.specs.Prelude.{IfOk, length, zip, ◌++◌, ◌≡◌};

use resin_eval_queries::under::base::{Entry, Files, Tables};
use resin_eval_queries::under::bytes::{Bytes, lawful_path};
use resin_eval_queries::under::eval_nested::nested::{Evaluator, Nested, Outcome};
use resin_eval_queries::under::eval_nested::run::Run;
use resin_eval_queries::under::eval_writes::reading::{Reader, path_context};
use resin_eval_queries::under::heap::PreludeClass;
use resin_eval_queries::under::journal::Channel;
use resin_eval_queries::under::lstr::{LONGEST, LText};
use resin_eval_queries::under::machine::{Machine, Stop};
use resin_eval_queries::under::scalar::ScriptFault;
use resin_eval_queries::under::shadow::{FrozenRuns, encode};
use resin_eval_queries::under::step_keeping::freezing::freeze_text;
use resin_eval_queries::under::step_keeping::thawing::thaw_entry;
use resin_eval_queries::under::step_parts::reads::number;
use resin_eval_queries::under::store::policies_of;
use resin_eval_queries::under::value::Value;
use std::alloc::{AllocError, Global};

/// FILE_APPEND
const APPEND: i64 = 8;

// Whether new bytes are to stand behind those that are held.
fn is_append(flags: i64) -> bool
    ensures { result ≡ int_eq flags append_flag }
{
    flags == APPEND
}

/// Whether a script may give these flags.
pub(crate) fn is_flag(flags: i64) -> bool
    ensures { result ≡ is_flag flags }
{
    flags == 0 || flags == APPEND
}

/// The flags among the arguments behind the data; none are 0.
pub(crate) fn flags_in(rest: &[Value]) -> i64
    ensures { result ≡ flags_in (trees_of rest.now) }
{
    match rest {
        [Value::Int(flags, _), ..] => *flags,
        _ => 0,
    }
}

// Bytes that are to be held, and the policies of each.
#[derive(Drop)]
struct Held {
    bytes: Bytes,
    marks: FrozenRuns,
}

impl Held {
    // How many bytes there are, which is how many have policies told.
    fn len(&self) -> usize
        ensures { result ≡ length self.now.bytes }
    {
        self.bytes.as_slice().len()
    }
}

// The bytes of an entry, and others behind them.
fn joined_bytes(alloc: Global, old: &[u8], new: &[u8]) -> Result<Bytes, AllocError>
    ensures { IfOk result (λ all. all ≡ old.now ++ new.now) }
{
    let mut all = Bytes::from_slice(alloc, old)?;
    all.push_slice(new)?;
    Ok(all)
}

// New bytes behind those of an entry. A text may not be longer than the longest, before or after.
fn behind_held(alloc: Global, m: &Machine, entry: &Entry, new: Held) -> Result<Held, Stop>
    requires { IsHeld new }
    ensures does { Runs (behind_held (marked new) (lift entry.now)) m.now (on_ok marked result) m.now }
    ensures held { IfOk result IsHeld }
{
    let len = entry.bytes.as_slice().len();
    if len > LONGEST {
        return Err(m.fault(ScriptFault::TextTooLong));
    }
    let Some(mut marks) = policies_of(alloc, entry)? else {
        return Err(m.fault(ScriptFault::BadShadow));
    };
    if len + new.len() > LONGEST {
        return Err(m.fault(ScriptFault::TextTooLong));
    }
    let bytes = joined_bytes(alloc, entry.bytes.as_slice(), new.bytes.as_slice())?;
    marks.append(&new.marks)?;
    Ok(Held { bytes, marks })
}

// What is to be held: the new bytes alone, or behind those that are held.
fn to_hold<F: Files, T: Tables>(
    alloc: Global,
    run: &mut Run<F, T>,
    path: &[u8],
    flags: i64,
    new: Held,
) -> Result<Held, Stop>
    requires { IsHeld new }
    ensures does { Performs F.Files T.Tables (to_hold path.now flags (marked new)) run.old (on_ok marked result) run.new }
    ensures held { IfOk result IsHeld }
{
    if !is_append(flags) {
        return Ok(new);
    }
    match run.read_file(path)? {
        Some(entry) => behind_held(alloc, &run.machine, &entry, new),
        None => Ok(new),
    }
}

// Bytes beside their policies, and what is to be held of them.
fn hold<F: Files, T: Tables>(
    alloc: Global,
    run: &mut Run<F, T>,
    path: &[u8],
    flags: i64,
    kept: &LText,
    marks: FrozenRuns,
) -> Result<Held, Stop>
    requires { length (bytes_of kept.now) ≡ length marks }
    ensures does { Performs F.Files T.Tables (to_hold path.now flags (zip (bytes_of kept.now) marks)) run.old (on_ok marked result) run.new }
    ensures held { IfOk result IsHeld }
{
    let bytes = Bytes::from_slice(alloc, kept.bytes())?;
    to_hold(alloc, run, path, flags, Held { bytes, marks })
}

// What is held is written, with its shadow text; how many bytes the filters gave.
fn write_held<F: Files, T: Tables>(
    alloc: Global,
    run: &mut Run<F, T>,
    path: &[u8],
    held: &Held,
    kept: &LText,
) -> Result<Value, Stop>
    requires { IsHeld held.now }
    ensures { Performs F.Files T.Tables (written path.now (marked held.now) (length kept.now)) run.old (on_ok tree_of result) run.new }
{
    prove!(held.marks.len() == held.len() as u64);
    let shadow = encode(alloc, &held.marks)?;
    run.write_file(path, held.bytes.as_slice(), shadow.as_slice())?;
    Ok(number(kept.len() as i64))
}

/// Functions on files, in an evaluation.
#[derive(Drop)]
pub struct Shelf<'e, F, T, N> {
    pub by: &'e Evaluator<F, T, N>,
}

impl<
    F: Files,
    T: Tables,
    N: Fn(Global, u32, Nested<'_>, &mut Run<F, T>) -> Result<Outcome, Stop> + Copy,
> Shelf<'_, F, T, N> {
    // What is held is thawed, and passes the filters; false where nothing is.
    fn contents_of(
        &self,
        run: &mut Run<F, T>,
        path: &[u8],
        found: Option<Entry>,
    ) -> Result<Value, Stop>
        requires { Nests F.Files T.Tables N.pre N.post self.now.by.now }
        ensures { Performs F.Files T.Tables (contents_of (means self.now.by.now) path.now (option_map lift found))
            run.old (on_ok tree_of result) run.new }
    {
        let Some(entry) = found else {
            return Ok(Value::Bool(false));
        };
        let text = thaw_entry(self.by.alloc, &mut run.machine, &entry)?;
        let context = path_context(self.by.alloc, Channel::File, path)?;
        let read = Reader { by: self.by }.read_through(run, Channel::File, &context, text)?;
        Ok(Value::Text(read))
    }

    /// `file_get_contents`: the bytes of a file with their policies, false where there is none.
    ///
    /// # Errors
    ///
    /// ValueError for a path that no file may have; `TextTooLong`, `BadShadow`; how a filter stops; `Keeper` where the read failed.
    pub fn get_contents(&self, run: &mut Run<F, T>, path: &[u8]) -> Result<Value, Stop>
        requires { Nests F.Files T.Tables N.pre N.post self.now.by.now }
        ensures { Performs F.Files T.Tables (get_contents (means self.now.by.now) path.now) run.old (on_ok tree_of result) run.new }
    {
        if !lawful_path(path) {
            return run.machine.throw(PreludeClass::ValueError, b"");
        }
        let found = run.read_file(path)?;
        self.contents_of(run, path, found)
    }

    // The data as the filters give it.
    fn passed(&self, run: &mut Run<F, T>, path: &[u8], text: &LText) -> Result<LText, Stop>
        requires { Nests F.Files T.Tables N.pre N.post self.now.by.now }
        ensures { Performs F.Files T.Tables (passing.keep_through (means self.now.by.now) File (passing.path_context File path.now) text.now)
            run.old result run.new }
    {
        let context = path_context(self.by.alloc, Channel::File, path)?;
        let given = text.clone()?;
        Reader { by: self.by }.keep_through(run, Channel::File, &context, given)
    }

    // The data passes the filters, its policies are frozen, and it is written.
    fn put_data(
        &self,
        run: &mut Run<F, T>,
        path: &[u8],
        text: &LText,
        flags: i64,
    ) -> Result<Value, Stop>
        requires { Nests F.Files T.Tables N.pre N.post self.now.by.now }
        ensures { Performs F.Files T.Tables (put_data (means self.now.by.now) path.now text.now flags) run.old (on_ok tree_of result) run.new }
    {
        let kept = self.passed(run, path, text)?;
        let marks = freeze_text(self.by.alloc, &run.machine, &kept)?;
        let held = hold(self.by.alloc, run, path, flags, &kept, marks)?;
        write_held(self.by.alloc, run, path, &held, &kept)
    }

    /// `file_put_contents`: sets the bytes of a file, or with FILE_APPEND puts them behind those that it has; how many bytes were given.
    ///
    /// # Errors
    ///
    /// ValueError for a path that no file may have, and for other flags than 0 and FILE_APPEND; how a filter stops; `NotStorable` for a
    /// policy that can't be kept; `TextTooLong` and `BadShadow` of what is held; `Keeper` where a keeper call failed.
    pub fn put_contents(
        &self,
        run: &mut Run<F, T>,
        path: &[u8],
        text: &LText,
        flags: i64,
    ) -> Result<Value, Stop>
        requires { Nests F.Files T.Tables N.pre N.post self.now.by.now }
        ensures { Performs F.Files T.Tables (put_contents (means self.now.by.now) path.now text.now flags) run.old (on_ok tree_of result) run.new }
    {
        if !lawful_path(path) {
            return run.machine.throw(PreludeClass::ValueError, b"");
        }
        if !is_flag(flags) {
            return run.machine.throw(PreludeClass::ValueError, b"");
        }
        self.put_data(run, path, text, flags)
    }
}

/// `unlink`: takes a file out, and says whether there was one.
///
/// # Errors
///
/// ValueError for a path that no file may have; `Keeper` where the call failed.
pub fn unlink<F: Files, T: Tables>(run: &mut Run<F, T>, path: &[u8]) -> Result<Value, Stop>
    ensures { Performs F.Files T.Tables (unlink path.now) run.old (on_ok tree_of result) run.new }
{
    if !lawful_path(path) {
        return run.machine.throw(PreludeClass::ValueError, b"");
    }
    let was = run.remove_file(path)?;
    Ok(Value::Bool(was))
}

/// `file_exists`: whether there is a file.
///
/// # Errors
///
/// As `unlink`.
pub fn exists<F: Files, T: Tables>(run: &mut Run<F, T>, path: &[u8]) -> Result<Value, Stop>
    ensures { Performs F.Files T.Tables (exists path.now) run.old (on_ok tree_of result) run.new }
{
    if !lawful_path(path) {
        return run.machine.throw(PreludeClass::ValueError, b"");
    }
    let is = run.file_exists(path)?;
    Ok(Value::Bool(is))
}
