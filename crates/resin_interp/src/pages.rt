//! What a request does with texts while no evaluation is open: they pass the filters of their channel, leave, or come out of output buffers.
ghost use Rattle.std.specs.Prelude.{◌≡◌, [], IfOk, false};
ghost use Rattle.resin_eval_calls.specs.Under.eval_nested.Running.{Performs};
ghost use Rattle.resin_eval_calls.specs.Under.journal.Channels.{is_leaving};
ghost use Rattle.resin_eval_calls.specs.Under.lstr.Faults.{GivesText};
ghost use Rattle.resin_eval_calls.specs.Under.lstr.Texts.{bytes_of};
ghost use Rattle.resin_eval_calls.specs.Under.meaning_forms.Imports as imports;
ghost use Rattle.resin_eval_calls.specs.Under.meaning_forms.Operators.{too_long};
ghost use Rattle.resin_eval_calls.specs.Under.meaning_forms.Programs.{evals, most_open};
ghost use Rattle.resin_eval_calls.specs.Under.meaning_forms.Runs.{Runs, on_ok};
ghost use Rattle.resin_eval_calls.specs.Under.store.Entries.{lift};
ghost use Rattle.resin_eval_calls.specs.Under.target.Reads.{GivesOrNoMemory};
ghost use Rattle.resin_interp.specs.Pages as pages;

use crate::run::evaluation;
use crate::top::MOST_OPEN;
use resin_eval_calls::imports::Importer;
use resin_eval_calls::under::base::{Entry, Files, Tables};
use resin_eval_calls::under::eval_nested::nested::Evaluator;
use resin_eval_calls::under::eval_nested::run::Run;
use resin_eval_calls::under::eval_writes::leaving::context_of;
use resin_eval_calls::under::eval_writes::reading::{Reader, path_context};
use resin_eval_calls::under::eval_writes::writes::Writer;
use resin_eval_calls::under::journal::Channel;
use resin_eval_calls::under::lstr::{Builder, LText, TextFault, Texts};
use resin_eval_calls::under::machine::{Machine, Stop};
use resin_eval_calls::under::meaning_forms::Outgoing;
use resin_eval_calls::under::scalar::CallStop;
use resin_eval_calls::under::step_parts::reads::text_stop;
use resin_eval_calls::under::value::Value;
use std::alloc::{AllocError, Global};
use std::marker::PhantomData;

/// A text leaves as one write on `http`, open buffers or not: the filters of the channel are asked, then its policies, and then it goes
/// out. It stops as `perform` does.
pub fn write_page<F: Files, T: Tables>(
    alloc: Global,
    run: &mut Run<F, T>,
    text: &LText,
) -> Result<(), Stop>
    ensures { Performs F.Files T.Tables (pages.write_page text.now) run.old result run.new }
{
    let text = text.clone()?;
    let context = Value::Arr(context_of(alloc, b"http")?);
    let evaluator = Evaluator {
        alloc,
        room: MOST_OPEN,
        nested: evaluation::<F, T>,
        of: PhantomData,
    };
    Writer { by: &evaluator }.leave(run, &Outgoing::Page, &context, text)
}

/// A text that was read at a path passes the filters of a channel by which nothing leaves. It stops as `perform` does.
pub fn filter_read<F: Files, T: Tables>(
    alloc: Global,
    run: &mut Run<F, T>,
    channel: Channel,
    path: &[u8],
    text: &LText,
) -> Result<LText, Stop>
    requires { is_leaving channel ≡ false }
    ensures { Performs F.Files T.Tables (pages.filter_read channel path.now text.now) run.old result run.new }
{
    let text = text.clone()?;
    let context = path_context(alloc, channel, path)?;
    let evaluator = Evaluator {
        alloc,
        room: MOST_OPEN,
        nested: evaluation::<F, T>,
        of: PhantomData,
    };
    Reader { by: &evaluator }.read_through(run, channel, &context, text)
}

// The path of a source text counts as imported.
fn note_read(m: &mut Machine, channel: Channel, path: &[u8]) -> Result<(), Stop>
    ensures { Runs (pages.note_read channel path.now) m.old result m.new }
{
    match channel {
        Channel::Code => m.import(path),
        _ => Ok(()),
    }
}

/// The same; the path of a source text counts as imported then.
pub fn read_through<F: Files, T: Tables>(
    alloc: Global,
    run: &mut Run<F, T>,
    channel: Channel,
    path: &[u8],
    text: &LText,
) -> Result<LText, Stop>
    requires { is_leaving channel ≡ false }
    ensures { Performs F.Files T.Tables (pages.read_named channel path.now text.now) run.old result run.new }
{
    let read = filter_read(alloc, run, channel, path, text)?;
    note_read(&mut run.machine, channel, path)?;
    Ok(read)
}

/// The text of an entry as source text, as an import has it. It stops as `perform` does.
pub fn code_of<F: Files, T: Tables>(
    alloc: Global,
    run: &mut Run<F, T>,
    path: &[u8],
    e: &Entry,
) -> Result<LText, Stop>
    ensures { Performs F.Files T.Tables (imports.code_of (evals most_open) path.now (lift e.now)) run.old (on_ok bytes_of result) run.new }
{
    let evaluator = Evaluator {
        alloc,
        room: MOST_OPEN,
        nested: evaluation::<F, T>,
        of: PhantomData,
    };
    Importer { by: &evaluator }.code_of(run, path, e)
}

// Puts the text of a buffer behind others, where there was a buffer.
fn with_closed(mut texts: Texts, text: Option<LText>) -> Result<Texts, AllocError>
    ensures { IfOk result (λ all. all ≡ pages.with_closed texts text) }
{
    match text {
        Some(text) => {
            texts.push(text)?;
            Ok(texts)
        }
        None => Ok(texts),
    }
}

// Closes so many buffers; their texts, the innermost first.
fn close_all(alloc: Global, m: &mut Machine, count: usize) -> Result<Texts, Stop>
    ensures { Runs (pages.close_more count []) m.old result m.new }
{
    let mut texts = Texts::new(alloc);
    for _ in 0..count {
        let text = m.close_buffer()?;
        texts = with_closed(texts, text)?;
    }
    Ok(texts)
}

// Texts, of which the innermost buffer's comes first, joined from the outermost to the innermost.
fn joined(alloc: Global, texts: &[LText]) -> Result<LText, TextFault>
    ensures { GivesText result (pages.joined_outwards texts.now) }
{
    let mut all = Builder::new(alloc);
    for i in 0..texts.len() {
        all = all.append(&texts[texts.len() - 1 - i])?;
    }
    Ok(all.finish()?)
}

// The same as the end of a call.
fn joined_or_stop(alloc: Global, texts: &[LText]) -> Result<LText, CallStop>
    ensures { GivesOrNoMemory result (too_long (pages.joined_outwards texts.now)) }
{
    match joined(alloc, texts) {
        Ok(text) => Ok(text),
        Err(fault) => Err(text_stop(fault)),
    }
}

// The texts of closed buffers leave as one write.
fn leave_joined<F: Files, T: Tables>(
    alloc: Global,
    run: &mut Run<F, T>,
    texts: &Texts,
) -> Result<(), Stop>
    ensures { Performs F.Files T.Tables (pages.leave_joined texts.now) run.old result run.new }
{
    let text = run.machine.settle(joined_or_stop(alloc, texts.as_slice()))?;
    write_page(alloc, run, &text)
}

/// The open output buffers are closed, and what they hold leaves as one write on `http`, where any is open.
///
/// # Errors
///
/// `TextTooLong` where all their texts together pass 16,777,216 bytes, and how the write stops.
pub fn end_buffers<F: Files, T: Tables>(alloc: Global, run: &mut Run<F, T>) -> Result<(), Stop>
    ensures { Performs F.Files T.Tables pages.end_buffers run.old result run.new }
{
    let count = run.machine.stage().open_buffers();
    if count == 0 {
        return Ok(());
    }
    let texts = close_all(alloc, &mut run.machine, count)?;
    leave_joined(alloc, run, &texts)
}
