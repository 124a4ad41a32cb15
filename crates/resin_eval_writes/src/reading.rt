//! What is kept and what is read passes the filters of its channel. Nothing leaves there.
ghost use Rattle.resin_eval_nested.specs.Under.meaning_forms.Forms as form;
ghost use Rattle.resin_eval_nested.specs.Under.meaning_forms.Reading.{pass_filters};
ghost use Rattle.resin_eval_nested.specs.Under.meaning_forms.Runs.{Runs};
ghost use Rattle.resin_eval_nested.specs.Nested.{Nests, means};
ghost use Rattle.resin_eval_nested.specs.Running.{Performs};
ghost use Rattle.resin_eval_nested.specs.Under.journal.Channels.{is_leaving};
ghost use Rattle.resin_eval_nested.specs.Under.meaning.LeavingWrites.{ask_filters, filtered};
ghost use Rattle.std.specs.Prelude.{IfOk, false, ◌≡◌};

use crate::leaving::{context_of, text_key, with_text};
use resin_eval_nested::nested::{Evaluator, Nested, Outcome};
use resin_eval_nested::run::Run;
use resin_eval_nested::under::base::{Files, Tables};
use resin_eval_nested::under::journal::Channel;
use resin_eval_nested::under::lstr::LText;
use resin_eval_nested::under::machine::{Machine, Stop};
use resin_eval_nested::under::scalar::ScriptFault;
use resin_eval_nested::under::step_parts::reads::plain;
use resin_eval_nested::under::step_parts::statements::catch;
use resin_eval_nested::under::value::{Value, Values};
use std::alloc::{AllocError, Global};

/// What the filters of files and of source texts are told: the channel, and the path as the script named it.
pub fn path_context(alloc: Global, channel: Channel, path: &[u8]) -> Result<Value, AllocError>
    ensures { IfOk result (λ v. v ≡ form.path_context channel path.now) }
{
    let context = context_of(alloc, channel.name().as_bytes())?;
    let key = text_key(alloc, b"file")?;
    Ok(Value::Arr(with_text(context, &key, plain(alloc, path)?)?))
}

/// Filters of channels by which nothing leaves, in an evaluation.
#[derive(Drop)]
pub struct Reader<'e, F, T, N> {
    pub by: &'e Evaluator<F, T, N>,
}

impl<
    F: Files,
    T: Tables,
    N: Fn(Global, u32, Nested<'_>, &mut Run<F, T>) -> Result<Outcome, Stop> + Copy,
> Reader<'_, F, T, N> {
    // A filter is asked about a text, by the name of its method.
    fn ask_filter(
        &self,
        run: &mut Run<F, T>,
        method: &[u8],
        filter: u32,
        text: &LText,
        context: &Value,
    ) -> Result<LText, Stop>
        requires { Nests F.Files T.Tables N.pre N.post self.now.by.now }
        ensures { Performs F.Files T.Tables (form.filter_by (means self.now.by.now) method.now context.now filter text.now) run.old result run.new }
    {
        let mut args = Values::new(self.by.alloc);
        args.push(Value::Text(text.clone()?))?;
        args.push(context.clone()?)?;
        match self.by.call_object(run, filter, method, args)? {
            Value::Text(answer) => Ok(answer),
            _ => Err(run.machine.fault(ScriptFault::BadOperand)),
        }
    }

    // The filters of a chain are asked in turn, each about the answer of the one before.
    fn ask_filters(
        &self,
        run: &mut Run<F, T>,
        method: &[u8],
        channel: Channel,
        chain: &[u32],
        text: LText,
        context: &Value,
    ) -> Result<LText, Stop>
        requires nests { Nests F.Files T.Tables N.pre N.post self.now.by.now }
        requires outside { is_leaving channel ≡ false }
        ensures { Performs F.Files T.Tables (ask_filters (form.filter_by (means self.now.by.now) method.now context.now) 0 channel chain.now text)
            run.old result run.new }
    {
        let mut data = text;
        for f in chain {
            let was = run.machine.hush();
            let came = self.ask_filter(run, method, *f, &data, context);
            run.machine.restore(was);
            let end = catch(came)?;
            data = answered(&mut run.machine, channel, *f, data, end)?;
        }
        Ok(data)
    }

    // The filters of a channel are asked, as its chain stands now.
    fn pass(
        &self,
        run: &mut Run<F, T>,
        method: &[u8],
        channel: Channel,
        text: LText,
        context: &Value,
    ) -> Result<LText, Stop>
        requires nests { Nests F.Files T.Tables N.pre N.post self.now.by.now }
        requires outside { is_leaving channel ≡ false }
        ensures { Performs F.Files T.Tables (pass_filters (form.filter_by (means self.now.by.now) method.now context.now) channel text)
            run.old result run.new }
    {
        let chain = run.machine.chains().chain(channel).to_vec(self.by.alloc)?;
        self.ask_filters(run, method, channel, chain.as_slice(), text, context)
    }

    /// A text that is read on a channel passes its filters, by `filter_read`.
    ///
    /// # Errors
    ///
    /// `BadOperand` where a filter answers no text; the exception of a filter, which is listed as a denial; and how a filter stops.
    pub fn read_through(
        &self,
        run: &mut Run<F, T>,
        channel: Channel,
        context: &Value,
        text: LText,
    ) -> Result<LText, Stop>
        requires nests { Nests F.Files T.Tables N.pre N.post self.now.by.now }
        requires outside { is_leaving channel ≡ false }
        ensures { Performs F.Files T.Tables (form.read_through (means self.now.by.now) channel context.now text) run.old result run.new }
    {
        self.pass(run, b"filter_read", channel, text, context)
    }

    /// A text that a channel is to keep passes its filters, by `filter_write`.
    ///
    /// # Errors
    ///
    /// As `read_through`.
    pub fn keep_through(
        &self,
        run: &mut Run<F, T>,
        channel: Channel,
        context: &Value,
        text: LText,
    ) -> Result<LText, Stop>
        requires nests { Nests F.Files T.Tables N.pre N.post self.now.by.now }
        requires outside { is_leaving channel ≡ false }
        ensures { Performs F.Files T.Tables (form.keep_through (means self.now.by.now) channel context.now text) run.old result run.new }
    {
        self.pass(run, b"filter_write", channel, text, context)
    }
}

// What a filter's end means: its answer is the text from then on, or its exception is noted and goes on.
fn answered(
    m: &mut Machine,
    channel: Channel,
    filter: u32,
    text: LText,
    end: Result<LText, u32>,
) -> Result<LText, Stop>
    requires outside { is_leaving channel ≡ false }
    ensures { Runs (filtered 0 channel filter text end) m.old result m.new }
{
    match end {
        Ok(answer) => Ok(answer),
        Err(thrown) => {
            m.deny_filter_outside(channel, filter, text.len() as u64, thrown)?;
            Err(Stop::Thrown(thrown))
        }
    }
}
