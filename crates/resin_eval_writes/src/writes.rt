//! Writes that leave: their filters and their policies are asked, and then they go out.
ghost use Rattle.resin_eval_nested.specs.Under.meaning_forms.Forms as form;
ghost use Rattle.resin_eval_nested.specs.Under.meaning_forms.Runs.{Runs};
ghost use Rattle.resin_eval_nested.specs.Under.meaning_forms.Writes.{IsTold};
ghost use Rattle.resin_eval_nested.specs.Nested.{Nests, means};
ghost use Rattle.resin_eval_nested.specs.Running.{Performs};
ghost use Rattle.resin_eval_nested.specs.Under.journal.Channels.{is_leaving};
ghost use Rattle.resin_eval_nested.specs.Under.lstr.Texts.{policies_in_order};
ghost use Rattle.resin_eval_nested.specs.Under.machine.Leaving.{IsUnderWay};
ghost use Rattle.resin_eval_nested.specs.Under.meaning.LeavingWrites.{ask_filters, ask_policies, filtered};
ghost use Rattle.std.specs.Prelude.{IfOk, IsTrue, OnOk, [], ◌≡◌};

use crate::leaving::{chain_for, channel_of, context_of, judge, prepare, send};
use resin_eval_nested::nested::{Evaluator, Nested, Outcome};
use resin_eval_nested::run::Run;
use resin_eval_nested::under::base::{Files, Tables};
use resin_eval_nested::under::journal::Channel;
use resin_eval_nested::under::lstr::LText;
use resin_eval_nested::under::machine::{Machine, Stop};
use resin_eval_nested::under::meaning_forms::Outgoing;
use resin_eval_nested::under::ops::to_text;
use resin_eval_nested::under::scalar::ScriptFault;
use resin_eval_nested::under::step_parts::operators::charge_one;
use resin_eval_nested::under::step_parts::reads::plain;
use resin_eval_nested::under::step_parts::statements::catch;
use resin_eval_nested::under::value::{Value, Values};
use std::alloc::Global;

/// Writes that leave, by an evaluator.
#[derive(Drop)]
pub struct Writer<'e, F, T, N> {
    pub by: &'e Evaluator<F, T, N>,
}

impl<
    F: Files,
    T: Tables,
    N: Fn(Global, u32, Nested<'_>, &mut Run<F, T>) -> Result<Outcome, Stop> + Copy,
> Writer<'_, F, T, N> {
    // A policy is asked.
    fn ask_policy(&self, run: &mut Run<F, T>, policy: u32, context: &Value) -> Result<(), Stop>
        requires { Nests F.Files T.Tables N.pre N.post self.now.by.now }
        ensures { Performs F.Files T.Tables (form.check (means self.now.by.now) context.now policy) run.old result run.new }
    {
        let mut args = Values::new(self.by.alloc);
        args.push(context.clone()?)?;
        let _answer = self.by.call_object(run, policy, b"export_check", args)?;
        Ok(())
    }

    // Each policy of a text is asked, in order; none is asked behind one that throws.
    fn ask_each(
        &self,
        run: &mut Run<F, T>,
        write: u64,
        channel: Channel,
        text: &LText,
        policies: &[u32],
        context: &Value,
    ) -> Result<(), Stop>
        requires nests { Nests F.Files T.Tables N.pre N.post self.now.by.now }
        requires begun { IsUnderWay write [] run.old.machine }
        requires leaving { IsTrue (is_leaving channel) }
        requires order { policies.now ≡ policies_in_order text.now }
        ensures does { Performs F.Files T.Tables (ask_policies (form.check (means self.now.by.now) context.now) write channel text.now policies.now)
            run.old result run.new }
        ensures passed { OnOk result (IsUnderWay write policies.now run.new.machine) }
    {
        for p in policies {
            let was = run.machine.hush();
            let came = self.ask_policy(run, *p, context);
            run.machine.restore(was);
            let end = catch(came)?;
            judge(&mut run.machine, write, channel, text, *p, end)?;
        }
        Ok(())
    }

    // The policies of a text are asked.
    fn ask_policies(
        &self,
        run: &mut Run<F, T>,
        write: u64,
        channel: Channel,
        text: &LText,
        context: &Value,
    ) -> Result<(), Stop>
        requires nests { Nests F.Files T.Tables N.pre N.post self.now.by.now }
        requires begun { IsUnderWay write [] run.old.machine }
        requires leaving { IsTrue (is_leaving channel) }
        ensures does { Performs F.Files T.Tables
            (ask_policies (form.check (means self.now.by.now) context.now) write channel text.now (policies_in_order text.now))
            run.old result run.new }
        ensures passed { OnOk result (IsUnderWay write (policies_in_order text.now) run.new.machine) }
    {
        let policies = text.policies_in_order(self.by.alloc)?;
        self.ask_each(run, write, channel, text, policies.as_slice(), context)
    }

    // A filter is asked about a text that leaves.
    fn ask_filter(
        &self,
        run: &mut Run<F, T>,
        filter: u32,
        text: &LText,
        context: &Value,
    ) -> Result<LText, Stop>
        requires { Nests F.Files T.Tables N.pre N.post self.now.by.now }
        ensures { Performs F.Files T.Tables (form.filter_write (means self.now.by.now) context.now filter text.now) run.old result run.new }
    {
        let mut args = Values::new(self.by.alloc);
        args.push(Value::Text(text.clone()?))?;
        args.push(context.clone()?)?;
        match self.by.call_object(run, filter, b"filter_write", args)? {
            Value::Text(answer) => Ok(answer),
            _ => Err(run.machine.fault(ScriptFault::BadOperand)),
        }
    }

    // The filters of a chain are asked in turn, each about the answer of the one before.
    fn ask_filters(
        &self,
        run: &mut Run<F, T>,
        write: u64,
        channel: Channel,
        chain: &[u32],
        text: LText,
        context: &Value,
    ) -> Result<LText, Stop>
        requires nests { Nests F.Files T.Tables N.pre N.post self.now.by.now }
        requires begun { IsUnderWay write [] run.old.machine }
        requires leaving { IsTrue (is_leaving channel) }
        ensures does { Performs F.Files T.Tables (ask_filters (form.filter_write (means self.now.by.now) context.now) write channel chain.now text)
            run.old result run.new }
        ensures begun { OnOk result (IsUnderWay write [] run.new.machine) }
        ensures unasked { IfOk result (λ answer. chain.now ≡ [] → answer ≡ text) }
    {
        let mut data = text;
        for f in chain {
            let was = run.machine.hush();
            let came = self.ask_filter(run, *f, &data, context);
            run.machine.restore(was);
            let end = catch(came)?;
            data = answered(&mut run.machine, write, channel, *f, data, end)?;
        }
        Ok(data)
    }

    /// A write that leaves: it draws its number, its filters are asked, its text is made ready, its policies are asked, and it goes out.
    pub fn leave(
        &self,
        run: &mut Run<F, T>,
        what: &Outgoing,
        context: &Value,
        text: LText,
    ) -> Result<(), Stop>
        requires nests { Nests F.Files T.Tables N.pre N.post self.now.by.now }
        requires told { IsTold what.now text }
        ensures { Performs F.Files T.Tables (form.leave (means self.now.by.now) what.now context.now text) run.old result run.new }
    {
        let channel = channel_of(what);
        let chain = chain_for(self.by.alloc, &run.machine, what)?;
        let write = run.machine.draw()?;
        let answer = self.ask_filters(run, write, channel, chain.as_slice(), text, context)?;
        let data = prepare(self.by.alloc, &mut run.machine, what, answer)?;
        self.ask_policies(run, write, channel, &data, context)?;
        send(self.by.alloc, &mut run.machine, what, write, data)
    }

    /// A text goes into the innermost buffer, where one is open; else it leaves.
    pub fn write_page(&self, run: &mut Run<F, T>, text: LText) -> Result<(), Stop>
        requires { Nests F.Files T.Tables N.pre N.post self.now.by.now }
        ensures { Performs F.Files T.Tables (form.write_page (means self.now.by.now) text) run.old result run.new }
    {
        if run.machine.stage().open_buffers() > 0 {
            return run.machine.buffer(&text);
        }
        let context = Value::Arr(context_of(self.by.alloc, b"http")?);
        self.leave(run, &Outgoing::Page, &context, text)
    }

    /// One operand of `echo`.
    pub fn echo(&self, run: &mut Run<F, T>, v: &Value) -> Result<(), Stop>
        requires { Nests F.Files T.Tables N.pre N.post self.now.by.now }
        ensures { Performs F.Files T.Tables (form.echo (means self.now.by.now) v.now) run.old result run.new }
    {
        run.machine.awake()?;
        charge_one(&mut run.machine, v)?;
        let text = run.machine.settle(to_text(self.by.alloc, v))?;
        self.write_page(run, text)
    }

    /// Text outside code.
    pub fn inline(&self, run: &mut Run<F, T>, bytes: &[u8]) -> Result<(), Stop>
        requires { Nests F.Files T.Tables N.pre N.post self.now.by.now }
        ensures { Performs F.Files T.Tables (form.inline (means self.now.by.now) bytes.now) run.old result run.new }
    {
        run.machine.awake()?;
        let text = plain(self.by.alloc, bytes)?;
        self.write_page(run, text)
    }
}

// What a filter's end means for the write under way: its answer is the text from then on, or its exception is noted and goes on.
fn answered(
    m: &mut Machine,
    write: u64,
    channel: Channel,
    filter: u32,
    text: LText,
    end: Result<LText, u32>,
) -> Result<LText, Stop>
    requires way { IsUnderWay write [] m.old }
    requires leaving { IsTrue (is_leaving channel) }
    ensures does { Runs (filtered write channel filter text end) m.old result m.new }
    ensures kept { OnOk result (m.new ≡ m.old) }
{
    match end {
        Ok(answer) => Ok(answer),
        Err(thrown) => {
            m.deny_filter(write, channel, filter, text.len() as u64, thrown)?;
            Err(Stop::Thrown(thrown))
        }
    }
}
