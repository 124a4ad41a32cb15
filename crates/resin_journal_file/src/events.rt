//! Events as text.
ghost use Rattle.std.specs.Prelude.{◌≡◌, ◌++◌, ◌∷◌, [], codes, decimal, OnOk};
ghost use Rattle.std.specs.List.{join_with_byte, flat_map};
ghost use Rattle.resin_lstr.specs.Runs.{IsCoalesced};
ghost use Rattle.resin_journal.specs.Channels.{channel_name};
ghost use Rattle.resin_journal_file.specs.Files.{event_text, line, run_line, lengths};

use crate::lines::{push_field, push_number};
use resin_bytes::Bytes;
use resin_journal::{Channel, Event};
use resin_label::PSet;
use resin_lstr::{LText, Run};
use std::alloc::AllocError;

// Puts an event last.
pub(crate) fn push_event(text: &mut Bytes, event: &Event) -> Result<(), AllocError>
    ensures { OnOk result (text.new ≡ text.old ++ event_text event.now) }
{
    match event {
        Event::Passed { write, policy } => {
            text.push_slice(b"passed")?;
            push_number(text, *write)?;
            push_number(text, u64::from(*policy))?;
            text.push(b'\n')
        }
        Event::Sent {
            write,
            channel,
            text: sent,
        } => push_sent(text, *write, *channel, sent),
        Event::Denied {
            write,
            channel,
            policy,
            class,
            from,
            to,
            by,
        } => {
            push_object(text, b"denied", *write, *channel, *policy, class)?;
            push_number(text, *from)?;
            push_end(text, *to, by)
        }
        Event::FilterDenied {
            write,
            channel,
            filter,
            class,
            len,
            by,
        } => {
            push_object(text, b"filter", *write, *channel, *filter, class)?;
            push_end(text, *len, by)
        }
    }
}

// Puts a text that went out last: its line, the lines of its runs, its bytes, and a newline.
fn push_sent(text: &mut Bytes, write: u64, channel: Channel, sent: &LText) -> Result<(), AllocError>
    ensures { OnOk result (text.new ≡ text.old ++ event_text (Event.Sent write channel sent.now)) }
{
    let runs = sent.runs();
    push_heading(text, write, channel, sent.len(), runs.len())?;
    push_runs(text, runs)?;
    text.push_slice(sent.bytes())?;
    text.push(b'\n')
}

// Puts the line of a text that went out last, with its length and the number of its runs.
fn push_heading(
    text: &mut Bytes,
    write: u64,
    channel: Channel,
    len: usize,
    runs: usize,
) -> Result<(), AllocError>
    ensures { OnOk result (text.new ≡ text.old ++ line (codes "sent" ∷ decimal write ∷ channel_name channel ∷ decimal len ∷ decimal runs ∷ [])) }
{
    text.push_slice(b"sent")?;
    push_number(text, write)?;
    push_field(text, channel.name().as_bytes())?;
    push_number(text, len as u64)?;
    push_number(text, runs as u64)?;
    text.push(b'\n')
}

// Puts the lines of runs last.
fn push_runs(text: &mut Bytes, runs: &[Run]) -> Result<(), AllocError>
    requires { IsCoalesced 0 runs.now }
    ensures { OnOk result (text.new ≡ text.old ++ flat_map run_line (lengths 0 runs.now)) }
{
    let mut from = 0;
    for run in runs {
        push_run(text, run.end - from, &run.set)?;
        from = run.end;
    }
    Ok(())
}

// Puts the line of a run last.
fn push_run(text: &mut Bytes, len: u32, set: &PSet) -> Result<(), AllocError>
    ensures { OnOk result (text.new ≡ text.old ++ run_line (len, set.now)) }
{
    let mut buffer = itoa::Buffer::new();
    text.push_slice(buffer.format(len).as_bytes())?;
    for policy in set.as_slice() {
        push_number(text, u64::from(*policy))?;
    }
    text.push(b'\n')
}

// Puts what was denied last: the write, its channel, and the object that denied it.
fn push_object(
    text: &mut Bytes,
    verb: &[u8],
    write: u64,
    channel: Channel,
    number: u32,
    class: &Bytes,
) -> Result<(), AllocError>
    ensures { OnOk result (text.new
        ≡ text.old ++ join_with_byte 32 (verb.now ∷ decimal write ∷ channel_name channel ∷ decimal number ∷ class.now ∷ [])) }
{
    text.push_slice(verb)?;
    push_number(text, write)?;
    push_field(text, channel.name().as_bytes())?;
    push_number(text, u64::from(number))?;
    push_field(text, class.as_slice())
}

// Puts the last number of a denial and the class of the exception last, and ends the line.
fn push_end(text: &mut Bytes, number: u64, by: &Bytes) -> Result<(), AllocError>
    ensures { OnOk result (text.new ≡ text.old ++ (32 ∷ decimal number ++ (32 ∷ by.now ++ 10 ∷ []))) }
{
    push_number(text, number)?;
    push_field(text, by.as_slice())?;
    text.push(b'\n')
}
