//! What the answers of a run put into the log.
ghost use Rattle.std.specs.Prelude.{◌≡◌, IfOk};
ghost use Rattle.resin_site.specs.Under.journal.Access.{TellsNames, ClassesAreNames};
ghost use Rattle.resin_site.specs.Under.label.Sets.{numbers};
ghost use Rattle.resin_audit.specs.Under.journal_file.Limits.{Each, IsNumber, IsObject, IsLabelled, CanBeTold};
ghost use Rattle.resin_serve.specs.Logs.{logged, CanTell};

use resin_audit::under::journal_file::journal_text;
use resin_site::log_text;
use resin_site::under::base::Bytes;
use resin_site::under::journal::{Event, Journal};
use resin_site::under::label::PSet;
use resin_site::under::lstr::LText;
use std::alloc::{AllocError, Global};

/// What the answers of a run put into the log.
#[derive(Clone, Copy, Debug, PartialEq, Eq)]
pub enum Logging {
    /// The lines of their denials.
    Denials,
    /// Their parts of the journal file.
    Journals,
}

/// What the answer of this number with this journal puts into the log.
pub(crate) fn logged(
    alloc: Global,
    logging: Logging,
    number: u64,
    journal: &Journal,
) -> Result<Bytes, AllocError>
    ensures text { IfOk result (λ text. text ≡ logged logging number journal.now) }
    ensures told { ClassesAreNames journal.now → CanTell logging number journal.now }
{
    match logging {
        Logging::Denials => log_text(alloc, number, journal),
        Logging::Journals => {
            read_events(journal.as_slice());
            journal_text(alloc, number, journal)
        }
    }
}

// Reads each number of events, so that each is known to fit its type: a journal file can tell them.
fn read_events(events: &[Event])
    ensures { ClassesAreNames events.now → Each CanBeTold events.now }
{
    for event in events {
        read_event(event);
    }
}

// Reads the numbers of an event.
fn read_event(event: &Event)
    ensures { TellsNames event.now → CanBeTold event.now }
{
    match event {
        Event::Passed { write, policy } => {
            let _write = *write;
            let _policy = *policy;
        }
        Event::Sent { write, text, .. } => {
            let _write = *write;
            read_text(text);
        }
        Event::Denied {
            write,
            policy,
            from,
            to,
            ..
        } => {
            let _write = *write;
            let _policy = *policy;
            let _from = *from;
            let _to = *to;
        }
        Event::FilterDenied {
            write,
            filter,
            len,
            ..
        } => {
            let _write = *write;
            let _filter = *filter;
            let _len = *len;
        }
    }
}

// Reads the policies that the bytes of a text carry.
fn read_text(text: &LText)
    ensures { IsLabelled text.now }
{
    for run in text.runs() {
        read_set(&run.set);
    }
}

// Reads the members of a set.
fn read_set(set: &PSet)
    ensures { Each IsObject (numbers set.now) }
{
    for number in set.as_slice() {
        let _number = *number;
    }
}
