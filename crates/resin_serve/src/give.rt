//! Gives bytes to the sinks.
ghost use Rattle.std.specs.Prelude.{◌≡◌, ℕ, Option};
ghost use Rattle.resin_site.specs.Keeping.{Answers, Store};
ghost use Rattle.resin_serve.specs.Ran.{world};
ghost use Rattle.resin_serve.specs.Gives.{Gave, GaveAll, Caused, CausedIn, counts, three};
ghost use Rattle.resin_serve.specs.Outside.{sinks_of};

use resin_site::under::base::{KeepFault, Sink};

/// How far serving came.
#[derive(Clone, Copy, Debug, PartialEq, Eq)]
pub enum Given {
    /// To its end.
    Whole,
    /// A sink failed, or took nothing.
    Fault,
    /// There was no memory.
    Memory,
}

/// Gives a whole text to a sink, which is lent all that is left of it each time.
pub(crate) fn give_all<S: Sink>(sink: &mut S, text: &[u8]) -> Given
    ensures gave { Gave result text.now (S.written sink.old) (S.written sink.new) }
    ensures cause { Caused result (counts (S.faults sink.old) (S.stalls sink.old)) (counts (S.faults sink.new) (S.stalls sink.new)) }
{
    let mut place = 0;
    while place < text.len() {
        match sink.give(&text[place..]) {
            Ok(0) => return Given::Fault,
            Ok(count) => place += count,
            Err(KeepFault::Failed) => return Given::Fault,
            Err(KeepFault::Memory) => return Given::Memory,
        }
    }
    Given::Whole
}

/// Gives a text to the log, then one to the mail, then one to the output.
pub(crate) fn give_three<L: Sink, M: Sink, O: Sink>(
    log: &mut L,
    mail: &mut M,
    out: &mut O,
    lines: &[u8],
    mails: &[u8],
    record: &[u8],
) -> Given
    ensures gave { (store store' : Option Store) (told told' : Answers) (made made' : ℕ)
        → GaveAll result (three lines.now mails.now record.now) (world (L.written log.old) (M.written mail.old) (O.written out.old) store told made)
        (world (L.written log.new) (M.written mail.new) (O.written out.new) store' told' made') }
    ensures cause { CausedIn result (sinks_of L.Sink M.Sink O.Sink log.old mail.old out.old)
        (sinks_of L.Sink M.Sink O.Sink log.new mail.new out.new) }
{
    match give_all(log, lines) {
        Given::Whole => match give_all(mail, mails) {
            Given::Whole => give_all(out, record),
            stop => stop,
        },
        stop => stop,
    }
}
