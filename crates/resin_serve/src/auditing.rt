//! The audit of what a source holds.
ghost use Rattle.std.specs.Prelude.{◌≡◌, ◌≢◌, ◌≤◌, ℕ, List, Some, length, IfOk};
ghost use Rattle.resin_serve.specs.Gives.{Caused, counts};
ghost use Rattle.resin_serve.specs.Whole_run.{ReadCause, given_of_status};
ghost use Rattle.resin_serve.specs.Audits.{verdict_line, verdict_status, Audits, EndsAudit, OnSilent};
ghost use Rattle.resin_trace.specs.Records.{limit};
ghost use Rattle.resin_serve.specs.Wholes.{ReadsWhole, HasReadCause};
ghost use Rattle.resin_serve.specs.declared.status.Status.TheVariants.{ReadFault};

use crate::give::{Given, give_all};
use crate::output::push_count;
use crate::status::Status;
use resin_audit::{Verdict, audit};
use resin_site::under::base::{Bytes, Sink, Source};
use std::alloc::{AllocError, Global};

/// The length of the longest text that is audited, in bytes: that of the longest trace.
const MOST: usize = 67_108_864;

/// Why a source wasn't read whole.
#[derive(Clone, Copy, Debug, PartialEq, Eq)]
pub(crate) enum Unread {
    /// It could not be read on.
    Fault,
    /// It holds more than 67,108,864 bytes.
    TooLong,
    /// There was no memory.
    Memory,
}

impl From<AllocError> for Unread {
    ghost use Rattle.std.specs.Prelude.{◌≡◌};
    ghost use Rattle.resin_serve.specs.declared.auditing.Unread.TheVariants.{Memory};

    ghost from_gives = { λ _ unread. unread ≡ Memory };

    fn from(_: AllocError) -> Unread {
        Unread::Memory
    }
}

/// Audits what a source holds: reads it whole, and gives the line of its verdict to the output.
pub(crate) fn audit_source<S: Source, O: Sink>(alloc: Global, source: &mut S, out: &mut O) -> Status
    ensures audits { (all : List ℕ) → S.left source.old ≡ Some all → Audits result all (O.written out.old) (O.written out.new) }
    ensures ends { EndsAudit result }
    ensures silent { OnSilent result (out.new ≡ out.old) }
    ensures cause { Caused (given_of_status result) (counts (O.faults out.old) (O.stalls out.old)) (counts (O.faults out.new) (O.stalls out.new)) }
    ensures read { ReadCause result (S.faults source.old) (S.faults source.new) }
{
    match read_whole(alloc, source) {
        Ok(text) => audit_text(alloc, text.as_slice(), out),
        Err(Unread::Fault) => Status::ReadFault,
        Err(Unread::TooLong) => Status::TraceTooLong,
        Err(Unread::Memory) => Status::Memory,
    }
}

// Reads a source to its end.
fn read_whole<S: Source>(alloc: Global, source: &mut S) -> Result<Bytes, Unread>
    ensures whole { (all : List ℕ) → S.left source.old ≡ Some all → ReadsWhole result all }
    ensures read { HasReadCause result (S.faults source.old) (S.faults source.new) }
{
    let mut text = Bytes::new(alloc);
    let mut buffer = [0u8; 65536];
    'reads: loop {
        let count = match source.take(&mut buffer) {
            Ok(count) => count,
            Err(_) => return Err(Unread::Fault),
        };
        if count == 0 {
            return Ok(text);
        }
        if count > MOST - text.as_slice().len() {
            return Err(Unread::TooLong);
        }
        let Ok(()) = text.push_slice(&buffer[..count]) else {
            return Err(Unread::Memory);
        };
    }
}

// Audits a text, and gives the line of its verdict.
fn audit_text<O: Sink>(alloc: Global, text: &[u8], out: &mut O) -> Status
    ensures audits { length text.now ≤ limit → Audits result text.now (O.written out.old) (O.written out.new) }
    ensures ends { EndsAudit result }
    ensures silent { OnSilent result (out.new ≡ out.old) }
    ensures reads { result ≢ ReadFault }
    ensures cause { Caused (given_of_status result) (counts (O.faults out.old) (O.stalls out.old)) (counts (O.faults out.new) (O.stalls out.new)) }
{
    let Ok(verdict) = audit(alloc, text) else {
        return Status::Memory;
    };
    let Ok(line) = verdict_line(alloc, verdict) else {
        return Status::Memory;
    };
    match give_all(out, line.as_slice()) {
        Given::Whole => status_of(verdict),
        Given::Fault => Status::WriteFault,
        Given::Memory => Status::Memory,
    }
}

// The status of a verdict whose line was given.
fn status_of(verdict: Verdict) -> Status
    ensures { result ≡ verdict_status verdict }
{
    match verdict {
        Verdict::Yes { .. } => Status::Ok,
        Verdict::Form { .. } | Verdict::Law { .. } => Status::AuditRefused,
    }
}

// The line of a verdict.
fn verdict_line(alloc: Global, verdict: Verdict) -> Result<Bytes, AllocError>
    ensures { IfOk result (λ text. text ≡ verdict_line verdict) }
{
    let mut text = Bytes::new(alloc);
    match verdict {
        Verdict::Yes { requests, events } => {
            push_count(&mut text, b"audit ok: requests=", requests)?;
            push_count(&mut text, b" events=", events)?;
        }
        Verdict::Form { offset } => push_count(&mut text, b"audit refused: offset=", offset)?,
        Verdict::Law { request, event } => {
            push_count(&mut text, b"audit refused: request=", request)?;
            push_count(&mut text, b" event=", event)?;
        }
    }
    text.push_slice(b"\n")?;
    Ok(text)
}
