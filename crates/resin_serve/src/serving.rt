//! Serves a whole trace.
ghost use Rattle.std.specs.Prelude.{◌≡◌, [], ℕ, List, Some, None, OnOk, IfOk};
ghost use Rattle.resin_site.specs.Under.base.Numbering.{AreNumbered};
ghost use Rattle.resin_trace.specs.Lines.{at};
ghost use Rattle.resin_trace.specs.Seen.{fed};
ghost use Rattle.resin_serve.specs.Gives.{CausedIn};
ghost use Rattle.resin_serve.specs.Kept.{Kept};
ghost use Rattle.resin_serve.specs.Outside.{keepers_of, sinks_of, world_of};
ghost use Rattle.resin_site.specs.Keeping.{Later};
ghost use Rattle.resin_serve.specs.Asked.{served};
ghost use Rattle.resin_serve.specs.Whole_run.{RunsFrom, ReadCause, Finished, Numbers, given_of_status};
ghost use Rattle.resin_serve.specs.Audits.{EndsRun};

use crate::logging::Logging;
use crate::run::{Ready, Run, Service, serve_ready};
use crate::status::Status;
use crate::waiting::WaitingStreams;
use resin_site::Site;
use resin_site::under::base::{Calls, FailList, Files, Sink, Source, Tables};
use resin_trace::{TraceFault, TraceReader};
use std::alloc::{AllocError, Global};

/// A run that begins: over a site of its own, with no answer given and nothing known of any connection.
pub(crate) fn new_run(alloc: Global, logging: Logging, fuel: u32) -> Result<Run, AllocError>
    ensures fuel { IfOk result (λ run. run.service.site ≡ fuel) }
    ensures logging { IfOk result (λ run. run.service.logging ≡ logging) }
    ensures number { IfOk result (λ run. run.number ≡ 1) }
    ensures made { IfOk result (λ run. run.calls.made ≡ 0) }
    ensures failed { IfOk result (λ run. run.calls.failed ≡ []) }
    ensures new { IfOk result (λ run. (c : ℕ) → at run.connections c ≡ None) }
{
    Ok(Run {
        alloc,
        service: Service {
            site: Site::new(alloc, fuel)?,
            logging,
        },
        calls: Calls {
            made: 0,
            failed: FailList::new(alloc),
        },
        number: 1,
        connections: WaitingStreams::new(alloc),
    })
}

/// Serves a whole trace in a run that begins.
pub(crate) fn serve_trace<S: Source, F: Files, T: Tables, L: Sink, M: Sink, O: Sink>(
    run: &mut Run,
    trace: &mut S,
    log: &mut L,
    mail: &mut M,
    out: &mut O,
    files: &mut F,
    tables: &mut T,
) -> Status
    requires number { run.old.number ≡ 1 }
    requires numbered { AreNumbered run.old.calls }
    requires new { (c : ℕ) → at run.old.connections c ≡ None }
    ensures serves { EndsRun result }
    ensures kept { Kept (keepers_of F.Files T.Tables files.old tables.old run.old.calls.made run.old.calls.failed)
        (keepers_of F.Files T.Tables files.new tables.new run.new.calls.made run.new.calls.failed) }
    ensures cause { CausedIn (given_of_status result) (sinks_of L.Sink M.Sink O.Sink log.old mail.old out.old)
        (sinks_of L.Sink M.Sink O.Sink log.new mail.new out.new) }
    ensures read { ReadCause result (S.faults trace.old) (S.faults trace.new) }
    ensures numbers { (all : List ℕ) → S.left trace.old ≡ Some all → Numbers result all run.new.number }
    ensures ran { (K all : List ℕ) → Later run.new.calls.made run.new.calls.failed K → S.left trace.old ≡ Some all
        → RunsFrom result (served run.old.service) K all (S.left trace.new)
        (world_of L.Sink M.Sink O.Sink F.Files T.Tables log.old mail.old out.old files.old tables.old run.old.calls.made)
        (world_of L.Sink M.Sink O.Sink F.Files T.Tables log.new mail.new out.new files.new tables.new run.new.calls.made) }
{
    let mut reader = TraceReader::new(run.alloc);
    let mut buffer = [0u8; 65536];
    'reads: loop {
        match serve_ready(run, log, mail, out, files, tables, &mut reader) {
            Ready::Wait => {}
            Ready::Bad { offset } => return Status::BadTrace { offset },
            Ready::TooLong => return Status::TraceTooLong,
            Ready::Fault => return Status::WriteFault,
            Ready::Memory => return Status::Memory,
        }
        let count = match trace.take(&mut buffer) {
            Ok(count) => count,
            Err(_) => return Status::ReadFault,
        };
        if count == 0 {
            return finished(&reader);
        }
        let Ok(()) = take_in(&mut reader, &buffer[..count]) else {
            return Status::Memory;
        };
    }
}

// Feeds the reader. A trace that is too long shows once its records were handed out.
fn take_in(reader: &mut TraceReader, piece: &[u8]) -> Result<(), AllocError>
    ensures { OnOk result (reader.new ≡ fed reader.old piece.now) }
{
    match reader.feed(piece) {
        Ok(()) => Ok(()),
        Err(TraceFault::TooLong) => Ok(()),
        Err(_) => Err(AllocError),
    }
}

// How a run ends where the trace does.
fn finished(reader: &TraceReader) -> Status
    ensures { Finished reader.now result }
{
    match reader.finish() {
        Ok(()) => Status::Ok,
        Err(TraceFault::Bad { offset }) => Status::BadTrace { offset },
        Err(TraceFault::TooLong) => Status::TraceTooLong,
        Err(TraceFault::Memory) => Status::Memory,
    }
}
