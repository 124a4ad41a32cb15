//! Serves the records of a trace.
ghost use Rattle.std.specs.Prelude.{◌≡◌, ◌≢◌, ◌+◌, ◌++◌, ◌∷◌, [], ℕ, List, Option, IsSome};
ghost use Rattle.resin_site.specs.Under.http.Stream.{asks, refuses};
ghost use Rattle.resin_trace.specs.declared.event.TraceEvent.{TraceEvent};
ghost use Rattle.resin_trace.specs.Lines.{at};
ghost use Rattle.resin_serve.specs.declared.run.Service.{Service};
ghost use Rattle.resin_serve.specs.Ran.{Ran, world};
ghost use Rattle.resin_serve.specs.Gives.{CausedIn, GaveAll, three};
ghost use Rattle.resin_serve.specs.Kept.{Kept};
ghost use Rattle.resin_serve.specs.Outside.{keepers_of, sinks_of, world_of};
ghost use Rattle.resin_site.specs.Keeping.{Answers, Store, Later};
ghost use Rattle.resin_site.specs.Under.base.Numbering.{AreNumbered};
ghost use Rattle.resin_site.specs.Under.journal.Access.{ClassesAreNames};
ghost use Rattle.resin_serve.specs.Records.{record_text};
ghost use Rattle.resin_serve.specs.Asked.{served};
ghost use Rattle.resin_serve.specs.Logs.{logged, CanTell};
ghost use Rattle.resin_serve.specs.Lines.{still, asked, Hold};
ghost use Rattle.resin_serve.specs.Top.{OnWhole, RanLine, RanEvent, Beyond, Went, given_of};

use crate::give::{Given, give_three};
use crate::logging::{Logging, logged};
use crate::output::output_record;
use crate::waiting::WaitingStreams;
use resin_site::under::base::{Calls, Files, Sink, Tables};
use resin_site::under::http::{Request, Step};
use resin_site::under::journal::Journal;
use resin_site::{Answer, Site, answer_one, refusal};
use resin_trace::{TraceEvent, TraceFault, TraceReader};
use std::alloc::Global;

/// What is the same in all of a run: its site, and what its answers put into the log.
#[derive(Drop)]
pub struct Service {
    pub site: Site,
    pub logging: Logging,
}

/// What a run has at hand: its service, the keeper calls so far, the number of the next answer, and the streams of the connections.
#[derive(Drop)]
pub(crate) struct Run {
    pub(crate) alloc: Global,
    pub(crate) service: Service,
    pub(crate) calls: Calls,
    pub(crate) number: u64,
    pub(crate) connections: WaitingStreams,
}

/// Gives an answer: what it puts into the log, then its mail records, then the record of its response, which has this head and this body.
pub(crate) fn give_answer<L: Sink, M: Sink, O: Sink>(
    run: &mut Run,
    log: &mut L,
    mail: &mut M,
    out: &mut O,
    conn: u16,
    lines: &[u8],
    mails: &[u8],
    head: &[u8],
    body: &[u8],
) -> Given
    ensures same { (run.new.service ≡ run.old.service) × (run.new.connections ≡ run.old.connections) × (run.new.calls ≡ run.old.calls) }
    ensures gave { (store store' : Option Store) (told told' : Answers) (made made' : ℕ)
        → GaveAll result (three lines.now mails.now (record_text conn (head.now ++ body.now)))
        (world (L.written log.old) (M.written mail.old) (O.written out.old) store told made)
        (world (L.written log.new) (M.written mail.new) (O.written out.new) store' told' made') }
    ensures number { OnWhole result (run.new.number ≡ run.old.number + 1) }
    ensures cause { CausedIn result (sinks_of L.Sink M.Sink O.Sink log.old mail.old out.old)
        (sinks_of L.Sink M.Sink O.Sink log.new mail.new out.new) }
{
    let Some(next) = run.number.checked_add(1) else {
        return Given::Memory;
    };
    let Ok(record) = output_record(run.alloc, conn, head, body) else {
        return Given::Memory;
    };
    run.number = next;
    give_three(log, mail, out, lines, mails, record.as_slice())
}

// Gives what a request answers: what it puts into the log, its mail records, and the record of its response. Its journal is let go before the
// record is made.
fn give_reply<L: Sink, M: Sink, O: Sink>(
    run: &mut Run,
    log: &mut L,
    mail: &mut M,
    out: &mut O,
    conn: u16,
    reply: Answer,
) -> Given
    ensures same { (run.new.service ≡ run.old.service) × (run.new.connections ≡ run.old.connections) × (run.new.calls ≡ run.old.calls) }
    ensures gave { (store store' : Option Store) (told told' : Answers) (made made' : ℕ)
        → GaveAll result
        (three (logged run.old.service.logging run.old.number reply.journal) reply.mail (record_text conn reply.response))
        (world (L.written log.old) (M.written mail.old) (O.written out.old) store told made)
        (world (L.written log.new) (M.written mail.new) (O.written out.new) store' told' made') }
    ensures told { ClassesAreNames reply.journal → CanTell run.old.service.logging run.old.number reply.journal }
    ensures number { OnWhole result (run.new.number ≡ run.old.number + 1) }
    ensures cause { CausedIn result (sinks_of L.Sink M.Sink O.Sink log.old mail.old out.old)
        (sinks_of L.Sink M.Sink O.Sink log.new mail.new out.new) }
{
    let logging = run.service.logging;
    let Ok(lines) = logged(run.alloc, logging, run.number, reply.journal()) else {
        return Given::Memory;
    };
    let parts = reply.into_parts(run.alloc);
    give_answer(
        run,
        log,
        mail,
        out,
        conn,
        lines.as_slice(),
        parts.mail.as_slice(),
        parts.head.as_slice(),
        parts.body.as_slice(),
    )
}

/// Serves a request, and gives its answer.
pub(crate) fn serve_request<F: Files, T: Tables, L: Sink, M: Sink, O: Sink>(
    run: &mut Run,
    log: &mut L,
    mail: &mut M,
    out: &mut O,
    files: &mut F,
    tables: &mut T,
    conn: u16,
    request: &Request,
) -> Given
    requires { AreNumbered run.old.calls }
    ensures same { (run.new.service ≡ run.old.service) × (run.new.connections ≡ run.old.connections) }
    ensures numbered { AreNumbered run.new.calls }
    ensures kept { Kept (keepers_of F.Files T.Tables files.old tables.old run.old.calls.made run.old.calls.failed)
        (keepers_of F.Files T.Tables files.new tables.new run.new.calls.made run.new.calls.failed) }
    ensures ran { (place : ℕ) (K : List ℕ) → Later run.new.calls.made run.new.calls.failed K
        → Ran result (λ a. a.place ≡ place) (served run.old.service) K run.old.number
        (record { conn = conn; asked = asks request.now; place = place } ∷ [])
        (world_of L.Sink M.Sink O.Sink F.Files T.Tables log.old mail.old out.old files.old tables.old run.old.calls.made)
        (world_of L.Sink M.Sink O.Sink F.Files T.Tables log.new mail.new out.new files.new tables.new run.new.calls.made) }
    ensures number { OnWhole result (run.new.number ≡ run.old.number + 1) }
    ensures cause { CausedIn result (sinks_of L.Sink M.Sink O.Sink log.old mail.old out.old)
        (sinks_of L.Sink M.Sink O.Sink log.new mail.new out.new) }
{
    let served = answer_one(
        run.alloc,
        &mut run.service.site,
        request,
        run.number,
        files,
        tables,
        &mut run.calls,
    );
    let Ok(reply) = served else {
        return Given::Memory;
    };
    give_reply(run, log, mail, out, conn, reply)
}

/// Answers a refusal, which makes no keeper call.
pub(crate) fn serve_refusal<L: Sink, M: Sink, O: Sink>(
    run: &mut Run,
    log: &mut L,
    mail: &mut M,
    out: &mut O,
    conn: u16,
    status: u16,
) -> Given
    ensures same { (run.new.service ≡ run.old.service) × (run.new.connections ≡ run.old.connections) × (run.new.calls ≡ run.old.calls) }
    ensures ran { (place : ℕ) (K : List ℕ) (store : Option Store) (told : Answers) (service : Service) → service.logging ≡ run.old.service.logging
        → Ran result (λ a. a.place ≡ place) (served service) K run.old.number (record { conn = conn; asked = refuses status; place = place } ∷ [])
        (world (L.written log.old) (M.written mail.old) (O.written out.old) store told run.old.calls.made)
        (world (L.written log.new) (M.written mail.new) (O.written out.new) store told run.new.calls.made) }
    ensures number { OnWhole result (run.new.number ≡ run.old.number + 1) }
    ensures cause { CausedIn result (sinks_of L.Sink M.Sink O.Sink log.old mail.old out.old)
        (sinks_of L.Sink M.Sink O.Sink log.new mail.new out.new) }
{
    let logging = run.service.logging;
    let journal = Journal::new(run.alloc);
    let Ok(lines) = logged(run.alloc, logging, run.number, &journal) else {
        return Given::Memory;
    };
    let Ok(response) = refusal(run.alloc, status) else {
        return Given::Memory;
    };
    give_answer(
        run,
        log,
        mail,
        out,
        conn,
        lines.as_slice(),
        &[],
        response.as_slice(),
        &[],
    )
}

/// Serves the answers that stand on a connection, on which something came.
pub(crate) fn serve_connection<F: Files, T: Tables, L: Sink, M: Sink, O: Sink>(
    run: &mut Run,
    log: &mut L,
    mail: &mut M,
    out: &mut O,
    files: &mut F,
    tables: &mut T,
    conn: u16,
) -> Given
    requires some { IsSome (at run.old.connections conn) }
    requires numbered { AreNumbered run.old.calls }
    ensures service { run.new.service ≡ run.old.service }
    ensures others { (c : ℕ) → c ≢ conn → at run.new.connections c ≡ at run.old.connections c }
    ensures numbered { AreNumbered run.new.calls }
    ensures kept { Kept (keepers_of F.Files T.Tables files.old tables.old run.old.calls.made run.old.calls.failed)
        (keepers_of F.Files T.Tables files.new tables.new run.new.calls.made run.new.calls.failed) }
    ensures ran { (place : ℕ) (K : List ℕ) → Later run.new.calls.made run.new.calls.failed K
        → Ran result (λ a. a.place ≡ place) (served run.old.service) K run.old.number (asked conn place (still (at run.old.connections conn) []))
        (world_of L.Sink M.Sink O.Sink F.Files T.Tables log.old mail.old out.old files.old tables.old run.old.calls.made)
        (world_of L.Sink M.Sink O.Sink F.Files T.Tables log.new mail.new out.new files.new tables.new run.new.calls.made) }
    ensures cause { CausedIn result (sinks_of L.Sink M.Sink O.Sink log.old mail.old out.old)
        (sinks_of L.Sink M.Sink O.Sink log.new mail.new out.new) }
    ensures line { OnWhole result (RanLine (at run.old.connections conn) (at run.new.connections conn) run.old.number run.new.number) }
{
    'answers: loop {
        match run.connections.next_request(run.alloc, conn) {
            Ok(Step::Need) => return Given::Whole,
            Ok(Step::Got { request, used }) => {
                run.connections.used(conn, used as usize);
                match serve_request(run, log, mail, out, files, tables, conn, &request) {
                    Given::Whole => {}
                    stop => return stop,
                }
            }
            Ok(Step::Refuse { status }) => {
                run.connections.refuse(conn);
                return serve_refusal(run, log, mail, out, conn, status);
            }
            Err(_) => return Given::Memory,
        }
    }
}

/// Serves the answers that a record completes.
pub(crate) fn serve_event<F: Files, T: Tables, L: Sink, M: Sink, O: Sink>(
    run: &mut Run,
    log: &mut L,
    mail: &mut M,
    out: &mut O,
    files: &mut F,
    tables: &mut T,
    event: TraceEvent,
) -> Given
    requires { AreNumbered run.old.calls }
    ensures service { run.new.service ≡ run.old.service }
    ensures numbered { AreNumbered run.new.calls }
    ensures kept { Kept (keepers_of F.Files T.Tables files.old tables.old run.old.calls.made run.old.calls.failed)
        (keepers_of F.Files T.Tables files.new tables.new run.new.calls.made run.new.calls.failed) }
    ensures cause { CausedIn result (sinks_of L.Sink M.Sink O.Sink log.old mail.old out.old)
        (sinks_of L.Sink M.Sink O.Sink log.new mail.new out.new) }
    ensures ran { (place : ℕ) (seen : List TraceEvent) → Hold run.old.connections seen
        → RanEvent result (served run.old.service) seen (event, place) run.old.number run.new.number
        run.new.calls.made run.new.calls.failed run.new.connections
        (world_of L.Sink M.Sink O.Sink F.Files T.Tables log.old mail.old out.old files.old tables.old run.old.calls.made)
        (world_of L.Sink M.Sink O.Sink F.Files T.Tables log.new mail.new out.new files.new tables.new run.new.calls.made) }
{
    match event {
        TraceEvent::Piece { conn, bytes } => match run.connections.add(conn, bytes) {
            Ok(()) => serve_connection(run, log, mail, out, files, tables, conn),
            Err(_) => Given::Memory,
        },
        TraceEvent::End { conn } => {
            run.connections.end(conn);
            Given::Whole
        }
    }
}

/// How serving what was read ends.
#[derive(Clone, Copy, Debug, PartialEq, Eq)]
pub enum Ready {
    /// More of the trace is wanted.
    Wait,
    /// No record stands at the offset, and none can come.
    Bad { offset: u64 },
    /// The trace is longer than its limit.
    TooLong,
    /// A sink failed, or took nothing.
    Fault,
    /// There was no memory.
    Memory,
}

/// Serves the records that stand whole.
pub(crate) fn serve_ready<F: Files, T: Tables, L: Sink, M: Sink, O: Sink>(
    run: &mut Run,
    log: &mut L,
    mail: &mut M,
    out: &mut O,
    files: &mut F,
    tables: &mut T,
    reader: &mut TraceReader,
) -> Ready
    requires { AreNumbered run.old.calls }
    ensures service { run.new.service ≡ run.old.service }
    ensures numbered { AreNumbered run.new.calls }
    ensures kept { Kept (keepers_of F.Files T.Tables files.old tables.old run.old.calls.made run.old.calls.failed)
        (keepers_of F.Files T.Tables files.new tables.new run.new.calls.made run.new.calls.failed) }
    ensures cause { CausedIn (given_of result) (sinks_of L.Sink M.Sink O.Sink log.old mail.old out.old)
        (sinks_of L.Sink M.Sink O.Sink log.new mail.new out.new) }
    ensures went { (seen : List TraceEvent) (b : ℕ) → Hold run.old.connections seen → Beyond b reader.old
        → Went result (served run.old.service) b seen reader.old reader.new run.old.number run.new.number
        run.new.calls.made run.new.calls.failed run.new.connections
        (world_of L.Sink M.Sink O.Sink F.Files T.Tables log.old mail.old out.old files.old tables.old run.old.calls.made)
        (world_of L.Sink M.Sink O.Sink F.Files T.Tables log.new mail.new out.new files.new tables.new run.new.calls.made) }
{
    'records: loop {
        match reader.next() {
            Ok(Some(event)) => {
                match serve_event(run, log, mail, out, files, tables, event) {
                    Given::Whole => {}
                    Given::Fault => return Ready::Fault,
                    Given::Memory => return Ready::Memory,
                }
            }
            Ok(None) => return Ready::Wait,
            Err(TraceFault::Bad { offset }) => return Ready::Bad { offset },
            Err(TraceFault::TooLong) => return Ready::TooLong,
            Err(TraceFault::Memory) => return Ready::Memory,
        }
    }
}
