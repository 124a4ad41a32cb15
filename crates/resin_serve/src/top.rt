//! The top call.
ghost use Rattle.std.specs.Prelude.{◌≡◌, ◌≤◌, ◌+◌, ◌<◌, [], ℕ, List, Some, None, ◌↔◌, map, string_bytes, length};
ghost use Rattle.resin_site.specs.Under.base.Causes.{last_count};
ghost use Rattle.resin_site.specs.Under.base.Numbering.{RiseWithin};
ghost use Rattle.resin_trace.specs.Verdicts.{IsGood};
ghost use Rattle.resin_serve.specs.Gives.{CausedIn, RoseIn, counts};
ghost use Rattle.resin_serve.specs.Kept.{Kept};
ghost use Rattle.resin_serve.specs.Outside.{keepers_of, sinks_of, world_of};
ghost use Rattle.resin_serve.specs.Asked.{meaning};
ghost use Rattle.resin_trace.specs.Records.{limit};
ghost use Rattle.resin_serve.specs.Whole_run.{RunsFrom, ReadCause, given_of_status};
ghost use Rattle.resin_serve.specs.Words.{task_of};
ghost use Rattle.resin_serve.specs.Audits.{Audits, EndsAudit, EndsRun, OnSilent, CompletesAudit};
ghost use Rattle.resin_serve.specs.Samples.{Samples};
ghost use Rattle.resin_serve.specs.Exchange.{Exchanges};
ghost use Rattle.resin_serve.specs.Headline.{Completes, Calm};
ghost use Rattle.resin_serve.specs.declared.status.Status.TheVariants.{Usage, AuditRefused};

use crate::auditing::audit_source;
use crate::logging::Logging;
use crate::sample::show_sample;
use crate::serving::{new_run, serve_trace};
use crate::status::{Ended, Status};
use crate::words::{Task, task_of};
use resin_site::under::base::{FailList, Files, Sink, Source, Tables};
use std::alloc::Global;

/// Serves a recorded trace over the keepers of files and of tables, audits the journal file of a run, or runs the sample.
///
/// With the words `serve` and `serve --fuel N` the records of the trace are served as soon as they stand whole: each answer gives its log lines, its
/// mail records and its output record, in that order, by a loop over `give` that is lent all that is left for that sink. With the words `record` and
/// `record --fuel N` it gives its part of the journal file in place of its log lines. With the word `audit` the source is read whole, which makes no
/// keeper call and leaves log and mail alone; the output is given the line of the verdict on it. With the words `sample N` the sample's trace of N
/// pairs of requests is served over the sample's site in memory, and the output alone is given a line that tells how many answers and how many lines
/// of denials that run has (FORMATS.md, "The sample"). With all other words the answer is Usage, and nothing is read or written. The trace is read by
/// a buffer of 65,536 bytes.
pub fn serve<S: Source, O: Sink, L: Sink, M: Sink, F: Files, T: Tables>(
    alloc: Global,
    words: &[String],
    trace: &mut S,
    out: &mut O,
    log: &mut L,
    mail: &mut M,
    files: &mut F,
    tables: &mut T,
) -> Ended
    // Usage comes exactly where the words are none of the forms, and then nothing is read or written.
    ensures usage { (result.status ≡ Usage) ↔ (task_of (map string_bytes words.now) ≡ None) }
    ensures untouched { task_of (map string_bytes words.now) ≡ None
        → (trace.new ≡ trace.old) × (out.new ≡ out.old) × (log.new ≡ log.old) × (mail.new ≡ mail.old)
        × (files.new ≡ files.old) × (tables.new ≡ tables.old)
        × (result.made ≡ 0) × (result.failed ≡ []) }

    // What the sinks gained and the keepers hold is the meaning's, as far as the status says, and each answer that gave a byte obeys the access law.
    // The keeper calls that were made are the meaning's, and where a keeper tells its answers, those of them that failed there are the listed ones.
    ensures run { (logging : Logging) (fuel : ℕ) (all : List ℕ)
        → task_of (map string_bytes words.now) ≡ Some (Task.Run logging fuel) → S.left trace.old ≡ Some all
        → RunsFrom result.status (meaning logging fuel) result.failed all (S.left trace.new)
        (world_of L.Sink M.Sink O.Sink F.Files T.Tables log.old mail.old out.old files.old tables.old 0)
        (world_of L.Sink M.Sink O.Sink F.Files T.Tables log.new mail.new out.new files.new tables.new result.made) }

    // An audit gives the line of the verdict on the whole text, and has its status; it makes no keeper call, and leaves all else alone. AuditRefused
    // comes only there, and a bad trace never.
    ensures audit { (all : List ℕ) → task_of (map string_bytes words.now) ≡ Some Task.Audit → S.left trace.old ≡ Some all
        → Audits result.status all (O.written out.old) (O.written out.new) }
    ensures audits { task_of (map string_bytes words.now) ≡ Some Task.Audit
        → EndsAudit result.status × OnSilent result.status (out.new ≡ out.old) × (log.new ≡ log.old) × (mail.new ≡ mail.old)
        × (files.new ≡ files.old) × (tables.new ≡ tables.old)
        × (result.made ≡ 0) × (result.failed ≡ []) }

    // The sample's run is told by its line, and all else stays as it was.
    ensures sample { (number : ℕ) → task_of (map string_bytes words.now) ≡ Some (Task.Sample number)
        → Samples result.status number (O.written out.old) (O.written out.new)
        × (trace.new ≡ trace.old) × (log.new ≡ log.old) × (mail.new ≡ mail.old) × (files.new ≡ files.old) × (tables.new ≡ tables.old)
        × (result.made ≡ 0) × (result.failed ≡ []) }
    ensures refused { result.status ≡ AuditRefused → task_of (map string_bytes words.now) ≡ Some Task.Audit }

    // Neighbouring answers of the run's meaning that leave each other's files and tables alone may come in either order.
    ensures exchange { (logging : Logging) (fuel : ℕ)
        → task_of (map string_bytes words.now) ≡ Some (Task.Run logging fuel) → Exchanges (meaning logging fuel) }

    // The failed calls are those that the keepers tell of, in order.
    ensures kept { Kept (keepers_of F.Files T.Tables files.old tables.old 0 [])
        (keepers_of F.Files T.Tables files.new tables.new result.made result.failed) }
    ensures numbered { RiseWithin 0 result.made result.failed }
    ensures as_many { F.faults files.new < last_count → T.faults tables.new < last_count
        → length result.failed + (F.faults files.old + T.faults tables.old) ≤ F.faults files.new + T.faults tables.new }

    // Each fault has its cause.
    ensures cause { CausedIn (given_of_status result.status) (sinks_of L.Sink M.Sink O.Sink log.old mail.old out.old)
        (sinks_of L.Sink M.Sink O.Sink log.new mail.new out.new) }
    ensures read { ReadCause result.status (S.faults trace.old) (S.faults trace.new) }

    // A good trace over a calm outside is served to its end, unless memory is wanting.
    ensures complete { (logging : Logging) (fuel : ℕ) (all : List ℕ)
        → task_of (map string_bytes words.now) ≡ Some (Task.Run logging fuel) → S.left trace.old ≡ Some all → IsGood all
        → Calm (S.faults trace.old) (S.faults trace.new)
        (sinks_of L.Sink M.Sink O.Sink log.old mail.old out.old) (sinks_of L.Sink M.Sink O.Sink log.new mail.new out.new)
        (keepers_of F.Files T.Tables files.old tables.old 0 []) (keepers_of F.Files T.Tables files.new tables.new result.made result.failed)
        → Completes result.status × (result.failed ≡ []) }

    // A text within the limit is audited over a calm outside, unless memory is wanting.
    ensures answers { (all : List ℕ) → task_of (map string_bytes words.now) ≡ Some Task.Audit → S.left trace.old ≡ Some all → length all ≤ limit
        → Calm (S.faults trace.old) (S.faults trace.new)
        (sinks_of L.Sink M.Sink O.Sink log.old mail.old out.old) (sinks_of L.Sink M.Sink O.Sink log.new mail.new out.new)
        (keepers_of F.Files T.Tables files.old tables.old 0 []) (keepers_of F.Files T.Tables files.new tables.new result.made result.failed)
        → CompletesAudit result.status }

    // The sample's line is given whole to a calm output, unless memory is wanting.
    ensures shows { (number : ℕ) → task_of (map string_bytes words.now) ≡ Some (Task.Sample number)
        → (RoseIn (counts (O.faults out.old) (O.stalls out.old)) (counts (O.faults out.new) (O.stalls out.new)) → ⊥)
        → Completes result.status }
{
    match task_of(words) {
        None => ended(alloc, Status::Usage),
        Some(Task::Audit) => ended(alloc, audit_source(alloc, trace, out)),
        Some(Task::Sample { number }) => ended(alloc, show_sample(alloc, number, out)),
        Some(Task::Run { logging, fuel }) => serve_site(
            alloc, logging, fuel, trace, out, log, mail, files, tables,
        ),
    }
}

// An end without keeper calls.
fn ended(alloc: Global, status: Status) -> Ended
    ensures { (result.status ≡ status) × (result.made ≡ 0) × (result.failed ≡ []) }
{
    Ended {
        status,
        made: 0,
        failed: FailList::new(alloc),
    }
}

// Serves a trace over a site, with so many ticks for each request.
fn serve_site<S: Source, O: Sink, L: Sink, M: Sink, F: Files, T: Tables>(
    alloc: Global,
    logging: Logging,
    fuel: u32,
    trace: &mut S,
    out: &mut O,
    log: &mut L,
    mail: &mut M,
    files: &mut F,
    tables: &mut T,
) -> Ended
    ensures serves { EndsRun result.status }
    ensures run { (all : List ℕ) → S.left trace.old ≡ Some all
        → RunsFrom result.status (meaning logging fuel) result.failed all (S.left trace.new)
        (world_of L.Sink M.Sink O.Sink F.Files T.Tables log.old mail.old out.old files.old tables.old 0)
        (world_of L.Sink M.Sink O.Sink F.Files T.Tables log.new mail.new out.new files.new tables.new result.made) }
    ensures kept { Kept (keepers_of F.Files T.Tables files.old tables.old 0 [])
        (keepers_of F.Files T.Tables files.new tables.new result.made result.failed) }
    ensures numbered { RiseWithin 0 result.made result.failed }
    ensures cause { CausedIn (given_of_status result.status) (sinks_of L.Sink M.Sink O.Sink log.old mail.old out.old)
        (sinks_of L.Sink M.Sink O.Sink log.new mail.new out.new) }
    ensures read { ReadCause result.status (S.faults trace.old) (S.faults trace.new) }
    ensures complete { (all : List ℕ) → S.left trace.old ≡ Some all → IsGood all
        → Calm (S.faults trace.old) (S.faults trace.new)
        (sinks_of L.Sink M.Sink O.Sink log.old mail.old out.old) (sinks_of L.Sink M.Sink O.Sink log.new mail.new out.new)
        (keepers_of F.Files T.Tables files.old tables.old 0 []) (keepers_of F.Files T.Tables files.new tables.new result.made result.failed)
        → Completes result.status × (result.failed ≡ []) }
{
    let Ok(mut run) = new_run(alloc, logging, fuel) else {
        return ended(alloc, Status::Memory);
    };
    let status = serve_trace(&mut run, trace, log, mail, out, files, tables);
    Ended {
        status,
        made: run.calls.made,
        failed: run.calls.failed,
    }
}
