//! The sample: a run over a site and a trace that are made from a number.
ghost use Rattle.std.specs.Prelude.{◌≡◌, ◌≤◌, ℕ, [], None, IfOk};
ghost use Rattle.resin_trace.specs.Lines.{at};
ghost use Rattle.resin_trace.specs.Verdicts.{IsGood};
ghost use Rattle.resin_serve.specs.Asked.{served};
ghost use Rattle.resin_serve.specs.Words.{most_sample};
ghost use Rattle.resin_serve.specs.Gives.{Caused, counts};
ghost use Rattle.resin_serve.specs.Whole_run.{given_of_status};
ghost use Rattle.resin_serve.specs.Headline.{Completes};
ghost use Rattle.resin_serve.specs.Samples.{Samples, SampleComesTo, ComesTo, TellsCounts, lines_in, sample_line};

use crate::give::{Given, give_all};
use crate::logging::Logging;
use crate::output::push_count;
use crate::run::Run;
use crate::serving::{new_run, serve_trace};
use crate::status::Status;
use resin_bench_site::{sample_site, sample_trace};
use resin_memory::{CalmFiles, CalmSink, CalmSource, CalmTables};
use resin_site::under::base::{Bytes, Sink};
use std::alloc::{AllocError, Global};

/// What the run of a sample comes to.
#[derive(Clone, Copy, Debug, PartialEq, Eq)]
pub struct Counted {
    /// How many answers it has.
    pub requests: u64,
    /// How many lines of denials its log has.
    pub denied: u64,
}

/// Runs the sample with so many pairs of requests, and gives its line to the output. The run has a source, sinks and keepers of its own, which never
/// fail, so it comes to the end of its trace or memory is wanting.
pub(crate) fn show_sample<O: Sink>(alloc: Global, number: u32, out: &mut O) -> Status
    requires { number ≤ most_sample }
    ensures samples { Samples result number (O.written out.old) (O.written out.new) }
    ensures cause { Caused (given_of_status result) (counts (O.faults out.old) (O.stalls out.old)) (counts (O.faults out.new) (O.stalls out.new)) }
{
    let Ok(counted) = run_sample(alloc, number) else {
        return Status::Memory;
    };
    let Ok(line) = sample_line(alloc, number, counted) else {
        return Status::Memory;
    };
    match give_all(out, line.as_slice()) {
        Given::Whole => Status::Ok,
        Given::Fault => Status::WriteFault,
        Given::Memory => Status::Memory,
    }
}

// The line of a sample.
fn sample_line(alloc: Global, number: u32, counted: Counted) -> Result<Bytes, AllocError>
    ensures { IfOk result (λ text. text ≡ sample_line number counted) }
{
    let mut text = Bytes::new(alloc);
    push_count(&mut text, b"sample ", u64::from(number))?;
    push_count(&mut text, b": requests=", counted.requests)?;
    push_count(&mut text, b" denied=", counted.denied)?;
    text.push_slice(b"\n")?;
    Ok(text)
}

// Makes the sample's site and its trace, and runs it with the usual fuel.
fn run_sample(alloc: Global, number: u32) -> Result<Counted, AllocError>
    requires { number ≤ most_sample }
    ensures { IfOk result (SampleComesTo number) }
{
    let mut files = CalmFiles::new(alloc);
    sample_site(&mut files)?;
    let mut trace = CalmSource::new(sample_trace(alloc, number)?);
    let mut run = new_run(alloc, Logging::Denials, 1_000_000)?;
    count_answers(&mut run, &mut trace, &mut files)
}

// Serves a good trace over files that never fail, and counts its answers and its lines of denials.
fn count_answers(
    run: &mut Run,
    trace: &mut CalmSource,
    files: &mut CalmFiles,
) -> Result<Counted, AllocError>
    requires good { IsGood trace.old }
    requires number { run.old.number ≡ 1 }
    requires made { run.old.calls.made ≡ 0 }
    requires failed { run.old.calls.failed ≡ [] }
    requires new { (c : ℕ) → at run.old.connections c ≡ None }
    ensures { IfOk result (ComesTo (served run.old.service) files.old trace.old) }
{
    let mut log = CalmSink::new(run.alloc);
    match serve_calm(run, trace, &mut log, files) {
        Status::Ok => Ok(Counted {
            requests: run.number - 1,
            denied: count_lines(log.written()),
        }),
        _ => Err(AllocError),
    }
}

// Serves a good trace over files that never fail and no table. What it gives to the output and to the mail is let go.
fn serve_calm(
    run: &mut Run,
    trace: &mut CalmSource,
    log: &mut CalmSink,
    files: &mut CalmFiles,
) -> Status
    requires good { IsGood trace.old }
    requires number { run.old.number ≡ 1 }
    requires made { run.old.calls.made ≡ 0 }
    requires failed { run.old.calls.failed ≡ [] }
    requires new { (c : ℕ) → at run.old.connections c ≡ None }
    requires log { log.old ≡ [] }
    ensures completes { Completes result }
    ensures counts { TellsCounts result (served run.old.service) files.old trace.old run.new.number log.new }
{
    let mut tables = CalmTables::new(run.alloc);
    let mut mail = CalmSink::new(run.alloc);
    let mut out = CalmSink::new(run.alloc);
    serve_trace(run, trace, log, &mut mail, &mut out, files, &mut tables)
}

// The number of newlines in a text.
fn count_lines(text: &[u8]) -> u64
    ensures { result ≡ lines_in text.now }
{
    text.iter().filter(|byte| **byte == b'\n').count() as u64
}
