//! Runs of `serve`.
use crate::keepers::{Keepers, keepers_of, push_seen};
use crate::settings::{list_of, setting};
use resin_base::{Bytes, Sink, Source};
use resin_memory::{CalmSink, CalmSource, FakeSink, FakeSource};
use resin_serve::{Ended, Status, serve};
use resin_table_keepers::push_part;
use resin_table_rows::{Line, cut};
use std::alloc::{AllocError, Global};

fn words_of(alloc: Global, text: &str) -> Result<Vec<String>, AllocError> {
    let mut words = Vec::new(alloc);
    for word in text.split(' ') {
        if !word.is_empty() {
            words.push(String::from_str(alloc, word)?)?;
        }
    }
    Ok(words)
}

/// What a run left: how it ended, its log and its mail.
#[derive(Drop)]
pub struct Left {
    pub ended: Ended,
    log: FakeSink,
    mail: FakeSink,
}

// The output, log or mail that settings tell of. The word is that of its failing call.
fn sink_of(alloc: Global, settings: &str, word: &str) -> Result<FakeSink, AllocError> {
    let chunk = setting(settings, "sink").unwrap_or(1_000_000);
    Ok(FakeSink::new(alloc, chunk, list_of(alloc, settings, word, 0)?))
}

// Serves a source to an output. The log and the mail are what settings tell of.
fn served<S: Source, O: Sink>(
    alloc: Global,
    settings: &str,
    words: &str,
    source: &mut S,
    out: &mut O,
    keepers: &mut Keepers,
) -> Result<Left, AllocError> {
    let words = words_of(alloc, words)?;
    let mut log = sink_of(alloc, settings, "log")?;
    let mut mail = sink_of(alloc, settings, "mail")?;
    let ended = serve(
        alloc,
        &words,
        source,
        out,
        &mut log,
        &mut mail,
        &mut keepers.files,
        &mut keepers.tables,
    );
    Ok(Left { ended, log, mail })
}

fn repeated(alloc: Global, settings: &str, trace: &str) -> Result<Bytes, AllocError> {
    let mut bytes = Bytes::new(alloc);
    for _ in 0..setting(settings, "times").unwrap_or(1) {
        bytes.push_slice(trace.as_bytes())?;
    }
    Ok(bytes)
}

/// The status that a word names, None where it names none.
pub fn status_of(word: &str) -> Option<Status> {
    let status = match word {
        "ok" => Status::Ok,
        "usage" => Status::Usage,
        "bad_trace" => Status::BadTrace { offset: 9 },
        "read_fault" => Status::ReadFault,
        "write_fault" => Status::WriteFault,
        "trace_too_long" => Status::TraceTooLong,
        "memory" => Status::Memory,
        "audit_refused" => Status::AuditRefused,
        _ => return None,
    };
    Some(status)
}

/// Adds a status and its exit code.
pub fn push_status(out: &mut Line, status: Status) {
    match status {
        Status::Ok => out.push_str("ok"),
        Status::Usage => out.push_str("usage"),
        Status::BadTrace { offset } => out.tell("bad trace at ", offset, ""),
        Status::ReadFault => out.push_str("read fault"),
        Status::WriteFault => out.push_str("write fault"),
        Status::TraceTooLong => out.push_str("trace too long"),
        Status::Memory => out.push_str("memory"),
        Status::AuditRefused => out.push_str("audit refused"),
    }
    out.tell(", code ", u64::from(status.code()), "");
}

// Adds what a run left.
fn push_left(alloc: Global, out: &mut Line, left: &Left, written: &[u8]) {
    push_status(out, left.ended.status);
    out.tell(" | ", left.ended.made, " calls");
    for call in left.ended.failed.as_slice() {
        out.tell(", failed ", *call, "");
    }
    push_part(alloc, out, written);
    push_part(alloc, out, left.log.written());
    push_part(alloc, out, left.mail.written());
}

/// Serves a trace that comes without a fault, to an output that has none.
pub fn calm_run(
    alloc: Global,
    words: &str,
    trace: Bytes,
    fields: &str,
) -> Result<(Left, CalmSink), AllocError> {
    let mut source = CalmSource::new(trace);
    let mut out = CalmSink::new(alloc);
    let mut keepers = keepers_of(alloc, "", fields)?;
    let left = served(alloc, "", words, &mut source, &mut out, &mut keepers)?;
    Ok((left, out))
}

/// Adds a run of a trace over a calm outside.
pub fn push_run(
    alloc: Global,
    out: &mut Line,
    words: &str,
    trace: Bytes,
    fields: &str,
) -> Result<(), AllocError> {
    let (left, output) = calm_run(alloc, words, trace, fields)?;
    push_left(alloc, out, &left, output.written());
    Ok(())
}

/// Adds a run over a calm outside, of a trace that may come several times over.
pub fn push_calm(
    alloc: Global,
    out: &mut Line,
    settings: &str,
    fields: &str,
) -> Result<(), AllocError> {
    let (words, rest) = cut(fields, '|');
    let (trace, fields) = cut(rest, '|');
    let trace = repeated(alloc, settings, trace)?;
    push_run(alloc, out, words, trace, fields)
}

// The source that settings tell of.
fn source_of(alloc: Global, settings: &str, trace: &str) -> Result<FakeSource, AllocError> {
    let trace = repeated(alloc, settings, trace)?;
    let chunk = setting(settings, "chunk").unwrap_or(65_536);
    let fail = list_of(alloc, settings, "read", 0)?;
    Ok(FakeSource::new(trace, chunk.max(1), fail))
}

// An outside that may fail.
#[derive(Drop)]
struct Outside {
    source: FakeSource,
    out: FakeSink,
    keepers: Keepers,
}

// The outside that settings and fields tell of.
fn outside_of(
    alloc: Global,
    settings: &str,
    trace: &str,
    fields: &str,
) -> Result<Outside, AllocError> {
    let source = source_of(alloc, settings, trace)?;
    let out = sink_of(alloc, settings, "write")?;
    let keepers = keepers_of(alloc, settings, fields)?;
    Ok(Outside {
        source,
        out,
        keepers,
    })
}

fn served_over(
    alloc: Global,
    settings: &str,
    words: &str,
    outside: &mut Outside,
) -> Result<Left, AllocError> {
    let Outside {
        source,
        out,
        keepers,
    } = outside;
    served(alloc, settings, words, source, out, keepers)
}

// Whether no call of the outside failed in a run.
fn is_whole(left: &Left) -> bool {
    left.ended.status == Status::Ok && left.ended.failed.as_slice().is_empty()
}

// Serves, adds what is left with what fields ask to see, and tells whether no call failed.
fn push_over(
    alloc: Global,
    out: &mut Line,
    settings: &str,
    words: &str,
    fields: &str,
    outside: &mut Outside,
) -> Result<bool, AllocError> {
    let left = served_over(alloc, settings, words, outside)?;
    push_left(alloc, out, &left, outside.out.written());
    push_seen(alloc, out, &outside.keepers, fields);
    Ok(is_whole(&left))
}

// Adds a run over an outside that may fail, and tells whether none of its calls failed.
fn push_fake_run(
    alloc: Global,
    out: &mut Line,
    settings: &str,
    fields: &str,
) -> Result<bool, AllocError> {
    let (words, rest) = cut(fields, '|');
    let (trace, fields) = cut(rest, '|');
    let mut outside = outside_of(alloc, settings, trace, fields)?;
    push_over(alloc, out, settings, words, fields, &mut outside)
}

/// Adds a run over an outside that may fail.
pub fn push_fake(
    alloc: Global,
    out: &mut Line,
    settings: &str,
    fields: &str,
) -> Result<(), AllocError> {
    let _whole = push_fake_run(alloc, out, settings, fields)?;
    Ok(())
}

// Adds a line for the run in which the call of that number fails, and tells whether the run has no such call.
fn push_turn(
    alloc: Global,
    out: &mut Line,
    word: &str,
    number: usize,
    others: &str,
    fields: &str,
) -> Result<bool, AllocError> {
    let settings = format!(in alloc; "{word} {number} {others}")?;
    out.begin_line();
    push_fake_run(alloc, out, settings.as_str(), fields)
}

/// Adds runs in which each call of one part of the outside fails in turn, and the run in which none does. The word of that part stands before
/// the other settings.
pub fn push_turns(
    alloc: Global,
    out: &mut Line,
    settings: &str,
    fields: &str,
) -> Result<(), AllocError> {
    let (word, others) = cut(settings, ' ');
    for number in 1..100usize {
        if push_turn(alloc, out, word, number, others, fields)? {
            break;
        }
    }
    Ok(())
}

// What a source gives next to a buffer of 65,536 bytes.
fn next_count(source: &mut FakeSource) -> usize {
    let mut buffer = [0u8; 65536];
    source.take(&mut buffer).unwrap_or(0)
}

/// Adds the status of a run, and how many bytes the source gives next.
pub fn push_left_after(
    alloc: Global,
    out: &mut Line,
    settings: &str,
    fields: &str,
) -> Result<(), AllocError> {
    let (words, rest) = cut(fields, '|');
    let (trace, fields) = cut(rest, '|');
    let mut outside = outside_of(alloc, settings, trace, fields)?;
    let left = served_over(alloc, settings, words, &mut outside)?;
    push_status(out, left.ended.status);
    out.tell(" | ", next_count(&mut outside.source) as u64, " bytes left");
    Ok(())
}
