//! Keepers of files.
use resin_base::{Calls, Entry, FailList, Files, KeepFault};
use resin_memory::{CalmFiles, FakeFiles};
use resin_table_keepers::fails_in;
use resin_table_rows::{Line, bytes_in, cut};
use std::alloc::{AllocError, Global};

fn fault_name(fault: KeepFault) -> &'static str {
    match fault {
        KeepFault::Failed => "failed",
        KeepFault::Memory => "memory",
    }
}

/// Adds the name of a fault.
pub fn push_fault(out: &mut Line, fault: KeepFault) {
    out.push_str(fault_name(fault));
}

fn whether_name(answer: Result<bool, KeepFault>) -> &'static str {
    match answer {
        Ok(true) => "true",
        Ok(false) => "false",
        Err(fault) => fault_name(fault),
    }
}

/// Adds `true`, `false` or a fault.
pub fn push_whether(out: &mut Line, answer: Result<bool, KeepFault>) {
    out.push_str(whether_name(answer));
}

/// Adds how many calls were made, and how many of them are listed as failed.
pub fn push_calls(out: &mut Line, calls: &Calls) {
    out.tell("", calls.made, " made, ");
    out.tell("", calls.failed.as_slice().len() as u64, " failed");
}

// Adds an entry's bytes and its shadow text.
fn push_entry(out: &mut Line, bytes: &[u8], shadow: &[u8]) {
    out.push('\'');
    out.push_spaced_bytes(bytes);
    out.push_str("' '");
    out.push_spaced_bytes(shadow);
    out.push('\'');
}

fn push_found(out: &mut Line, found: &Option<Entry>) {
    match found {
        Some(entry) => push_entry(out, entry.bytes.as_slice(), entry.shadow.as_slice()),
        None => out.push_str("none"),
    }
}

fn push_read(out: &mut Line, answer: Result<Option<Entry>, KeepFault>) {
    match answer {
        Ok(found) => push_found(out, &found),
        Err(fault) => push_fault(out, fault),
    }
}

fn push_got(out: &mut Line, got: Option<(&[u8], &[u8])>) {
    match got {
        Some((bytes, shadow)) => push_entry(out, bytes, shadow),
        None => out.push_str("none"),
    }
}

fn push_written(out: &mut Line, answer: Result<(), KeepFault>) {
    match answer {
        Ok(()) => out.push_str("written"),
        Err(fault) => push_fault(out, fault),
    }
}

// What a call is given: a path, and the bytes and the shadow text that a step has behind it.
struct Operands {
    path: Vec<u8>,
    bytes: Vec<u8>,
    shadow: Vec<u8>,
}

impl Drop for Operands {
    fn drop(self) {
        let Operands {
            path: _,
            bytes: _,
            shadow: _,
        } = self;
    }
}

fn operands_of(alloc: Global, words: &str) -> Result<Operands, AllocError> {
    let (path, rest) = cut(words, ' ');
    let (bytes, shadow) = cut(rest, ' ');
    let path = bytes_in(alloc, path)?;
    let bytes = bytes_in(alloc, bytes)?;
    let shadow = bytes_in(alloc, shadow)?;
    Ok(Operands {
        path,
        bytes,
        shadow,
    })
}

// Makes a call, and adds what it answers.
fn push_call<F: Files>(out: &mut Line, files: &mut F, name: &str, given: &Operands) {
    match name {
        "read" => push_read(out, files.read(&given.path)),
        "exists" => push_whether(out, files.exists(&given.path)),
        "remove" => push_whether(out, files.remove(&given.path)),
        "write" => push_written(out, files.write(&given.path, &given.bytes, &given.shadow)),
        _ => out.push('?'),
    }
}

// Makes a call as the first of a run, and adds how many are counted then, and how many are listed.
fn push_numbered<F: Files>(
    alloc: Global,
    out: &mut Line,
    files: &mut F,
    name: &str,
    given: &Operands,
) {
    let mut calls = Calls {
        made: 0,
        failed: FailList::new(alloc),
    };
    match name {
        "read" => drop(calls.read_file(files, &given.path)),
        "exists" => drop(calls.file_exists(files, &given.path)),
        "remove" => drop(calls.remove_file(files, &given.path)),
        _ => drop(calls.write_file(files, &given.path, &given.bytes, &given.shadow)),
    }
    push_calls(out, &calls);
}

// Takes a step: a call, which is the first of a run where `numbered` stands before it.
fn push_step<F: Files>(
    alloc: Global,
    out: &mut Line,
    files: &mut F,
    step: &str,
) -> Result<(), AllocError> {
    let (name, words) = cut(step, ' ');
    if name == "numbered" {
        let (name, words) = cut(words, ' ');
        push_numbered(alloc, out, files, name, &operands_of(alloc, words)?);
    } else {
        push_call(out, files, name, &operands_of(alloc, words)?);
    }
    Ok(())
}

/// Takes the steps of any keeper of files.
pub fn push_steps<F: Files>(alloc: Global, out: &mut Line, files: &mut F, steps: &str) {
    for step in steps.split('|') {
        let done = push_step(alloc, out, files, step);
        out.note(done);
        out.push_str("; ");
    }
}

// What a step puts into files in memory: a path, bytes and a shadow text.
fn parts(words: &str) -> (&[u8], &[u8], &[u8]) {
    let (path, rest) = cut(words, ' ');
    let (bytes, shadow) = cut(rest, ' ');
    (path.as_bytes(), bytes.as_bytes(), shadow.as_bytes())
}

/// Adds `put`, where that took no memory that was wanting.
pub fn push_put(out: &mut Line, done: Result<(), AllocError>) {
    out.note(done);
    out.push_str("put");
}

// Files in memory, which are put and seen without a call.
trait Shelf: Files {
    fn seen(&self, path: &[u8]) -> Option<(&[u8], &[u8])>;

    fn set(&mut self, path: &[u8], bytes: &[u8], shadow: &[u8]) -> Result<(), AllocError>;
}

impl Shelf for CalmFiles {
    fn seen(&self, path: &[u8]) -> Option<(&[u8], &[u8])> {
        self.get(path)
    }

    fn set(&mut self, path: &[u8], bytes: &[u8], shadow: &[u8]) -> Result<(), AllocError> {
        self.put(path, bytes, shadow)
    }
}

impl Shelf for FakeFiles {
    fn seen(&self, path: &[u8]) -> Option<(&[u8], &[u8])> {
        self.get(path)
    }

    fn set(&mut self, path: &[u8], bytes: &[u8], shadow: &[u8]) -> Result<(), AllocError> {
        self.put(path, bytes, shadow)
    }
}

// Takes a step of files in memory, of which `get` and `put` are no calls.
fn push_shelf_step<F: Shelf>(
    alloc: Global,
    out: &mut Line,
    files: &mut F,
    step: &str,
) -> Result<(), AllocError> {
    let (name, words) = cut(step, ' ');
    let (path, bytes, shadow) = parts(words);
    match name {
        "get" => push_got(out, files.seen(path)),
        "put" => push_put(out, files.set(path, bytes, shadow)),
        _ => return push_step(alloc, out, files, step),
    }
    Ok(())
}

fn push_shelf<F: Shelf>(alloc: Global, out: &mut Line, files: &mut F, steps: &str) {
    for step in steps.split('|') {
        let done = push_shelf_step(alloc, out, files, step);
        out.note(done);
        out.push_str("; ");
    }
}

/// Files in memory that never fail.
pub fn push_calm(alloc: Global, out: &mut Line, steps: &str) -> Result<(), AllocError> {
    push_shelf(alloc, out, &mut CalmFiles::new(alloc), steps);
    Ok(())
}

/// Files in memory of which the listed calls fail.
pub fn push_fake(alloc: Global, out: &mut Line, fail: &str, steps: &str) -> Result<(), AllocError> {
    let fail = fails_in(alloc, fail, 0)?;
    push_shelf(alloc, out, &mut FakeFiles::new(alloc, fail), steps);
    Ok(())
}
