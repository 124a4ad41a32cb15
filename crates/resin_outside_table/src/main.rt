//! Asks keepers, sources, sinks, requests and traces, one row a line, and prints what they answer. Fields stand between `|`. The first one is the
//! kind of the row, with words behind it where it has some; in the others `\n`, `\r`, `\t`, `\s` for a space, `\\` and `\xhh` stand for a byte,
//! and bytes are printed so too. A line that begins with `#` is printed as it is. The kinds are:
//!
//! - `calm_files`, `fake_files N ..`, `folder NAME`: a keeper of files; the fake one's Nth call fails. Each field is a call: `read PATH`, `exists
//!   PATH`, `remove PATH`, `write PATH BYTES SHADOW`. Behind `numbered` it is the first call of a run, and what is printed is how many calls the
//!   run counts and lists as failed. `get PATH` and `put PATH BYTES SHADOW` are no calls.
//! - `calm_tables`, `fake_tables N ..`: a keeper of tables with one column `a`. The calls are `create TABLE`, `insert TABLE TEXT`, `update TABLE
//!   ROW TEXT`, `delete TABLE ROW`, `columns TABLE` and `rows TABLE`; `table TABLE` and `put TABLE` are none.
//! - `calm_source`, `fake_source CHUNK N ..`, `std_source`: the bytes of a source, the length of a buffer of zeros, and `take`, or `buffer`,
//!   which prints the buffer.
//! - `calm_sink`, `fake_sink CHUNK N ..`, `std_sink ROOM`: pieces that a sink is given. What it took is printed last.
//! - `head`, `mark`, `request`, `inputs`: a stream, and maybe how often the next field is repeated behind it, that field, and an end. Printed is
//!   what the front of the stream asks; with the mark that is left; the parts of the request; its input arrays.
//! - `response`, `response to_head`: a status, the type, the body, and a header's name and value.
//! - `get`, `post`, `cookie`, `server`: a method, a target, a body, and names and values of header fields. That input array of the request is
//!   printed.
//! - `trace`, `trace_singly`: a trace that is fed at once or byte by byte. Printed is how it ends, its records with what stands behind them, and
//!   how it ends once more.
//! - `slow_piece N`, `late N`, `endless N`: a piece of N bytes that comes byte by byte, a record that comes N times before one is handed out, and
//!   one that is handed out each time, and then comes once more.
//! - `connections`: the steps `add CONNECTION BYTES`, `used CONNECTION COUNT`, `refuse CONNECTION`, `end CONNECTION`, and `stream CONNECTION`,
//!   which prints what waits.
//! - `long_stream N`, `drained COUNT LENGTH LEFT`: 2N bytes of a connection that are taken one by one, and so many connections, each of which is
//!   left so many bytes.
//!
//! The answers come from RFC 9112, the documentation of httparse, the PHP manual's pages on input arrays, and by hand from the formats of traces
//! and the rules for keepers, sources and sinks.
#![tactic(auto)]

mod arrays;
mod connections;
mod files;
mod requests;
mod streams;
mod tables;
mod text;
mod traces;

use resin_base::{Bytes, Cell, Names, Stored, StoredCell, StoredRows};
use resin_edge::Folder;
use resin_table_rows::{Line, cut};
use std::alloc::{AllocError, Global};
use std::{fs, io};

// A folder of the system as a keeper of files. It is removed when the steps are taken.
fn push_folder(rt: &HostRuntime, out: &mut Line, root: &str, steps: &str) -> io::Result<()> {
    let mut folder = Folder::new(rt.alloc(), rt.clone()?, root)?;
    files::push_steps(rt.alloc(), out, &mut folder, steps);
    fs::remove_dir_all(rt, root)
}

// A list of one name.
fn names(alloc: Global) -> Result<Names, AllocError> {
    let mut names = Names::new(alloc);
    names.push(Bytes::from_slice(alloc, b"n")?)?;
    Ok(names)
}

// A list of one row of one cell.
fn stored_rows(alloc: Global) -> Result<StoredRows, AllocError> {
    let mut stored = Stored::new(alloc);
    stored.push(StoredCell {
        value: Cell::Int(7),
        shadow: Cell::Null,
    })?;
    let mut rows = StoredRows::new(alloc);
    rows.push(stored)?;
    Ok(rows)
}

// The lists of what keepers hold, with one item each.
fn push_lists(alloc: Global, out: &mut Line) -> Result<(), AllocError> {
    let names = names(alloc)?;
    let rows = stored_rows(alloc)?;
    out.tell("names ", names.as_slice().len() as u64, "; ");
    out.tell("rows ", rows.as_slice().len() as u64, "");
    Ok(())
}

// What a row asks for: its kind, the words behind that, and the other fields as they are written.
#[derive(Clone, Copy)]
struct Asked<'a> {
    alloc: Global,
    kind: &'a str,
    words: &'a str,
    fields: &'a str,
}

// Takes a row of keepers. False where it is none.
fn push_kept(out: &mut Line, asked: &Asked<'_>) -> bool {
    let alloc = asked.alloc;
    let done = match asked.kind {
        "lists" => push_lists(alloc, out),
        "calm_files" => files::push_calm(alloc, out, asked.fields),
        "fake_files" => files::push_fake(alloc, out, asked.words, asked.fields),
        "calm_tables" => tables::push_calm(alloc, out, asked.fields),
        "fake_tables" => tables::push_fake(alloc, out, asked.words, asked.fields),
        _ => return false,
    };
    out.note(done);
    true
}

// Takes a row of sources and sinks. False where it is none.
fn push_passed(out: &mut Line, asked: &Asked<'_>) -> bool {
    let alloc = asked.alloc;
    let done = match asked.kind {
        "calm_source" => streams::push_calm_source(alloc, out, asked.fields),
        "fake_source" => streams::push_fake_source(alloc, out, asked.words, asked.fields),
        "std_source" => streams::push_std_source(alloc, out, asked.fields),
        "calm_sink" => streams::push_calm_sink(alloc, out, asked.fields),
        "fake_sink" => streams::push_fake_sink(alloc, out, asked.words, asked.fields),
        "std_sink" => streams::push_std_sink(alloc, out, asked.words, asked.fields),
        _ => return false,
    };
    out.note(done);
    true
}

// Takes a row of requests, responses and input arrays. False where it is none.
fn push_asked(out: &mut Line, asked: &Asked<'_>) -> bool {
    let (alloc, kind) = (asked.alloc, asked.kind);
    let done = match kind {
        "head" | "mark" | "request" | "inputs" => {
            requests::push_named(alloc, out, kind, asked.fields)
        }
        "response" => {
            requests::push_response(alloc, out, asked.words == "to_head", asked.fields)
        }
        "get" | "post" | "cookie" | "server" => {
            arrays::push_named(alloc, out, kind, asked.fields)
        }
        _ => return false,
    };
    out.note(done);
    true
}

// Takes a row of traces. False where it is none.
fn push_recorded(out: &mut Line, asked: &Asked<'_>) -> bool {
    let alloc = asked.alloc;
    let done = match asked.kind {
        "trace" => traces::push_whole(alloc, out, asked.fields),
        "trace_singly" => traces::push_singly(alloc, out, asked.fields),
        "endless" => traces::push_endless(alloc, out, asked.words, asked.fields),
        "late" => traces::push_late(alloc, out, asked.words, asked.fields),
        "slow_piece" => traces::push_slow_piece(alloc, out, asked.words),
        _ => return false,
    };
    out.note(done);
    true
}

// Takes a row of connections. False where it is none.
fn push_connected(out: &mut Line, asked: &Asked<'_>) -> bool {
    let alloc = asked.alloc;
    let done = match asked.kind {
        "connections" => connections::push_steps(alloc, out, asked.fields),
        "long_stream" => connections::push_long_stream(alloc, out, asked.words),
        "drained" => connections::push_drained(alloc, out, asked.words),
        _ => return false,
    };
    out.note(done);
    true
}

// Takes a row of one of the kinds.
fn push_row(out: &mut Line, asked: &Asked<'_>) {
    let is_known = push_kept(out, asked)
        || push_passed(out, asked)
        || push_asked(out, asked)
        || push_recorded(out, asked)
        || push_connected(out, asked);
    if !is_known {
        out.push('?');
    }
}

// Puts the answer of a row into its line.
fn push_answer(rt: &HostRuntime, out: &mut Line, line: &str) -> io::Result<()> {
    let (front, fields) = cut(line, '|');
    let (kind, words) = cut(front, ' ');
    if kind == "folder" {
        return push_folder(rt, out, words, fields);
    }
    push_row(
        out,
        &Asked {
            alloc: rt.alloc(),
            kind,
            words,
            fields,
        },
    );
    Ok(())
}

fn answer(rt: &HostRuntime, line: &str) -> io::Result<String> {
    let mut out = Line::new(rt.alloc());
    if line.starts_with('#') {
        out.push_str(line);
    } else {
        push_answer(rt, &mut out, line)?;
    }
    Ok(out.end()?)
}

fn main(rt: HostRuntime) -> io::Result<()> {
    for line in rt.lines(rt.alloc()) {
        let line = line?;
        let text = answer(&rt, line.as_str())?;
        let text = text.as_str();
        rt.println(text.strip_suffix("; ").unwrap_or(text))?;
    }
    Ok(())
}
