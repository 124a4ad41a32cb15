//! Serves requests to small sites, one site a line. Fields stand between `|`, and `\n`, `\r` and `\0` stand for those bytes. `fuel N` at
//! the front gives each request N ticks, instead of 100,000, and `fail N ..` lets the files' Nth calls fail. Then come the files, each a
//! field with its name, and behind a blank its shadow text where it has one, and a field with its bytes; tables, each a field `table NAME
//! COLUMN ..`, where `:INTEGER` may stand behind a column's name, and fields `row NAME CELL~CELL..`, a cell being `i` and an integer, `t`
//! and a text, or else NULL; and requests, each a field with the method and the target, and behind a newline further lines of the head, the
//! empty one, and the body. A request is served when it is met, so that files behind it aren't there yet. `LOOK` and a path show what is
//! kept there by then, and `PARSES` how many texts of scripts the site has read.
//!
//! A line is printed for each request: how it ended, its status, its keeper calls with the numbers of those that failed, the bytes of its
//! response and the response, the denials, and the mail, where there are any; and for a request that is refused the status and the response.
//! A field `show NAME` prints the rows of a table in the same way. A line that begins with `# ` is a heading and is printed as it is.
//!
//! The input, and the output, which was worked out by hand from the formats of requests and responses, are the table of the tests of a site.
#![tactic(auto)]

use resin_memory::{CalmTables, FakeFiles};
use resin_site::under::base::{Calls, FailList};
use resin_site::under::http::{Request, Step, next_request};
use resin_site::{End, Outcome, Site, log_text, refusal, serve_one};
use resin_table_keepers::{
    fails_in, make_table, push_entry, push_part, push_table, put_row, unescaped,
};
use resin_table_rows::{Line, cut, print_answers};
use std::alloc::{AllocError, Global};
use std::io;

fn shown_end(end: &End) -> &'static str {
    match end {
        End::Served => "served",
        End::NotFound => "not found",
        End::Uncaught(_) => "uncaught",
        End::Fault(_, _) => "fault",
        End::Keeper => "keeper",
    }
}

/// Adds how many calls were made, and which of them failed.
fn push_calls(out: &mut Line, calls: &Calls) {
    out.tell(" | ", calls.made, " calls");
    for call in calls.failed.as_slice() {
        out.tell(", failed ", *call, "");
    }
}

/// Adds the lines of the denials, where there are any.
fn push_denials(alloc: Global, out: &mut Line, number: u64, o: &Outcome) {
    let log = log_text(alloc, number, &o.journal);
    if let Some(log) = out.taken(log) {
        push_part(alloc, out, log.as_slice());
    }
}

fn push_outcome(alloc: Global, out: &mut Line, number: u64, o: &Outcome, calls: &Calls) {
    out.push_str(shown_end(&o.end));
    out.tell(" | ", u64::from(o.status), "");
    push_calls(out, calls);
    out.tell(" | ", o.response.as_slice().len() as u64, " bytes");
    push_part(alloc, out, o.response.as_slice());
    push_denials(alloc, out, number, o);
    push_part(alloc, out, o.mail.as_slice());
}

fn push_refusal(alloc: Global, out: &mut Line, status: u16) {
    out.tell("refused ", u64::from(status), "");
    let response = refusal(alloc, status);
    if let Some(response) = out.taken(response) {
        push_part(alloc, out, response.as_slice());
    }
}

/// The bytes of a request: its method and target, and what stands behind the first newline.
fn request_text(alloc: Global, field: &str) -> Result<String, AllocError> {
    let (line, rest) = match field.split_once('\n') {
        Some(parts) => parts,
        None => (field, "\r\n"),
    };
    format!(in alloc; "{line} HTTP/1.1\r\nHost: x\r\n{rest}")
}

/// A site under way: what it has kept, and the number of its next request.
#[derive(Drop)]
struct Served {
    site: Site,
    files: FakeFiles,
    tables: CalmTables,
    number: u64,
}

/// Serves a request, and adds its answer.
fn push_served(
    alloc: Global,
    out: &mut Line,
    served: &mut Served,
    request: &Request,
) -> Result<(), AllocError> {
    let mut calls = Calls {
        made: 0,
        failed: FailList::new(alloc),
    };
    let outcome = serve_one(
        alloc,
        &mut served.site,
        request,
        served.number,
        &mut served.files,
        &mut served.tables,
        &mut calls,
    )?;
    push_outcome(alloc, out, served.number, &outcome, &calls);
    Ok(())
}

/// Serves the request of a field, and adds its answer.
fn push_answer(
    alloc: Global,
    out: &mut Line,
    served: &mut Served,
    field: &str,
) -> Result<(), AllocError> {
    let text = request_text(alloc, field)?;
    match next_request(alloc, text.as_bytes())? {
        Step::Got { request, .. } => push_served(alloc, out, served, &request)?,
        Step::Refuse { status } => push_refusal(alloc, out, status),
        Step::Need => out.push_str("no whole request"),
    }
    Ok(())
}

fn is_request(field: &str) -> bool {
    field.starts_with("GET /") || field.starts_with("HEAD /") || field.starts_with("POST /")
}

/// Puts a file, whose field may hold a shadow text behind its name.
fn put_file(files: &mut FakeFiles, field: &str, bytes: &str) -> Result<(), AllocError> {
    let (name, shadow) = cut(field, ' ');
    files.put(name.as_bytes(), bytes.as_bytes(), shadow.as_bytes())
}

/// Serves the request of a field, and adds its answer. The next request has the next number.
fn serve(alloc: Global, out: &mut Line, served: &mut Served, field: &str) {
    let done = push_answer(alloc, out, served, field);
    out.note(done);
    served.number = served.number.saturating_add(1);
}

/// Makes the table or the row of a field. `false` where it spells neither.
fn make(alloc: Global, out: &mut Line, served: &mut Served, field: &str) -> bool {
    if let Some(table) = field.strip_prefix("table ") {
        out.note(make_table(alloc, &mut served.tables, table));
    } else if let Some(row) = field.strip_prefix("row ") {
        out.note(put_row(alloc, &mut served.tables, row));
    } else {
        return false;
    }
    true
}

/// Adds a line with what is kept, where a field asks for that. `false` where it doesn't.
fn look(alloc: Global, out: &mut Line, served: &Served, field: &str) -> bool {
    if let Some(name) = field.strip_prefix("show ") {
        out.begin_line();
        push_table(alloc, out, name, served.tables.table(name.as_bytes()));
    } else if let Some(path) = field.strip_prefix("LOOK ") {
        out.begin_line();
        push_entry(alloc, out, path, served.files.get(path.as_bytes()));
    } else if field == "PARSES" {
        out.begin_line();
        out.tell("", served.site.parses(), " texts read");
    } else {
        return false;
    }
    true
}

/// Adds a line with the answer to the request of a field. `false` where it is none.
fn answer(alloc: Global, out: &mut Line, served: &mut Served, field: &str) -> bool {
    if is_request(field) {
        out.begin_line();
        serve(alloc, out, served, field);
        return true;
    }
    false
}

/// Takes the fields of a site one after the other, and answers its requests.
fn push_answers(alloc: Global, out: &mut Line, served: &mut Served, line: &str) {
    let mut name: Option<&str> = None;
    for field in line.split('|') {
        if let Some(at) = name {
            out.note(put_file(&mut served.files, at, field));
            name = None;
        } else if !make(alloc, out, served, field)
            && !look(alloc, out, served, field)
            && !answer(alloc, out, served, field)
        {
            name = Some(field);
        }
    }
}

/// The answers of a site that is empty yet.
fn answers(alloc: Global, fuel: u32, fail: FailList, line: &str) -> Result<String, AllocError> {
    let mut served = Served {
        site: Site::new(alloc, fuel)?,
        files: FakeFiles::new(alloc, fail),
        tables: CalmTables::new(alloc),
        number: 1,
    };
    let mut out = Line::new(alloc);
    push_answers(alloc, &mut out, &mut served, line);
    out.end()
}

/// What stands behind a word at the front of a line, and the rest of the line. Nothing where the word isn't there.
fn option<'a>(word: &str, line: &'a str) -> (&'a str, &'a str) {
    let (front, rest) = cut(line, '|');
    match front.strip_prefix(word) {
        Some(numbers) => (numbers, rest),
        None => ("", line),
    }
}

fn run(alloc: Global, line: &str) -> Result<String, AllocError> {
    if line.starts_with("# ") {
        return String::from_str(alloc, line);
    }
    let text = unescaped(alloc, line)?;
    let (fuel, rest) = option("fuel ", text.as_str());
    let (fail, rest) = option("fail ", rest);
    let fuel = fuel.parse::<u32>().unwrap_or(100_000);
    answers(alloc, fuel, fails_in(alloc, fail, 0)?, rest)
}

fn main(rt: HostRuntime) -> io::Result<()> {
    print_answers(&rt, run)
}
