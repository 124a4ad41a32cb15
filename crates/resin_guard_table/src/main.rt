//! Reads a text from each line and prints what a guard says of it. In the input `\n`, `\r`, `\t`, `\\` and `\xhh` stand for a byte. `\1` to
//! `\9` let the bytes behind them carry the policy of that number alone, `\0` none. A line begins with `p` and a space where the text
//! is a page, with `q` where it is a query, and with `l` where the places of a query's literals are printed. A text
//! `@COUNT@FRONT@PART@BACK` stands for FRONT, COUNT times PART, and BACK. The policy 1 is the untrusted one. The output was made by
//! programs that know the rules alone: of pages as a regular language and its derivatives, of queries by trying every way.
#![tactic(auto)]

use resin_guard::{Guard, html_guard, literal_spans, sql_guard};
use resin_label::PSet;
use resin_lstr::LText;
use resin_table_rows::{Line, cut, print_answers};
use resin_table_sql::{Printer, answered, push_fault};
use std::alloc::{AllocError, Global};
use std::io;

fn push_verdict(out: &mut Line, guard: Guard) {
    match guard {
        Guard::Pass => out.push_str("pass"),
        Guard::Bad { offset } => out.tell("bad ", offset, ""),
        Guard::Untrusted { offset } => out.tell("untrusted ", offset, ""),
    }
}

fn push_places(out: &mut Line, places: &[(usize, usize)]) {
    for (i, place) in places.iter().enumerate() {
        out.tell(if i > 0 { " " } else { "" }, place.0 as u64, "-");
        out.push_natural(place.1 as u64);
    }
}

fn push_literals(alloc: Global, out: &mut Line, text: &LText) {
    match literal_spans(alloc, text) {
        Ok(places) => push_places(out, places.as_slice()),
        Err(fault) => push_fault(out, fault),
    }
}

fn push_answer(out: &mut Line, kind: &str, printer: Printer<'_>) -> Result<(), AllocError> {
    let Printer { alloc, text } = printer;
    let bad = PSet::empty().with(alloc, 1)?;
    match kind {
        "p" => push_verdict(out, html_guard(alloc, text, &bad)?),
        "q" => push_verdict(out, sql_guard(alloc, text, &bad)?),
        _ => push_literals(alloc, out, text),
    }
    Ok(())
}

fn shown(alloc: Global, line: &str) -> Result<String, AllocError> {
    let (kind, field) = cut(line, ' ');
    answered(alloc, field, |out, printer| {
        let done = push_answer(out, kind, printer);
        out.note(done);
    })
}

fn main(rt: HostRuntime) -> io::Result<()> {
    print_answers(&rt, shown)
}
