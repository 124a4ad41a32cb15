//! Reads a statement of the joint grammar from each line and prints its tree, or the offset of its fault. In the input `\n`, `\r`, `\t`, `\\` and
//! `\xhh` stand for a byte. `\1` to `\9` let the bytes behind them carry the policy of that number alone, `\0` none. A line
//! `@COUNT@FRONT@PART@BACK` stands for FRONT, COUNT times PART, and BACK. A literal is printed with the sets of its bytes, each
//! before the bytes that carry it. Of a statement that is no join and no total only its first word is printed.
//!
//! The output was made by a program in another language that knows the grammar alone: `tests/joint/rows.py`.
#![tactic(auto)]

use resin_joint::{JoinStmt, MoreStmt, TotalItem, TotalStmt, read_more};
use resin_sql::Stmt;
use resin_table_rows::{Line, print_answers};
use resin_table_sql::{Printer, answered, push_fault, push_limit};
use std::io;

fn push_of(out: &mut Line, function: &str, column: &[u8]) {
    out.push_str(function);
    out.push(':');
    out.push_text_bytes(column);
}

fn push_item(out: &mut Line, item: &TotalItem) {
    match item {
        TotalItem::Count => out.push_str(" count"),
        TotalItem::Sum(column) => push_of(out, " sum", column.as_slice()),
        TotalItem::Min(column) => push_of(out, " min", column.as_slice()),
        TotalItem::Max(column) => push_of(out, " max", column.as_slice()),
        TotalItem::GroupConcat(column) => push_of(out, " concat", column.as_slice()),
    }
}

fn plain(statement: &Stmt) -> &'static str {
    match statement {
        Stmt::Create(_) => "create",
        Stmt::Insert(_) => "insert",
        Stmt::Select(_) => "select",
        Stmt::Update(_) => "update",
        Stmt::Delete(_) => "delete",
    }
}

fn push_sources(out: &mut Line, join: &JoinStmt) {
    out.push_str(" from ");
    out.push_text_bytes(join.table.as_slice());
    out.push_str(" with ");
    out.push_text_bytes(join.joined.as_slice());
    out.push_str(" on ");
    out.push_text_bytes(join.on.0.as_slice());
    out.push('=');
    out.push_text_bytes(join.on.1.as_slice());
}

fn push_join(out: &mut Line, printer: Printer<'_>, join: &JoinStmt) {
    out.push_str("join");
    for column in join.columns.as_slice() {
        out.push(' ');
        out.push_text_bytes(column.as_slice());
    }
    push_sources(out, join);
    printer.push_where(out, &join.condition);
    push_limit(out, join.limit);
}

fn push_total(out: &mut Line, printer: Printer<'_>, total: &TotalStmt) {
    out.push_str("total");
    for item in total.items.as_slice() {
        push_item(out, item);
    }
    out.push_str(" from ");
    out.push_text_bytes(total.table.as_slice());
    printer.push_where(out, &total.condition);
}

fn push_statement(out: &mut Line, printer: Printer<'_>, statement: &MoreStmt) {
    match statement {
        MoreStmt::Plain(statement) => out.push_str(plain(statement)),
        MoreStmt::Join(join) => push_join(out, printer, join),
        MoreStmt::Total(total) => push_total(out, printer, total),
    }
}

fn push_answer(out: &mut Line, printer: Printer<'_>) {
    match read_more(printer.alloc, printer.text) {
        Ok(statement) => push_statement(out, printer, &statement),
        Err(fault) => push_fault(out, fault),
    }
}

fn main(rt: HostRuntime) -> io::Result<()> {
    print_answers(&rt, |alloc, line| answered(alloc, line, push_answer))
}
