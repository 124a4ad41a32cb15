//! Reads a statement from each line and prints its tree, or the offset of its fault. In the input `\n`, `\r`, `\t`, `\\` and
//! `\xhh` stand for a byte. `\1` to `\9` let the bytes behind them carry the policy of that number alone, `\0` none. A line
//! `@COUNT@FRONT@PART@BACK` stands for FRONT, COUNT times PART, and BACK. A literal is printed with the sets of its bytes, each
//! before the bytes that carry it. The output was worked out by hand from the grammar.
#![tactic(auto)]

use resin_base::{Kind, Names};
use resin_items::Items;
use resin_sql::{Change, Create, Delete, Insert, Literal, Order, Select, Stmt, Update, read_sql};
use resin_table_rows::{Line, print_answers};
use resin_table_sql::{Printer, answered, push_fault, push_limit};
use std::io;

fn push_names(out: &mut Line, names: &Option<Names>) {
    let Some(names) = names else {
        return out.push('*');
    };
    for name in names.as_slice() {
        out.push('.');
        out.push_text_bytes(name.as_slice());
    }
}

fn push_create(out: &mut Line, create: &Create) {
    out.push_str("create ");
    out.push_text_bytes(create.table.as_slice());
    for column in create.columns.as_slice() {
        out.push(' ');
        out.push_text_bytes(column.name.as_slice());
        out.push_str(match column.kind {
            Kind::Integer => ":integer",
            Kind::Text => ":text",
        });
    }
}

fn push_row(out: &mut Line, printer: Printer<'_>, row: &Items<Literal>) {
    out.push('(');
    for literal in row.as_slice() {
        printer.push_literal(out, *literal);
        out.push(',');
    }
    out.push(')');
}

fn push_insert(out: &mut Line, printer: Printer<'_>, insert: &Insert) {
    out.push_str("insert ");
    out.push_text_bytes(insert.table.as_slice());
    out.push(' ');
    push_names(out, &insert.columns);
    out.push(' ');
    for row in insert.rows.as_slice() {
        push_row(out, printer, row);
    }
}

fn push_order(out: &mut Line, order: &Option<Order>) {
    if let Some(order) = order {
        out.push_str(if order.descending {
            " falling "
        } else {
            " rising "
        });
        out.push_text_bytes(order.column.as_slice());
    }
}

fn push_select(out: &mut Line, printer: Printer<'_>, select: &Select) {
    out.push_str("select ");
    push_names(out, &select.columns);
    out.push_str(" from ");
    out.push_text_bytes(select.table.as_slice());
    printer.push_where(out, &select.condition);
    push_order(out, &select.order);
    push_limit(out, select.limit);
}

fn push_change(out: &mut Line, printer: Printer<'_>, change: &Change) {
    out.push(' ');
    out.push_text_bytes(change.column.as_slice());
    out.push('=');
    printer.push_literal(out, change.literal);
}

fn push_update(out: &mut Line, printer: Printer<'_>, update: &Update) {
    out.push_str("update ");
    out.push_text_bytes(update.table.as_slice());
    for change in update.changes.as_slice() {
        push_change(out, printer, change);
    }
    printer.push_where(out, &update.condition);
}

fn push_delete(out: &mut Line, printer: Printer<'_>, delete: &Delete) {
    out.push_str("delete ");
    out.push_text_bytes(delete.table.as_slice());
    printer.push_where(out, &delete.condition);
}

fn push_statement(out: &mut Line, printer: Printer<'_>, statement: &Stmt) {
    match statement {
        Stmt::Create(create) => push_create(out, create),
        Stmt::Insert(insert) => push_insert(out, printer, insert),
        Stmt::Select(select) => push_select(out, printer, select),
        Stmt::Update(update) => push_update(out, printer, update),
        Stmt::Delete(delete) => push_delete(out, printer, delete),
    }
}

fn push_answer(out: &mut Line, printer: Printer<'_>) {
    match read_sql(printer.alloc, printer.text) {
        Ok(statement) => push_statement(out, printer, &statement),
        Err(fault) => push_fault(out, fault),
    }
}

fn main(rt: HostRuntime) -> io::Result<()> {
    print_answers(&rt, |alloc, line| answered(alloc, line, push_answer))
}
