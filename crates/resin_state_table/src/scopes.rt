//! Acts on variables, which hold integers.
use crate::answer::{push_found, push_missing, push_unknown};
use crate::objects::{integer, value};
use resin_stage::under::scope::Scopes;
use resin_table_rows::{Line, Row};

fn leave(scopes: &mut Scopes, out: &mut Line) {
    if scopes.open_calls() > 0 {
        scopes.leave();
    } else {
        push_missing(out);
    }
}

fn exchange(scopes: &mut Scopes, name: &[u8], n: i64, out: &mut Line) {
    if scopes.get(name).is_some() {
        let old = scopes.exchange(name, value(n));
        push_found(out, integer(Some(&old)));
    } else {
        push_missing(out);
    }
}

/// An act that may want memory.
fn grow(scopes: &mut Scopes, row: Row<'_>, out: &mut Line) {
    let name = row.bytes(1);
    match row.field(0) {
        "enter" => out.note(scopes.enter()),
        "set" => out.note(scopes.set(name, value(row.integer(2)))),
        "bind" => out.note(scopes.bind(name)),
        _ => push_unknown(out),
    }
}

pub fn act(scopes: &mut Scopes, row: Row<'_>, out: &mut Line) {
    let name = row.bytes(1);
    match row.field(0) {
        "leave" => leave(scopes, out),
        "get" => push_found(out, integer(scopes.get(name))),
        "exchange" => exchange(scopes, name, row.integer(2), out),
        "unset" => scopes.unset(name),
        _ => grow(scopes, row, out),
    }
}
