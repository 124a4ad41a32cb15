//! How bytes, sets, texts, keys and values are printed.

use resin_ops::under::label::PSet;
use resin_ops::under::lstr::LText;
use resin_ops::under::value::{Key, Value};
use resin_table_rows::Line;

/// Puts bytes last as a field spells them; many as their count.
pub fn push_bytes(out: &mut Line, bytes: &[u8]) {
    let count = bytes.len();
    if count > 100 {
        out.tell("(", count as u64, ")");
    } else {
        out.push_bytes(bytes);
    }
}

/// Puts a set last, between braces.
pub fn push_set(out: &mut Line, set: &PSet) {
    out.push('{');
    for n in set.as_slice() {
        out.push_natural(u64::from(*n));
    }
    out.push('}');
}

/// Puts a text last as its runs, the bytes of each and its set.
pub fn push_text(out: &mut Line, text: &LText) {
    let mut from = 0;
    for run in text.runs() {
        let to = run.end as usize;
        push_bytes(out, text.bytes().get(from..to).unwrap_or(&[]));
        push_set(out, &run.set);
        from = to;
    }
}

/// Puts a key last.
pub fn push_key(out: &mut Line, key: &Key) {
    match key {
        Key::Int(n) => out.push_number(*n),
        Key::Text(text) => push_quoted(out, text.as_slice()),
    }
}

fn push_quoted(out: &mut Line, bytes: &[u8]) {
    out.push_str(" '");
    push_bytes(out, bytes);
    out.push('\'');
}

/// Puts a value last, an array by its count.
pub fn push_value(out: &mut Line, value: &Value) {
    match value {
        Value::Null => out.push_word("null"),
        Value::Bool(b) => out.push_truth(*b),
        Value::Int(n, set) => {
            out.push_number(*n);
            push_set(out, set);
        }
        Value::Text(text) => push_labelled(out, text),
        Value::Obj(n) => out.tell(" #", u64::from(*n), ""),
        Value::Arr(array) => out.tell(" [", array.len() as u64, "]"),
    }
}

fn push_labelled(out: &mut Line, text: &LText) {
    out.push_str(" '");
    push_text(out, text);
    out.push('\'');
}
