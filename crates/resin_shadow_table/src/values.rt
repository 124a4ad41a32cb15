//! How values are spelled in a row, read and written.

use crate::stop::Stop;
use resin_table_rows::{Row, push_bytes};
use resin_table_values::value_in as read_value;
use resin_value::Value;
use resin_value::under::lstr::LText;
use std::alloc::{AllocError, Global};
use std::cell::Cell;

/// The value that a field spells.
pub fn value_in(alloc: Global, field: &str) -> Result<Value, Stop> {
    let is_unreadable = Cell::new(false);
    let row = Row {
        alloc,
        fields: &[],
        is_unreadable: &is_unreadable,
    };
    let value = read_value(row, field)?;
    if is_unreadable.get() {
        return Err(Stop::Unreadable);
    }
    Ok(value)
}

/// Puts a value last, an array by its count and its next key. Labels are shown by a `!`.
pub fn push_value(out: &mut String, value: &Value) -> Result<(), AllocError> {
    match value {
        Value::Null => out.push_str(" null"),
        Value::Bool(b) => write!(out, " {b}"),
        Value::Int(n, set) => {
            write!(out, " {n}")?;
            push_labels(out, set.as_slice().is_empty())
        }
        Value::Text(text) => {
            out.push_str(" '")?;
            push_bytes(out, text.bytes())?;
            out.push('\'')?;
            push_labels(out, is_plain(text))
        }
        Value::Obj(n) => write!(out, " #{n}"),
        Value::Arr(array) => {
            write!(out, " [{}]", array.len())?;
            match array.next_key() {
                Some(key) => write!(out, "next={key}"),
                None => Ok(()),
            }
        }
    }
}

fn push_labels(out: &mut String, none: bool) -> Result<(), AllocError> {
    if none { Ok(()) } else { out.push('!') }
}

// Whether no byte of a text carries a label.
fn is_plain(text: &LText) -> bool {
    text.runs().iter().all(|run| run.set.as_slice().is_empty())
}
