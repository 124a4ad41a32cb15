//! Acts on the machine.

use crate::shown::{push_bytes, push_stop, push_text, push_value};
use resin_shadow::encode;
use resin_step_keeping::freezing::freeze_text;
use resin_step_keeping::thawing::thaw_entry;
use resin_step_parts::under::base::Entry;
use resin_step_parts::under::bytes::Bytes;
use resin_step_parts::under::lstr::LText;
use resin_step_parts::under::machine::{Machine, Stop};
use resin_table_rows::{Line, Row, bytes_in};
use resin_table_values::{text_in, value_in};
use std::alloc::{AllocError, Global};

fn made(row: Row<'_>, m: &mut Machine) -> Result<u32, Stop> {
    let name = bytes_in(row.alloc, row.field(1))?;
    let class = m.find_class(&name)?;
    m.make_object(class)
}

/// Makes an object of a class, and tells its number.
pub fn push_made(row: Row<'_>, m: &mut Machine, out: &mut Line) {
    match made(row, m) {
        Ok(object) => out.tell(" = ", u64::from(object), ""),
        Err(stop) => push_stop(out, stop),
    }
}

fn set_named(row: Row<'_>, m: &mut Machine, name: &[u8]) -> Result<(), Stop> {
    let value = value_in(row, row.field(3))?;
    m.set_field(row.number(1), name, value)
}

/// Gives a field of an object a value.
pub fn set(row: Row<'_>, m: &mut Machine) -> Result<(), Stop> {
    let name = bytes_in(row.alloc, row.field(2))?;
    set_named(row, m, &name)
}

/// The shadow text of a labelled text.
pub fn shadow_of(alloc: Global, m: &Machine, text: &LText) -> Result<Bytes, Stop> {
    let runs = freeze_text(alloc, m, text)?;
    Ok(encode(alloc, &runs)?)
}

fn frozen(row: Row<'_>, m: &Machine) -> Result<Bytes, Stop> {
    let text = text_in(row.alloc, row.field(1))?;
    shadow_of(row.alloc, m, &text)
}

/// Puts the shadow text of a labelled text last.
pub fn push_frozen(row: Row<'_>, m: &Machine, out: &mut Line) {
    match frozen(row, m) {
        Ok(shadow) => {
            out.push_str(" = ");
            push_bytes(out, shadow.as_slice());
        }
        Err(stop) => push_stop(out, stop),
    }
}

fn spelled(alloc: Global, field: &str) -> Result<Bytes, AllocError> {
    let bytes = bytes_in(alloc, field)?;
    Bytes::from_slice(alloc, &bytes)
}

/// The entry that a row spells.
pub fn entry_in(row: Row<'_>) -> Result<Entry, AllocError> {
    let bytes = spelled(row.alloc, row.field(1))?;
    let shadow = spelled(row.alloc, row.field(2))?;
    Ok(Entry { bytes, shadow })
}

/// So many bytes with a shadow text that is none.
pub fn long_entry(row: Row<'_>) -> Result<Entry, AllocError> {
    let bytes = vec![in row.alloc; b'a'; row.number(1) as usize]?;
    let bytes = Bytes::from_slice(row.alloc, &bytes)?;
    let shadow = Bytes::from_slice(row.alloc, b"none")?;
    Ok(Entry { bytes, shadow })
}

/// What a read makes of an entry.
pub fn thawed(
    alloc: Global,
    m: &mut Machine,
    entry: Result<Entry, AllocError>,
) -> Result<LText, Stop> {
    let entry = entry?;
    thaw_entry(alloc, m, &entry)
}

/// Puts the text that a read makes of an entry last.
pub fn push_thawed(row: Row<'_>, m: &mut Machine, out: &mut Line) {
    match thawed(row.alloc, m, entry_in(row)) {
        Ok(text) => {
            out.push_str(" = ");
            push_text(out, &text);
        }
        Err(stop) => push_stop(out, stop),
    }
}

/// Puts how many bytes a read makes of so many with a shadow text that is none last.
pub fn push_long(row: Row<'_>, m: &mut Machine, out: &mut Line) {
    match thawed(row.alloc, m, long_entry(row)) {
        Ok(text) => out.tell(" = ", text.len() as u64, ""),
        Err(stop) => push_stop(out, stop),
    }
}

/// Puts the class and the fields of an object last.
pub fn push_object(row: Row<'_>, m: &Machine, out: &mut Line) {
    let o = row.number(1);
    if !m.heap().has(o) {
        return row.fail();
    }
    out.push_str(" = ");
    push_bytes(out, m.name_of(o));
    let fields = m.heap().fields(o);
    for i in 0..fields.len() {
        let (name, value) = fields.entry(i);
        out.push(' ');
        push_bytes(out, name);
        push_value(out, value);
    }
}
