//! Policy texts.

use crate::stop::Stop;
use crate::values::{push_value, value_in};
use resin_frozen::{
    FreezeFault, Frozen, Rest, Stop as ReadStop, are_fields, freeze, is_class, thaw,
};
use resin_table_rows::{bytes_in, push_bytes};
use resin_value::Fields;
use resin_value::under::bytes::Bytes;
use std::alloc::{AllocError, Global};

// Puts a field last that a word spells: its name, and its value behind a space.
fn push_field(alloc: Global, fields: &mut Fields, field: &str) -> Result<(), Stop> {
    let (name, value) = field.split_once(' ').unwrap_or((field, ""));
    let value = value_in(alloc, value)?;
    let name = Bytes::from_slice(alloc, &bytes_in(alloc, name)?)?;
    Ok(fields.push((name, value))?)
}

// The fields that a row spells.
fn fields_in(alloc: Global, row: &[&str]) -> Result<Fields, Stop> {
    let mut fields = Fields::new(alloc);
    for field in row {
        push_field(alloc, &mut fields, field)?;
    }
    Ok(fields)
}

// The text of a class and fields, or the name of the fault.
fn push_text(alloc: Global, out: &mut String, class: &[u8], fields: &Fields) -> Result<(), Stop> {
    if !is_class(class) || !are_fields(alloc, fields)? {
        return Err(Stop::Unreadable);
    }
    out.push(' ')?;
    match freeze(alloc, class, fields) {
        Ok(text) => push_bytes(out, text.as_slice())?,
        Err(FreezeFault::NotStorable) => out.push_str("NotStorable")?,
        Err(FreezeFault::Memory) => out.push_str("Memory")?,
    }
    Ok(())
}

/// Puts the policy text of a row last.
pub fn push_frozen(alloc: Global, out: &mut String, class: &str, row: &[&str]) -> Result<(), Stop> {
    let fields = fields_in(alloc, row)?;
    push_text(alloc, out, &bytes_in(alloc, class)?, &fields)
}

/// The policy text at the front of bytes.
pub fn policy_of(alloc: Global, bytes: &[u8]) -> Result<Frozen, Stop> {
    Ok(Frozen::read(alloc, &mut Rest::new(bytes))?)
}

/// The policy text that a field spells.
pub fn policy_in(alloc: Global, field: &str) -> Result<Frozen, Stop> {
    policy_of(alloc, &bytes_in(alloc, field)?)
}

// Puts fields last.
fn push_fields(out: &mut String, fields: &Fields) -> Result<(), AllocError> {
    for (name, value) in fields.as_slice() {
        out.push(' ')?;
        push_bytes(out, name.as_slice())?;
        push_value(out, value)?;
    }
    Ok(())
}

// Puts the class and the fields of a policy text last, and the text that they freeze to.
fn push_class(alloc: Global, out: &mut String, text: &Frozen) -> Result<(), Stop> {
    let (class, fields) = thaw(alloc, text)?;
    out.push(' ')?;
    push_bytes(out, class.as_slice())?;
    push_fields(out, &fields)?;
    out.push_str(" ->")?;
    push_text(alloc, out, class.as_slice(), &fields)
}

/// Puts the class and the fields of a policy text last, and the text that they freeze to.
pub fn push_thawed(alloc: Global, out: &mut String, text: &str) -> Result<(), Stop> {
    match policy_in(alloc, text) {
        Ok(text) => push_class(alloc, out, &text),
        Err(Stop::Unreadable) => Ok(out.push_str(" none")?),
        Err(Stop::Memory) => Err(Stop::Memory),
    }
}

// Puts a policy text last, and what is behind it.
fn push_split(out: &mut String, text: &[u8], rest: &[u8]) -> Result<(), AllocError> {
    out.push(' ')?;
    push_bytes(out, text)?;
    out.push_str(" + ")?;
    push_bytes(out, rest)
}

/// Puts the policy text at the front of bytes last, and what is behind it.
pub fn push_front(alloc: Global, out: &mut String, text: &str) -> Result<(), Stop> {
    let bytes = bytes_in(alloc, text)?;
    let mut rest = Rest::new(&bytes);
    Ok(match Frozen::read(alloc, &mut rest) {
        Ok(text) => push_split(out, text.as_slice(), rest.bytes())?,
        Err(ReadStop::Form) => out.push_str(" none")?,
        Err(ReadStop::Memory) => out.push_str(" Memory")?,
    })
}
