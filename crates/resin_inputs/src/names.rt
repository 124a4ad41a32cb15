//! Names of form values, cookies and fields.
ghost use Rattle.std.specs.Prelude.{◌≡◌, IfOk, List, ℕ, IsTrue};
ghost use Rattle.std.specs.Option.{option_map};
ghost use Rattle.std.specs.Borrow.{Bor};
ghost use Rattle.resin_inputs.specs.Names.{is_named, tidied_byte, tidied, name_key, entry_of, parts_of};
ghost use Rattle.resin_value.specs.Keys.{is_lawful, text_key};

use crate::cuts::split_at_bracket;
use resin_value::Key;
use std::alloc::{AllocError, Global};

/// Whether the name of a field is this one, whatever the case of ASCII letters.
pub fn is_named(name: &[u8], wanted: &[u8]) -> bool
    ensures { result ≡ is_named wanted.now name.now }
{
    name.eq_ignore_ascii_case(wanted)
}

/// The key of a name, in which `.` and space become `_`.
pub(crate) fn name_key(alloc: Global, name: &[u8]) -> Result<Key, AllocError>
    ensures key { IfOk result (λ key. key ≡ name_key name.now) }
    ensures lawful { IfOk result (λ key. IsTrue (is_lawful key)) }
{
    let tidied = tidied(alloc, name)?;
    text_key(alloc, tidied.as_slice())
}

// A name with `_` in place of `.` and space.
fn tidied(alloc: Global, name: &[u8]) -> Result<Vec<u8>, AllocError>
    ensures { IfOk result (λ text. text.items ≡ tidied name.now) }
{
    name.iter().map(|b| tidied_byte(*b)).collect(alloc)
}

/// The key that a text counts as.
pub(crate) fn text_key(alloc: Global, text: &[u8]) -> Result<Key, AllocError>
    ensures key { IfOk result (λ key. key ≡ text_key text.now) }
    ensures lawful { IfOk result (λ key. IsTrue (is_lawful key)) }
{
    Key::from_text(alloc, text)
}

// `_` in place of `.` and space.
fn tidied_byte(b: u8) -> u8
    ensures { result ≡ tidied_byte b }
{
    if b == b'.' || b == b' ' { b'_' } else { b }
}

/// The parts b and k of a name `b[k]`, where b is not empty and neither holds a bracket. `None` for every other name.
pub(crate) fn entry_of(name: &[u8]) -> Option<(&[u8], &[u8])>
    ensures { option_map (λ (p : Bor (List ℕ) × Bor (List ℕ)). (p.0.now, p.1.now)) result ≡ entry_of name.now }
{
    let (outer, rest) = split_at_bracket(name);
    parts_of(outer, rest)
}

// The parts of a name whose first bracket stands before the rest.
fn parts_of<'a>(outer: &'a [u8], rest: &'a [u8]) -> Option<(&'a [u8], &'a [u8])>
    ensures { option_map (λ (p : Bor (List ℕ) × Bor (List ℕ)). (p.0.now, p.1.now)) result ≡ parts_of outer.now rest.now }
{
    let (first, inside) = rest.split_first()?;
    let (inner, end) = split_at_bracket(inside);
    if outer.len() > 0 && *first == b'[' && end == b"]".as_slice() {
        Some((outer, inner))
    } else {
        None
    }
}
