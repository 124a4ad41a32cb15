//! Reading keys and names.
ghost use Rattle.std.specs.Prelude.{◌≡◌, ◌++◌, ◌∷◌, [], IfOk, OnOk, true, IsTrue, ◌&&◌, nat_le, length};
ghost use Rattle.std.specs.List.{list_all, IsDistinct};
ghost use Rattle.std.specs.Str.{bytes_eq};
ghost use Rattle.resin_frozen.specs.Policies.{HasFieldNames};
ghost use Rattle.resin_scan.specs.Bytes as kind;
ghost use Rattle.resin_value.specs.Keys.{is_lawful};
ghost use Rattle.resin_frozen.specs.Policies as policies;
ghost use Rattle.resin_frozen.specs.Reading as spec;
ghost use Rattle.resin_frozen.specs.Reads.{Reads};

use crate::rest::Rest;
use crate::stop::Stop;
use indexmap::IndexSet;
use resin_scan::bytes::{begins_name, is_name_byte};
use resin_value::under::lstr::LONGEST;
use resin_value::{Fields, Key, KeyText};
use std::alloc::{AllocError, Global};

/// Which keys may stand in pairs.
#[derive(Clone, Copy, Debug, PartialEq, Eq)]
pub(crate) enum Keys {
    /// Those that an array may have.
    Lawful,
    /// Names of fields.
    Names,
}

/// Whether bytes are a name.
pub(crate) fn is_name(bytes: &[u8]) -> bool
    ensures { result ≡ policies.is_name bytes.now }
{
    match bytes {
        [first, others @ ..] => begins_name(*first) && name_bytes(others),
        [] => false,
    }
}

// Whether each byte may stand in a name.
fn name_bytes(bytes: &[u8]) -> bool
    ensures { result ≡ list_all kind.is_name_byte bytes.now }
{
    bytes.iter().all(|b| is_name_byte(*b))
}

/// Whether a key is a name.
pub(crate) fn is_field_key(key: &Key) -> bool
    ensures { result ≡ policies.is_field_key key.now }
{
    match key {
        Key::Int(_) => false,
        Key::Text(text) => is_name(text.as_slice()),
    }
}

// Whether a key may stand there.
fn is_fit(keys: Keys, key: &Key) -> bool
    ensures { result ≡ spec.is_fit keys key.now }
{
    match keys {
        Keys::Lawful => key.is_lawful(),
        Keys::Names => key.is_lawful() && is_field_key(key),
    }
}

// A key of any kind, behind its first two bytes.
#[tactic(auto, unfolding(crate::specs::Reading::key_behind))]
fn key_behind(alloc: Global, rest: &mut Rest<'_>, kind: &[u8]) -> Result<Key, Stop>
    ensures { Reads (spec.key_behind kind.now rest.old) result rest.new }
{
    if kind == b"i:".as_slice() {
        let number = rest.integer()?;
        Ok(Key::Int(number))
    } else if kind == b"s:".as_slice() {
        let bytes = rest.counted()?;
        let text = KeyText::from_slice(alloc, bytes)?;
        Ok(Key::Text(text))
    } else {
        Err(Stop::Form)
    }
}

/// A key that may stand there.
#[tactic(auto, unfolding(crate::specs::Reading::key))]
pub(crate) fn read_key(alloc: Global, rest: &mut Rest<'_>, keys: Keys) -> Result<Key, Stop>
    ensures reads { Reads (spec.key keys rest.old) result rest.new }
    ensures lawful { IfOk result (λ k. IsTrue (is_lawful k)) }
{
    let kind = rest.take(2)?;
    let key = key_behind(alloc, rest, kind)?;
    if is_fit(keys, &key) {
        Ok(key)
    } else {
        Err(Stop::Form)
    }
}

/// Whether bytes are the name of a class that a policy text can hold: a name, at most 16,777,216 bytes long.
pub fn is_class(class: &[u8]) -> bool
    ensures { result ≡ (policies.is_name class.now && nat_le (length class.now) LONGEST) }
{
    is_name(class) && class.len() <= LONGEST
}

/// Whether fields have names, no two the same, as the fields of an object do.
pub fn are_fields(alloc: Global, fields: &Fields) -> Result<bool, AllocError>
    ensures { IfOk result (λ are. are ≡ true → HasFieldNames fields.now) }
{
    let fields = fields.as_slice();
    let mut names = IndexSet::new(alloc);
    for (name, _) in fields {
        if !is_name(name.as_slice()) || !is_new(alloc, &mut names, name.as_slice())? {
            return Ok(false);
        }
    }
    Ok(true)
}

// Puts a name into a set, and tells whether it is new there.
fn is_new(alloc: Global, names: &mut IndexSet<KeyText>, name: &[u8]) -> Result<bool, AllocError>
    ensures added { IfOk result (λ new. new ≡ true → names.new.keys ≡ names.old.keys ++ name.now ∷ []) }
    ensures unique { OnOk result (IsDistinct bytes_eq names.new.keys) }
{
    let (_, new) = names.insert_full(KeyText::from_slice(alloc, name)?)?;
    Ok(new)
}
