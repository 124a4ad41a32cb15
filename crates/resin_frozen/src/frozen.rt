//! Policy texts.
ghost use Rattle.std.specs.Prelude.{◌≡◌, true, nat_eq, IfOk, Some};
ghost use Rattle.std.specs.Hash as fed;
ghost use Rattle.std.specs.Cmp.{partial_equiv_from_equiv};
ghost use Rattle.std.specs.Cmp.Lexicographic.{pointwise, nat_list_eq_equiv};
ghost use Rattle.std.specs.Cmp.Rules.{hashing};
ghost use Rattle.std.proofs.Common.{rules};
ghost use Rattle.std.specs.List.{list_all};
ghost use Rattle.resin_value.specs.declared.key.Key.TheVariants.{Text};
ghost use Rattle.resin_frozen.specs.Policies.{IsPolicyText, is_field_key, pairs_of, Says};
ghost use Rattle.resin_frozen.specs.Reads.{Reads, Thaws, Tells};
ghost use Rattle.resin_frozen.specs.Reading.{front, said};

use crate::policy::read_policy;
use crate::rest::Rest;
use crate::stop::Stop;
use resin_items::SharedBytes;
use resin_value::under::bytes::Bytes;
use resin_value::{Arr, Fields, Key};
use std::alloc::{AllocError, Global};
use std::hash::{Hash, Hasher};
use std::marker::Model;

/// A policy text: the class of a policy and its fields. Contracts see its bytes.
#[derive(Drop)]
pub struct Frozen {
    bytes: SharedBytes,
}

impl Model for Frozen {
    ghost use Rattle.std.specs.Prelude.{ℕ, List};
    ghost use Rattle.resin_frozen.specs.Policies.{IsPolicyText};

    ghost Value = { List ℕ };

    ghost view = { λ f. f.bytes };

    ghost invariant = { λ f. IsPolicyText f.bytes };
}

impl Frozen {
    // The text that these bytes are.
    pub(crate) fn kept(bytes: SharedBytes) -> Frozen
        requires { IsPolicyText bytes }
        ensures { result ≡ bytes }
    {
        Frozen { bytes }
    }

    /// The bytes.
    pub fn as_slice(&self) -> &[u8]
        ensures bytes { result.now ≡ self.now }
        ensures policy { IsPolicyText self.now }
    {
        self.bytes.as_slice()
    }

    /// Reads the policy text that stands in front of what is left, `Form` exactly where none does. No text of a policy is the front of another's.
    pub fn read(alloc: Global, rest: &mut Rest<'_>) -> Result<Frozen, Stop>
        ensures { Reads (front rest.old) result rest.new }
    {
        let bytes = rest.bytes();
        read_policy(alloc, rest)?;
        let len = bytes.len() - rest.bytes().len();
        let text = SharedBytes::from_slice(alloc, &bytes[..len])?;
        Ok(Frozen::kept(text))
    }
}

impl Clone for Frozen {
    ghost is_clone = { λ f copy. copy ≡ f };

    /// One more owner of the same bytes. It fails only where the count of owners is full.
    fn clone(&self) -> Result<Frozen, AllocError> {
        Ok(Frozen {
            bytes: self.bytes.clone()?,
        })
    }
}

impl PartialEq for Frozen {
    ghost eq = { pointwise nat_eq };

    ghost laws = { partial_equiv_from_equiv nat_list_eq_equiv };

    fn eq(&self, other: &Frozen) -> bool {
        self.bytes.as_slice() == other.bytes.as_slice()
    }
}

impl Eq for Frozen {
    ghost laws = { nat_list_eq_equiv };
}

impl Hash for Frozen {
    ghost hash_input = { fed.slice fed.u8 };

    ghost respects_eq = { Prim.search (hashing, rules) };

    fn hash<H: Hasher>(&self, state: &mut H) {
        self.bytes.as_slice().hash(state);
    }
}

/// The class and the fields of the policy whose text this is. No value carries a label, and an array's next key is one more than its
/// largest integer key.
pub fn thaw(alloc: Global, f: &Frozen) -> Result<(Bytes, Fields), AllocError>
    ensures { IfOk result (λ r. Says f.now r.0 r.1) }
{
    match thawed(alloc, f) {
        Ok(parts) => Ok(parts),
        Err(Stop::Memory) => Err(AllocError),
        Err(Stop::Form) => unreachable!(),
    }
}

// The same, by reading the text, which is a policy text.
fn thawed(alloc: Global, f: &Frozen) -> Result<(Bytes, Fields), Stop>
    ensures { Thaws f.now result }
{
    let mut rest = Rest::new(f.as_slice());
    let (class, pairs) = read_policy(alloc, &mut rest)?;
    let name = Bytes::from_slice(alloc, class)?;
    let fields = fields_of(alloc, &pairs)?;
    Ok((name, fields))
}

// Pairs whose keys are names as fields.
fn fields_of(alloc: Global, pairs: &Arr) -> Result<Fields, AllocError>
    requires { list_all (λ e. is_field_key e.0) pairs.now.entries ≡ true }
    ensures { IfOk result (λ fields. pairs_of fields ≡ pairs.now.entries) }
{
    let mut fields = Fields::new(alloc);
    for i in 0..pairs.len() {
        let (key, value) = pairs.entry(i);
        let name = name_of(alloc, key)?;
        fields.push((name, value.clone()?))?;
    }
    Ok(fields)
}

// The bytes of a key that is a name.
fn name_of(alloc: Global, key: &Key) -> Result<Bytes, AllocError>
    requires { is_field_key key.now ≡ true }
    ensures { IfOk result (λ name. Text name ≡ key.now) }
{
    match key {
        Key::Text(text) => Bytes::from_slice(alloc, text.as_slice()),
        Key::Int(_) => unreachable!(),
    }
}

/// The class of the policy whose text this is, and its fields as an array by their names. No value carries a label, and an array's next key
/// is one more than its largest integer key.
pub fn said(alloc: Global, f: &Frozen) -> Result<(Bytes, Arr), AllocError>
    ensures { IfOk result (λ r. said f.now ≡ Some (r.0, r.1)) }
{
    match told(alloc, f) {
        Ok(parts) => Ok(parts),
        Err(Stop::Memory) => Err(AllocError),
        Err(Stop::Form) => unreachable!(),
    }
}

// The same, by reading the text, which is a policy text.
fn told(alloc: Global, f: &Frozen) -> Result<(Bytes, Arr), Stop>
    ensures { Tells f.now result }
{
    let mut rest = Rest::new(f.as_slice());
    let (class, fields) = read_policy(alloc, &mut rest)?;
    let owned = Bytes::from_slice(alloc, class)?;
    Ok((owned, fields))
}
