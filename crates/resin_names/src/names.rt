//! Names as keys.
ghost use Rattle.std.specs.Prelude.{◌≡◌, ◌<◌, fold, length, position, slice_get, MatchOption, None};
ghost use Rattle.std.specs.Map.{lookup, values_of};
ghost use Rattle.std.specs.Cmp.{on_equiv, partial_equiv_from_equiv};
ghost use Rattle.std.specs.Cmp.Lexicographic.{nat_list_eq_equiv};
ghost use Rattle.std.specs.Cmp.Rules.{hashing};
ghost use Rattle.std.specs.Hash as fed;
ghost use Rattle.std.specs.Str.{bytes_eq};
ghost use Rattle.std.specs.Cmp.Lexicographic.{bytes_decides};
ghost use Rattle.std.proofs.Common.{ap};
ghost use Rattle.std.proofs.Common.{rules};
ghost use Rattle.indexmap.specs.IndexMap.{keys};
ghost use Rattle.resin_names.specs.Names.{same_name, fed_name, same_name_equiv, same_name_fed};

use indexmap::{Equivalent, IndexMap};
use resin_items::SharedBytes;
use std::alloc::AllocError;
use std::hash::{Hash, Hasher};
use std::marker::Model;

/// The name of a class or a method, as a key. Names that differ in the case of ASCII letters alone are equal.
#[derive(Drop)]
pub struct CaselessName {
    bytes: SharedBytes,
}

impl Model for CaselessName {
    ghost use Rattle.std.specs.Prelude.{ℕ, List};

    ghost Value = { List ℕ };

    ghost view = { λ n. n.bytes };
}

impl CaselessName {
    /// The key of a name.
    pub fn kept(bytes: SharedBytes) -> CaselessName
        ensures { result ≡ bytes }
    {
        CaselessName { bytes }
    }
}

impl Clone for CaselessName {
    ghost is_clone = { λ n copy. copy ≡ n };

    fn clone(&self) -> Result<CaselessName, AllocError> {
        Ok(CaselessName {
            bytes: self.bytes.clone()?,
        })
    }
}

/// The name of a class or a method that is looked up.
#[derive(Clone, Copy)]
pub struct SoughtName<'a> {
    pub bytes: &'a [u8],
}

impl<'a> SoughtName<'a> {
    /// A name by its bytes. It takes no memory.
    pub fn lent(bytes: &'a [u8]) -> SoughtName<'a>
        ensures { result.bytes.now ≡ bytes.now }
    {
        SoughtName { bytes }
    }
}

// Feeds bytes to a hasher, ASCII letters in lower case.
fn feed<H: Hasher>(bytes: &[u8], state: &mut H)
    ensures { state.new ≡ fold H.write state.old (fed_name bytes.now) }
{
    for byte in bytes {
        state.write_u8(byte.to_ascii_lowercase());
    }
}

impl PartialEq for CaselessName {
    ghost eq = { same_name };

    ghost laws = { partial_equiv_from_equiv same_name_equiv };

    fn eq(&self, other: &Self) -> bool {
        self.bytes
            .as_slice()
            .eq_ignore_ascii_case(other.bytes.as_slice())
    }
}

impl Eq for CaselessName {
    ghost laws = { same_name_equiv };
}

impl Hash for CaselessName {
    ghost hash_input = { fed_name };

    ghost respects_eq = { same_name_fed };

    fn hash<H: Hasher>(&self, state: &mut H) {
        feed(self.bytes.as_slice(), state);
    }
}

impl<'a> PartialEq for SoughtName<'a> {
    ghost eq = { λ a b. same_name a.bytes.now b.bytes.now };

    ghost laws = { partial_equiv_from_equiv (on_equiv (λ n. n.bytes.now) same_name_equiv) };

    fn eq(&self, other: &Self) -> bool {
        self.bytes.eq_ignore_ascii_case(other.bytes)
    }
}

impl<'a> Eq for SoughtName<'a> {
    ghost laws = { on_equiv (λ n. n.bytes.now) same_name_equiv };
}

impl<'a> Hash for SoughtName<'a> {
    ghost hash_input = { λ n. fed_name n.bytes.now };

    ghost respects_eq = { λ a b. same_name_fed a.bytes.now b.bytes.now };

    fn hash<H: Hasher>(&self, state: &mut H) {
        feed(self.bytes, state);
    }
}

impl<'a> Equivalent<CaselessName> for SoughtName<'a> {
    ghost equivalent = { λ n. same_name n.bytes.now };

    ghost respects_hash = { λ n. same_name_fed n.bytes.now };

    ghost respects_eq = { λ n. same_name_equiv.congr n.bytes.now };

    fn equivalent(&self, key: &CaselessName) -> bool {
        self.bytes.eq_ignore_ascii_case(key.bytes.as_slice())
    }
}

/// The name of a field, as a key. It is looked up by its bytes.
#[derive(Drop)]
pub struct FieldName {
    bytes: SharedBytes,
}

impl Model for FieldName {
    ghost use Rattle.std.specs.Prelude.{ℕ, List};

    ghost Value = { List ℕ };

    ghost view = { λ n. n.bytes };
}

impl FieldName {
    /// The key of a name.
    pub fn kept(bytes: SharedBytes) -> FieldName
        ensures { result ≡ bytes }
    {
        FieldName { bytes }
    }

    /// The bytes of the name.
    pub fn as_slice(&self) -> &[u8]
        ensures { result.now ≡ self.now }
    {
        self.bytes.as_slice()
    }
}

impl PartialEq for FieldName {
    ghost eq = { bytes_eq };

    ghost laws = { partial_equiv_from_equiv nat_list_eq_equiv };

    fn eq(&self, other: &Self) -> bool {
        self.as_slice() == other.as_slice()
    }
}

impl Eq for FieldName {
    ghost laws = { nat_list_eq_equiv };
}

impl Hash for FieldName {
    ghost hash_input = { fed.slice fed.u8 };

    ghost respects_eq = { Prim.search (hashing, rules) };

    fn hash<H: Hasher>(&self, state: &mut H) {
        self.as_slice().hash(state);
    }
}

impl Equivalent<FieldName> for &[u8] {
    ghost equivalent = { λ q. bytes_eq q.now };

    ghost respects_hash = { λ q k h. ap (fed.slice fed.u8) ((bytes_decides q.now k).0 h) };

    ghost respects_eq = { λ q. nat_list_eq_equiv.congr q.now };

    fn equivalent(&self, key: &FieldName) -> bool {
        *self == key.as_slice()
    }
}

/// The place of a key in a map, by what stands for it; `None` exactly where the map has no such key.
pub fn place_of<K: Eq + Hash, V, Q: Equivalent<K>>(map: &IndexMap<K, V>, key: Q) -> Option<usize>
    ensures place { result ≡ position (Q.equivalent key) (keys map.now) }
    ensures value { MatchOption result (lookup (Q.equivalent key) map.now.entries ≡ None)
        (λ i. (i < length map.now.entries) × (slice_get (values_of map.now.entries) i ≡ lookup (Q.equivalent key) map.now.entries)) }
{
    map.get_index_of(key)
}
