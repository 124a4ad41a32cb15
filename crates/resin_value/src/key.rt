//! Keys of arrays.
ghost use Rattle.std.specs.Prelude.{◌≡◌, ◌++◌, ◌∷◌, [], nat_eq, OnOk, OnErr, IfOk};
ghost use Rattle.std.specs.Hash as fed;
ghost use Rattle.std.specs.Ordering.{nat_cmp, as_partial_cmp};
ghost use Rattle.std.specs.Cmp.Lexicographic.{pointwise, slice_cmp, nat_list_eq_equiv};
ghost use Rattle.std.specs.Cmp.{partial_equiv_from_equiv};
ghost use Rattle.std.specs.Cmp.Rules.{comparing, hashing};
ghost use Rattle.std.proofs.Common.{rules};

use resin_bytes::canonical_key;
use std::alloc::{AllocError, Global};
use std::cmp::Ordering;
use std::hash::{Hash, Hasher};
use std::marker::Model;
use std::rc::RcSlice;

/// The bytes of a key that is a text. Copies share them.
pub struct KeyText {
    alloc: Global,
    // None for the empty text.
    items: Option<RcSlice<u8>>,
}

impl Drop for KeyText {
    fn drop(self) {
        let KeyText { alloc: _, items: _ } = self;
    }
}

impl Model for KeyText {
    ghost use Rattle.std.specs.Prelude.{ℕ, List};
    ghost use Rattle.resin_value.specs.Kept.{bytes_kept};

    ghost Value = { List ℕ };

    ghost view = { λ a. bytes_kept a.items };
}

impl KeyText {
    /// The empty text, which takes no memory.
    pub fn new(alloc: Global) -> KeyText
        ensures { result ≡ [] }
    {
        KeyText { alloc, items: None }
    }

    /// The bytes of a slice.
    pub fn from_slice(alloc: Global, items: &[u8]) -> Result<KeyText, AllocError>
        ensures { IfOk result (λ text. text ≡ items.now) }
    {
        let items = RcSlice::from_slice(alloc, items)?;
        Ok(KeyText {
            alloc,
            items: Some(items),
        })
    }

    /// The bytes in order.
    pub fn as_slice(&self) -> &[u8]
        ensures { result.now ≡ self.now }
    {
        match &self.items {
            None => &[],
            Some(items) => items.as_slice(),
        }
    }

    /// Puts a byte last, in a copy of the bytes that it no longer shares. After want of memory the text is as before.
    pub fn push(&mut self, item: u8) -> Result<(), AllocError>
        ensures ok { OnOk result (self.new ≡ self.old ++ item ∷ []) }
        ensures err { OnErr result (self.new ≡ self.old) }
    {
        let mut items = Vec::from_slice(self.alloc, self.as_slice())?;
        items.push(item)?;
        self.items = Some(RcSlice::from_vec(items)?);
        Ok(())
    }
}

impl Clone for KeyText {
    ghost is_clone = { λ k copy. copy ≡ k };

    fn clone(&self) -> Result<KeyText, AllocError> {
        match &self.items {
            None => Ok(KeyText::new(self.alloc)),
            Some(items) => {
                let items = items.clone()?;
                Ok(KeyText {
                    alloc: self.alloc,
                    items: Some(items),
                })
            }
        }
    }
}

impl PartialEq for KeyText {
    ghost eq = { pointwise nat_eq };

    ghost laws = { partial_equiv_from_equiv nat_list_eq_equiv };

    fn eq(&self, other: &KeyText) -> bool {
        self.as_slice() == other.as_slice()
    }
}

impl Eq for KeyText {
    ghost laws = { nat_list_eq_equiv };
}

impl PartialOrd for KeyText {
    ghost partial_cmp = { as_partial_cmp (slice_cmp nat_cmp) };

    ghost laws = { Prim.search (comparing, rules) };

    fn partial_cmp(&self, other: &KeyText) -> Option<Ordering> {
        Some(self.cmp(other))
    }
}

impl Ord for KeyText {
    ghost cmp = { slice_cmp nat_cmp };

    ghost total = { Prim.search (comparing, rules) };

    ghost matches_partial_cmp = { Prim.search (comparing, rules) };

    ghost matches_eq = { Prim.search (comparing, rules) };

    fn cmp(&self, other: &KeyText) -> Ordering {
        self.as_slice().cmp(other.as_slice())
    }
}

impl Hash for KeyText {
    ghost hash_input = { fed.slice fed.u8 };

    ghost respects_eq = { Prim.search (hashing, rules) };

    fn hash<H: Hasher>(&self, state: &mut H) {
        self.as_slice().hash(state);
    }
}

/// A key of an array. A text that is a canonical decimal in range stands as an integer instead. Integers are ordered before texts, texts by
/// their bytes.
#[derive(Drop, Eq, Hash, Ord, PartialEq, PartialOrd)]
pub enum Key {
    Int(i64),
    Text(KeyText),
}

impl Key {
    ghost use Rattle.resin_value.specs.Keys.{is_lawful, text_key, key_eq};

    /// The key that a text counts as: an integer where the text is a canonical decimal in range, else the text.
    pub fn from_text(alloc: Global, text: &[u8]) -> Result<Key, AllocError>
        ensures { IfOk result (λ key. key ≡ text_key text.now) }
    {
        match canonical_key(text) {
            Some(n) => Ok(Key::Int(n)),
            None => Ok(Key::Text(KeyText::from_slice(alloc, text)?)),
        }
    }

    /// Whether the key may stand in an array: it is no text that is a canonical decimal in range.
    pub fn is_lawful(&self) -> bool
        ensures { result ≡ is_lawful self.now }
    {
        match self {
            Key::Int(_) => true,
            Key::Text(text) => canonical_key(text.as_slice()).is_none(),
        }
    }

    /// Whether two keys are of one kind, with the same number or the same bytes.
    pub fn same(&self, other: &Key) -> bool
        ensures { result ≡ key_eq self.now other.now }
    {
        match (self, other) {
            (Key::Int(m), Key::Int(n)) => *m == *n,
            (Key::Text(a), Key::Text(b)) => a.as_slice() == b.as_slice(),
            _ => false,
        }
    }
}

impl Clone for Key {
    ghost is_clone = { λ k copy. copy ≡ k };

    fn clone(&self) -> Result<Key, AllocError> {
        match self {
            Key::Int(n) => Ok(Key::Int(*n)),
            Key::Text(text) => Ok(Key::Text(text.clone()?)),
        }
    }
}
