//! Words in any case.

ghost use Rattle.std.specs.Prelude.{◌≡◌};
ghost use Rattle.resin_scan.specs.Words as spec;

use crate::bytes::lower;

/// Whether a text is this word, in any case.
pub fn spells(word: &[u8], s: &[u8]) -> bool
    ensures { result ≡ spec.spells word.now s.now }
{
    if word.len() != s.len() {
        return false;
    }
    for i in 0..word.len() {
        if lower(s[i]) != word[i] {
            return false;
        }
    }
    true
}

/// What a cast turns its operand into.
#[derive(Clone, Copy, Debug, PartialEq, Eq)]
pub enum Cast {
    /// `(int)`
    Int,
    /// `(string)`
    Text,
    /// `(bool)`
    Bool,
}

/// The cast that a word names, in any case.
#[tactic(auto, unfolding(crate::specs::Words::cast_of))]
pub fn cast_of(s: &[u8]) -> Option<Cast>
    ensures { result ≡ spec.cast_of s.now }
{
    if spells(b"int", s) {
        Some(Cast::Int)
    } else if spells(b"string", s) {
        Some(Cast::Text)
    } else if spells(b"bool", s) {
        Some(Cast::Bool)
    } else {
        None
    }
}
