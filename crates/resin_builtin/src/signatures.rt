//! What each builtin function takes.
ghost use Rattle.std.specs.Prelude.{◌≡◌, ◌+◌, length, unwrap_or};
ghost use Rattle.std.specs.Option.{option_map};
ghost use Rattle.std.specs.List.{slice_get};
ghost use Rattle.resin_builtin.specs.Names.{builtin_named};
ghost use Rattle.resin_builtin.specs.Signatures.{parameters, least, most, merges, kind_at, sig_of, is_count, null_is_default};

use crate::builtin::Builtin;
use crate::names::builtin_named;

/// How an argument is read before a call.
#[derive(Clone, Copy, Debug, Eq, PartialEq)]
pub enum ArgKind {
    /// By the text rule; an array or an object throws `TypeError`.
    Text,
    /// An integer, a boolean, null or an integer in a text; an array, an object or another text throws `TypeError`.
    Integer,
    /// An array; everything else throws `TypeError`.
    Array,
    /// An array as it is, everything else by the text rule; an object throws `TypeError`.
    TextOrArray,
    /// As it is.
    Any,
}

/// What a builtin function takes.
#[derive(Clone, Copy, Debug, Eq, PartialEq)]
pub struct Sig {
    /// The function.
    pub builtin: Builtin,
    /// How many arguments there are at least.
    pub least: u8,
    /// How many there are at most; 255 stands for no limit.
    pub most: u8,
    /// Whether the answer carries the merged labels of arguments: those of the text of `md5`, `sha1` and `intval`, those of both integers of
    /// `intdiv`.
    pub merges: bool,
}

/// What the builtin function of a name takes, in any case of ASCII letters; `None` exactly where there is no function of that name.
pub fn signature(name: &[u8]) -> Option<Sig>
    ensures { result ≡ option_map sig_of (builtin_named name.now) }
{
    let builtin = builtin_named(name)?;
    Some(sig_of(builtin))
}

// What a builtin function takes.
pub(crate) fn sig_of(builtin: Builtin) -> Sig
    ensures { result ≡ sig_of builtin }
{
    let (least, most) = counts(builtin);
    Sig {
        builtin,
        least,
        most,
        merges: matches!(
            builtin,
            Builtin::Digest(_) | Builtin::Intval | Builtin::Intdiv
        ),
    }
}

// How many arguments there are at least and at most.
fn counts(builtin: Builtin) -> (u8, u8)
    ensures least { result.0 ≡ least (parameters builtin) }
    ensures most { result.1 ≡ most (parameters builtin) }
{
    match builtin {
        Builtin::OneText(_) | Builtin::Digest(_) | Builtin::OneInteger(_) => (1, 1),
        Builtin::Test(_) | Builtin::OneArray(_) | Builtin::Intval | Builtin::GetClass => (1, 1),
        Builtin::Trim(_) | Builtin::ArrayReverse => (1, 2),
        Builtin::TwoTexts(_) | Builtin::StrRepeat | Builtin::Implode => (2, 2),
        Builtin::Intdiv | Builtin::ArrayKeyExists => (2, 2),
        Builtin::Substr | Builtin::Strpos | Builtin::InArray => (2, 3),
        Builtin::StrPad | Builtin::ArraySlice => (2, 4),
        Builtin::StrReplace => (3, 3),
        Builtin::Sprintf => (1, u8::MAX),
        Builtin::ArrayMerge => (2, u8::MAX),
    }
}

impl Sig {
    /// The kind of the argument with the number `i`, from 0; where there is no limit, that of every later one too.
    pub fn kind(&self, i: u8) -> ArgKind
        ensures { result ≡ kind_at (parameters self.now.builtin) i }
    {
        kind_of(self.builtin, i as usize)
    }

    /// Whether so many arguments may stand; another count throws `ArgumentCountError`.
    pub fn takes(&self, count: usize) -> bool
        ensures { result ≡ is_count self.now count }
    {
        self.least as usize <= count && (self.most == u8::MAX || count <= self.most as usize)
    }

    /// Whether null as the argument with the number `i` stands for an argument that is left out.
    pub fn null_is_default(&self, i: u8) -> bool
        ensures { result ≡ null_is_default self.now.builtin i }
    {
        matches!(self.builtin, Builtin::Substr | Builtin::ArraySlice) && i == 2
    }
}

// The kind of an argument.
fn kind_of(builtin: Builtin, i: usize) -> ArgKind
    ensures { result ≡ kind_at (parameters builtin) i }
{
    use ArgKind::{Any, Array, Integer, Text, TextOrArray};
    match builtin {
        Builtin::OneText(_) | Builtin::Digest(_) => nth(&[Text], Any, i),
        Builtin::TwoTexts(_) | Builtin::Trim(_) => nth(&[Text, Text], Any, i),
        Builtin::OneInteger(_) => nth(&[Integer], Any, i),
        Builtin::Test(_) | Builtin::Intval | Builtin::GetClass => nth(&[Any], Any, i),
        Builtin::OneArray(_) => nth(&[Array], Any, i),
        Builtin::Substr => nth(&[Text, Integer, Integer], Any, i),
        Builtin::Strpos => nth(&[Text, Text, Integer], Any, i),
        Builtin::StrReplace => nth(&[TextOrArray, TextOrArray, Text], Any, i),
        Builtin::StrRepeat => nth(&[Text, Integer], Any, i),
        Builtin::Implode => nth(&[Text, Array], Any, i),
        Builtin::StrPad => nth(&[Text, Integer, Text, Integer], Any, i),
        Builtin::Sprintf => nth(&[Text], Any, i),
        Builtin::Intdiv => nth(&[Integer, Integer], Any, i),
        Builtin::ArrayMerge => nth(&[Array, Array], Array, i),
        Builtin::ArraySlice => nth(&[Array, Integer, Integer, Any], Any, i),
        Builtin::ArrayReverse => nth(&[Array, Any], Any, i),
        Builtin::InArray => nth(&[Any, Array, Any], Any, i),
        Builtin::ArrayKeyExists => nth(&[Any, Array], Any, i),
    }
}

// The kind at a place, another one beyond the last.
fn nth(kinds: &[ArgKind], beyond: ArgKind, i: usize) -> ArgKind
    ensures { result ≡ unwrap_or (slice_get kinds.now i) beyond }
{
    match kinds.get(i) {
        Some(kind) => *kind,
        None => beyond,
    }
}
