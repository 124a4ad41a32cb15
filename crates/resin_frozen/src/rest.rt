//! The bytes of a text that are left, and what can be read from their front.
ghost use Rattle.std.specs.Prelude.{◌≡◌, nat_eq};
ghost use Rattle.std.specs.List.{position};
ghost use Rattle.resin_frozen.specs.Reading as spec;
ghost use Rattle.resin_frozen.specs.Reads.{Reads, Lends, Is};

use crate::stop::Stop;
use itoa::Buffer;
use resin_value::under::bytes::{capped_value, negated};
use std::marker::Model;

/// The bytes of a text that are left.
#[derive(Drop)]
pub struct Rest<'a> {
    bytes: &'a [u8],
}

impl<'a> Model for Rest<'a> {
    ghost use Rattle.std.specs.Prelude.{ℕ, List};

    ghost Value = { List ℕ };

    ghost view = { λ r. r.bytes.now };
}

impl<'a> Rest<'a> {
    pub fn new(bytes: &'a [u8]) -> Rest<'a>
        ensures { result ≡ bytes.now }
    {
        Rest { bytes }
    }

    /// The bytes.
    pub fn bytes(&self) -> &'a [u8]
        ensures { result.now ≡ self.now }
    {
        self.bytes
    }

    /// Takes so many bytes.
    #[tactic(auto, unfolding(crate::specs::Reading::taken))]
    pub fn take(&mut self, len: usize) -> Result<&'a [u8], Stop>
        ensures { Lends (spec.taken len self.old) result self.new }
    {
        let bytes = self.bytes;
        if len > bytes.len() {
            return Err(Stop::Form);
        }
        self.bytes = &bytes[len..];
        Ok(&bytes[..len])
    }

    /// Passes these bytes.
    #[tactic(auto, unfolding(crate::specs::Reading::literal))]
    pub fn literal(&mut self, wanted: &[u8]) -> Result<(), Stop>
        ensures { Reads (spec.literal wanted.now self.old) result self.new }
    {
        if self.bytes.starts_with(wanted) {
            self.bytes = &self.bytes[wanted.len()..];
            Ok(())
        } else {
            Err(Stop::Form)
        }
    }

    /// Takes the bytes up to this one, and passes that.
    #[tactic(auto, unfolding(crate::specs::Reading::cut))]
    pub fn until(&mut self, end: u8) -> Result<&'a [u8], Stop>
        ensures { Lends (spec.cut end self.old) result self.new }
    {
        let bytes = self.bytes;
        match place_of(bytes, end) {
            Some(place) => {
                self.bytes = &bytes[place + 1..];
                Ok(&bytes[..place])
            }
            None => Err(Stop::Form),
        }
    }

    /// A number of 64 bits, in decimal without a zero in front, and this byte behind it.
    #[tactic(auto, unfolding(crate::specs::Reading::natural))]
    pub fn natural(&mut self, end: u8) -> Result<u64, Stop>
        ensures { Reads (spec.natural end self.old) result self.new }
    {
        let word = self.until(end)?;
        number(word)
    }

    /// Bytes behind their count: `n:"bytes"`.
    #[tactic(auto, unfolding(crate::specs::Reading::quoted))]
    pub(crate) fn quoted(&mut self) -> Result<&'a [u8], Stop>
        ensures { Lends (spec.quoted self.old) result self.new }
    {
        let len = self.natural(b':')?;
        self.literal(b"\"")?;
        let bytes = self.take(len as usize)?;
        self.literal(b"\"")?;
        Ok(bytes)
    }

    /// What stands behind `i:`.
    #[tactic(auto, unfolding(crate::specs::Reading::integer_behind))]
    pub(crate) fn integer(&mut self) -> Result<i64, Stop>
        ensures { Reads (spec.integer_behind self.old) result self.new }
    {
        let word = self.until(b';')?;
        signed(word)
    }

    /// What stands behind `s:`.
    #[tactic(auto, unfolding(crate::specs::Reading::bytes_behind))]
    pub(crate) fn counted(&mut self) -> Result<&'a [u8], Stop>
        ensures { Lends (spec.bytes_behind self.old) result self.new }
    {
        let bytes = self.quoted()?;
        self.literal(b";")?;
        Ok(bytes)
    }
}

// Where the first byte stands that is `wanted`.
fn place_of(bytes: &[u8], wanted: u8) -> Option<usize>
    ensures { result ≡ position (λ b. nat_eq b wanted) bytes.now }
{
    bytes.iter().position(|b| *b == wanted)
}

/// The number of 64 bits that a word is, in decimal without a zero in front.
#[tactic(auto, unfolding(crate::specs::Reading::number, crate::specs::Reading::value_of))]
pub fn number(word: &[u8]) -> Result<u64, Stop>
    ensures { Is (spec.number word.now) result }
{
    let value = capped_value(word);
    let mut buffer = Buffer::new();
    if word == buffer.format(value).as_bytes() {
        Ok(value)
    } else {
        Err(Stop::Form)
    }
}

// The number of 64 bits with a sign that a word is.
#[tactic(auto, unfolding(crate::specs::Reading::signed))]
fn signed(word: &[u8]) -> Result<i64, Stop>
    ensures { Is (spec.signed word.now) result }
{
    let value = signed_of(word);
    let mut buffer = Buffer::new();
    if word == buffer.format(value).as_bytes() {
        Ok(value)
    } else {
        Err(Stop::Form)
    }
}

// What digits behind a `-` or nothing spell, or the nearest number of 64 bits with a sign.
#[tactic(auto, unfolding(crate::specs::Reading::signed_of, crate::specs::Reading::value_of))]
fn signed_of(word: &[u8]) -> i64
    ensures { result ≡ spec.signed_of word.now }
{
    match word {
        [first, digits @ ..] if *first == b'-' => negated(capped_value(digits).min(1 << 63)),
        _ => capped_value(word).min((1 << 63) - 1) as i64,
    }
}
