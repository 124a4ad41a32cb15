//! What is left of a text, and what can be read from its front.
ghost use Rattle.std.specs.Prelude.{◌≡◌, ◌==◌, nat_eq, length};
ghost use Rattle.std.specs.List.{position};
ghost use Rattle.resin_value.specs.Under.lstr.Texts.{bytes_of};
ghost use Rattle.resin_value.specs.Under.bytes.Canonical.{canonical_integer};
ghost use Rattle.resin_session.specs.Reading as spec;
ghost use Rattle.resin_session.specs.Answers.{Reads, Lends};

use crate::labels::is_plain;
use crate::stop::Stop;
use resin_value::under::bytes::canonical_key;
use resin_value::under::lstr::LText;
use std::alloc::Global;
use std::marker::Model;

// What is left of a text. Contracts see the bytes from there on, with their labels.
#[derive(Drop)]
pub(crate) struct Rest<'a> {
    text: &'a LText,
    at: usize,
}

impl<'a> Model for Rest<'a> {
    ghost use Rattle.std.specs.Prelude.{drop, length, ◌≤◌};
    ghost use Rattle.resin_value.specs.Under.lstr.Texts.{Text, text_code};

    ghost Value = { Text };

    ghost coded = { text_code };

    ghost view = { λ r. drop r.at r.text.now };

    ghost invariant = { λ r. r.at ≤ length r.text.now };
}

impl<'a> Rest<'a> {
    pub(crate) fn new(text: &'a LText) -> Rest<'a>
        ensures { result ≡ text.now }
    {
        Rest { text, at: 0 }
    }

    pub(crate) fn is_empty(&self) -> bool
        ensures { result ≡ (length self.now == 0) }
    {
        self.at == self.text.len()
    }

    // The bytes.
    fn bytes(&self) -> &'a [u8]
        ensures { result.now ≡ bytes_of self.now }
    {
        &self.text.bytes()[self.at..]
    }

    // Takes so many bytes.
    #[tactic(auto, unfolding(crate::specs::Reading::taken))]
    pub(crate) fn take(&mut self, alloc: Global, len: usize) -> Result<LText, Stop>
        ensures { Reads (spec.taken len self.old) result self.new }
    {
        let text = self.text;
        let from = self.at;
        if len > text.len() - from {
            return Err(Stop::Form);
        }
        let piece = text.slice(alloc, from, from + len)?;
        self.at = from + len;
        Ok(piece)
    }

    // Takes so many bytes, which carry no labels.
    #[tactic(auto, unfolding(crate::specs::Reading::plain))]
    pub(crate) fn plain(&mut self, alloc: Global, len: usize) -> Result<&'a [u8], Stop>
        ensures { Lends (spec.plain len self.old) result self.new }
    {
        let bytes = self.bytes();
        let piece = self.take(alloc, len)?;
        if is_plain(&piece) {
            Ok(&bytes[..len])
        } else {
            Err(Stop::Form)
        }
    }

    // Passes this byte, which carries no labels.
    #[tactic(auto, unfolding(crate::specs::Reading::byte))]
    pub(crate) fn pass(&mut self, alloc: Global, wanted: u8) -> Result<(), Stop>
        ensures { Reads (spec.byte wanted self.old) result self.new }
    {
        let bytes = self.plain(alloc, 1)?;
        if bytes == [wanted].as_slice() {
            Ok(())
        } else {
            Err(Stop::Form)
        }
    }

    // Takes the bytes up to this one, and passes that. None of them carries labels.
    #[tactic(auto, unfolding(crate::specs::Reading::until))]
    pub(crate) fn until(&mut self, alloc: Global, end: u8) -> Result<&'a [u8], Stop>
        ensures { Lends (spec.until end self.old) result self.new }
    {
        match place_of(self.bytes(), end) {
            Some(len) => {
                let bytes = self.plain(alloc, len)?;
                self.pass(alloc, end)?;
                Ok(bytes)
            }
            None => Err(Stop::Form),
        }
    }

    // A length as a canonical decimal, and this byte behind it.
    #[tactic(auto, unfolding(crate::specs::Reading::count))]
    pub(crate) fn count(&mut self, alloc: Global, end: u8) -> Result<usize, Stop>
        ensures { Reads (spec.count end self.old) result self.new }
    {
        let word = self.until(alloc, end)?;
        match natural(word) {
            Some(number) => Ok(number),
            None => Err(Stop::Form),
        }
    }
}

// Where the first byte stands that is `wanted`.
fn place_of(bytes: &[u8], wanted: u8) -> Option<usize>
    ensures { result ≡ position (λ b. nat_eq b wanted) bytes.now }
{
    bytes.iter().position(|b| *b == wanted)
}

// The number that a canonical decimal is, unless it is below 0.
fn natural(word: &[u8]) -> Option<usize>
    ensures { result ≡ spec.natural (canonical_integer word.now) }
{
    match canonical_key(word) {
        Some(number) if number >= 0 => Some(number as usize),
        _ => None,
    }
}
