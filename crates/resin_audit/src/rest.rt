//! The bytes of a file that are left.
ghost use Rattle.std.specs.Prelude.{◌≡◌, Some, None, nat_eq, ℕ, length, MatchOption};
ghost use Rattle.std.specs.List.{position};
ghost use Rattle.resin_journal_file.specs.Reading as spec;
ghost use Rattle.resin_audit.specs.Read.{Takes, Passes};

use std::marker::Model;

/// The bytes of a file that are left.
#[derive(Drop)]
pub(crate) struct Rest<'a> {
    bytes: &'a [u8],
}

impl<'a> Model for Rest<'a> {
    ghost use Rattle.std.specs.Prelude.{ℕ, List};

    ghost Value = { List ℕ };

    ghost view = { λ r. r.bytes.now };
}

impl<'a> Rest<'a> {
    pub(crate) fn new(bytes: &'a [u8]) -> Rest<'a>
        ensures { result ≡ bytes.now }
    {
        Rest { bytes }
    }

    pub(crate) fn len(&self) -> usize
        ensures { result ≡ length self.now }
    {
        self.bytes.len()
    }

    // Takes the bytes up to a newline, and passes that.
    pub(crate) fn line(&mut self) -> Option<&'a [u8]>
        ensures { Takes (spec.cut 10 self.old) result self.new }
    {
        let (line, rest) = split_once(self.bytes, b'\n')?;
        self.bytes = rest;
        Some(line)
    }

    // Passes so many bytes and a newline.
    pub(crate) fn pass(&mut self, len: usize) -> Option<()>
        ensures { Passes (spec.bytes len self.old) result self.new }
    {
        if len < self.bytes.len() && self.bytes[len] == b'\n' {
            self.bytes = &self.bytes[len + 1..];
            Some(())
        } else {
            None
        }
    }
}

// The bytes before the first that is `wanted`, and those behind it.
pub(crate) fn split_once(bytes: &[u8], wanted: u8) -> Option<(&[u8], &[u8])>
    ensures { MatchOption result (spec.cut wanted bytes.now ≡ None) (λ parts. spec.cut wanted bytes.now ≡ Some (parts.0.now, parts.1.now)) }
{
    let end = place_of(bytes, wanted)?;
    Some((&bytes[..end], &bytes[end + 1..]))
}

// Where the first byte stands that is `wanted`.
fn place_of(bytes: &[u8], wanted: u8) -> Option<usize>
    ensures { result ≡ position (λ b. nat_eq b wanted) bytes.now }
{
    bytes.iter().position(|b| *b == wanted)
}
