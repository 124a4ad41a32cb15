//! Lines of a source text.

ghost use Rattle.std.specs.Prelude.{◌≡◌, ◌≤◌, nat_lt, length, IfOk};
ghost use Rattle.std.specs.List.{prefix_len};
ghost use Rattle.resin_lex.specs.declared.token.Token.{Token as TheToken};
ghost use Rattle.resin_lex.specs.Lines as lex;
ghost use Rattle.resin_lex.specs.Lines.{line_of_token};
ghost use Rattle.resin_parse_plain.specs.Lines.{line_in};
ghost use Rattle.resin_parse_plain.specs.Rises.{Rises, ends_from};

use resin_lex::{Items, Token};
use resin_scan::bytes::byte;
use std::alloc::{AllocError, Global};
use std::marker::Model;

/// The places of the bytes with which the lines of a text end. To find the line of a token takes a time that grows with
/// the logarithm of their number.
#[derive(Debug, Drop)]
pub struct Lines {
    ends: Items<u32>,
}

impl Model for Lines {
    ghost use Rattle.std.specs.Prelude.{ℕ, List, ◌≤◌, length};
    ghost use Rattle.resin_parse_plain.specs.Rises.{Rises};

    ghost Value = { List ℕ };

    ghost view = { λ l. l.ends };

    ghost invariant = { λ l. Rises l.ends × (length l.ends ≤ 16777216) };
}

/// Whether a line ends with the first byte: an LF, or a CR that no LF follows.
fn ends_line(s: &[u8]) -> bool
    ensures { result ≡ lex.ends_line s.now }
{
    byte(s, 0) == b'\n' || (byte(s, 0) == b'\r' && byte(s, 1) != b'\n')
}

/// The places of the bytes with which lines end.
fn line_ends(alloc: Global, src: &[u8]) -> Result<Items<u32>, AllocError>
    requires { length src.now ≤ 16777216 }
    ensures { IfOk result (λ ends. ends ≡ ends_from 0 src.now) }
{
    let mut ends = Items::new(alloc);
    'bytes: for i in 0..src.len() {
        if ends_line(&src[i..]) {
            ends.push(i as u32)?;
        }
    }
    Ok(ends)
}

/// How many of these places, which rise, stand before another.
fn count_before(ends: &[u32], place: u32) -> usize
    requires { Rises ends.now }
    ensures { result ≡ prefix_len (λ end. nat_lt end place) ends.now }
{
    let mut low = 0;
    let mut high = ends.len();
    'search: while low < high {
        let middle = low + (high - low) / 2;
        if ends[middle] < place {
            low = middle + 1;
        } else {
            high = middle;
        }
    }
    low
}

impl Lines {
    /// The lines of a text of at most 16,777,216 bytes.
    pub fn new(alloc: Global, src: &[u8]) -> Result<Lines, AllocError>
        requires { length src.now ≤ 16777216 }
        ensures { IfOk result (λ lines. (t : TheToken) → line_in lines t ≡ line_of_token src.now t) }
    {
        let ends = line_ends(alloc, src)?;
        Ok(Lines { ends })
    }

    /// The line of a token's first byte, from 1.
    pub fn line_of(&self, token: &Token) -> u32
        ensures { result ≡ line_in self.now token.now }
    {
        count_before(self.ends.as_slice(), token.from) as u32 + 1
    }
}
