//! Lines of a source text.

ghost use Rattle.std.specs.Prelude.{◌≡◌, ◌+◌, ◌≤◌, ◌<◌, length, drop, map, IfOk};
ghost use Rattle.resin_lex.specs.Lines as spec;
ghost use Rattle.resin_lex.specs.Lexes.{IsRow};

use crate::token::Tokens;
use resin_items::Items;
use resin_scan::bytes::byte;
use std::alloc::{AllocError, Global};

/// Whether a line ends with the first byte: an LF, or a CR that no LF follows.
fn ends_line(s: &[u8]) -> bool
    ensures { result ≡ spec.ends_line s.now }
{
    byte(s, 0) == b'\n' || (byte(s, 0) == b'\r' && byte(s, 1) != b'\n')
}

/// How many lines end from a place on and before another.
fn ends_within(src: &[u8], from: usize, to: usize) -> u32
    requires order { from ≤ to }
    requires within { to ≤ length src.now }
    requires small { length src.now ≤ 16777216 }
    ensures is { spec.line_ends from src.now + result ≡ spec.line_ends to src.now }
    ensures few { result + from ≤ to }
{
    let mut count = 0;
    for i in from..to {
        if ends_line(&src[i..]) {
            count += 1;
        }
    }
    count
}

/// The line of a place of a text of at most 16,777,216 bytes, from 1.
pub fn line_of(src: &[u8], place: u32) -> u32
    requires within { place ≤ length src.now }
    requires small { length src.now ≤ 16777216 }
    ensures { result ≡ spec.line_of src.now place }
{
    1 + ends_within(src, 0, place as usize)
}

/// The line of each token's first byte, from 1, in the order of the tokens, which are those of this text.
pub fn token_lines(alloc: Global, src: &[u8], tokens: &Tokens) -> Result<Items<u32>, AllocError>
    requires row { IsRow 0 (length src.now) tokens.now }
    requires small { length src.now ≤ 16777216 }
    ensures { IfOk result (λ lines. lines ≡ map (spec.line_of_token src.now) tokens.now) }
{
    let mut lines = Items::new(alloc);
    let mut line = 1;
    let mut at = 0;
    let tokens = tokens.as_slice();
    for token in tokens {
        let from = token.from as usize;
        line += ends_within(src, at, from);
        at = from;
        lines.push(line)?;
    }
    Ok(lines)
}
