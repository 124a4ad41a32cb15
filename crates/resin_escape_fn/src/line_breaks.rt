//! Line ends in HTML.
ghost use Rattle.std.specs.Prelude.{◌≡◌, ◌<◌, ◌≤◌, ◌++◌, length, position, slice_range, slice_index_or, IfSome};
ghost use Rattle.resin_label.specs.Sets.{empty};
ghost use Rattle.resin_lstr.specs.Texts.{sets_of};
ghost use Rattle.resin_lstr.specs.Faults.{GivesText};
ghost use Rattle.resin_escape_fn.specs.Stops.{GivesOrNoMemory, fitting};
ghost use Rattle.resin_escape_fn.specs.LineBreaks.{is_line_byte, is_line_pair, break_tag, break_len, with_breaks};

use crate::answer::text_answer;
use resin_lstr::{Builder, LText, TextFault};
use resin_scalar::CallStop;
use std::alloc::Global;

/// The text with `<br />` before each CRLF, LFCR, LF and CR, which carries the set of its first byte. `TextTooLong` comes
/// where it would pass 16,777,216 bytes. PHP's function of that name.
pub fn nl2br(alloc: Global, s: &LText) -> Result<LText, CallStop>
    ensures { GivesOrNoMemory result (fitting (with_breaks s.now)) }
{
    text_answer(broken(alloc, s))
}

fn broken(alloc: Global, s: &LText) -> Result<LText, TextFault>
    ensures { GivesText result (with_breaks s.now) }
{
    let bytes = s.bytes();
    let len = s.len();
    let mut out = Builder::new(alloc);
    let mut from = 0;
    while let Some(skipped) = line_end(&bytes[from..]) {
        let at = from + skipped;
        let to = at + line_end_len(&bytes[at..]);
        out = append_break(out, s, from, at, to)?;
        from = to;
    }
    let out = out.append_part(s, from, len)?;
    Ok(out.finish()?)
}

// Puts the text up to a line end last, the tag with the set of the line end, and the line end.
fn append_break(
    out: Builder,
    s: &LText,
    from: usize,
    at: usize,
    to: usize,
) -> Result<Builder, TextFault>
    requires ordered { from ≤ at }
    requires some { at < to }
    requires within { to ≤ length s.now }
    ensures { GivesText result
        (out ++ slice_range s.now from at ++ break_tag (slice_index_or (sets_of s.now) at empty) ++ slice_range s.now at to) }
{
    let out = out.append_part(s, from, at)?;
    let out = out.append_bytes(b"<br />", s.set_at(at))?;
    out.append_part(s, at, to)
}

// The first place of a byte that ends a line.
fn line_end(bytes: &[u8]) -> Option<usize>
    ensures place { result ≡ position is_line_byte bytes.now }
    ensures within { IfSome result (λ k. k < length bytes.now) }
{
    bytes.iter().position(|b| *b == b'\n' || *b == b'\r')
}

// How many bytes end the line at whose end a text begins.
fn line_end_len(bytes: &[u8]) -> usize
    ensures len { result ≡ break_len bytes.now }
    ensures some { 0 < result }
    ensures within { 0 < length bytes.now → result ≤ length bytes.now }
{
    match bytes {
        [first, second, ..] if is_line_pair(*first, *second) => 2,
        _ => 1,
    }
}

fn is_line_pair(first: u8, second: u8) -> bool
    ensures { result ≡ is_line_pair first second }
{
    (first == b'\r' && second == b'\n') || (first == b'\n' && second == b'\r')
}
