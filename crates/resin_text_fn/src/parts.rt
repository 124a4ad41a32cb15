//! Parts of texts.
ghost use Rattle.std.specs.Prelude.{◌≡◌, ℕ, ◌-◌, ◌<◌, ◌≤◌, false, length, Ok, IfOk};
ghost use Rattle.std.specs.List.{prefix_len, suffix_len, slice_index_or};
ghost use Rattle.resin_lstr.specs.declared.limits.TheConstants.{LONGEST};
ghost use Rattle.resin_lstr.specs.Texts.{ArePartsFrom};
ghost use Rattle.resin_scalar.specs.Stops.{Gives};
ghost use Rattle.resin_text_fn.specs.Matches.{pieces_round};
ghost use Rattle.resin_text_fn.specs.Rows.{part_start, part_end, substr, is_among, ltrim, rtrim, trim, explode};

use crate::search::matched_parts;
use resin_lstr::{LText, Texts};
use resin_scalar::{CallStop, ErrorKind};
use std::alloc::{AllocError, Global};

/// `substr`: the bytes from `offset` on, `count` of them. A negative offset counts from the end, at least 0; past the end the answer is empty. A
/// negative count leaves that many off the end, and `None` takes all.
pub fn substr(alloc: Global, s: &LText, offset: i64, count: Option<i64>) -> Result<LText, CallStop>
    ensures { Gives result (Ok (substr s.now offset count)) }
{
    let start = part_start(offset, s.len());
    let end = part_end(count, start, s.len());
    Ok(s.slice(alloc, start, end)?)
}

// Where a part begins in a text of so many bytes.
fn part_start(offset: i64, len: usize) -> usize
    requires { len ≤ LONGEST }
    ensures value { result ≡ part_start offset len }
    ensures within { result ≤ len }
{
    if offset < 0 {
        (offset + len as i64).max(0) as usize
    } else {
        offset.min(len as i64) as usize
    }
}

// Where it ends.
fn part_end(count: Option<i64>, start: usize, len: usize) -> usize
    requires short { len ≤ LONGEST }
    requires begins { start ≤ len }
    ensures value { result ≡ part_end count start len }
    ensures behind { start ≤ result }
    ensures within { result ≤ len }
{
    match count {
        None => len,
        Some(n) if n < 0 => (n + len as i64).max(start as i64) as usize,
        Some(n) => start + n.min((len - start) as i64) as usize,
    }
}

/// `trim`: the text without the bytes of `chars` at both ends. `chars` has no ranges.
pub fn trim(alloc: Global, s: &LText, chars: &LText) -> Result<LText, CallStop>
    ensures { Gives result (Ok (trim s.now chars.now)) }
{
    let _len = s.len();
    let start = front_len(s.bytes(), chars.bytes());
    let kept = kept_len(&s.bytes()[start..], chars.bytes());
    Ok(s.slice(alloc, start, start + kept)?)
}

/// `ltrim`: the text without the bytes of `chars` at its front.
pub fn ltrim(alloc: Global, s: &LText, chars: &LText) -> Result<LText, CallStop>
    ensures { Gives result (Ok (ltrim s.now chars.now)) }
{
    let start = front_len(s.bytes(), chars.bytes());
    Ok(s.slice(alloc, start, s.len())?)
}

/// `rtrim`: the text without the bytes of `chars` at its end.
pub fn rtrim(alloc: Global, s: &LText, chars: &LText) -> Result<LText, CallStop>
    ensures { Gives result (Ok (rtrim s.now chars.now)) }
{
    let _len = s.len();
    let kept = kept_len(s.bytes(), chars.bytes());
    Ok(s.slice(alloc, 0, kept)?)
}

// For each byte whether it is one of these.
fn byte_set(bytes: &[u8]) -> [bool; 256]
    ensures { (b : ℕ) → b < 256 → slice_index_or result b false ≡ is_among bytes.now b }
{
    let mut set = [false; 256];
    for b in bytes {
        set[*b as usize] = true;
    }
    set
}

// How many bytes at the front are among `chars`.
fn front_len(bytes: &[u8], chars: &[u8]) -> usize
    ensures value { result ≡ prefix_len (is_among chars.now) bytes.now }
    ensures within { result ≤ length bytes.now }
{
    let among = byte_set(chars);
    for (k, b) in bytes.iter().enumerate() {
        if !among[*b as usize] {
            return k;
        }
    }
    bytes.len()
}

// How many bytes are left without those at the end that are among `chars`.
fn kept_len(bytes: &[u8], chars: &[u8]) -> usize
    ensures value { result ≡ length bytes.now - suffix_len (is_among chars.now) bytes.now }
    ensures within { result ≤ length bytes.now }
{
    let among = byte_set(chars);
    let mut end = bytes.len();
    while end > 0 && among[bytes[end - 1] as usize] {
        end -= 1;
    }
    end
}

/// `explode`: the pieces of `s` round the matches of `separator`, `s` alone where there is none. `ValueError` is thrown exactly for an empty
/// separator.
pub fn explode(alloc: Global, separator: &LText, s: &LText) -> Result<Texts, CallStop>
    ensures { Gives result (explode separator.now s.now) }
{
    if separator.is_empty() {
        return Err(CallStop::Throw(ErrorKind::Value));
    }
    let _lens = (separator.len(), s.len());
    let parts = matched_parts(alloc, s.bytes(), separator.bytes())?;
    Ok(pieces_round(alloc, parts.as_slice(), s)?)
}

// What stands round the parts.
fn pieces_round(alloc: Global, parts: &[(usize, usize)], s: &LText) -> Result<Texts, AllocError>
    requires { ArePartsFrom 0 parts.now (length s.now) }
    ensures { IfOk result (λ texts. texts ≡ pieces_round 0 parts.now s.now) }
{
    let mut pieces = Texts::new(alloc);
    let mut from = 0;
    for (start, end) in parts {
        pieces.push(s.slice(alloc, from, *start)?)?;
        from = *end;
    }
    pieces.push(s.slice(alloc, from, s.len())?)?;
    Ok(pieces)
}
