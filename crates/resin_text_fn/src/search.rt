//! Searches and comparisons of texts, by their bytes.
ghost use Rattle.std.specs.Prelude.{◌≡◌, ℕ, ◌+◌, ◌<◌, ◌≤◌, pos, length, map, Ok, IfOk, IfSome};
ghost use Rattle.resin_lstr.specs.declared.limits.TheConstants.{LONGEST};
ghost use Rattle.resin_lstr.specs.Texts.{ArePartsFrom};
ghost use Rattle.resin_text_fn.specs.Matches.{first_place, last_place, matched_parts, AreLeftmost};
ghost use Rattle.memchr.specs.Find.{FindsNeedle, FindsLastNeedle};
ghost use Rattle.resin_text_fn.specs.Rows.{offset_place, strpos, strrpos, str_contains, str_starts_with};
ghost use Rattle.resin_text_fn.specs.Rows.{str_ends_with, substr_count, sign_of, strcmp};

use memchr::memmem;
use resin_lstr::{LText, Parts};
use resin_scalar::{CallStop, ErrorKind};
use std::alloc::{AllocError, Global};
use std::cmp::Ordering;

/// `strlen`: the number of bytes.
pub fn strlen(s: &LText) -> Result<i64, CallStop>
    ensures { result ≡ Ok (pos (length s.now)) }
{
    Ok(s.len() as i64)
}

/// `strpos`: the first place at which `needle` stands in `haystack` from `offset` on, `None` where it stands nowhere there. A negative offset
/// counts from the end. `ValueError` is thrown exactly for an offset outside the text, whose end is inside.
pub fn strpos(haystack: &LText, needle: &LText, offset: i64) -> Result<Option<i64>, CallStop>
    ensures { result ≡ strpos haystack.now needle.now offset }
{
    let Some(from) = offset_place(offset, haystack.len()) else {
        return Err(CallStop::Throw(ErrorKind::Value));
    };
    match first_place(&haystack.bytes()[from..], needle.bytes()) {
        Some(at) => Ok(Some((from + at) as i64)),
        None => Ok(None),
    }
}

// The place that an offset means in a text of so many bytes.
fn offset_place(offset: i64, len: usize) -> Option<usize>
    requires { len ≤ LONGEST }
    ensures value { result ≡ offset_place offset len }
    ensures within { IfSome result (λ at. at ≤ len) }
{
    let at = if offset < 0 {
        offset + len as i64
    } else {
        offset
    };
    if 0 <= at && at <= len as i64 {
        Some(at as usize)
    } else {
        None
    }
}

// The first place at which a needle stands.
fn first_place(haystack: &[u8], needle: &[u8]) -> Option<usize>
    ensures value { result ≡ first_place haystack.now needle.now }
    ensures first { FindsNeedle haystack.now needle.now 0 result }
    ensures within { IfSome result (λ at. at ≤ length haystack.now) }
{
    memmem::find(haystack, needle)
}

// The last place at which a needle stands.
fn last_place(haystack: &[u8], needle: &[u8]) -> Option<usize>
    ensures value { result ≡ last_place haystack.now needle.now }
    ensures last { FindsLastNeedle haystack.now needle.now result }
    ensures within { IfSome result (λ at. at ≤ length haystack.now) }
{
    memmem::rfind(haystack, needle)
}

/// `strrpos`: the last place at which `needle` stands in `haystack`, `None` where it stands nowhere.
pub fn strrpos(haystack: &LText, needle: &LText) -> Result<Option<i64>, CallStop>
    ensures { result ≡ Ok (strrpos haystack.now needle.now) }
{
    let _len = haystack.len();
    match last_place(haystack.bytes(), needle.bytes()) {
        Some(at) => Ok(Some(at as i64)),
        None => Ok(None),
    }
}

/// `str_contains`: whether `needle` stands in `haystack`. The empty text stands in every one.
pub fn str_contains(haystack: &LText, needle: &LText) -> Result<bool, CallStop>
    ensures { result ≡ Ok (str_contains haystack.now needle.now) }
{
    Ok(first_place(haystack.bytes(), needle.bytes()).is_some())
}

/// `str_starts_with`: whether `needle` stands at the front of `haystack`.
pub fn str_starts_with(haystack: &LText, needle: &LText) -> Result<bool, CallStop>
    ensures { result ≡ Ok (str_starts_with haystack.now needle.now) }
{
    Ok(haystack.bytes().starts_with(needle.bytes()))
}

/// `str_ends_with`: whether `needle` stands at the end of `haystack`.
pub fn str_ends_with(haystack: &LText, needle: &LText) -> Result<bool, CallStop>
    ensures { result ≡ Ok (str_ends_with haystack.now needle.now) }
{
    Ok(haystack.bytes().ends_with(needle.bytes()))
}

/// `substr_count`: how many matches of `needle` follow one another in `haystack` without overlapping, from the left. `ValueError` is thrown
/// exactly for an empty needle.
pub fn substr_count(haystack: &LText, needle: &LText) -> Result<i64, CallStop>
    ensures { result ≡ substr_count haystack.now needle.now }
{
    if needle.is_empty() {
        return Err(CallStop::Throw(ErrorKind::Value));
    }
    let _len = haystack.len();
    Ok(count_of(haystack.bytes(), needle.bytes()) as i64)
}

// How many matches of a nonempty needle follow one another without overlapping.
fn count_of(haystack: &[u8], needle: &[u8]) -> usize
    requires short { length haystack.now ≤ LONGEST }
    ensures value { result ≡ length (matched_parts haystack.now needle.now) }
    ensures bound { result ≤ length haystack.now + 1 }
{
    memmem::find_iter(haystack, needle).count()
}

// The parts that match a nonempty needle, from the left, none overlapping the one before it.
pub(crate) fn matched_parts(
    alloc: Global,
    haystack: &[u8],
    needle: &[u8],
) -> Result<Parts, AllocError>
    requires some { 0 < length needle.now }
    requires short { length haystack.now ≤ LONGEST }
    ensures value { IfOk result (λ parts. parts ≡ matched_parts haystack.now needle.now) }
    ensures leftmost { IfOk result (λ parts. AreLeftmost 0 parts haystack.now needle.now) }
    ensures follow { IfOk result (λ parts. ArePartsFrom 0 parts (length haystack.now)) }
{
    let mut parts = Parts::new(alloc);
    for start in memmem::find_iter(haystack, needle) {
        parts.push((start, start + needle.len()))?;
    }
    Ok(parts)
}

/// `strcmp`: -1, 0 or 1 where the bytes of `a` come before, are, or come after those of `b`.
pub fn strcmp(a: &LText, b: &LText) -> Result<i64, CallStop>
    ensures { result ≡ Ok (strcmp a.now b.now) }
{
    Ok(sign_of(a.bytes().cmp(b.bytes())))
}

// An order as a number.
fn sign_of(order: Ordering) -> i64
    ensures { result ≡ sign_of order }
{
    match order {
        Ordering::Less => -1,
        Ordering::Equal => 0,
        Ordering::Greater => 1,
    }
}
