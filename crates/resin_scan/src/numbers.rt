//! Integers in four bases, and code points.

ghost use Rattle.std.specs.Prelude.{◌≡◌, ◌<◌, ◌≤◌, ◌^◌, ℕ, length, IfSome, is_some};
ghost use Rattle.resin_scan.specs.Numbers as spec;

use crate::bytes::{byte, digit, hexadecimals_len};

/// The least integer that is too large.
pub const LIMIT: u64 = 1 << 63;

/// The least number that is no code point.
pub const CODE_POINTS: u64 = 0x11_0000;

/// A number with one more digit, or None where the digit is none of the base or the number is at the limit.
fn with_digit(base: u64, limit: u64, n: u64, d: u64) -> Option<u64>
    requires base { base ≤ 16 }
    requires limit { limit ≤ 2 ^ 63 }
    requires digit { d < 100 }
    ensures is { result ≡ spec.with_digit base limit n d }
    ensures below { IfSome result (λ v. v < limit) }
{
    if d >= base {
        return None;
    }
    let shifted = base.checked_mul(n)?;
    if shifted >= limit || shifted + d >= limit {
        None
    } else {
        Some(shifted + d)
    }
}

/// The number that digits of a base stand for, or None where one is none of the base or the number is at the limit.
fn value(base: u64, limit: u64, s: &[u8]) -> Option<u64>
    requires base { base ≤ 16 }
    requires limit { limit ≤ 2 ^ 63 }
    requires some { 0 < limit }
    ensures is { result ≡ spec.value base limit 0 s.now }
    ensures below { IfSome result (λ v. v < limit) }
{
    let mut n = 0;
    for d in s {
        n = with_digit(base, limit, n, digit(*d))?;
    }
    Some(n)
}

/// The same of one digit at least.
fn digits(base: u64, limit: u64, s: &[u8]) -> Option<u64>
    requires base { base ≤ 16 }
    requires limit { limit ≤ 2 ^ 63 }
    requires some { 0 < limit }
    ensures is { result ≡ spec.digits base limit s.now }
    ensures below { IfSome result (λ v. v < limit) }
{
    if s.is_empty() {
        None
    } else {
        value(base, limit, s)
    }
}

/// Whether `0x` or `0b` stands in front.
pub fn is_prefixed(s: &[u8]) -> bool
    ensures { result ≡ spec.is_prefixed s.now }
{
    byte(s, 0) == b'0' && (byte(s, 1) == b'x' || byte(s, 1) == b'b')
}

/// The number that an integer literal stands for, or None where the bytes are none below 2 ^ 63.
pub fn integer(s: &[u8]) -> Option<u64>
    ensures is { result ≡ spec.integer s.now }
    ensures below { IfSome result (λ v. v < 2 ^ 63) }
{
    if byte(s, 0) != b'0' {
        digits(10, LIMIT, s)
    } else {
        match byte(s, 1) {
            b'x' => digits(16, LIMIT, &s[2..]),
            b'b' => digits(2, LIMIT, &s[2..]),
            _ => digits(8, LIMIT, s),
        }
    }
}

/// The code point that hexadecimal digits in front stand for, where `}` follows them, and the number of digits.
#[tactic(auto, unfolding(crate::specs::Numbers::code_point))]
pub fn code_point(s: &[u8]) -> Option<(u64, usize)>
    ensures is { result ≡ spec.code_point s.now }
    ensures small { IfSome result (λ p. p.0 < 0x110000) }
    ensures within { IfSome result (λ p. p.1 < length s.now) }
{
    let n = hexadecimals_len(s);
    if byte(s, n) != b'}' {
        return None;
    }
    let point = digits(16, CODE_POINTS, &s[..n])?;
    Some((point, n))
}

/// Whether a code point and `}` stand in front.
pub fn is_code_point(s: &[u8]) -> bool
    ensures { result ≡ is_some (spec.code_point s.now) }
{
    code_point(s).is_some()
}
