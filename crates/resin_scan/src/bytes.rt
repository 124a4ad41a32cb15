//! Kinds of bytes, and runs of a kind.

ghost use Rattle.std.specs.Prelude.{◌≡◌, ◌<◌, ◌≤◌, ℕ, ◌+◌, ◌≢◌, length, get_or, true};
ghost use Rattle.std.specs.List.{prefix_len};
ghost use Rattle.resin_scan.specs.Bytes as spec;

/// Space, tab, CR or LF.
pub fn is_blank(b: u8) -> bool
    ensures { result ≡ spec.is_blank b }
{
    b == b' ' || b == b'\t' || b == b'\r' || b == b'\n'
}

/// Space or tab.
pub fn is_space(b: u8) -> bool
    ensures { result ≡ spec.is_space b }
{
    b == b' ' || b == b'\t'
}

/// A decimal digit.
pub fn is_digit(b: u8) -> bool
    ensures { result ≡ spec.is_digit b }
{
    b.is_ascii_digit()
}

/// An ASCII letter or `_`.
pub fn is_letter(b: u8) -> bool
    ensures { result ≡ spec.is_letter b }
{
    b.is_ascii_alphabetic() || b == b'_'
}

/// A byte that a name may begin with.
pub fn begins_name(b: u8) -> bool
    ensures { result ≡ spec.begins_name b }
{
    is_letter(b) || b >= 128
}

/// A byte of a name.
pub fn is_name_byte(b: u8) -> bool
    ensures { result ≡ spec.is_name_byte b }
{
    begins_name(b) || is_digit(b)
}

/// A byte that may not follow the digits of a number, unless it is one of them.
pub fn is_word_byte(b: u8) -> bool
    ensures { result ≡ spec.is_word_byte b }
{
    is_letter(b) || is_digit(b)
}

/// An ASCII letter in lower case; any other byte as it is.
pub fn lower(b: u8) -> u8
    ensures { result ≡ spec.lower b }
{
    if b >= b'A' && b <= b'Z' { b + 32 } else { b }
}

/// The value of a digit of a base up to 16, or 99.
pub fn digit(b: u8) -> u64
    ensures is { result ≡ spec.digit b }
    ensures small { result < 100 }
{
    if is_digit(b) {
        (b - b'0') as u64
    } else if b >= b'a' && b <= b'f' {
        (b - b'a') as u64 + 10
    } else if b >= b'A' && b <= b'F' {
        (b - b'A') as u64 + 10
    } else {
        99
    }
}

/// A digit of base 8.
pub fn is_octal(b: u8) -> bool
    ensures { result ≡ spec.is_octal b }
{
    digit(b) < 8
}

/// A digit of base 16, in either case.
pub fn is_hexadecimal(b: u8) -> bool
    ensures { result ≡ spec.is_hexadecimal b }
{
    digit(b) < 16
}

/// The byte at a place, or 0 past the end.
pub fn byte(s: &[u8], i: usize) -> u8
    ensures is { result ≡ get_or s.now i 0 }
    ensures within { result ≢ 0 → i < length s.now }
{
    if i < s.len() { s[i] } else { 0 }
}

/// How many bytes of a name stand in front.
#[tactic(auto, using(crate::proofs::Scans::some_pass))]
pub fn name_len(s: &[u8]) -> usize
    ensures is { result ≡ prefix_len spec.is_name_byte s.now }
    ensures within { result ≤ length s.now }
    ensures some { 0 < length s.now → spec.is_name_byte (get_or s.now 0 0) ≡ true → 0 < result }
{
    s.iter().take_while(|b| is_name_byte(**b)).count()
}

/// How many letters, digits and `_` stand in front.
#[tactic(auto, using(crate::proofs::Scans::some_pass))]
pub fn word_len(s: &[u8]) -> usize
    ensures is { result ≡ prefix_len spec.is_word_byte s.now }
    ensures within { result ≤ length s.now }
    ensures some { 0 < length s.now → spec.is_word_byte (get_or s.now 0 0) ≡ true → 0 < result }
{
    s.iter().take_while(|b| is_word_byte(**b)).count()
}

/// How many decimal digits stand in front.
#[tactic(auto, using(crate::proofs::Scans::some_pass))]
pub fn digits_len(s: &[u8]) -> usize
    ensures is { result ≡ prefix_len spec.is_digit s.now }
    ensures within { result ≤ length s.now }
    ensures some { 0 < length s.now → spec.is_digit (get_or s.now 0 0) ≡ true → 0 < result }
{
    s.iter().take_while(|b| is_digit(**b)).count()
}

/// How many blanks stand in front.
#[tactic(auto, using(crate::proofs::Scans::some_pass))]
pub fn blanks_len(s: &[u8]) -> usize
    ensures is { result ≡ prefix_len spec.is_blank s.now }
    ensures within { result ≤ length s.now }
    ensures some { 0 < length s.now → spec.is_blank (get_or s.now 0 0) ≡ true → 0 < result }
{
    s.iter().take_while(|b| is_blank(**b)).count()
}

/// How many spaces and tabs stand in front.
pub fn spaces_len(s: &[u8]) -> usize
    ensures is { result ≡ prefix_len spec.is_space s.now }
    ensures within { result ≤ length s.now }
{
    s.iter().take_while(|b| is_space(**b)).count()
}

/// How many octal digits stand in front.
pub fn octals_len(s: &[u8]) -> usize
    ensures is { result ≡ prefix_len spec.is_octal s.now }
    ensures within { result ≤ length s.now }
{
    s.iter().take_while(|b| is_octal(**b)).count()
}

/// How many hexadecimal digits stand in front.
pub fn hexadecimals_len(s: &[u8]) -> usize
    ensures is { result ≡ prefix_len spec.is_hexadecimal s.now }
    ensures within { result ≤ length s.now }
{
    s.iter().take_while(|b| is_hexadecimal(**b)).count()
}
