//! Canonical decimals.
ghost use Rattle.std.specs.Prelude.{◌≡◌};
ghost use Rattle.std.specs.Char.{is_ascii_digit};
ghost use Rattle.std.specs.List.{list_all};
ghost use Rattle.resin_bytes.specs.Canonical.{is_unpadded, without_minus, canonical_integer};

use crate::number::NumberForm;
use crate::numbers::{integer, negative};

/// The integer key for which a text stands: None exactly where the text is no canonical decimal in the range of 64 bits. A canonical
/// decimal is `0`, or digits without a leading zero behind `-` or nothing; so `-0`, `+1`, `01` and ` 1` are none.
pub fn canonical_key(b: &[u8]) -> Option<i64>
    ensures { result ≡ canonical_integer b.now }
{
    if b == b"0".as_slice() {
        return Some(0);
    }
    let digits = behind_minus(b);
    if !unpadded(digits) {
        return None;
    }
    match integer(negative(b), digits) {
        NumberForm::Int(key) => Some(key),
        NumberForm::Float | NumberForm::Not => None,
    }
}

// The text without the `-` before it.
fn behind_minus(text: &[u8]) -> &[u8]
    ensures { result.now ≡ without_minus text.now }
{
    match text {
        [first, rest @ ..] if *first == b'-' => rest,
        _ => text,
    }
}

// Whether there is one digit or more, and no zero before others.
fn unpadded(digits: &[u8]) -> bool
    ensures { result ≡ is_unpadded digits.now }
{
    match digits {
        [first, ..] => *first != b'0' && digits_only(digits),
        [] => false,
    }
}

// Whether there are only digits.
fn digits_only(text: &[u8]) -> bool
    ensures { result ≡ list_all is_ascii_digit text.now }
{
    text.iter().all(|c| c.is_ascii_digit())
}
