//! Reading the number that a text is or begins with.
ghost use Rattle.std.specs.Prelude.{◌≡◌, ◌≤◌, ◌^◌, ◌-◌, min, pos, neg_ℤ, length, nat_le};
ghost use Rattle.std.specs.List.{list_all};
ghost use Rattle.resin_bytes.specs.Numbers.{is_blank, blanks_len, digits_len, sign_len, is_negative, fraction_len, exponent_len};
ghost use Rattle.resin_bytes.specs.Numbers.{mantissa_len, number_len, decimal_value, integer_form, front_form, leading_form, numeric_form};

use crate::number::NumberForm;

/// The number that a text is: blanks (space, `\t\n\r\v\f`), an optional sign, digits, blanks. A float form has a point with a digit on at
/// least one side, or an exponent, in that place; an integer form outside 64 bits counts as a float form.
pub fn numeric(b: &[u8]) -> NumberForm
    ensures { result ≡ numeric_form b.now }
{
    let text = &b[count_blanks(b)..];
    let number = &text[count_signs(text)..];
    if blanks_only(&number[count_number(number)..]) {
        front(text)
    } else {
        NumberForm::Not
    }
}

/// The number that the longest front of a text is which is numeric, the blanks after it aside.
pub fn leading(b: &[u8]) -> NumberForm
    ensures { result ≡ leading_form b.now }
{
    front(&b[count_blanks(b)..])
}

// The number with which a text begins that has no blank before it.
fn front(text: &[u8]) -> NumberForm
    ensures { result ≡ front_form text.now }
{
    let number = &text[count_signs(text)..];
    let len = count_number(number);
    let digits = count_digits(number);
    if len == 0 {
        NumberForm::Not
    } else if len == digits {
        integer(negative(text), &number[..digits])
    } else {
        NumberForm::Float
    }
}

/// Whether a text begins with `-`.
pub(crate) fn negative(text: &[u8]) -> bool
    ensures { result ≡ is_negative text.now }
{
    match text {
        [first, ..] => *first == b'-',
        [] => false,
    }
}

/// The integer that digits spell behind a sign.
pub(crate) fn integer(negative: bool, digits: &[u8]) -> NumberForm
    ensures { result ≡ integer_form negative digits.now }
{
    let value = capped_value(digits);
    if negative {
        if value <= 1 << 63 {
            NumberForm::Int(negated(value))
        } else {
            NumberForm::Float
        }
    } else if value < 1 << 63 {
        NumberForm::Int(value as i64)
    } else {
        NumberForm::Float
    }
}

/// The number below 0 that is as far from it, which is at most 2^63.
pub fn negated(value: u64) -> i64
    requires { value ≤ 2 ^ 63 }
    ensures { result ≡ neg_ℤ (pos value) }
{
    if value == 0 {
        0
    } else {
        -((value - 1) as i64) - 1
    }
}

/// The number that digits spell, or the largest of 64 bits where it is larger. A byte counts by how far it stands behind `0`, or for 0 before it: who
/// doesn't know that only digits stand there compares with the number written.
pub fn capped_value(digits: &[u8]) -> u64
    ensures { result ≡ min (decimal_value digits.now) (2 ^ 64 - 1) }
{
    let mut value: u64 = 0;
    for digit in digits {
        value = value
            .saturating_mul(10)
            .saturating_add(u64::from(digit.saturating_sub(b'0')));
    }
    value
}

// How many bytes the number without a sign has with which a text begins.
fn count_number(text: &[u8]) -> usize
    ensures len { result ≡ number_len text.now }
    ensures within { result ≤ length text.now }
{
    let digits = count_digits(text);
    let mantissa = digits + count_fraction(digits, &text[digits..]);
    if mantissa == 0 {
        0
    } else {
        mantissa + count_exponent(&text[mantissa..])
    }
}

// How many bytes a point with its digits has.
fn count_fraction(whole: usize, text: &[u8]) -> usize
    ensures len { result ≡ fraction_len whole text.now }
    ensures within { result ≤ length text.now }
{
    match text {
        [first, rest @ ..] => {
            let digits = count_digits(rest);
            if *first == b'.' && (whole > 0 || digits > 0) {
                digits + 1
            } else {
                0
            }
        }
        [] => 0,
    }
}

// How many bytes an exponent has.
fn count_exponent(text: &[u8]) -> usize
    ensures len { result ≡ exponent_len text.now }
    ensures within { result ≤ length text.now }
{
    match text {
        [first, rest @ ..] => {
            let sign = count_signs(rest);
            let digits = count_digits(&rest[sign..]);
            if (*first == b'E' || *first == b'e') && digits > 0 {
                sign + digits + 1
            } else {
                0
            }
        }
        [] => 0,
    }
}

// How many signs a text begins with, one at most.
fn count_signs(text: &[u8]) -> usize
    ensures len { result ≡ sign_len text.now }
    ensures within { result ≤ length text.now }
{
    match text {
        [first, ..] if *first == b'+' || *first == b'-' => 1,
        _ => 0,
    }
}

// How many digits a text begins with.
fn count_digits(text: &[u8]) -> usize
    ensures len { result ≡ digits_len text.now }
    ensures within { result ≤ length text.now }
{
    match text.iter().position(|c| !c.is_ascii_digit()) {
        Some(place) => place,
        None => text.len(),
    }
}

// How many blanks a text begins with.
fn count_blanks(text: &[u8]) -> usize
    ensures len { result ≡ blanks_len text.now }
    ensures within { result ≤ length text.now }
{
    match text.iter().position(|c| !blank(*c)) {
        Some(place) => place,
        None => text.len(),
    }
}

// Whether there are only blanks.
fn blanks_only(text: &[u8]) -> bool
    ensures { result ≡ list_all is_blank text.now }
{
    text.iter().all(|c| blank(*c))
}

// Whether a byte is a blank.
fn blank(c: u8) -> bool
    ensures { result ≡ is_blank c }
{
    c == b' ' || (c >= b'\t' && c <= b'\r')
}
