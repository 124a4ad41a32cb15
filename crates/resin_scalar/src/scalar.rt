//! Scalars: null, booleans, integers and texts, with the conversions and comparisons between them.
ghost use Rattle.std.specs.Prelude.{◌≡◌};
ghost use Rattle.std.specs.Ordering.{nat_cmp};
ghost use Rattle.std.specs.Cmp.Lexicographic.{slice_cmp};
ghost use Rattle.resin_scalar.specs.Scalars.{plain_of, truth_of, number_of, int_of, order_of, order_integer, order_texts};

use itoa::Buffer;
use resin_bytes::{NumberForm, leading, numeric};
use std::cmp::Ordering;

/// A scalar value without labels. The bytes of a text are borrowed.
#[derive(Clone, Copy, Debug)]
pub enum Scalar<'a> {
    Null,
    Bool(bool),
    Int(i64),
    Text(&'a [u8]),
}

/// Why a scalar is no integer.
#[derive(Clone, Copy, Debug, Eq, PartialEq)]
pub enum NumFault {
    /// The text is a number with a point or an exponent, or an integer outside 64 bits.
    Float,
    /// The text is no number.
    Not,
}

/// The scalar as a boolean: false for null, 0, the empty text and the text `0` (PHP manual, "Converting to boolean").
pub fn truth(s: &Scalar) -> bool
    ensures { result ≡ truth_of (plain_of s.now) }
{
    match s {
        Scalar::Null => false,
        Scalar::Bool(b) => *b,
        Scalar::Int(n) => *n != 0,
        Scalar::Text(text) => !text.is_empty() && *text != b"0".as_slice(),
    }
}

/// The scalar as a number in arithmetic. A text must be a numeric text as a whole: `Float` comes exactly for a text in a float form, and `Not`
/// exactly for a text that is no number.
pub fn number(s: &Scalar) -> Result<i64, NumFault>
    ensures { result ≡ number_of (plain_of s.now) }
{
    match s {
        Scalar::Null => Ok(0),
        Scalar::Bool(b) => Ok(i64::from(*b)),
        Scalar::Int(n) => Ok(*n),
        Scalar::Text(text) => match numeric(text) {
            NumberForm::Int(n) => Ok(n),
            NumberForm::Float => Err(NumFault::Float),
            NumberForm::Not => Err(NumFault::Not),
        },
    }
}

/// The scalar by the cast `(int)`: of a text the integer that it begins with, and 0 where it begins with none. `Float` comes exactly where a text
/// begins with a float form; `Not` never comes.
pub fn cast_int(s: &Scalar) -> Result<i64, NumFault>
    ensures { result ≡ int_of (plain_of s.now) }
{
    match s {
        Scalar::Null => Ok(0),
        Scalar::Bool(b) => Ok(i64::from(*b)),
        Scalar::Int(n) => Ok(*n),
        Scalar::Text(text) => match leading(text) {
            NumberForm::Int(n) => Ok(n),
            NumberForm::Float => Err(NumFault::Float),
            NumberForm::Not => Ok(0),
        },
    }
}

/// The order of two scalars under `==`, `<` and `<=>` (PHP 8, without floats). `Float` comes exactly where the two are compared as numbers and one
/// is a text in a float form; `Not` never comes.
pub fn compare(a: &Scalar, b: &Scalar) -> Result<Ordering, NumFault>
    ensures { result ≡ order_of (plain_of a.now) (plain_of b.now) }
{
    match (a, b) {
        (Scalar::Null, Scalar::Text(y)) => Ok(byte_order(b"", y)),
        (Scalar::Text(x), Scalar::Null) => Ok(byte_order(x, b"")),
        (Scalar::Int(m), Scalar::Int(n)) => Ok(m.cmp(n)),
        (Scalar::Int(m), Scalar::Text(y)) => compare_integer(*m, y),
        (Scalar::Text(x), Scalar::Int(n)) => Ok(compare_integer(*n, x)?.reverse()),
        (Scalar::Text(x), Scalar::Text(y)) => compare_texts(x, y),
        _ => Ok(truth(a).cmp(&truth(b))),
    }
}

// An integer against a text: as numbers where the text is numeric, else its decimal text against the text by bytes.
fn compare_integer(m: i64, y: &[u8]) -> Result<Ordering, NumFault>
    ensures { result ≡ order_integer m y.now }
{
    match numeric(y) {
        NumberForm::Int(n) => Ok(m.cmp(&n)),
        NumberForm::Float => Err(NumFault::Float),
        NumberForm::Not => {
            let mut buffer = Buffer::new();
            Ok(byte_order(buffer.format(m).as_bytes(), y))
        }
    }
}

// Two texts: equal where their bytes are, as numbers where both are numeric, else by bytes.
fn compare_texts(x: &[u8], y: &[u8]) -> Result<Ordering, NumFault>
    ensures { result ≡ order_texts x.now y.now }
{
    if x == y {
        return Ok(Ordering::Equal);
    }
    match (numeric(x), numeric(y)) {
        (NumberForm::Not, _) | (_, NumberForm::Not) => Ok(byte_order(x, y)),
        (NumberForm::Int(m), NumberForm::Int(n)) => Ok(m.cmp(&n)),
        _ => Err(NumFault::Float),
    }
}

// The order of two texts by their bytes.
fn byte_order(x: &[u8], y: &[u8]) -> Ordering
    ensures { result ≡ slice_cmp nat_cmp x.now y.now }
{
    x.cmp(y)
}
