//! The operators of arithmetic.

/// The binary operators of arithmetic.
#[derive(Clone, Copy, Debug, Eq, PartialEq)]
pub enum Arith {
    Add,
    Sub,
    Mul,
    Div,
    Rem,
}
