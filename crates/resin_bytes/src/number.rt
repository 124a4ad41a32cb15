//! Texts that are numbers, or begin with one.
/// What a text is as a number: an integer in 64 bits, a float form (an integer form outside 64 bits too), or none.
#[derive(Clone, Copy, Debug, PartialEq, Eq)]
pub enum NumberForm {
    Int(i64),
    Float,
    Not,
}
