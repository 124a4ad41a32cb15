//! How things go on after a statement.

use resin_builtin::under::value::Value;

/// How things go on after a statement that ran to its end.
#[derive(Drop)]
pub enum Course {
    /// With the statement behind it.
    Next,
    /// Behind the innermost loop or `switch`.
    Break,
    /// With the next turn of the innermost loop.
    Continue,
    /// Behind the call, or the file, which has this value.
    Return(Value),
}

/// How a file ends.
#[derive(Drop)]
pub enum Flow {
    /// Behind its last statement.
    Done,
    /// By `return` outside of functions.
    Returned(Value),
    /// By `exit`.
    Exit,
}
