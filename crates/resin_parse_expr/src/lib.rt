//! Expressions, read from tokens.
#![tactic(auto)]

mod levels;
mod operand;
mod target;
mod top;

pub use top::{expression, read_expression, read_target};
