//! Statements, read from tokens.
//!
//! `Parser` is generic in the function that reads what nests in statements: so no call leads back into itself, and the
//! depth of calls is bounded by the limit on nesting. `statement` and `braces` are the parser that reads what nests itself.
#![tactic(auto)]

mod branch;
mod compound;
mod parser;
mod parts;
mod top;

pub use parser::{inside_of, statement_of};
pub use top::{braces, statement};
