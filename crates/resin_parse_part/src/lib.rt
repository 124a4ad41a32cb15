//! What stands in brackets, behind operands and in texts, read from tokens by the grammar of expressions.
//!
//! `Parser` is generic in the function that reads an expression of a level: so no call here leads back into itself.
//! Where the grammar names what an opening token opens, the method that reads it is proved to be the reader of that name.
#![tactic(auto)]

mod alone;
mod opened;
pub mod parser;
mod postfix;
mod text;
mod within;

pub use parser::Parser;
