//! Statements without others in them, and what stands in the brackets of the others, read from tokens by the grammar of
//! programs.
//!
//! `Lines` finds the line of a token. `Reader` reads by a place in the tokens and the number of constructs that may
//! still open; each of its methods is proved to be the reader of its form.
#![tactic(auto)]

pub mod constant;
pub mod function;
pub mod head;
pub mod lines;
pub mod list;
pub mod plain;
pub mod reader;

pub use lines::Lines;
pub use reader::Reader;
