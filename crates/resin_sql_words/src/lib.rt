//! The words and literals of SQL: what the grammar of statements is made of.
//!
//! `specs/Forms.antt` has what the grammar is written in, over the bytes of a statement with their offsets; `specs/Words.antt`
//! and `specs/Literals.antt` have the forms of blanks, keywords, names and literals. Each function here reads one of them.
#![tactic(auto)]

mod cursor;
mod literals;
mod words;

pub use cursor::{ByteCursor, Placed};
pub use literals::{Literal, Span, count, read_literal};
pub use words::{gap, keyword, letters, name, name_from, named, sign, word};
