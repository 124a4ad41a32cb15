//! The lexer of the language: the tokens of a source text and their lines. The tree types are passed on from `resin_tree`.
//!
//! `specs/Grammar.antt` is the lexical grammar, as a relation: what may stand at the front of a text and what may follow; `specs/Marks.antt` has
//! the operators and brackets. `tokens` gives the tokens of a text exactly where it has them, and otherwise the place of its first lexical fault
//! (`specs/Lexes.antt`); `one_reading` says that a text is read in one way. `specs/Lines.antt` says in which line a place stands.
//!
//! ```rust
//! let list = tokens(alloc, b"<?php $a = 1;")?;
//! for token in list.tokens.as_slice() {
//!     // `$a` from 6 to 8, `=` from 9 to 10, `1` from 11 to 12, `;` from 12 to 13
//! }
//! let fault = tokens(alloc, b"<?php ;'abc"); // Err(ParseFault::Syntax { offset: 7 }): the quote that stays open
//! ```
#![tactic(auto)]

pub mod front;
pub mod kinds;
pub mod lexer;
pub mod lines;
pub mod marks;
pub mod modes;
pub mod token;

pub use lexer::{Lexing, one_reading, tokens, tokens_and_fault, tokens_in_order};
pub use lines::{line_of, token_lines};
pub use resin_scan::Keyword;
pub use resin_scan::words::Cast;
pub use resin_tree::{
    Access, ArrayItem, Assignment, Boxed, Branch, Call, Case, Catch, ClassDecl, Combining,
    Comparison, Constant, ConstantItem, ConstantName, Expr, Function, Import, Item, Items, Literal,
    Loop, Name, Operation, Parameter, PathStep, Program, Property, Shared, SharedBytes, Simple,
    Stmt, StmtKind, Target, Test, Unary,
};
pub use token::{Mark, ParseFault, Token, TokenKind, TokenList, Tokens};
