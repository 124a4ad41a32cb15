//! Whole programs, read from source texts.
//!
//! `program` gives the tree of a text exactly where that is a program within the limits; else the place where it stops being the front of one,
//! or that of the first construct that nests too deep, whichever comes first. What a program is stands in `specs/Programs.antt` of
//! `resin_program_grammar`, over the tokens of `resin_lex`, which has the tree types too. `texts_have_one_meaning` says that each text is exactly one
//! of the three (`specs/Meaning.antt`), and `texts_are_one_program` that it is one program at most.
//!
//! ```rust
//! let page = program(alloc, b"<?php echo 1;")?; // its one item is a statement
//! let fault = program(alloc, b"<?php $a = ;"); // Err(ParseFault::Syntax { offset: 11 })
//! ```
#![tactic(auto)]

mod class;
mod top;

pub use top::{program, texts_are_one_program, texts_have_one_meaning};
