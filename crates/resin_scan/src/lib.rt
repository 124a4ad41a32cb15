//! Kinds of bytes, stretches, words, numbers and escapes of a source text: what the lexer is made of.
//!
//! Each function equals its definition, from the PHP manual's lexical rules: `specs/Bytes.antt` and `Lists.antt` for kinds and runs of bytes,
//! `Stretches.antt` for tags, lines and comments, `Words.antt` and `Keywords.antt`, `Numbers.antt` for integers in four bases, and `Escapes.antt`
//! for what the bytes between quotes stand for. Nothing here knows a token.
#![tactic(auto)]

pub mod bytes;
pub mod escapes;
pub mod keywords;
pub mod numbers;
pub mod stretches;
pub mod words;

pub use keywords::Keyword;
