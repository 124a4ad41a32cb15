//! Steps of an evaluation that run no code of scripts.
//!
//! Parts of statements and of expressions that run no code of scripts: texts joined, declarations, what a `catch` takes, and which arguments the
//! functions of channels take.
#![tactic(auto)]

pub mod appends;
pub mod channels;
pub mod declarations;
pub mod names;
pub mod operators;
pub mod reads;
pub mod statements;
pub mod under;
pub mod values;
