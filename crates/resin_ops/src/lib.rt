//! The work of operators that runs no script code. The labels of results are merged above it.
//!
//! `to_text`, `to_number`, `to_int` and `to_key` are PHP's conversions without floats (`specs/Conversions.antt`), `arith` is arithmetic on 64 bits
//! with this project's faults where PHP would answer a float (`specs/Arithmetic.antt`), and `index_text` one byte of a text (`specs/Places.antt`).
//! Each promises its definition's answer, and each fault and throw exactly where that says so. The module `under` passes on what operators work on.
#![tactic(auto)]

mod arithmetic;
mod conversions;
mod index;
mod operator;
pub mod under;

pub use arithmetic::arith;
pub use conversions::{to_int, to_key, to_number, to_text};
pub use index::index_text;
pub use operator::Arith;
