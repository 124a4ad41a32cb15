//! Grammars as data, and reading by them.
//!
//! `specs/Form.antt` has the type of forms and what it means that tokens are a form or the front of one;
//! `specs/Reading.antt` reads a form from a list of tokens; `specs/Meaning.antt` says in plain words what a reader
//! answers: a value, the place of the first token that cannot go on, or the construct that nests too deep. A parser
//! is proved to be the reader of its grammar (`Reads`), and the laws then say what its answers mean. `specs/Lift.antt`
//! takes the forms of a grammar into a larger one, where they read as before.
#![tactic(auto)]

mod cursor;
mod fault;

pub use cursor::Cursor;
pub use fault::Fault;
