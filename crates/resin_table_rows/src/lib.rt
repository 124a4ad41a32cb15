//! What the programs share that print the answers of other crates, a row a line: the fields of a row, how bytes and numbers are spelled
//! there, and the line that is printed.
//!
//! What prints into a line answers nothing, and a field that is no number makes the row unreadable, which is printed behind all else: so
//! the functions of such a program have few ways out, and little is to be proved of them.
#![tactic(auto)]

mod line;
mod printing;
mod row;
mod spelling;

pub use line::Line;
pub use printing::{answered_row, print_answers};
pub use row::{Row, cut, split_row};
pub use spelling::{Repeat, bytes_in, push_bytes, repeat_in, spelled};
