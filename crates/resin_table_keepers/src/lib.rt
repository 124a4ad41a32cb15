//! What the programs share that print the answers of sites and runs over keepers: how texts, failing calls, tables and rows are spelled in
//! a field, and how what is kept is printed.
#![tactic(auto)]

mod fails;
mod kept;
mod tables;
mod texts;

pub use fails::fails_in;
pub use kept::{push_entry, push_table};
pub use tables::{make_table, put_row};
pub use texts::{push_part, push_shown, unescaped};
