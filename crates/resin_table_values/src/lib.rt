//! How values, keys, sets and labelled texts are spelled in the rows of the programs that print the answers of other crates.
//!
//! In bytes `\s`, `\n`, `\r`, `\t` and `\\` stand for a space, the line ends, a tab and a backslash; `{12}` behind bytes or an integer gives them the
//! policies 1 and 2. A value is `null`, `true`, `false`, an integer, a text between `'`, an object as `#1`, or an array between `[` and
//! `]`, whose values are split by spaces, each behind its key and `:` where that isn't the next one.
//!
//! `marked` has another spelling of labelled texts, in which the policies stand first.
#![tactic(auto)]

mod marked;
mod texts;
mod values;

pub use marked::{marked_in, push_marked};
pub use texts::{cut_set, digits_in, set_in, text_in};
pub use values::{key_in, value_in};
