//! The text functions that scripts call by name, from `strlen` to `str_pad` (PHP manual, "String Functions", in this project's profile). Each takes
//! labelled texts, and every byte that it copies keeps its set. Positions, lengths and booleans carry nothing.
//!
//! A call answers its value, an exception that the script can catch, the fault of a text over 16,777,216 bytes, or want of memory. Searches take
//! time in proportion to the text and the needle, and joins to the bytes and runs that they join.
#![tactic(auto)]

mod join;
mod letters;
mod parts;
mod replace;
mod search;
mod stop;

pub use join::{implode, str_pad, str_repeat};
pub use letters::{strrev, strtolower, strtoupper, ucfirst};
pub use parts::{explode, ltrim, rtrim, substr, trim};
pub use replace::str_replace;
pub use search::{
    str_contains, str_ends_with, str_starts_with, strcmp, strlen, strpos, strrpos, substr_count,
};
