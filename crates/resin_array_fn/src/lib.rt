//! The array functions that scripts call by name (PHP manual, "Array Functions", in this project's profile), and arrays as lists of texts. An
//! array that a call gives is a new one, whose values are those of the old one with their labels; counts, booleans and keys carry nothing.
//!
//! A call answers its value, an exception that the script can catch, a fault of the script, or want of memory. It takes time in proportion to the
//! entries.
#![tactic(auto)]

mod arrays;
mod fill;
mod search;
mod texts;
pub mod under;

pub use arrays::{array_keys, array_merge, array_reverse, array_slice, array_values, count};
pub use search::{array_key_exists, in_array};
pub use texts::{list_of_texts, texts_in};
