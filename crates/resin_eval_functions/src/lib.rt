//! Calls of the functions that work on their arguments alone, and of those that mark data or set filters.
#![tactic(auto)]

pub mod arguments;
pub mod under;
