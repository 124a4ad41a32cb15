//! Calls: what a call reaches is found first, then its arguments are evaluated, then filters of the function are asked. Imports, too.
#![tactic(auto)]

pub mod calls;
pub mod imports;
pub mod under;
