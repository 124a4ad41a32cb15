//! Merges of policies where operators bring values together, and the operators that make them.
#![tactic(auto)]

pub mod merges;
mod own_merge;
pub mod under;
mod unions;
