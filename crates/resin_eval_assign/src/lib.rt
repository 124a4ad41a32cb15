//! Assignments to variables, elements and properties.
#![tactic(auto)]

pub mod assign;
