//! Statements.
#![tactic(auto)]

pub mod forms;
pub mod under;
