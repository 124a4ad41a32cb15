//! What a run stands on, what nests in an evaluation, and calls of functions and methods that were found and whose arguments are evaluated.
#![tactic(auto)]

pub mod invoke;
mod keepers;
mod leaves;
pub mod nested;
pub mod run;
pub mod under;
