//! Statements over tables as programs: the keeper calls of a statement are those of the run, and where one stops, the run does.
//!
//! `specs/Plans.antt` says what a plan of keeper calls (`resin_plan`, `resin_sql_more`) means as a program, and each function here promises
//! that it does what the plan of its statement means, whatever calls fail.
#![tactic(auto)]

mod statements;
pub mod under;

pub use statements::{carry_out, carry_out_join, carry_out_total};
