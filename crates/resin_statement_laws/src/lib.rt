//! Statements are changes of tables whose cells carry their policies.
//!
//! A keeper holds a table as columns of values beside columns of shadow texts; `resin_frame` says how it is rows of cells that carry their policies.
//! Here each keeper call is a call on such tables (`specs/Calls.antt`, [`labelled_call_laws`]), and each statement is an effect on them: steps, and
//! an answer or a refusal (`specs/Effects.antt`, and `specs/More.antt` of joins and totals; [`statement_laws`]). A run goes along the effect, and
//! where it stops, the first steps were taken (`specs/Runs.antt`), which leave all other cells with their values and policies (`specs/Fronts.antt`;
//! [`statement_run_laws`]). The programs that scripts mean do the same (`specs/Programs.antt`, [`statement_program_laws`]).
#![tactic(auto)]

mod laws;

pub use laws::{labelled_call_laws, statement_laws, statement_program_laws, statement_run_laws};
