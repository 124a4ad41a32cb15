//! The evaluator: runs programs, and calls functions by their names.
#![tactic(auto)]

pub mod inputs;
pub mod lent;
pub mod pages;
mod run;
mod sessions;
pub mod sources;
mod top;
pub mod under;

pub use lent::{
    call_function, charge_bytes, end_buffers, read_through, run_program, set_inputs, write_page,
};
pub use resin_eval_calls::under::eval_nested::run::Run;
pub use resin_eval_calls::under::machine::{Finished, Machine, Stop};
pub use resin_eval_calls::under::meaning_forms::Flow;
pub use resin_eval_calls::under::step_keeping::freezing::freeze_text;
pub use resin_eval_calls::under::step_keeping::thawing::thaw_entry;
pub use sessions::{session, set_session};
pub use top::{perform, perform_call};
