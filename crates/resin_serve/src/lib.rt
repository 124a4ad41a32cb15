//! Serves a recorded trace over a site, audits the journal file of a run, and runs the sample: the top call of the runtime.
#![tactic(auto)]

mod auditing;
mod give;
mod laws;
mod logging;
mod output;
mod run;
mod sample;
mod serving;
mod status;
mod top;
mod waiting;
mod words;

pub use laws::{
    any_cutting, asked_tells, lives_tell, one_connection, recorded_runs, same_lives, same_runs,
};
pub use status::{Ended, Status};
pub use top::serve;
