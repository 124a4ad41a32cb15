//! The state of a request while its scripts run, and the small steps that change it.
//!
//! `specs/State.antt` has the state, and `specs/Variables.antt`, `Objects.antt`, `Filters.antt` and `Leaving.antt` the steps, as functions from a
//! state to an answer and a state. Each method of `Machine` promises that it does its step, or that memory ran out and the state is as before
//! (`specs/Steps.antt`), and what no step of an evaluation changes (`specs/Keeping.antt`). The module `under` passes on what a state is made of.
#![tactic(auto)]

mod filters;
mod fuel;
mod leaving;
mod machine;
mod objects;
mod stop;
mod thrown;
pub mod under;
mod variables;

pub use leaving::Finished;
pub use machine::Machine;
pub use resin_heap::RuntimeClasses;
pub use resin_stage::Stage;
pub use stop::Stop;
