//! What the programs of the language mean, form by form, as programs over the state of a request.
#![tactic(auto)]

mod callee;
mod course;
mod outgoing;
pub mod under;

pub use callee::{Callee, ChannelFunction, StateFunction};
pub use course::{Course, Flow};
pub use outgoing::Outgoing;
