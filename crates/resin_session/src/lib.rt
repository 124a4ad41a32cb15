//! Session texts: what is kept of an array from one request of a visitor to the next.
#![tactic(auto)]

mod entries;
mod fault;
mod labels;
mod laws;
mod reading;
mod rest;
mod stop;
mod writing;

pub use fault::SessionFault;
pub use laws::session_laws;
pub use reading::read_session;
pub use writing::write_session;
