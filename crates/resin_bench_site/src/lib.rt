//! The site and the trace of a sample run: three files, and a trace of any length that is made from a number.
#![tactic(auto)]

mod pages;
mod requests;

pub use pages::sample_site;
pub use requests::sample_trace;
