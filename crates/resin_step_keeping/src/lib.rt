//! Policies beside stored data: what is kept of the policies of a text, and what a read makes of an entry.
#![tactic(auto)]

pub mod freezing;
mod labels;
mod lists;
mod runs;
pub mod thawing;
