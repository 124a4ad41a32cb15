//! The labelled store: what a keeper of files holds, as bytes that each carry the policies which the shadow text beside them tells.
#![tactic(auto)]

mod entries;
mod laws;

pub use entries::policies_of;
pub use laws::{cell_laws, store_laws};
