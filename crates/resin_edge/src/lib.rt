//! The outside over std: readers and writers as sources and sinks, and a folder as a keeper of files.
//!
//! This is the trusted edge: the types meet the traits of `resin_base`, and tell nothing of what they hold.
#![tactic(auto)]

mod folder;
mod std_sink;
mod std_source;

pub use folder::Folder;
pub use std_sink::StdSink;
pub use std_source::StdSource;
