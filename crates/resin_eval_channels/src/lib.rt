//! Calls of the functions of channels: headers, the status, mail and buffers.
#![tactic(auto)]

pub mod channels;
pub mod files;
pub mod under;
