//! Writes to channels: the filters of the channel and the policies of the text are asked, and then the text goes out.
//!
//! What leaves by a write, apart from the checks of its policies and the work of its filters: header lines, the text that goes out, and
//! what the end of a check means.
#![tactic(auto)]

pub mod headers;
pub mod leaving;
pub mod reading;
pub mod under;
pub mod writes;
