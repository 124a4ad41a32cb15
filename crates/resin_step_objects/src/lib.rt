//! New objects, constants, methods that were found with their parameters, and the bodies of the methods of the runtime's own classes.
#![tactic(auto)]

pub mod calls;
pub mod constants;
pub mod invoke;
pub mod objects;
pub mod under;
