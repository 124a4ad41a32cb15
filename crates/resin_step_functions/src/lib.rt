//! Functions of the runtime once their arguments are evaluated: those that work on their arguments alone, and those that mark data with policies, set
//! filters or guard against injection.
#![tactic(auto)]

pub mod functions;
pub mod guards;
pub mod policies;
pub mod under;
