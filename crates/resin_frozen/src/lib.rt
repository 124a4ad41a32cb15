//! Policy texts: what is kept of a policy object beside stored data, as PHP's `serialize` writes an object with public properties.
#![tactic(auto)]

mod fault;
mod freezing;
mod frozen;
mod keys;
mod laws;
mod policy;
mod rest;
mod stop;
mod values;

pub use fault::FreezeFault;
pub use freezing::freeze;
pub use frozen::{Frozen, said, thaw};
pub use keys::{are_fields, is_class};
pub use laws::policy_laws;
pub use rest::{Rest, number};
pub use stop::Stop;
