//! Names of classes, methods and fields as keys of hash maps. Those of classes and methods ignore ASCII case, and those of fields don't
//! (`specs/Names.antt`). A name that is looked up is lent its bytes, so that a look-up takes no memory.
#![tactic(auto)]

mod names;

pub use names::{CaselessName, FieldName, SoughtName, place_of};
