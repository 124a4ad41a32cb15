//! Targets: what an assignment, a compound assignment and `unset` do to the state once the index expressions are evaluated.
//!
//! A target is a variable with postfixes (`specs/Paths.antt`). `fetch` reads it, `store` puts a value there, `erase` takes it out, each as one step
//! on the state (`specs/Targets.antt`, over `specs/Stores.antt` and `specs/Reads.antt`); with a throw or a fault nothing is changed. Keys are
//! turned from the left, as a step comes to them. What a target stands in is changed in its place, and not copied.
#![tactic(auto)]

mod path;
mod place;
mod reads;
mod stores;
mod targets;
pub mod under;

pub use path::{Hop, Index, Path};
pub use place::Place;
pub use reads::{at_index, at_property};
pub use targets::{erase, fetch, store};
