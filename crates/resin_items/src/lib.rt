//! Lists, boxes and shared values that contracts see as what they hold, so that a tree of them is plain data.
//!
//! `Items` is the list of the project: it grows at its end, and each call promises the list that it leaves, also after want of memory. Names such
//! as `Texts` or `Columns` are type names over it. `Boxed` and `Shared` are seen as the value in them, `SharedBytes` as its bytes; a copy of what
//! is shared is one more owner. The types may hold what holds them (`specs/formers`).
#![tactic(auto)]

mod boxed;
mod items;
mod shared;
mod shared_bytes;

pub use boxed::Boxed;
pub use items::Items;
pub use shared::Shared;
pub use shared_bytes::SharedBytes;
