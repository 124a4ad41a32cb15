//! Shadow texts: which policies the bytes of a stored text carry, as a text that is kept beside it. It is written in one way, and a text
//! that is off that way by a byte is refused.
//!
//! Contracts see `FrozenRuns` as a list with a set of policy texts for each byte (`specs/Marks.antt`); policy texts are those of `resin_frozen`.
//! `specs/Shadows.antt` has the two versions of the text: `encode` writes the second, and `decode` reads both, exactly where the text spells sets
//! of so many bytes. `shadow_laws` says that sets have one text in each version, and that a text spells one list of sets of each length.
//!
//! ```rust
//! let mut set = FrozenList::new(alloc);
//! set.push(freeze(alloc, b"NoExport", &Fields::new(alloc))?)?; // resin_frozen::freeze, resin_value::Fields
//! let mut runs = FrozenRuns::new(alloc);
//! runs.push(3, &set)?;
//! let shadow = encode(alloc, &runs)?; // resin2 1 1 1\nO:8:"NoExport":0:{}\n0\n3 0\n
//! let same = decode(alloc, 3, shadow.as_slice())?; // Some, of the same runs
//! let none = decode(alloc, 4, shadow.as_slice())?; // None: these are not the sets of four bytes
//! ```
#![tactic(auto)]

mod decoding;
mod encoding;
mod laws;
mod lists;
mod numbering;
mod numbers;
mod parts;
mod reading;
mod runs;
mod sets;
mod table;

pub use decoding::decode;
pub use encoding::encode;
pub use laws::shadow_laws;
pub use lists::FrozenList;
pub use parts::Parts;
pub use runs::FrozenRuns;
pub use table::FrozenRun;
