//! Finite sets of policy numbers: the labels that the bytes of a text carry.
//!
//! Contracts see a `PSet` as a finite set (`specs/Sets.antt`). It is kept as shared rising numbers (`specs/Kept.antt`), so a copy is one more
//! owner, and the tests take no memory. `with`, `without` and `union` promise the set that they give, and an iterator the numbers of the set,
//! rising (`specs/Iter.antt`).
//!
//! ```rust
//! let left = PSet::empty().with(alloc, 2)?.with(alloc, 1)?;
//! let both = left.union(alloc, &PSet::empty().with(alloc, 3)?)?;
//! let numbers = both.as_slice(); // 1, 2, 3
//! let rest = both.without(alloc, 3)?; // the same set as `left`: `rest.same(&left)`
//! ```
#![tactic(auto)]

mod numbers;
mod set;

pub use set::{PSet, PSetIter};
