//! Lists of bytes, numbers in decimal, numeric texts, lawful paths and header fields.
//!
//! `Bytes` is seen as the list of its bytes, and `Items`, which this crate passes on, as the list of its items. `decimal` writes a number, and
//! `numeric`, `leading`, `capped_value` and `canonical_key` read one, each exactly as `specs/Numbers.antt` and `specs/Canonical.antt` say;
//! `lawful_path` tells the paths that keepers take (`specs/Paths.antt`). Each call that takes no memory always succeeds.
#![tactic(auto)]

mod byte_list;
mod canonical;
mod decimals;
mod header;
mod number;
mod numbers;
mod paths;

pub use byte_list::Bytes;
pub use canonical::canonical_key;
pub use decimals::decimal;
pub use header::{Header, HeaderList};
pub use number::NumberForm;
pub use numbers::{capped_value, leading, negated, numeric};
pub use paths::lawful_path;
pub use resin_items::Items;
