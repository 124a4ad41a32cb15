//! What this crate stands on, passed on to the crates above, which list this one alone.

pub use resin_base as base;
pub use resin_store as store;
