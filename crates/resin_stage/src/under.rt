//! What this crate stands on, passed on to the crates above, which list this one alone.

/// `resin_scope`
pub mod scope {
    pub use resin_scope::{Chains, Headers, NameMap, Page, Scopes};
}

pub use resin_scope::under::journal;
