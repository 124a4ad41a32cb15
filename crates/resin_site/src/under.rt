//! What this crate stands on, passed on to the crates above, which list this one alone.

pub use resin_request::under::{base, http, journal, label, lstr, store};
