//! What this crate stands on, passed on to the crates above, which list this one alone.

pub use resin_array_fn::under::value;
pub use resin_format::under::{bytes, label, lstr, scalar};
pub use resin_scan as scan;
