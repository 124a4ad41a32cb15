//! What this crate stands on, passed on to the crates above, which list this one alone.

pub use resin_bytes as bytes;
pub use resin_escape_fn as escape_fn;
pub use resin_label as label;
pub use resin_lstr as lstr;
pub use resin_scalar as scalar;
