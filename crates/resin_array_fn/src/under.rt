//! What this crate stands on, passed on to the crates above, which list this one alone.

/// `resin_ops`
pub mod ops {
    pub use resin_ops::{Arith, arith, index_text, to_int, to_key, to_number, to_text};
}

pub use resin_ops::under::value;
pub use resin_text_fn as text_fn;
