//! What this crate stands on, passed on to the crates above, which list this one alone.

/// `resin_machine`
pub mod machine {
    pub use resin_machine::{Finished, Machine, RuntimeClasses, Stage, Stop};
}

pub use resin_machine::under::{heap, items, journal, tree};
/// `resin_ops`
pub mod ops {
    pub use resin_ops::{Arith, arith, index_text, to_int, to_key, to_number, to_text};
}
