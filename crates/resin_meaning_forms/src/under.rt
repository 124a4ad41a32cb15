//! What this crate stands on, passed on to the crates above, which list this one alone.

/// `resin_builtin`
pub mod builtin {
    pub use resin_builtin::{
        ArgKind, Builtin, Digest, OneArray, OneInteger, OneText, Sig, Test, TrimSide, TwoTexts,
        builtin_named, call, cost, int_places, signature, turned_into,
    };
}

pub use resin_builtin::under::{bytes, label, lstr, scalar, scan, value};

/// `resin_guard`
pub mod guard {
    pub use resin_guard::{Guard, html_guard, sql_guard};
}

pub use resin_meaning_tables as meaning_tables;
pub use resin_meaning_tables::under::{base, meaning, store};
/// `resin_target`
pub mod target {
    pub use resin_target::{Hop, Index, Path, Place, at_index, at_property, erase, fetch, store};
}

pub use resin_target::under::{heap, items, journal, machine, ops, tree};
