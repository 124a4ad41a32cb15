//! What this crate stands on, passed on to the crates above, which list this one alone.

/// `resin_step_parts`
pub mod step_parts {
    pub use resin_step_parts::{
        appends, channels, declarations, names, operators, reads, statements, values,
    };
}

pub use resin_step_parts::under::{
    base, builtin, bytes, heap, items, journal, label, lstr, machine, meaning, meaning_forms,
    meaning_tables, ops, scalar, store, target, tree, value,
};
