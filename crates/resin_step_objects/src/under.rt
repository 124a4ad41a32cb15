//! What this crate stands on, passed on to the crates above, which list this one alone.

/// `resin_step_functions`
pub mod step_functions {
    pub use resin_step_functions::{functions, guards, policies};
}

pub use resin_step_functions::under::{
    base, builtin, bytes, heap, items, journal, label, lstr, machine, meaning, meaning_forms,
    meaning_tables, ops, scalar, step_parts, store, target, value,
};
pub use resin_tree as tree;
