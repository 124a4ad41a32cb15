//! What this crate stands on, passed on to the crates above, which list this one alone.

/// `resin_step_objects`
pub mod step_objects {
    pub use resin_step_objects::{calls, constants, invoke, objects};
}

pub use resin_step_objects::under::{
    base, builtin, bytes, heap, items, journal, label, lstr, machine, meaning_forms,
    meaning_tables, ops, scalar, step_functions, step_parts, store, target, value,
};
pub use resin_tree as tree;
