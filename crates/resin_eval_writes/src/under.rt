//! What this crate stands on, passed on to the crates above, which list this one alone.

/// `resin_eval_nested`
pub mod eval_nested {
    pub use resin_eval_nested::{invoke, nested, run};
}

pub use resin_eval_nested::under::{
    base, bytes, heap, items, journal, label, lstr, machine, meaning_forms, meaning_tables, ops,
    scalar, step_objects, step_parts, store, target, tree, value,
};
