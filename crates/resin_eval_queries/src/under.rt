//! What this crate stands on, passed on to the crates above, which list this one alone.

/// `resin_eval_functions`
pub mod eval_functions {
    pub use resin_eval_functions::arguments;
}

pub use resin_eval_functions::under::{eval_merges, step_functions};
/// `resin_eval_writes`
pub mod eval_writes {
    pub use resin_eval_writes::{headers, leaving, reading, writes};
}

pub use resin_eval_writes::under::{
    base, bytes, eval_nested, heap, items, journal, label, lstr, machine, meaning_forms, ops,
    scalar, step_objects, step_parts, store, tree, value,
};
pub use resin_shadow as shadow;
pub use resin_step_keeping as step_keeping;
