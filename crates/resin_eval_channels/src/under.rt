//! What this crate stands on, passed on to the crates above, which list this one alone.

pub use resin_eval_queries::under::{
    base, bytes, eval_functions, eval_merges, eval_nested, eval_writes, heap, items, journal,
    label, lstr, machine, meaning_forms, ops, scalar, step_keeping, step_objects, step_parts,
    store, tree, value,
};
