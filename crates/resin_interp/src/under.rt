//! What this crate stands on, passed on to the crates above, which list this one alone.

pub use resin_eval_calls::under::{
    base, bytes, items, journal, label, machine, step_parts, store, tree,
};
