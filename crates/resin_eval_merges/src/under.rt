//! What this crate stands on, passed on to the crates above, which list this one alone.

/// `resin_eval_nested`
pub mod eval_nested {
    pub use resin_eval_nested::{invoke, nested, run};
}

pub use resin_eval_nested::under::{
    base, builtin, label, lstr, machine, meaning_forms, ops, scalar, step_functions, step_parts,
    target, tree, value,
};
