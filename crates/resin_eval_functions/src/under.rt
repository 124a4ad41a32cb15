//! What this crate stands on, passed on to the crates above, which list this one alone.

/// `resin_eval_merges`
pub mod eval_merges {
    pub use resin_eval_merges::merges;
}

pub use resin_eval_merges::under::step_functions;
