//! What this crate stands on, passed on to the crates above, which list this one alone.

/// `resin_meaning_forms`
pub mod meaning_forms {
    pub use resin_meaning_forms::{Callee, ChannelFunction, Course, Flow, Outgoing, StateFunction};
}

pub use resin_meaning_forms::under::{
    base, builtin, bytes, guard, heap, items, journal, label, lstr, machine, meaning,
    meaning_tables, ops, scalar, store, target, tree, value,
};
