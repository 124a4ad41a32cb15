//! The members of a class while it is read.

use resin_lex::{Function, Items, Property};

/// The members of a class, so far.
#[derive(Drop)]
pub struct Members {
    /// The properties in their order.
    pub properties: Items<Property>,
    /// The methods in their order.
    pub methods: Items<Function>,
}
