//! What the programs share that print the trees of SQL statements, or what statements come to.
//!
//! Of the other libraries of rows none lists the SQL crates, so that the programs of values and requests neither read them nor wait for their
//! proofs.
#![tactic(auto)]

mod cells;
mod shown;

pub use cells::{
    cell_in, copied, plain_text, push_calls, push_cell, push_stop, push_stored, stored_of,
};
pub use shown::{Printer, answered, push_fault, push_limit};
