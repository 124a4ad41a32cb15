//! Tables kept in a database file, which SQLite and its shell read.
//!
//! This is the trusted edge, like a folder of files: `SqliteTables` meets the trait `Tables` of `resin_base`, and tells nothing of what it
//! holds. The file has a fixed schema of three tables (`schema`).
#![tactic(auto)]

mod cells;
mod fault;
mod opening;
mod reads;
mod schema;
mod statements;
mod tables;
mod writes;

pub use fault::DatabaseFault;
pub use tables::SqliteTables;
