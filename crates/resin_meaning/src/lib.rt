//! Programs over states, and how the code's runs are tied to them.
#![tactic(auto)]

mod files;
mod numbers;
mod tables;
pub mod under;

pub use files::{file_exists, read_file, remove_file, write_file};
pub use tables::{create_table, delete_row, insert_row, table_columns, table_rows, update_row};
