//! What a statement answers.

use resin_base::{Names, StoredRows};

/// The answer of a statement.
#[derive(Drop)]
pub struct SqlAnswer {
    /// How many rows the keeper gave, chosen or not; 0 for CREATE and INSERT, which ask for none.
    pub scanned: u64,
    pub result: SqlResult,
}

/// What is answered.
#[derive(Drop)]
pub enum SqlResult {
    /// How many rows were made, changed or taken out; 0 of CREATE.
    Count(u64),
    /// The names of columns, each once, and rows with a stored cell for each of them. A cell of another kind than its column's is answered as
    /// NULL beside NULL, which is no stored cell of a statement's: a shadow is a text.
    Rows(Names, StoredRows),
}
