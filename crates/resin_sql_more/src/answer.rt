//! What a join or a total answers.

use resin_base::{Names, StoredRows};

/// The answer of a join or a total.
#[derive(Drop)]
pub struct MoreAnswer {
    /// What looking at the rows cost, in ticks.
    pub scanned: u64,
    /// The columns of a join or the items of a total, each once.
    pub names: Names,
    /// The pairs of a join, with a stored cell for each name. For a total one row for each item: its cells that aren't NULL, none for `COUNT(*)`.
    pub rows: StoredRows,
    /// How many rows, or pairs, were chosen.
    pub chosen: u64,
}
