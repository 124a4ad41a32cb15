//! Cells beside their shadow texts, as statements write them and answers give them.

use crate::cell::Cell;
use resin_bytes::{Bytes, Items};

/// A cell and the cell beside it that holds its shadow text.
#[derive(Drop)]
pub struct StoredCell {
    pub value: Cell,
    pub shadow: Cell,
}

/// Stored cells, such as those of a row.
pub type Stored = Items<StoredCell>;

/// Rows of stored cells.
pub type StoredRows = Items<Stored>;

/// Names of columns.
pub type Names = Items<Bytes>;
