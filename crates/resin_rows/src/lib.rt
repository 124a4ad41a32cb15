//! What a statement of SQL says of rows: which columns and cells it names, which rows meet its condition, in which order and how many, what it
//! writes, and why it is refused.
//!
//! All of it is told of lists that were read: no call here asks a keeper. A keeper has each column `c` of a statement's table as two: `c`, and
//! behind it the TEXT column `c__resin` with the shadow text of each cell. A test with NULL is false, and so is one of a cell that is of another
//! kind than its column; texts are ordered by their bytes; ORDER BY puts NULL first, with DESC last, and such a cell with it; ties stand by the
//! numbers of the rows, as does everything without ORDER BY; LIMIT comes last. `specs/Columns.antt`, `Cells.antt`, `Conditions.antt`, `Rows.antt`
//! and `Refusals.antt` say this.
#![tactic(auto)]

mod cells;
mod columns;
mod conditions;
mod names;
mod order;
mod refusals;
mod row_cells;
mod values;
mod writes;

pub use cells::{copied_or_null, equal_or_null, fits_or_null, meets, shadow_at, value_at};
pub use columns::{Place, found, is_text, paired, shape};
pub use conditions::{where_cause, where_holds, where_holds_in};
pub use names::{changed_names, first_named, is_among, is_repeated, names_of};
pub use order::{cells_at, chosen_places, limit_places, order_places};
pub use refusals::{earlier, name_cause, names_cause, once_cause, rows_cause, values_cause};
pub use row_cells::RowCells;
pub use values::split;
pub use writes::{blank, changed};
