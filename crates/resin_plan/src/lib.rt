//! Statements of SQL carried out over tables.
//!
//! [`exec`] makes the keeper calls of a statement and gives its answer: rows for SELECT, a count for the others. A keeper has each column `c`
//! of a statement's table as two: `c`, and behind it the TEXT column `c__resin` with the shadow text of each cell. A table whose columns are
//! not one or more such pairs, or that has a name twice, counts as absent, except to CREATE.
//!
//! - CREATE makes one call, `create`; INSERT `columns` and then `insert` for each row; SELECT `columns` and `rows`; UPDATE and DELETE
//!   `columns`, `rows` and then `update` or `delete` for each chosen row, in rising number.
//! - What a statement says of the rows that were read (conditions, order, LIMIT, refusals) is `resin_rows`.
//! - A refused statement makes no call but its `create` or `columns`; only where a table takes no more rows, the rows before stay. CREATE with a
//!   column twice makes none.
//!
//! `specs/Statements.antt` says this of each statement, as a plan of calls, and `specs/Plans.antt` what it means that a run went along one.
#![tactic(auto)]

mod answer;
mod changes;
mod creates;
mod inserts;
mod keeper;
mod selects;
mod statements;
mod table;

/// Parts of statements that are carried out, for statements that have others.
pub mod parts {
    pub use crate::keeper::{table_columns, table_rows};
    pub use crate::selects::{answered_at, answered_row};
}

pub use answer::{SqlAnswer, SqlResult};
pub use statements::exec;
