//! The statements of the calls. The connection keeps the plan of each, so each is read and planned once.

use crate::fault::DatabaseFault;
use sqlite::{Alter, Connection};

/// A row where there is a table of a name.
pub(crate) const FIND_TABLE: &str = "SELECT 1 FROM tables WHERE name = ?1";

/// How many columns a table has.
pub(crate) const COUNT_COLUMNS: &str = "SELECT count(*) FROM columns WHERE table_name = ?1";

/// The columns of a table.
pub(crate) const LIST_COLUMNS: &str =
    "SELECT name, kind FROM columns WHERE table_name = ?1 ORDER BY column_number";

/// The cells of a table.
pub(crate) const LIST_CELLS: &str =
    "SELECT row_number, column_number, value FROM cells WHERE table_name = ?1 ORDER BY row_number, column_number";

/// The largest number of a row.
pub(crate) const LAST_ROW: &str =
    "SELECT row_number FROM cells WHERE table_name = ?1 ORDER BY row_number DESC LIMIT 1";

/// A row where a table has a row of a number.
pub(crate) const FIND_ROW: &str =
    "SELECT 1 FROM cells WHERE table_name = ?1 AND row_number = ?2 LIMIT 1";

pub(crate) const ADD_TABLE: &str = "INSERT INTO tables (name) VALUES (?1)";

pub(crate) const ADD_COLUMN: &str =
    "INSERT INTO columns (table_name, column_number, name, kind) VALUES (?1, ?2, ?3, ?4)";

pub(crate) const ADD_CELL: &str =
    "INSERT INTO cells (table_name, row_number, column_number, value) VALUES (?1, ?2, ?3, ?4)";

pub(crate) const SET_CELL: &str =
    "UPDATE cells SET value = ?4 WHERE table_name = ?1 AND row_number = ?2 AND column_number = ?3";

/// Takes out the cells of a row.
pub(crate) const DELETE_ROW: &str = "DELETE FROM cells WHERE table_name = ?1 AND row_number = ?2";

const ALL: [&str; 11] = [
    FIND_TABLE,
    COUNT_COLUMNS,
    LIST_COLUMNS,
    LIST_CELLS,
    LAST_ROW,
    FIND_ROW,
    ADD_TABLE,
    ADD_COLUMN,
    ADD_CELL,
    SET_CELL,
    DELETE_ROW,
];

/// Plans all of them. That fails where the database can't carry one out, as where a table of the schema has a trigger.
pub(crate) fn prepare<S: Alter>(conn: &mut Connection<S>) -> Result<(), DatabaseFault> {
    for text in ALL {
        let _statement = conn.prepare(text)?;
    }
    Ok(())
}
