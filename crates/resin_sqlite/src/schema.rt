//! The tables of the file.

use crate::fault::DatabaseFault;
use crate::statements::prepare;
use sqlite::types::ValueRef;
use sqlite::{Alter, Connection, Row};

/// The three tables: names, columns, and cells by table, row and column. Their texts are what the shell shows by `.schema`, and a file
/// belongs to a site exactly where it holds these very texts.
pub(crate) const SCHEMA: [&str; 3] = [
    "CREATE TABLE tables (
  name ANY NOT NULL PRIMARY KEY
) STRICT",
    "CREATE TABLE columns (
  table_name ANY NOT NULL REFERENCES tables (name),
  column_number INTEGER NOT NULL CHECK (column_number > 0), -- from 1, in the order of CREATE TABLE
  name ANY NOT NULL,
  kind TEXT NOT NULL CHECK (kind IN ('INTEGER', 'TEXT')),
  PRIMARY KEY (table_name, column_number)
) STRICT",
    "CREATE TABLE cells (
  table_name ANY NOT NULL REFERENCES tables (name),
  row_number INTEGER NOT NULL CHECK (row_number > 0),
  column_number INTEGER NOT NULL CHECK (column_number >= 0), -- 0 only for a row of a table without columns
  value ANY CHECK (typeof(value) <> 'real'), -- a BLOB is a text with a NUL byte or one that is no UTF-8
  PRIMARY KEY (table_name, row_number, column_number)
) STRICT",
];

// Whether a row of the schema is one of the three tables.
fn is_ours(row: &Row) -> Result<bool, DatabaseFault> {
    match row.get_ref(0)? {
        ValueRef::Text(text) => Ok(SCHEMA.iter().any(|table| table.as_bytes() == text)),
        _ => Ok(false),
    }
}

// How many of the three tables a list has.
fn count_ours(rows: &[Row]) -> Result<usize, DatabaseFault> {
    let mut count = 0usize;
    for row in rows {
        if is_ours(row)? {
            count = count.saturating_add(1);
        }
    }
    Ok(count)
}

// Makes the three tables, all or none.
fn make<S: Alter>(conn: &mut Connection<S>) -> Result<(), DatabaseFault> {
    if !conn.is_autocommit() {
        return Err(DatabaseFault::Refused);
    }
    let mut group = conn.transaction();
    for table in SCHEMA {
        group.execute(table, &[])?;
    }
    group.commit()?;
    Ok(())
}

// Makes the tables in a file that holds nothing, and else sees that they are there.
fn make_or_find<S: Alter>(conn: &mut Connection<S>) -> Result<(), DatabaseFault> {
    let found = conn.query_all("SELECT sql FROM sqlite_schema", &[])?;
    if found.is_empty() {
        return make(conn);
    }
    if count_ours(&found)? == SCHEMA.len() {
        Ok(())
    } else {
        Err(DatabaseFault::OtherSchema)
    }
}

/// Makes the tables in a file that holds nothing, else sees that they are there, and plans the statements over them.
pub(crate) fn settle<S: Alter>(conn: &mut Connection<S>) -> Result<(), DatabaseFault> {
    make_or_find(conn)?;
    prepare(conn)
}
