//! Tables in memory as a line sets them.

use resin_base::{Bytes, Calls, Cells, Column, Columns, FailList, Kind, Tables};
use resin_memory::FakeTables;
use resin_table_keepers::fails_in;
use resin_table_sql::cell_in;
use std::alloc::{AllocError, Global};

/// Tables, the numbered calls on them, and the ticks that are left.
#[derive(Drop)]
pub(crate) struct Shelf {
    pub(crate) left: u64,
    pub(crate) tables: FakeTables,
    pub(crate) calls: Calls,
}

/// A column as a table of the input has it.
fn column_of(alloc: Global, word: &str) -> Result<Column, AllocError> {
    let (name, kind) = match word.strip_suffix(":I") {
        Some(name) => (name, Kind::Integer),
        None => (word.strip_suffix(":T").unwrap_or(word), Kind::Text),
    };
    Ok(Column {
        name: Bytes::from_slice(alloc, name.as_bytes())?,
        kind,
    })
}

/// The columns as a table of the input has them.
fn columns_of(alloc: Global, words: &str) -> Result<Columns, AllocError> {
    let mut columns = Columns::new(alloc);
    for word in words.split(' ') {
        columns.push(column_of(alloc, word)?)?;
    }
    Ok(columns)
}

fn make_named(tables: &mut FakeTables, name: &str, columns: &Columns) {
    let _made = tables.create(name.as_bytes(), columns).unwrap_or(false);
}

/// The name of a table of the input.
fn name_of(alloc: Global, words: &str) -> Result<Bytes, AllocError> {
    match words.split_once(' ') {
        Some((name, _)) => Bytes::from_slice(alloc, name.as_bytes()),
        None => Bytes::from_slice(alloc, words.as_bytes()),
    }
}

fn make_table(alloc: Global, tables: &mut FakeTables, words: &str) -> Result<(), AllocError> {
    match words.split_once(' ') {
        Some((name, columns)) => make_named(tables, name, &columns_of(alloc, columns)?),
        None => make_named(tables, words, &Columns::new(alloc)),
    }
    Ok(())
}

fn add_row(
    alloc: Global,
    tables: &mut FakeTables,
    table: &[u8],
    words: &str,
) -> Result<(), AllocError> {
    let mut cells = Cells::new(alloc);
    for word in words.split(' ') {
        cells.push(cell_in(alloc, word)?)?;
    }
    let _number = tables.insert(table, &cells).unwrap_or(None);
    Ok(())
}

/// How many calls set the tables of a line.
fn count_settings(line: &str) -> u64 {
    let mut count = 0u64;
    for field in line.split('|') {
        if field.starts_with("table ") || field.starts_with("row ") {
            count = count.saturating_add(1);
        }
    }
    count
}

/// The calls that fail, counted with those that set the tables.
fn failing(alloc: Global, line: &str) -> Result<FailList, AllocError> {
    for field in line.split('|') {
        if let Some(numbers) = field.strip_prefix("fail ") {
            return fails_in(alloc, numbers, count_settings(line));
        }
    }
    Ok(FailList::new(alloc))
}

/// The number of a field of this name, or another.
fn number_of(line: &str, name: &str, other: u64) -> u64 {
    for field in line.split('|') {
        if let Some(number) = field.strip_prefix(name) {
            return number.parse::<u64>().unwrap_or(other);
        }
    }
    other
}

impl Shelf {
    /// Whether a field sets something.
    pub(crate) fn is_setting(field: &str) -> bool {
        field.starts_with("table ")
            || field.starts_with("row ")
            || field.starts_with("fail ")
            || field.starts_with("made ")
            || field.starts_with("left ")
    }

    /// What the fields of a line set.
    pub(crate) fn set(alloc: Global, line: &str) -> Result<Shelf, AllocError> {
        let mut tables = FakeTables::new(alloc, failing(alloc, line)?);
        let mut table = Bytes::new(alloc);
        for field in line.split('|') {
            if let Some(words) = field.strip_prefix("table ") {
                table = name_of(alloc, words)?;
                make_table(alloc, &mut tables, words)?;
            }
            if let Some(words) = field.strip_prefix("row ") {
                add_row(alloc, &mut tables, table.as_slice(), words)?;
            }
        }
        Ok(Shelf {
            left: number_of(line, "left ", 1_000_000),
            tables,
            calls: Calls {
                made: number_of(line, "made ", 0),
                failed: FailList::new(alloc),
            },
        })
    }
}
