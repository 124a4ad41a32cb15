//! The files and tables of runs: the site that every run has, what the fields of a row put beside it, and what they show of it afterwards.
use crate::settings::list_of;
use resin_memory::{FakeFiles, FakeTables};
use resin_table_keepers::{make_table, push_entry, push_table, put_row};
use resin_table_rows::{Line, cut};
use std::alloc::{AllocError, Global};

/// What a run finds and leaves.
#[derive(Drop)]
pub struct Keepers {
    pub files: FakeFiles,
    pub tables: FakeTables,
}

fn is_made(field: &str) -> bool {
    field.starts_with("table ") || field.starts_with("row ")
}

fn is_seen(field: &str) -> bool {
    field.starts_with("LOOK ") || field.starts_with("show ")
}

// How many calls of the tables it takes to make what fields ask for.
fn calls_of(fields: &str) -> usize {
    let mut count = 0usize;
    for field in fields.split('|') {
        if is_made(field) {
            count = count.saturating_add(1);
        }
    }
    count
}

// Makes a table or a row.
fn make_field(alloc: Global, tables: &mut FakeTables, field: &str) -> Result<(), AllocError> {
    let (kind, rest) = cut(field, ' ');
    if kind == "table" {
        make_table(alloc, tables, rest)
    } else {
        put_row(alloc, tables, rest)
    }
}

// Makes the tables and rows of fields, and puts the files whose names and bytes stand in turn.
fn put_fields(alloc: Global, keepers: &mut Keepers, fields: &str) -> Result<(), AllocError> {
    let mut name: Option<&str> = None;
    for field in fields.split('|') {
        if let Some(found) = name {
            keepers.files.put(found.as_bytes(), field.as_bytes(), b"")?;
            name = None;
        } else if is_made(field) {
            make_field(alloc, &mut keepers.tables, field)?;
        } else if !is_seen(field) {
            name = Some(field);
        }
    }
    Ok(())
}

/// The site of every run, and what fields put beside it. The calls that settings let fail are counted from here on.
pub fn keepers_of(alloc: Global, settings: &str, fields: &str) -> Result<Keepers, AllocError> {
    let files = list_of(alloc, settings, "file", 0)?;
    let tables = list_of(alloc, settings, "table", calls_of(fields))?;
    let mut keepers = Keepers {
        files: FakeFiles::new(alloc, files),
        tables: FakeTables::new(alloc, tables),
    };
    keepers.files.put(b"a.php", b"hi", b"")?;
    keepers.files.put(b"d.txt", b"abc", b"")?;
    put_fields(alloc, &mut keepers, fields)?;
    Ok(keepers)
}

/// Adds what fields ask to see of the files and tables.
pub fn push_seen(alloc: Global, out: &mut Line, keepers: &Keepers, fields: &str) {
    for field in fields.split('|') {
        if let Some(path) = field.strip_prefix("LOOK ") {
            out.push_str(" | ");
            push_entry(alloc, out, path, keepers.files.get(path.as_bytes()));
        } else if let Some(name) = field.strip_prefix("show ") {
            out.push_str(" | ");
            push_table(alloc, out, name, keepers.tables.table(name.as_bytes()));
        }
    }
}
