//! Keepers of tables, each of which has one column `a` of texts.
ghost use Rattle.std.specs.Prelude.{◌≡◌};
ghost use Rattle.resin_base.specs.Numbering.{AreNumbered};

use crate::files::{push_calls, push_fault, push_put, push_whether};
use resin_base::{
    Bytes, Calls, Cell, Cells, Column, Columns, FailList, KeepFault, Kind, Rows, Tables,
};
use resin_memory::{CalmTables, FakeTables};
use resin_table_keepers::fails_in;
use resin_table_rows::{Line, cut};
use std::alloc::{AllocError, Global};

// The column `a`.
fn column(alloc: Global) -> Result<Column, AllocError> {
    let name = Bytes::from_slice(alloc, b"a")?;
    Ok(Column {
        name,
        kind: Kind::Text,
    })
}

fn one_column(alloc: Global) -> Result<Columns, AllocError> {
    let mut columns = Columns::new(alloc);
    columns.push(column(alloc)?)?;
    Ok(columns)
}

fn cell(alloc: Global, text: &str) -> Result<Cell, AllocError> {
    Ok(Cell::Text(Bytes::from_slice(alloc, text.as_bytes())?))
}

fn one_cell(alloc: Global, text: &str) -> Result<Cells, AllocError> {
    let mut cells = Cells::new(alloc);
    cells.push(cell(alloc, text)?)?;
    Ok(cells)
}

// Adds the numbers of rows.
fn push_numbers(out: &mut Line, rows: &Rows) {
    out.push_str("rows");
    for row in rows.as_slice() {
        out.tell(" ", row.number, "");
    }
}

fn push_rows(out: &mut Line, answer: Result<Rows, KeepFault>) {
    match answer {
        Ok(rows) => push_numbers(out, &rows),
        Err(fault) => push_fault(out, fault),
    }
}

fn push_names(out: &mut Line, columns: &Columns) {
    out.push_str("columns");
    for column in columns.as_slice() {
        out.push(' ');
        out.push_spaced_bytes(column.name.as_slice());
    }
}

fn push_found(out: &mut Line, columns: &Option<Columns>) {
    match columns {
        Some(columns) => push_names(out, columns),
        None => out.push_str("none"),
    }
}

fn push_columns(out: &mut Line, answer: Result<Option<Columns>, KeepFault>) {
    match answer {
        Ok(columns) => push_found(out, &columns),
        Err(fault) => push_fault(out, fault),
    }
}

fn push_number(out: &mut Line, answer: Result<Option<u64>, KeepFault>) {
    match answer {
        Ok(Some(number)) => out.tell("row ", number, ""),
        Ok(None) => out.push_str("none"),
        Err(fault) => push_fault(out, fault),
    }
}

// What a step does, to which table, to which row, and the text that it puts.
#[derive(Clone, Copy)]
struct Step<'a> {
    name: &'a str,
    table: &'a str,
    row: u64,
    text: &'a str,
}

fn step_of(text: &str) -> Step<'_> {
    let (name, operands) = cut(text, ' ');
    let (table, rest) = cut(operands, ' ');
    let (row, last) = cut(rest, ' ');
    let text = if name == "insert" { rest } else { last };
    Step {
        name,
        table,
        row: row.parse::<u64>().unwrap_or(0),
        text,
    }
}

// The column of each table, and the cells of a row with a text.
struct Operands {
    columns: Columns,
    cells: Cells,
}

impl Drop for Operands {
    fn drop(self) {
        let Operands {
            columns: _,
            cells: _,
        } = self;
    }
}

fn operands_of(alloc: Global, text: &str) -> Result<Operands, AllocError> {
    let columns = one_column(alloc)?;
    let cells = one_cell(alloc, text)?;
    Ok(Operands { columns, cells })
}

// Makes the call of a step, and adds what it answers.
fn push_plain<T: Tables>(out: &mut Line, tables: &mut T, step: Step<'_>, given: &Operands) {
    let table = step.table.as_bytes();
    match step.name {
        "create" => push_whether(out, tables.create(table, &given.columns)),
        "insert" => push_number(out, tables.insert(table, &given.cells)),
        "update" => push_whether(out, tables.update(table, step.row, &given.cells)),
        "delete" => push_whether(out, tables.delete(table, step.row)),
        "columns" => push_columns(out, tables.columns(table)),
        "rows" => push_rows(out, tables.rows(table)),
        _ => out.push('?'),
    }
}

// Makes the call of a step that changes rows.
fn change<T: Tables>(tables: &mut T, step: Step<'_>, cells: &Cells, calls: &mut Calls)
    requires room { calls.old.made ≡ 0 }
    requires numbered { AreNumbered calls.old }
{
    let table = step.table.as_bytes();
    match step.name {
        "insert" => drop(calls.insert_row(tables, table, cells)),
        "update" => drop(calls.update_row(tables, table, step.row, cells)),
        "delete" => drop(calls.delete_row(tables, table, step.row)),
        _ => {}
    }
}

// Makes the call of a step that makes a table or looks at one.
fn look<T: Tables>(tables: &mut T, step: Step<'_>, columns: &Columns, calls: &mut Calls)
    requires room { calls.old.made ≡ 0 }
    requires numbered { AreNumbered calls.old }
{
    let table = step.table.as_bytes();
    match step.name {
        "create" => drop(calls.create_table(tables, table, columns)),
        "columns" => drop(calls.table_columns(tables, table)),
        "rows" => drop(calls.table_rows(tables, table)),
        _ => {}
    }
}

// Makes the call of a step as the first of a run, and adds how many are counted then, and how many are listed.
fn push_numbered<T: Tables>(
    alloc: Global,
    out: &mut Line,
    tables: &mut T,
    step: Step<'_>,
    given: &Operands,
) {
    let mut calls = Calls {
        made: 0,
        failed: FailList::new(alloc),
    };
    match step.name {
        "create" | "columns" | "rows" => look(tables, step, &given.columns, &mut calls),
        _ => change(tables, step, &given.cells, &mut calls),
    }
    push_calls(out, &calls);
}

// Makes the call of a step, which is the first of a run where `numbered` stands before it.
fn push_step<T: Tables>(
    alloc: Global,
    out: &mut Line,
    tables: &mut T,
    step: &str,
) -> Result<(), AllocError> {
    let call = step_of(step.strip_prefix("numbered ").unwrap_or(step));
    let given = operands_of(alloc, call.text)?;
    if step.starts_with("numbered ") {
        push_numbered(alloc, out, tables, call, &given);
    } else {
        push_plain(out, tables, call, &given);
    }
    Ok(())
}

fn push_table(out: &mut Line, table: Option<(&Columns, &Rows)>) {
    match table {
        Some((columns, rows)) => {
            push_names(out, columns);
            out.push_str(", ");
            push_numbers(out, rows);
        }
        None => out.push_str("none"),
    }
}

fn put_calm(alloc: Global, tables: &mut CalmTables, table: &[u8]) -> Result<(), AllocError> {
    if tables.table(table).is_some() {
        return Ok(());
    }
    let columns = one_column(alloc)?;
    tables.put_table(table, &columns, &Rows::new(alloc))
}

// Takes a step of tables in memory, of which `table` and `put` are no calls.
fn push_calm_step(
    alloc: Global,
    out: &mut Line,
    tables: &mut CalmTables,
    step: &str,
) -> Result<(), AllocError> {
    let (name, table) = cut(step, ' ');
    match name {
        "table" => push_table(out, tables.table(table.as_bytes())),
        "put" => push_put(out, put_calm(alloc, tables, table.as_bytes())),
        _ => return push_step(alloc, out, tables, step),
    }
    Ok(())
}

/// Tables in memory that never fail.
pub fn push_calm(alloc: Global, out: &mut Line, steps: &str) -> Result<(), AllocError> {
    let mut tables = CalmTables::new(alloc);
    for step in steps.split('|') {
        let done = push_calm_step(alloc, out, &mut tables, step);
        out.note(done);
        out.push_str("; ");
    }
    Ok(())
}

fn put_fake(alloc: Global, tables: &mut FakeTables, table: &[u8]) -> Result<(), AllocError> {
    if tables.table(table).is_some() {
        return Ok(());
    }
    let columns = one_column(alloc)?;
    tables.put_table(table, &columns, &Rows::new(alloc))
}

fn push_fake_step(
    alloc: Global,
    out: &mut Line,
    tables: &mut FakeTables,
    step: &str,
) -> Result<(), AllocError> {
    let (name, table) = cut(step, ' ');
    match name {
        "table" => push_table(out, tables.table(table.as_bytes())),
        "put" => push_put(out, put_fake(alloc, tables, table.as_bytes())),
        _ => return push_step(alloc, out, tables, step),
    }
    Ok(())
}

/// Tables in memory of which the listed calls fail.
pub fn push_fake(alloc: Global, out: &mut Line, fail: &str, steps: &str) -> Result<(), AllocError> {
    let fail = fails_in(alloc, fail, 0)?;
    let mut tables = FakeTables::new(alloc, fail);
    for step in steps.split('|') {
        let done = push_fake_step(alloc, out, &mut tables, step);
        out.note(done);
        out.push_str("; ");
    }
    Ok(())
}
