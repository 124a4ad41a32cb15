//! Answers in words.

use percent_encoding::{NON_ALPHANUMERIC, percent_encode};
use resin_base::{Cell, Cells, Columns, KeepFault, Kind, Rows};
use std::alloc::{AllocError, Global};

// Writes what is no letter, digit or `_` as `%` and two digits.
fn push_bytes(out: &mut String, bytes: &[u8]) -> Result<(), AllocError> {
    percent_encode(bytes, NON_ALPHANUMERIC.remove(b'_')).append_to(out)
}

fn push_cell(out: &mut String, cell: &Cell) -> Result<(), AllocError> {
    match cell {
        Cell::Null => out.push('N'),
        Cell::Int(number) => {
            let number = *number;
            write!(out, "{number}")
        }
        Cell::Text(text) => {
            out.push('\'')?;
            push_bytes(out, text.as_slice())
        }
    }
}

fn push_row(out: &mut String, number: u64, cells: &Cells) -> Result<(), AllocError> {
    write!(out, " {number}:")?;
    for (i, cell) in cells.as_slice().iter().enumerate() {
        if i > 0 {
            out.push(',')?;
        }
        push_cell(out, cell)?;
    }
    Ok(())
}

fn rows_text(alloc: Global, rows: &Rows) -> Result<String, AllocError> {
    let mut out = String::from_str(alloc, "rows")?;
    for row in rows.as_slice() {
        push_row(&mut out, row.number, &row.cells)?;
    }
    Ok(out)
}

fn columns_text(alloc: Global, columns: &Columns) -> Result<String, AllocError> {
    let mut out = String::from_str(alloc, "columns")?;
    for column in columns.as_slice() {
        out.push_str(match column.kind {
            Kind::Integer => " I:",
            Kind::Text => " T:",
        })?;
        push_bytes(&mut out, column.name.as_slice())?;
    }
    Ok(out)
}

fn fault_text(alloc: Global, fault: KeepFault) -> Result<String, AllocError> {
    String::from_str(
        alloc,
        match fault {
            KeepFault::Failed => "failed",
            KeepFault::Memory => "memory",
        },
    )
}

pub(crate) fn truth(alloc: Global, answer: Result<bool, KeepFault>) -> Result<String, AllocError> {
    match answer {
        Ok(true) => String::from_str(alloc, "true"),
        Ok(false) => String::from_str(alloc, "false"),
        Err(fault) => fault_text(alloc, fault),
    }
}

pub(crate) fn columns(
    alloc: Global,
    answer: Result<Option<Columns>, KeepFault>,
) -> Result<String, AllocError> {
    match answer {
        Ok(Some(columns)) => columns_text(alloc, &columns),
        Ok(None) => String::from_str(alloc, "none"),
        Err(fault) => fault_text(alloc, fault),
    }
}

pub(crate) fn rows(alloc: Global, answer: Result<Rows, KeepFault>) -> Result<String, AllocError> {
    match answer {
        Ok(rows) => rows_text(alloc, &rows),
        Err(fault) => fault_text(alloc, fault),
    }
}

pub(crate) fn number(
    alloc: Global,
    answer: Result<Option<u64>, KeepFault>,
) -> Result<String, AllocError> {
    match answer {
        Ok(Some(number)) => format!(in alloc; "{number}"),
        Ok(None) => String::from_str(alloc, "none"),
        Err(fault) => fault_text(alloc, fault),
    }
}
