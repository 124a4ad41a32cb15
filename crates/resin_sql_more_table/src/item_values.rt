//! The values of a total's items.

use resin_base::{Cell, Stored};
use resin_sql_more::{MoreAnswer, TotalFault, TotalItem, item_name, item_value};
use resin_table_rows::Line;
use resin_table_sql::{copied, push_cell};
use std::alloc::{AllocError, Global};

/// The values of a row, if none is NULL.
fn values_of(alloc: Global, row: &Stored) -> Result<Option<Vec<Cell>>, AllocError> {
    let mut values = Vec::new(alloc);
    for cell in row.as_slice() {
        if let Cell::Null = &cell.value {
            return Ok(None);
        }
        values.push(copied(alloc, &cell.value)?)?;
    }
    Ok(Some(values))
}

fn push_value(
    alloc: Global,
    out: &mut Line,
    item: &TotalItem,
    chosen: u64,
    row: &Stored,
) -> Result<(), AllocError> {
    let Some(values) = values_of(alloc, row)? else {
        out.push('?');
        return Ok(());
    };
    match item_value(alloc, item, chosen % 1_000_000, values.as_slice()) {
        Ok(cell) => push_cell(out, &cell),
        Err(TotalFault::IntegerOverflow) => out.push_str("overflow"),
        Err(TotalFault::TextTooLong) => out.push_str("too long"),
        Err(TotalFault::Memory) => return Err(AllocError),
    }
    Ok(())
}

/// The first item of a name.
fn item_called<'a>(
    alloc: Global,
    items: &'a [TotalItem],
    name: &[u8],
) -> Result<Option<&'a TotalItem>, AllocError> {
    for item in items {
        let called = item_name(alloc, item)?;
        if called.as_slice() == name {
            return Ok(Some(item));
        }
    }
    Ok(None)
}

/// Adds the value of each item that is answered, `?` where one of its cells isn't read.
pub(crate) fn push_values(
    alloc: Global,
    out: &mut Line,
    items: &[TotalItem],
    answer: &MoreAnswer,
) -> Result<(), AllocError> {
    out.push_str(" =");
    for (name, row) in answer.names.as_slice().iter().zip(answer.rows.as_slice()) {
        out.push(' ');
        if let Some(item) = item_called(alloc, items, name.as_slice())? {
            push_value(alloc, out, item, answer.chosen, row)?;
        }
    }
    Ok(())
}
