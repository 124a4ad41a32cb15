//! The cells of a row, or of two rows side by side.

ghost use Rattle.std.specs.Prelude.{◌≡◌};
ghost use Rattle.std.specs.Option.{option_copied};
ghost use Rattle.resin_rows.specs.Cells.{or_null, value_at, shadow_at, beside};

use crate::cells::{shadow_at, value_at};
use resin_base::Cell;
use std::marker::Model;

/// The cells of a row, or of a row of a table with so many columns and another row behind it. Contracts see them as one list.
#[derive(Drop)]
pub struct RowCells<'a> {
    columns: usize,
    first: &'a [Cell],
    last: &'a [Cell],
}

impl<'a> Model for RowCells<'a> {
    ghost use Rattle.std.specs.Prelude.{List};
    ghost use Rattle.resin_base.specs.declared.cell.Cell.{Cell};
    ghost use Rattle.resin_rows.specs.Cells.{beside};

    ghost Value = { List Cell };

    ghost view = { λ c. beside c.columns c.first.now c.last.now };
}

impl<'a> RowCells<'a> {
    /// The cells of one row.
    pub fn one(cells: &'a [Cell]) -> RowCells<'a>
        ensures { result ≡ cells.now }
    {
        RowCells {
            columns: 0,
            first: &[],
            last: cells,
        }
    }

    /// The cells of a row of a table with so many columns, and those of another row behind them.
    pub fn beside(columns: usize, first: &'a [Cell], last: &'a [Cell]) -> RowCells<'a>
        ensures { result ≡ beside columns first.now last.now }
    {
        RowCells {
            columns,
            first,
            last,
        }
    }

    /// The value of the column at a place, if the row has one.
    pub fn value_at(&self, at: usize) -> Option<&'a Cell>
        ensures { or_null (option_copied result) ≡ value_at self.now at }
    {
        if at < self.columns {
            value_at(self.first, at)
        } else {
            value_at(self.last, at - self.columns)
        }
    }

    /// The shadow of the column at a place, if the row has one.
    pub fn shadow_at(&self, at: usize) -> Option<&'a Cell>
        ensures { or_null (option_copied result) ≡ shadow_at self.now at }
    {
        if at < self.columns {
            shadow_at(self.first, at)
        } else {
            shadow_at(self.last, at - self.columns)
        }
    }
}
