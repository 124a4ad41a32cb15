//! What tables hold: columns, and rows of cells.
ghost use Rattle.std.specs.Prelude.{◌≡◌, [], ◌∷◌, ◌++◌, OnOk, OnErr};

use crate::row_place::row_place;
use resin_bytes::{Bytes, Items};
use std::alloc::{AllocError, Global};
use std::marker::Model;

/// The kind of a column's cells.
#[derive(Clone, Copy, Debug, PartialEq, Eq)]
pub enum Kind {
    Integer,
    Text,
}

/// A column of a table.
#[derive(Drop)]
pub struct Column {
    pub name: Bytes,
    pub kind: Kind,
}

/// A cell. A keeper may hold a cell of another kind than its column's.
#[derive(Drop)]
pub enum Cell {
    Null,
    Int(i64),
    Text(Bytes),
}

/// A row: its number, which no other row of its table has, and its cells in the order of the columns.
#[derive(Drop)]
pub struct Row {
    pub number: u64,
    pub cells: Cells,
}

/// The columns of a table.
pub type Columns = Items<Column>;

/// The cells of a row.
pub type Cells = Items<Cell>;

/// Rows of a table.
#[derive(Drop)]
pub struct Rows {
    items: Vec<Row>,
}

impl Model for Rows {
    ghost use Rattle.std.specs.Prelude.{List};
    ghost use Rattle.resin_base.specs.declared.cell.Row.{Row};

    ghost Value = { List Row };

    ghost view = { λ b. b.items.items };
}

impl Rows {
    ghost use Rattle.std.specs.Prelude.{IsTrue, map};
    ghost use Rattle.resin_base.specs.TableStore.{rise_from, has_number, largest_number, with_cells, without_number};

    /// The empty list, which takes no memory.
    pub fn new(alloc: Global) -> Rows
        ensures { result ≡ [] }
    {
        Rows {
            items: Vec::new(alloc),
        }
    }

    /// The rows in order.
    pub fn as_slice(&self) -> &[Row]
        ensures { result.now ≡ self.now }
    {
        self.items.as_slice()
    }

    /// Puts a row last. After want of memory the list is as before.
    pub fn push(&mut self, item: Row) -> Result<(), AllocError>
        ensures ok { OnOk result (self.new ≡ self.old ++ item ∷ []) }
        ensures err { OnErr result (self.new ≡ self.old) }
    {
        self.items.push(item)?;
        Ok(())
    }

    /// Whether some row has a number.
    pub fn has(&self, number: u64) -> bool
        ensures { result ≡ has_number self.now number }
    {
        self.items.iter().any(|row| row.number == number)
    }

    /// The largest number of a row, 0 where there is none.
    pub fn last_number(&self) -> u64
        requires { IsTrue (rise_from 0 self.now) }
        ensures { result ≡ largest_number self.now }
    {
        match self.items.as_slice().last() {
            Some(row) => row.number,
            None => 0,
        }
    }

    /// Sets the cells of the row of a number, if it is there.
    pub fn set_cells(&mut self, number: u64, cells: Cells)
        requires { IsTrue (rise_from 0 self.old) }
        ensures { self.new ≡ map (with_cells number cells) self.old }
    {
        match row_place(self.items.as_slice(), number) {
            Some(i) => self.items[i].cells = cells,
            None => {}
        }
    }

    /// Takes out the row of a number.
    pub fn take_out(&mut self, number: u64)
        ensures { self.new ≡ without_number number self.old }
    {
        self.items.retain(|row| row.number != number);
    }
}

/// A table: its columns, and its rows in rising number, each with as many cells as there are columns.
#[derive(Drop)]
pub struct Table {
    pub columns: Columns,
    pub rows: Rows,
}
