//! Tables kept in memory.
ghost use Rattle.std.specs.Prelude.{◌≡◌, ◌++◌, [], ◌∷◌, None, not, IfOk, OnOk, OnErr, map as each};
ghost use Rattle.std.specs.Option.{option_copied};
ghost use Rattle.std.specs.FinMap.{find, from_entries, insert};
ghost use Rattle.std.specs.FinMap as map;
ghost use Rattle.resin_base.specs.Contents.{byte_order};
ghost use Rattle.resin_base.specs.TableStore.{EachWhole, table_of, columns_of, rows_of, with_rows, with_cells, without_number};
ghost use Rattle.resin_base.specs.TableStore.{has_row, can_update, next_number, after_create, after_insert, after_update, after_delete};

use crate::copies::{copy_cells, copy_columns, copy_rows};
use crate::places::{place_of, value_at};
use resin_base::{Bytes, Cells, Columns, Row, Rows, Table};
use std::alloc::{AllocError, Global};
use std::marker::Model;

/// The largest number that a new row gets.
const LAST_ROW_NUMBER: u64 = 9_223_372_036_854_775_807;

/// A map from name to table, looked up by walking.
#[derive(Drop)]
pub struct TableMap {
    alloc: Global,
    entries: Vec<(Bytes, Table)>,
}

impl Model for TableMap {
    ghost use Rattle.std.specs.FinMap.{from_entries};
    ghost use Rattle.resin_base.specs.TableStore.{TableStore};
    ghost use Rattle.resin_memory.specs.Codes.{table_store_code};

    ghost Value = { TableStore };

    ghost coded = { table_store_code };

    ghost view = { λ m. from_entries m.entries.items };
}

impl TableMap {
    /// The map without tables, which takes no memory.
    pub(crate) fn new(alloc: Global) -> TableMap
        ensures { result ≡ map.empty }
    {
        TableMap {
            alloc,
            entries: Vec::new(alloc),
        }
    }

    /// The table of a name.
    pub(crate) fn get(&self, name: &[u8]) -> Option<&Table>
        ensures { option_copied result ≡ map.get self.now name.now }
    {
        value_at(&self.entries, name)
    }

    /// Whether a table is there.
    pub(crate) fn has(&self, name: &[u8]) -> bool
        ensures { result ≡ map.contains_key self.now name.now }
    {
        self.get(name).is_some()
    }

    /// Puts a table that isn't there. After want of memory the map is as before.
    pub(crate) fn put(
        &mut self,
        name: &[u8],
        columns: &Columns,
        rows: &Rows,
    ) -> Result<(), AllocError>
        requires { map.get self.old name.now ≡ None }
        ensures ok { OnOk result (self.new ≡ map.insert self.old name.now (table_of columns.now rows.now)) }
        ensures err { OnErr result (self.new ≡ self.old) }
    {
        let table = Table {
            columns: copy_columns(self.alloc, columns)?,
            rows: copy_rows(self.alloc, rows)?,
        };
        push_table(self.alloc, &mut self.entries, name, table)
    }

    /// Makes a table without rows, unless it is there. After want of memory the map is as before.
    pub(crate) fn create(&mut self, name: &[u8], columns: &Columns) -> Result<bool, AllocError>
        ensures made { IfOk result (λ made. made ≡ not (map.contains_key self.old name.now)) }
        ensures ok { OnOk result (self.new ≡ after_create self.old name.now columns.now) }
        ensures err { OnErr result (self.new ≡ self.old) }
    {
        if self.has(name) {
            return Ok(false);
        }
        self.put(name, columns, &Rows::new(self.alloc))?;
        Ok(true)
    }

    /// A copy of the columns of a table.
    pub(crate) fn columns(&self, name: &[u8]) -> Result<Option<Columns>, AllocError>
        ensures { IfOk result (λ found. found ≡ columns_of self.now name.now) }
    {
        match self.get(name) {
            Some(table) => Ok(Some(copy_columns(self.alloc, &table.columns)?)),
            None => Ok(None),
        }
    }

    /// A copy of the rows of a table, none where it isn't there.
    pub(crate) fn rows(&self, name: &[u8]) -> Result<Rows, AllocError>
        ensures { IfOk result (λ rows. rows ≡ rows_of self.now name.now) }
    {
        match self.get(name) {
            Some(table) => copy_rows(self.alloc, &table.rows),
            None => Ok(Rows::new(self.alloc)),
        }
    }

    /// The number of the next row.
    pub(crate) fn next_number(&self, name: &[u8], cells: &Cells) -> Option<u64>
        requires { EachWhole self.now }
        ensures { result ≡ next_number self.now name.now cells.now }
    {
        let table = self.get(name)?;
        let number = table.rows.last_number();
        if table.columns.as_slice().len() == cells.as_slice().len() && number < LAST_ROW_NUMBER {
            Some(number + 1)
        } else {
            None
        }
    }

    /// Puts a row last, and answers its number. After want of memory the map is as before.
    pub(crate) fn insert(&mut self, name: &[u8], cells: &Cells) -> Result<Option<u64>, AllocError>
        requires { EachWhole self.old }
        ensures number { IfOk result (λ number. number ≡ next_number self.old name.now cells.now) }
        ensures ok { OnOk result (self.new ≡ after_insert self.old name.now cells.now) }
        ensures err { OnErr result (self.new ≡ self.old) }
    {
        let Some(number) = self.next_number(name, cells) else {
            return Ok(None);
        };
        let cells = copy_cells(self.alloc, cells)?;
        add_row(&mut self.entries, name, Row { number, cells })?;
        Ok(Some(number))
    }

    /// Whether a row is there.
    pub(crate) fn has_row(&self, name: &[u8], number: u64) -> bool
        ensures { result ≡ has_row self.now name.now number }
    {
        match self.get(name) {
            Some(table) => table.rows.has(number),
            None => false,
        }
    }

    /// Whether a row is there that these cells fit.
    pub(crate) fn can_update(&self, name: &[u8], number: u64, cells: &Cells) -> bool
        ensures { result ≡ can_update self.now name.now number cells.now }
    {
        match self.get(name) {
            Some(table) => table.columns.as_slice().len() == cells.as_slice().len()
                && table.rows.has(number),
            None => false,
        }
    }

    /// Sets the cells of a row, and answers whether it was there. After want of memory the map is as before.
    pub(crate) fn update(
        &mut self,
        name: &[u8],
        number: u64,
        cells: &Cells,
    ) -> Result<bool, AllocError>
        requires { EachWhole self.old }
        ensures was { IfOk result (λ was. was ≡ can_update self.old name.now number cells.now) }
        ensures ok { OnOk result (self.new ≡ after_update self.old name.now number cells.now) }
        ensures err { OnErr result (self.new ≡ self.old) }
    {
        if !self.can_update(name, number, cells) {
            return Ok(false);
        }
        let cells = copy_cells(self.alloc, cells)?;
        set_cells(&mut self.entries, name, number, cells);
        Ok(true)
    }

    /// Takes a row out, and answers whether it was there.
    pub(crate) fn delete(&mut self, name: &[u8], number: u64) -> bool
        ensures was { result ≡ has_row self.old name.now number }
        ensures out { self.new ≡ after_delete self.old name.now number }
    {
        if !self.has_row(name, number) {
            return false;
        }
        take_row_out(&mut self.entries, name, number);
        true
    }
}

// Puts a table last.
fn push_table(
    alloc: Global,
    entries: &mut Vec<(Bytes, Table)>,
    name: &[u8],
    table: Table,
) -> Result<(), AllocError>
    requires { find byte_order name.now entries.old.items ≡ None }
    ensures ok { OnOk result (from_entries {R = byte_order} entries.new.items ≡ insert (from_entries entries.old.items) name.now table) }
    ensures err { OnErr result (entries.new.items ≡ entries.old.items) }
{
    entries.push((Bytes::from_slice(alloc, name)?, table))?;
    Ok(())
}

// Puts a row last in a table that is there.
fn add_row(entries: &mut Vec<(Bytes, Table)>, name: &[u8], row: Row) -> Result<(), AllocError>
    ensures ok { OnOk result (from_entries entries.new.items ≡ with_rows (from_entries entries.old.items) name.now (λ rows. rows ++ row ∷ [])) }
    ensures err { OnErr result (entries.new.items ≡ entries.old.items) }
{
    match place_of(entries, name) {
        Some(i) => entries[i].1.rows.push(row),
        None => Ok(()),
    }
}

// Sets the cells of a row in a table that is there.
fn set_cells(entries: &mut Vec<(Bytes, Table)>, name: &[u8], number: u64, cells: Cells)
    requires { EachWhole (from_entries entries.old.items) }
    ensures { from_entries entries.new.items ≡ with_rows (from_entries entries.old.items) name.now (each (with_cells number cells)) }
{
    match place_of(entries, name) {
        Some(i) => entries[i].1.rows.set_cells(number, cells),
        None => {}
    }
}

// Takes a row out of a table that is there.
fn take_row_out(entries: &mut Vec<(Bytes, Table)>, name: &[u8], number: u64)
    ensures { from_entries entries.new.items ≡ with_rows (from_entries entries.old.items) name.now (without_number number) }
{
    match place_of(entries, name) {
        Some(i) => entries[i].1.rows.take_out(number),
        None => {}
    }
}
