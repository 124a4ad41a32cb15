//! Tables in memory that never fail.
ghost use Rattle.std.specs.Prelude.{◌≡◌, None, IsTrue, OnOk, OnErr};
ghost use Rattle.std.specs.FinMap as map;
ghost use Rattle.resin_base.specs.TableStore.{EachWhole, rise_from, have_cells, table_of};

use crate::table_map::TableMap;
use resin_base::{Cells, Columns, KeepFault, Rows, Tables};
use std::alloc::{AllocError, Global};
use std::marker::Model;

/// Tables in memory whose calls never fail: their count of faults is always 0.
#[derive(Drop)]
pub struct CalmTables {
    tables: TableMap,
    ghost whole: { EachWhole tables },
}

impl Model for CalmTables {
    ghost use Rattle.resin_memory.specs.Fakes.{KeptTables};
    ghost use Rattle.resin_memory.specs.Codes.{kept_tables_code};

    ghost Value = { KeptTables };

    ghost coded = { kept_tables_code };

    ghost view = { λ c. record { tables = c.tables; whole = c.whole } };
}

impl CalmTables {
    ghost use Rattle.std.specs.Option.{option_map};

    /// No table. It takes no memory.
    pub fn new(alloc: Global) -> CalmTables
        ensures { result.tables ≡ map.empty }
    {
        CalmTables {
            tables: TableMap::new(alloc),
        }
    }

    /// Puts a table that isn't there. Its rows must rise in number, from at least 1 on, and have as many cells as there are columns.
    /// This is no keeper call. After want of memory the tables are as before.
    pub fn put_table(
        &mut self,
        name: &[u8],
        columns: &Columns,
        rows: &Rows,
    ) -> Result<(), AllocError>
        requires absent { map.get self.old.tables name.now ≡ None }
        requires rising { IsTrue (rise_from 1 rows.now) }
        requires fitting { IsTrue (have_cells columns.now rows.now) }
        ensures ok { OnOk result (self.new.tables ≡ map.insert self.old.tables name.now (table_of columns.now rows.now)) }
        ensures err { OnErr result (self.new.tables ≡ self.old.tables) }
    {
        self.tables.put(name, columns, rows)
    }

    /// The columns and the rows of a table, None exactly where it isn't there. This is no keeper call.
    pub fn table(&self, name: &[u8]) -> Option<(&Columns, &Rows)>
        ensures { option_map (λ table. table_of table.0.now table.1.now) result ≡ map.get self.now.tables name.now }
    {
        let table = self.tables.get(name)?;
        Some((&table.columns, &table.rows))
    }
}

impl Tables for CalmTables {
    ghost use Rattle.std.specs.Prelude.{Some, None};

    ghost stored = { λ kept. Some kept.tables };

    ghost faults = { λ _. 0 };

    ghost answers = { λ _. None };

    fn create(&mut self, name: &[u8], columns: &Columns) -> Result<bool, KeepFault> {
        Ok(self.tables.create(name, columns)?)
    }

    fn columns(&mut self, name: &[u8]) -> Result<Option<Columns>, KeepFault> {
        Ok(self.tables.columns(name)?)
    }

    fn rows(&mut self, name: &[u8]) -> Result<Rows, KeepFault> {
        Ok(self.tables.rows(name)?)
    }

    fn insert(&mut self, name: &[u8], cells: &Cells) -> Result<Option<u64>, KeepFault> {
        Ok(self.tables.insert(name, cells)?)
    }

    fn update(&mut self, name: &[u8], row: u64, cells: &Cells) -> Result<bool, KeepFault> {
        Ok(self.tables.update(name, row, cells)?)
    }

    fn delete(&mut self, name: &[u8], row: u64) -> Result<bool, KeepFault> {
        Ok(self.tables.delete(name, row))
    }

    ghost whole = { λ kept. kept.whole };
}
