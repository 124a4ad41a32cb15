//! Tables in memory, some of whose calls fail.
ghost use Rattle.std.specs.Prelude.{◌≡◌, None, IsTrue, OnOk, OnErr};
ghost use Rattle.std.specs.FinMap as map;
ghost use Rattle.resin_base.specs.TableStore.{EachWhole, rise_from, have_cells, table_of};

use crate::table_map::TableMap;
use crate::tally::Tally;
use resin_base::{Cells, Columns, FailList, KeepFault, Rows, Tables};
use std::alloc::{AllocError, Global};
use std::marker::Model;

/// Tables in memory that fail at listed calls, counted from 1 and without those that find no memory. They tell which calls failed while
/// their count of calls is below its last value; there no call fails.
#[derive(Drop)]
pub struct FakeTables {
    tables: TableMap,
    tally: Tally,
    ghost whole: { EachWhole tables },
}

impl Model for FakeTables {
    ghost use Rattle.resin_memory.specs.Fakes.{FakedTables};
    ghost use Rattle.resin_memory.specs.Codes.{faked_tables_code};

    ghost Value = { FakedTables };

    ghost coded = { faked_tables_code };

    ghost view = { λ f. record { kept = record { tables = f.tables; whole = f.whole }; tally = f.tally } };
}

impl FakeTables {
    ghost use Rattle.std.specs.Option.{option_map};

    /// No table; `fail` holds the rising numbers of the calls that fail. It takes no memory.
    pub fn new(alloc: Global, fail: FailList) -> FakeTables
        ensures tables { result.kept.tables ≡ map.empty }
        ensures tally { result.tally ≡ record { fail = fail; made = 0; faults = 0 } }
    {
        FakeTables {
            tables: TableMap::new(alloc),
            tally: Tally::new(fail),
        }
    }

    /// Puts a table that isn't there. Its rows must rise in number, from at least 1 on, and have as many cells as there are columns.
    /// This is no keeper call. After want of memory the tables are as before.
    pub fn put_table(
        &mut self,
        name: &[u8],
        columns: &Columns,
        rows: &Rows,
    ) -> Result<(), AllocError>
        requires absent { map.get self.old.kept.tables name.now ≡ None }
        requires rising { IsTrue (rise_from 1 rows.now) }
        requires fitting { IsTrue (have_cells columns.now rows.now) }
        ensures ok { OnOk result (self.new.kept.tables ≡ map.insert self.old.kept.tables name.now (table_of columns.now rows.now)) }
        ensures err { OnErr result (self.new.kept.tables ≡ self.old.kept.tables) }
        ensures tally { self.new.tally ≡ self.old.tally }
    {
        self.tables.put(name, columns, rows)
    }

    /// The columns and the rows of a table, None exactly where it isn't there. This is no keeper call.
    pub fn table(&self, name: &[u8]) -> Option<(&Columns, &Rows)>
        ensures { option_map (λ table. table_of table.0.now table.1.now) result ≡ map.get self.now.kept.tables name.now }
    {
        let table = self.tables.get(name)?;
        Some((&table.columns, &table.rows))
    }
}

#[tactic(auto, using(crate::proofs::Telling::telling))]
impl Tables for FakeTables {
    ghost use Rattle.std.specs.Prelude.{Some};
    ghost use Rattle.resin_base.specs.Causes.{HasCause, TellsMore, outcome};
    ghost use Rattle.resin_base.specs.TableStore.{Creates, ShowsColumns, ShowsRows, Inserts, Updates, Deletes};
    ghost use Rattle.resin_memory.specs.Tallies.{Plays, told_answers};

    ghost stored = { λ f. Some f.kept.tables };

    ghost faults = { λ f. f.tally.faults };

    ghost answers = { λ f. told_answers f.tally };

    fn create(&mut self, name: &[u8], columns: &Columns) -> Result<bool, KeepFault>
        ensures contents { Creates self.old.kept.tables name.now columns.now result self.new.kept.tables }
        ensures plays { Plays self.old.tally result self.new.tally }
        ensures cause { HasCause self.old.tally.faults self.new.tally.faults result }
        ensures told { TellsMore (told_answers self.old.tally) (told_answers self.new.tally) (outcome result) }
    {
        if self.tally.fails_now() {
            return Err(KeepFault::Failed);
        }
        let answer = self.tables.create(name, columns)?;
        self.tally.count();
        Ok(answer)
    }

    fn columns(&mut self, name: &[u8]) -> Result<Option<Columns>, KeepFault>
        ensures contents { ShowsColumns self.old.kept.tables name.now result self.new.kept.tables }
        ensures plays { Plays self.old.tally result self.new.tally }
        ensures cause { HasCause self.old.tally.faults self.new.tally.faults result }
        ensures told { TellsMore (told_answers self.old.tally) (told_answers self.new.tally) (outcome result) }
    {
        if self.tally.fails_now() {
            return Err(KeepFault::Failed);
        }
        let answer = self.tables.columns(name)?;
        self.tally.count();
        Ok(answer)
    }

    fn rows(&mut self, name: &[u8]) -> Result<Rows, KeepFault>
        ensures contents { ShowsRows self.old.kept.tables name.now result self.new.kept.tables }
        ensures plays { Plays self.old.tally result self.new.tally }
        ensures cause { HasCause self.old.tally.faults self.new.tally.faults result }
        ensures told { TellsMore (told_answers self.old.tally) (told_answers self.new.tally) (outcome result) }
    {
        if self.tally.fails_now() {
            return Err(KeepFault::Failed);
        }
        let answer = self.tables.rows(name)?;
        self.tally.count();
        Ok(answer)
    }

    fn insert(&mut self, name: &[u8], cells: &Cells) -> Result<Option<u64>, KeepFault>
        ensures contents { Inserts self.old.kept.tables name.now cells.now result self.new.kept.tables }
        ensures plays { Plays self.old.tally result self.new.tally }
        ensures cause { HasCause self.old.tally.faults self.new.tally.faults result }
        ensures told { TellsMore (told_answers self.old.tally) (told_answers self.new.tally) (outcome result) }
    {
        if self.tally.fails_now() {
            return Err(KeepFault::Failed);
        }
        let answer = self.tables.insert(name, cells)?;
        self.tally.count();
        Ok(answer)
    }

    fn update(&mut self, name: &[u8], row: u64, cells: &Cells) -> Result<bool, KeepFault>
        ensures contents { Updates self.old.kept.tables name.now row cells.now result self.new.kept.tables }
        ensures plays { Plays self.old.tally result self.new.tally }
        ensures cause { HasCause self.old.tally.faults self.new.tally.faults result }
        ensures told { TellsMore (told_answers self.old.tally) (told_answers self.new.tally) (outcome result) }
    {
        if self.tally.fails_now() {
            return Err(KeepFault::Failed);
        }
        let answer = self.tables.update(name, row, cells)?;
        self.tally.count();
        Ok(answer)
    }

    fn delete(&mut self, name: &[u8], row: u64) -> Result<bool, KeepFault>
        ensures contents { Deletes self.old.kept.tables name.now row result self.new.kept.tables }
        ensures plays { Plays self.old.tally result self.new.tally }
        ensures cause { HasCause self.old.tally.faults self.new.tally.faults result }
        ensures told { TellsMore (told_answers self.old.tally) (told_answers self.new.tally) (outcome result) }
    {
        if self.tally.fails_now() {
            return Err(KeepFault::Failed);
        }
        let answer = self.tables.delete(name, row);
        self.tally.count();
        Ok(answer)
    }

    ghost whole = { λ f. f.kept.whole };
}
