//! Numbered keeper calls.
ghost use Rattle.std.specs.Prelude.{◌≡◌, ◌-◌, ◌^◌, ◌<◌, [], ◌∷◌, ◌++◌, length, OnOk, OnErr};
ghost use Rattle.resin_base.specs.Causes.{HasCause, TellsMore, outcome};
ghost use Rattle.resin_base.specs.Contents.{Told};
ghost use Rattle.resin_base.specs.FileStore.{Reads, Writes, Removes, Tests};
ghost use Rattle.resin_base.specs.TableStore.{Creates, ShowsColumns, ShowsRows, Inserts, Updates, Deletes};

use crate::cell::{Cells, Columns, Rows};
use crate::fail_list::FailList;
use crate::faults::KeepFault;
use crate::files::{Entry, Files};
use crate::tables::Tables;
use std::alloc::AllocError;

/// The keeper calls of a run, those on files and those on tables together: their number, and the numbers of those that failed.
/// They are numbered from 1. A call that found no memory isn't counted.
///
/// Each numbered call puts its number into the list before it asks the keeper, and takes it off again unless the keeper failed; so a
/// failed call is always listed. It needs a number that is left, and answers what the keeper's own call answers, or Memory.
#[derive(Drop)]
pub struct Calls {
    pub made: u64,
    pub failed: FailList,
}

#[tactic(auto, using(crate::proofs::CallNumbers::numbering))]
impl Calls {
    ghost use Rattle.resin_base.specs.Numbering.{AreNumbered, Lists, IsAsked, AreAsked, Settles};

    // Lists the number of the next call.
    fn ask(&mut self) -> Result<(), AllocError>
        requires room { self.old.made < 2 ^ 64 - 1 }
        requires numbered { AreNumbered self.old }
        ensures ok { OnOk result (IsAsked self.old self.new) }
        ensures asked { OnOk result (AreAsked self.new) }
        ensures err { OnErr result (self.new ≡ self.old) }
    {
        self.failed.push(self.made + 1)?;
        Ok(())
    }

    // Counts the call that was listed. The numbers stay in order.
    fn settle<A>(&mut self, answer: &Result<A, KeepFault>)
        requires room { self.old.made < 2 ^ 64 - 1 }
        requires asked { AreAsked self.old }
        ensures settled { Settles self.old answer.now self.new }
        ensures numbered { AreNumbered self.new }
    {
        self.count(answer);
    }

    /// Counts the call whose number was listed last, by its answer, and takes that number off unless the call failed. A call that found no
    /// memory isn't counted.
    pub fn count<A>(&mut self, answer: &Result<A, KeepFault>)
        requires room { self.old.made < 2 ^ 64 - 1 }
        requires listed { 0 < length self.old.failed }
        ensures { Settles self.old answer.now self.new }
    {
        match answer {
            Ok(_) => {
                self.failed.pop();
                self.made += 1;
            }
            Err(KeepFault::Failed) => self.made += 1,
            Err(KeepFault::Memory) => self.failed.pop(),
        }
    }

    /// Reads the entry at a path of the files.
    pub fn read_file<F: Files>(
        &mut self,
        files: &mut F,
        path: &[u8],
    ) -> Result<Option<Entry>, KeepFault>
        requires room { self.old.made < 2 ^ 64 - 1 }
        requires numbered { AreNumbered self.old }
        ensures contents { Told (F.stored files.old) (F.stored files.new) (λ s t. Reads s path.now result t) }
        ensures cause { HasCause (F.faults files.old) (F.faults files.new) result }
        ensures told { TellsMore (F.answers files.old) (F.answers files.new) (outcome result) }
        ensures listed { Lists self.old result self.new }
        ensures numbered { AreNumbered self.new }
    {
        self.ask()?;
        let answer = files.read(path);
        self.settle(&answer);
        answer
    }

    /// Sets the bytes and the shadow text at a path of the files.
    pub fn write_file<F: Files>(
        &mut self,
        files: &mut F,
        path: &[u8],
        bytes: &[u8],
        shadow: &[u8],
    ) -> Result<(), KeepFault>
        requires room { self.old.made < 2 ^ 64 - 1 }
        requires numbered { AreNumbered self.old }
        ensures contents { Told (F.stored files.old) (F.stored files.new) (λ s t. Writes s path.now bytes.now shadow.now result t) }
        ensures cause { HasCause (F.faults files.old) (F.faults files.new) result }
        ensures told { TellsMore (F.answers files.old) (F.answers files.new) (outcome result) }
        ensures listed { Lists self.old result self.new }
        ensures numbered { AreNumbered self.new }
    {
        self.ask()?;
        let answer = files.write(path, bytes, shadow);
        self.settle(&answer);
        answer
    }

    /// Removes the entry at a path of the files.
    pub fn remove_file<F: Files>(&mut self, files: &mut F, path: &[u8]) -> Result<bool, KeepFault>
        requires room { self.old.made < 2 ^ 64 - 1 }
        requires numbered { AreNumbered self.old }
        ensures contents { Told (F.stored files.old) (F.stored files.new) (λ s t. Removes s path.now result t) }
        ensures cause { HasCause (F.faults files.old) (F.faults files.new) result }
        ensures told { TellsMore (F.answers files.old) (F.answers files.new) (outcome result) }
        ensures listed { Lists self.old result self.new }
        ensures numbered { AreNumbered self.new }
    {
        self.ask()?;
        let answer = files.remove(path);
        self.settle(&answer);
        answer
    }

    /// Tells whether a path of the files has an entry.
    pub fn file_exists<F: Files>(&mut self, files: &mut F, path: &[u8]) -> Result<bool, KeepFault>
        requires room { self.old.made < 2 ^ 64 - 1 }
        requires numbered { AreNumbered self.old }
        ensures contents { Told (F.stored files.old) (F.stored files.new) (λ s t. Tests s path.now result t) }
        ensures cause { HasCause (F.faults files.old) (F.faults files.new) result }
        ensures told { TellsMore (F.answers files.old) (F.answers files.new) (outcome result) }
        ensures listed { Lists self.old result self.new }
        ensures numbered { AreNumbered self.new }
    {
        self.ask()?;
        let answer = files.exists(path);
        self.settle(&answer);
        answer
    }

    /// Makes a table.
    pub fn create_table<T: Tables>(
        &mut self,
        tables: &mut T,
        name: &[u8],
        columns: &Columns,
    ) -> Result<bool, KeepFault>
        requires room { self.old.made < 2 ^ 64 - 1 }
        requires numbered { AreNumbered self.old }
        ensures contents { Told (T.stored tables.old) (T.stored tables.new) (λ s t. Creates s name.now columns.now result t) }
        ensures cause { HasCause (T.faults tables.old) (T.faults tables.new) result }
        ensures told { TellsMore (T.answers tables.old) (T.answers tables.new) (outcome result) }
        ensures listed { Lists self.old result self.new }
        ensures numbered { AreNumbered self.new }
    {
        self.ask()?;
        let answer = tables.create(name, columns);
        self.settle(&answer);
        answer
    }

    /// Tells the columns of a table.
    pub fn table_columns<T: Tables>(
        &mut self,
        tables: &mut T,
        name: &[u8],
    ) -> Result<Option<Columns>, KeepFault>
        requires room { self.old.made < 2 ^ 64 - 1 }
        requires numbered { AreNumbered self.old }
        ensures contents { Told (T.stored tables.old) (T.stored tables.new) (λ s t. ShowsColumns s name.now result t) }
        ensures cause { HasCause (T.faults tables.old) (T.faults tables.new) result }
        ensures told { TellsMore (T.answers tables.old) (T.answers tables.new) (outcome result) }
        ensures listed { Lists self.old result self.new }
        ensures numbered { AreNumbered self.new }
    {
        self.ask()?;
        let answer = tables.columns(name);
        self.settle(&answer);
        answer
    }

    /// Tells the rows of a table.
    pub fn table_rows<T: Tables>(&mut self, tables: &mut T, name: &[u8]) -> Result<Rows, KeepFault>
        requires room { self.old.made < 2 ^ 64 - 1 }
        requires numbered { AreNumbered self.old }
        ensures contents { Told (T.stored tables.old) (T.stored tables.new) (λ s t. ShowsRows s name.now result t) }
        ensures cause { HasCause (T.faults tables.old) (T.faults tables.new) result }
        ensures told { TellsMore (T.answers tables.old) (T.answers tables.new) (outcome result) }
        ensures listed { Lists self.old result self.new }
        ensures numbered { AreNumbered self.new }
    {
        self.ask()?;
        let answer = tables.rows(name);
        self.settle(&answer);
        answer
    }

    /// Adds a row to a table.
    pub fn insert_row<T: Tables>(
        &mut self,
        tables: &mut T,
        name: &[u8],
        cells: &Cells,
    ) -> Result<Option<u64>, KeepFault>
        requires room { self.old.made < 2 ^ 64 - 1 }
        requires numbered { AreNumbered self.old }
        ensures contents { Told (T.stored tables.old) (T.stored tables.new) (λ s t. Inserts s name.now cells.now result t) }
        ensures cause { HasCause (T.faults tables.old) (T.faults tables.new) result }
        ensures told { TellsMore (T.answers tables.old) (T.answers tables.new) (outcome result) }
        ensures listed { Lists self.old result self.new }
        ensures numbered { AreNumbered self.new }
    {
        self.ask()?;
        let answer = tables.insert(name, cells);
        self.settle(&answer);
        answer
    }

    /// Sets the cells of a row.
    pub fn update_row<T: Tables>(
        &mut self,
        tables: &mut T,
        name: &[u8],
        row: u64,
        cells: &Cells,
    ) -> Result<bool, KeepFault>
        requires room { self.old.made < 2 ^ 64 - 1 }
        requires numbered { AreNumbered self.old }
        ensures contents { Told (T.stored tables.old) (T.stored tables.new) (λ s t. Updates s name.now row cells.now result t) }
        ensures cause { HasCause (T.faults tables.old) (T.faults tables.new) result }
        ensures told { TellsMore (T.answers tables.old) (T.answers tables.new) (outcome result) }
        ensures listed { Lists self.old result self.new }
        ensures numbered { AreNumbered self.new }
    {
        self.ask()?;
        let answer = tables.update(name, row, cells);
        self.settle(&answer);
        answer
    }

    /// Takes a row out of a table.
    pub fn delete_row<T: Tables>(
        &mut self,
        tables: &mut T,
        name: &[u8],
        row: u64,
    ) -> Result<bool, KeepFault>
        requires room { self.old.made < 2 ^ 64 - 1 }
        requires numbered { AreNumbered self.old }
        ensures contents { Told (T.stored tables.old) (T.stored tables.new) (λ s t. Deletes s name.now row result t) }
        ensures cause { HasCause (T.faults tables.old) (T.faults tables.new) result }
        ensures told { TellsMore (T.answers tables.old) (T.answers tables.new) (outcome result) }
        ensures listed { Lists self.old result self.new }
        ensures numbered { AreNumbered self.new }
    {
        self.ask()?;
        let answer = tables.delete(name, row);
        self.settle(&answer);
        answer
    }
}
