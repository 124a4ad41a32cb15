//! A keeper of tables.
ghost use Rattle.std.specs.Prelude.{ℕ, List, Option, Bool};
ghost use Rattle.resin_base.specs.Causes.{HasCause, TellsMore, outcome};
ghost use Rattle.resin_base.specs.Contents.{Told};
ghost use Rattle.resin_base.specs.TableStore.{TableStore, AreWhole, Creates, ShowsColumns, ShowsRows, Inserts, Updates, Deletes};

use crate::cell::{Cells, Columns, Rows};
use crate::faults::KeepFault;

/// A keeper of tables, each under a name. A call that answers an error changes no table.
pub trait Tables {
    /// The tables, where they are told.
    ghost stored: { Self → Option TableStore };

    /// How often a call failed; at its last value the count stays.
    ghost faults: { Self → ℕ };

    /// Which of the calls so far failed, in order and without those that found no memory, where that is told.
    ghost answers: { Self → Option (List Bool) };

    /// Makes a table without rows. It answers false, and changes nothing, exactly where the table is there.
    fn create(&mut self, name: &[u8], columns: &Columns) -> Result<bool, KeepFault>
        ensures contents { Told (stored self.old) (stored self.new) (λ s t. Creates s name.now columns.now result t) }
        ensures cause { HasCause (faults self.old) (faults self.new) result }
        ensures told { TellsMore (answers self.old) (answers self.new) (outcome result) };

    /// The columns of a table, None exactly where it isn't there.
    fn columns(&mut self, name: &[u8]) -> Result<Option<Columns>, KeepFault>
        ensures contents { Told (stored self.old) (stored self.new) (λ s t. ShowsColumns s name.now result t) }
        ensures cause { HasCause (faults self.old) (faults self.new) result }
        ensures told { TellsMore (answers self.old) (answers self.new) (outcome result) };

    /// The rows of a table in rising number, none where the table isn't there.
    fn rows(&mut self, name: &[u8]) -> Result<Rows, KeepFault>
        ensures contents { Told (stored self.old) (stored self.new) (λ s t. ShowsRows s name.now result t) }
        ensures cause { HasCause (faults self.old) (faults self.new) result }
        ensures told { TellsMore (answers self.old) (answers self.new) (outcome result) };

    /// Adds a row, and answers its number: one more than the largest held, 1 in an empty table. It answers None exactly where the table
    /// isn't there, the cells aren't as many as its columns, or the number would pass 9,223,372,036,854,775,807.
    fn insert(&mut self, name: &[u8], cells: &Cells) -> Result<Option<u64>, KeepFault>
        ensures contents { Told (stored self.old) (stored self.new) (λ s t. Inserts s name.now cells.now result t) }
        ensures cause { HasCause (faults self.old) (faults self.new) result }
        ensures told { TellsMore (answers self.old) (answers self.new) (outcome result) };

    /// Sets the cells of a row, and answers whether it was there. Where the cells aren't as many as the columns it answers false.
    fn update(&mut self, name: &[u8], row: u64, cells: &Cells) -> Result<bool, KeepFault>
        ensures contents { Told (stored self.old) (stored self.new) (λ s t. Updates s name.now row cells.now result t) }
        ensures cause { HasCause (faults self.old) (faults self.new) result }
        ensures told { TellsMore (answers self.old) (answers self.new) (outcome result) };

    /// Takes a row out, and answers whether it was there.
    fn delete(&mut self, name: &[u8], row: u64) -> Result<bool, KeepFault>
        ensures contents { Told (stored self.old) (stored self.new) (λ s t. Deletes s name.now row result t) }
        ensures cause { HasCause (faults self.old) (faults self.new) result }
        ensures told { TellsMore (answers self.old) (answers self.new) (outcome result) };

    /// Rows of told tables rise in number, and each has as many cells as its table has columns.
    ghost whole: { (s : Self) → AreWhole (stored s) };
}
