//! Keeper calls of a run. Each is the next numbered call: it fails with a keeper stop exactly where the keeper failed, and is the fault FuelSpent
//! exactly where no number is left. After want of memory neither the keeper nor the numbers are changed.
ghost use Rattle.resin_eval_nested.specs.Running.{Performs};
ghost use Rattle.resin_step_objects.specs.Under.meaning.KeeperCalls as asked;
ghost use Rattle.resin_step_objects.specs.Under.meaning.KeeperCalls.{lifted};
ghost use Rattle.resin_step_objects.specs.Under.store.Entries.{Marked, AreWritten};

use crate::run::Run;
use resin_step_objects::under::base::{Cells, Columns, Entry, Files, Rows, Tables};
use resin_step_objects::under::machine::Stop;
use resin_step_objects::under::meaning::{
    create_table, delete_row, file_exists, insert_row, read_file, remove_file, table_columns,
    table_rows, update_row, write_file,
};

impl<F: Files, T: Tables> Run<F, T> {
    /// The entry at a path, `None` exactly where there is none.
    pub fn read_file(&mut self, path: &[u8]) -> Result<Option<Entry>, Stop>
        ensures { Performs F.Files T.Tables (asked.read_file path.now) self.old (lifted result) self.new }
    {
        read_file(&self.machine, &mut self.files, &mut self.calls, path)
    }

    /// Sets the bytes and the shadow text at a path. Where the shadow text is what is written of policies of these bytes, it sets the bytes
    /// with these policies.
    pub fn write_file(&mut self, path: &[u8], bytes: &[u8], shadow: &[u8]) -> Result<(), Stop>
        ensures { (d : Marked) → AreWritten bytes.now shadow.now d → Performs F.Files T.Tables (asked.write_file path.now d)
            self.old result self.new }
    {
        write_file(
            &self.machine,
            &mut self.files,
            &mut self.calls,
            path,
            bytes,
            shadow,
        )
    }

    /// Takes the entry at a path out, and says whether there was one.
    pub fn remove_file(&mut self, path: &[u8]) -> Result<bool, Stop>
        ensures { Performs F.Files T.Tables (asked.remove_file path.now) self.old result self.new }
    {
        remove_file(&self.machine, &mut self.files, &mut self.calls, path)
    }

    /// Whether a path has an entry.
    pub fn file_exists(&mut self, path: &[u8]) -> Result<bool, Stop>
        ensures { Performs F.Files T.Tables (asked.file_exists path.now) self.old result self.new }
    {
        file_exists(&self.machine, &mut self.files, &mut self.calls, path)
    }

    /// Makes a table without rows, and says whether it did: it does nothing where the table is there.
    pub fn create_table(&mut self, name: &[u8], columns: &Columns) -> Result<bool, Stop>
        ensures { Performs F.Files T.Tables (asked.create_table name.now columns.now) self.old result self.new }
    {
        create_table(
            &self.machine,
            &mut self.tables,
            &mut self.calls,
            name,
            columns,
        )
    }

    /// The columns of a table, `None` exactly where it is not there.
    pub fn table_columns(&mut self, name: &[u8]) -> Result<Option<Columns>, Stop>
        ensures { Performs F.Files T.Tables (asked.table_columns name.now) self.old result self.new }
    {
        table_columns(&self.machine, &mut self.tables, &mut self.calls, name)
    }

    /// The rows of a table, none where it is not there.
    pub fn table_rows(&mut self, name: &[u8]) -> Result<Rows, Stop>
        ensures { Performs F.Files T.Tables (asked.table_rows name.now) self.old result self.new }
    {
        table_rows(&self.machine, &mut self.tables, &mut self.calls, name)
    }

    /// Puts a row last, and tells its number; `None` exactly where the table is not there, the cells do not fit it, or no number is left for a row.
    pub fn insert_row(&mut self, name: &[u8], cells: &Cells) -> Result<Option<u64>, Stop>
        ensures { Performs F.Files T.Tables (asked.insert_row name.now cells.now) self.old result self.new }
    {
        insert_row(
            &self.machine,
            &mut self.tables,
            &mut self.calls,
            name,
            cells,
        )
    }

    /// Sets the cells of a row, and says whether it was there and they fit.
    pub fn update_row(&mut self, name: &[u8], row: u64, cells: &Cells) -> Result<bool, Stop>
        ensures { Performs F.Files T.Tables (asked.update_row name.now row cells.now) self.old result self.new }
    {
        update_row(
            &self.machine,
            &mut self.tables,
            &mut self.calls,
            name,
            row,
            cells,
        )
    }

    /// Takes a row out, and says whether it was there.
    pub fn delete_row(&mut self, name: &[u8], row: u64) -> Result<bool, Stop>
        ensures { Performs F.Files T.Tables (asked.delete_row name.now row) self.old result self.new }
    {
        delete_row(&self.machine, &mut self.tables, &mut self.calls, name, row)
    }
}
