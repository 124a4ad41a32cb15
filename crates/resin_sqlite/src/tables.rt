//! A database file as a keeper of tables.
ghost use Rattle.resin_base.specs.Causes.{HasCause};

use crate::fault::DatabaseFault;
use crate::opening::connected;
use crate::{reads, schema, writes};
use resin_base::{Cells, Columns, KeepFault, Rows, Tables};
use sqlite::{Alter, Connection, File, FileStore};
use std::alloc::Global;
use std::rt::HostRuntime;

/// A database file as a keeper of tables. Each call is one transaction: where it fails, the file holds what it held before. While this
/// is there no other program can open the file. As it is let go the file's log is copied into the file, so that the file alone holds the
/// tables; where that fails both together do.
pub struct SqliteTables {
    alloc: Global,
    conn: Connection<FileStore<File>>,
    faults: u64,
    last_fault: Option<DatabaseFault>,
}

impl Drop for SqliteTables {
    fn drop(self) {
        let SqliteTables {
            alloc: _,
            conn,
            faults: _,
            last_fault: _,
        } = self;
        // Where it fails the log keeps what is missing in the file.
        let _closed = conn.close();
    }
}

// The connection, once the tables of the schema are there. Any store serves, so that what a file is doesn't weigh on the proof.
fn settled<S: Alter + Drop>(mut conn: Connection<S>) -> Result<Connection<S>, DatabaseFault> {
    schema::settle(&mut conn)?;
    Ok(conn)
}

impl SqliteTables {
    /// Opens a database file at a path of the system, or makes it. A new file, and one that holds nothing, gets the tables of the schema.
    /// A file that can't be opened, is no database, is in use, or holds other tables is left as it is.
    pub fn open(rt: &HostRuntime, path: &str) -> Result<SqliteTables, DatabaseFault> {
        let conn = settled(connected(rt, path)?)?;
        Ok(SqliteTables {
            alloc: rt.alloc(),
            conn,
            faults: 0,
            last_fault: None,
        })
    }

    /// Why the last call failed that did so, other than for want of memory.
    pub fn last_fault(&self) -> Option<DatabaseFault> {
        self.last_fault
    }

    // Counts a call's fault, and keeps it.
    fn counted<T>(&mut self, answer: Result<T, DatabaseFault>) -> Result<T, KeepFault>
        ensures cause { HasCause self.old.faults self.new.faults result }
    {
        match answer {
            Ok(value) => Ok(value),
            Err(DatabaseFault::Memory) => Err(KeepFault::Memory),
            Err(fault) => {
                self.faults = self.faults.saturating_add(1);
                self.last_fault = Some(fault);
                Err(KeepFault::Failed)
            }
        }
    }
}

impl Tables for SqliteTables {
    ghost use Rattle.std.specs.Prelude.{None};

    ghost stored = { λ _. None };

    ghost faults = { λ t. t.faults };

    ghost answers = { λ _. None };

    fn create(&mut self, name: &[u8], columns: &Columns) -> Result<bool, KeepFault> {
        let answer = writes::create(&mut self.conn, name, columns);
        self.counted(answer)
    }

    fn columns(&mut self, name: &[u8]) -> Result<Option<Columns>, KeepFault> {
        let answer = reads::columns(self.alloc, &mut self.conn, name);
        self.counted(answer)
    }

    fn rows(&mut self, name: &[u8]) -> Result<Rows, KeepFault> {
        let answer = reads::rows(self.alloc, &mut self.conn, name);
        self.counted(answer)
    }

    fn insert(&mut self, name: &[u8], cells: &Cells) -> Result<Option<u64>, KeepFault> {
        let answer = writes::insert(&mut self.conn, name, cells);
        self.counted(answer)
    }

    fn update(&mut self, name: &[u8], row: u64, cells: &Cells) -> Result<bool, KeepFault> {
        let answer = writes::update(&mut self.conn, name, row, cells);
        self.counted(answer)
    }

    fn delete(&mut self, name: &[u8], row: u64) -> Result<bool, KeepFault> {
        let answer = writes::delete(&mut self.conn, name, row);
        self.counted(answer)
    }

    ghost whole = { λ _. tt };
}
