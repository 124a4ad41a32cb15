//! The tables that are asked.

use crate::call::Call;
use crate::show;
use resin_base::Tables;
use resin_memory::CalmTables;
use resin_sqlite::{DatabaseFault, SqliteTables};
use std::alloc::{AllocError, Global};
use std::rt::HostRuntime;

// What tables answer, in words.
fn answer<T: Tables>(alloc: Global, tables: &mut T, call: &Call) -> Result<String, AllocError> {
    match call {
        Call::Create(name, columns) => show::truth(alloc, tables.create(name.as_slice(), columns)),
        Call::Columns(name) => show::columns(alloc, tables.columns(name.as_slice())),
        Call::Rows(name) => show::rows(alloc, tables.rows(name.as_slice())),
        Call::Insert(name, cells) => show::number(alloc, tables.insert(name.as_slice(), cells)),
        Call::Update(name, row, cells) => show::truth(
            alloc,
            tables.update(name.as_slice(), *row, cells),
        ),
        Call::Delete(name, row) => show::truth(alloc, tables.delete(name.as_slice(), *row)),
    }
}

/// Tables in a database file, which may be open, and tables in memory.
#[derive(Drop)]
pub(crate) struct Desk {
    path: String,
    database: Option<SqliteTables>,
    memory: CalmTables,
}

fn opened_text(alloc: Global, fault: Option<DatabaseFault>) -> Result<String, AllocError> {
    match fault {
        Some(fault) => format!(in alloc; "{fault}"),
        None => String::from_str(alloc, "open"),
    }
}

impl Desk {
    pub(crate) fn new(alloc: Global) -> Desk {
        Desk {
            path: String::new(alloc),
            database: None,
            memory: CalmTables::new(alloc),
        }
    }

    // Opens the file of the path, and keeps the database.
    fn reopen(&mut self, rt: &HostRuntime) -> Option<DatabaseFault> {
        self.database = None;
        match SqliteTables::open(rt, self.path.as_str()) {
            Ok(database) => {
                self.database = Some(database);
                None
            }
            Err(fault) => Some(fault),
        }
    }

    // Opens the file of the path, and lets it go.
    fn try_second(&self, rt: &HostRuntime) -> Option<DatabaseFault> {
        match SqliteTables::open(rt, self.path.as_str()) {
            Ok(_) => None,
            Err(fault) => Some(fault),
        }
    }

    /// Opens a file, as the words say.
    pub(crate) fn open(
        &mut self,
        rt: &HostRuntime,
        words: &[Vec<u8>],
    ) -> Result<String, AllocError> {
        let alloc = rt.alloc();
        let fault = match words {
            [verb, path] if verb.as_slice() == b"open".as_slice() => {
                self.path.clear();
                self.path
                    .push_str(str::from_utf8(path.as_slice()).unwrap_or(""))?;
                self.memory = CalmTables::new(alloc);
                self.reopen(rt)
            }
            [verb] if verb.as_slice() == b"again".as_slice() => self.reopen(rt),
            [verb] if verb.as_slice() == b"second".as_slice() => self.try_second(rt),
            _ => return String::from_str(alloc, "?"),
        };
        opened_text(alloc, fault)
    }

    /// Asks the database and the memory.
    pub(crate) fn ask(&mut self, alloc: Global, call: &Call) -> Result<String, AllocError> {
        let Some(database) = &mut self.database else {
            return String::from_str(alloc, "not open");
        };
        let mut text = answer(alloc, database, call)?;
        if text.as_str() == "failed" {
            let fault = opened_text(alloc, database.last_fault())?;
            text.push_str(": ")?;
            text.push_str(fault.as_str())?;
            return Ok(text);
        }
        let memory = answer(alloc, &mut self.memory, call)?;
        if text.as_str() != memory.as_str() {
            text.push_str(" <> ")?;
            text.push_str(memory.as_str())?;
        }
        Ok(text)
    }
}
