//! Why a database has no answer.

use resin_base::KeepFault;
use sqlite::{Error, ErrorCode};
use std::alloc::AllocError;
use std::fmt;

/// Why a database file couldn't be opened, or a call on it has no answer. What is shown of it is a text for whoever runs the program.
#[derive(Clone, Copy, Debug, PartialEq, Eq)]
pub enum DatabaseFault {
    /// There was no memory.
    Memory,
    /// The file can't be opened: it or its folder is missing, or may not be read and written.
    NoAccess,
    /// Another program has the file open.
    Locked,
    /// The file is no database, or its rows break the rules of their tables.
    NotADatabase,
    /// The file holds other tables than these.
    OtherSchema,
    /// The file was cut off, or what is read from it isn't what was written to it.
    Damaged,
    /// A row of the file doesn't have exactly one cell for each column of its table, or a cell of another kind.
    NotARow,
    /// The disk or the file is full.
    Full,
    /// The system couldn't read or write the file.
    Disk,
    /// A text is larger than a cell of a database may be.
    TooLarge,
    /// An earlier fault of the disk has closed the file.
    Closed,
    /// The database refused a statement.
    Refused,
}

impl DatabaseFault {
    // Which fault a code of the database is.
    fn of_code(code: ErrorCode) -> DatabaseFault {
        match code {
            ErrorCode::OutOfMemory => DatabaseFault::Memory,
            ErrorCode::CannotOpen => DatabaseFault::NoAccess,
            ErrorCode::DatabaseBusy => DatabaseFault::Locked,
            ErrorCode::NotADatabase => DatabaseFault::NotADatabase,
            ErrorCode::DatabaseCorrupt => DatabaseFault::Damaged,
            ErrorCode::DiskFull => DatabaseFault::Full,
            ErrorCode::SystemIoFailure => DatabaseFault::Disk,
            ErrorCode::TooBig => DatabaseFault::TooLarge,
            ErrorCode::Closed => DatabaseFault::Closed,
            _ => DatabaseFault::Refused,
        }
    }

    // The text of the fault.
    fn text(&self) -> &'static str {
        match self {
            DatabaseFault::Memory => "out of memory",
            DatabaseFault::NoAccess =>
                "the file can't be opened: it or its folder is missing, or may not be read and written",
            DatabaseFault::Locked => "another program has the file open",
            DatabaseFault::NotADatabase =>
                "the file is no database, or its rows break the rules of their tables",
            DatabaseFault::OtherSchema => "the file holds other tables than those of a site",
            DatabaseFault::Damaged => "the file is damaged",
            DatabaseFault::NotARow =>
                "a row doesn't have exactly one cell for each column of its table",
            DatabaseFault::Full => "the disk or the file is full",
            DatabaseFault::Disk => "the system couldn't read or write the file",
            DatabaseFault::TooLarge => "a text is larger than a database may hold",
            DatabaseFault::Closed => "an earlier fault of the disk has closed the file",
            DatabaseFault::Refused => "the database refused a statement",
        }
    }
}

impl fmt::Display for DatabaseFault {
    fn fmt<W: fmt::Write>(&self, f: &mut fmt::Formatter<W>) -> fmt::Result {
        f.write_str(self.text())
    }
}

impl From<AllocError> for DatabaseFault {
    fn from(_: AllocError) -> DatabaseFault {
        DatabaseFault::Memory
    }
}

impl From<Error> for DatabaseFault {
    fn from(error: Error) -> DatabaseFault {
        match error {
            Error::SqliteFailure(code) => DatabaseFault::of_code(code),
            _ => DatabaseFault::Refused,
        }
    }
}

impl From<DatabaseFault> for KeepFault {
    /// A fault of the database is one of the keeper, but for want of memory.
    fn from(fault: DatabaseFault) -> KeepFault {
        match fault {
            DatabaseFault::Memory => KeepFault::Memory,
            _ => KeepFault::Failed,
        }
    }
}
