//! Why the program ends with another status than 0, and what it says then.

use resin_serve::Status;
use resin_sqlite::DatabaseFault;
use std::alloc::AllocError;
use thiserror::Error;

/// Why the program ends with another status than 0.
#[derive(Debug, Drop, Error)]
pub(crate) enum Fault {
    #[error("usage: serve [--fuel N] | record [--fuel N] | audit | sample N")]
    Usage,
    #[error("bad trace at {offset}")]
    BadTrace { offset: u64 },
    #[error("read fault")]
    Read,
    #[error("{path}: can't be opened\nread fault")]
    NotOpened { path: &'static str },
    #[error("resin.db: {0}\nread fault")]
    Database(DatabaseFault),
    #[error("write fault")]
    Write,
    #[error("trace too long")]
    TraceTooLong,
    #[error("out of memory")]
    Memory,
    #[error("audit refused")]
    AuditRefused,
}

impl Fault {
    /// The fault that a status of the run is.
    pub(crate) fn of_status(status: &Status) -> Option<Fault> {
        match status {
            Status::Ok => None,
            Status::Usage => Some(Fault::Usage),
            Status::BadTrace { offset } => Some(Fault::BadTrace { offset: *offset }),
            Status::ReadFault => Some(Fault::Read),
            Status::WriteFault => Some(Fault::Write),
            Status::TraceTooLong => Some(Fault::TraceTooLong),
            Status::Memory => Some(Fault::Memory),
            Status::AuditRefused => Some(Fault::AuditRefused),
        }
    }

    /// The exit status of the program.
    pub(crate) fn code(&self) -> u8 {
        self.status().code()
    }

    // The status that the fault stands for: what can't be opened is a read fault, like a trace that can't be read on.
    fn status(&self) -> Status {
        match self {
            Fault::Usage => Status::Usage,
            Fault::BadTrace { offset } => Status::BadTrace { offset: *offset },
            Fault::Read | Fault::NotOpened { .. } | Fault::Database(_) => Status::ReadFault,
            Fault::Write => Status::WriteFault,
            Fault::TraceTooLong => Status::TraceTooLong,
            Fault::Memory => Status::Memory,
            Fault::AuditRefused => Status::AuditRefused,
        }
    }
}

impl From<AllocError> for Fault {
    fn from(_: AllocError) -> Fault {
        Fault::Memory
    }
}

impl From<DatabaseFault> for Fault {
    /// A database that can't be opened is a read fault, but for want of memory.
    fn from(fault: DatabaseFault) -> Fault {
        match fault {
            DatabaseFault::Memory => Fault::Memory,
            fault => Fault::Database(fault),
        }
    }
}
