//! Opens a database file.

use crate::fault::DatabaseFault;
use sqlite::{Connection, File, FileStore, Options, Unknown};
use sqlite_std_file::OpenError;
use std::hash::{BuildHasher, RandomState};
use std::io::ErrorKind;
use std::rt::HostRuntime;

/// How many pages of the file are kept in memory, 4,096 bytes each, which are taken when it is opened. The system keeps those beyond.
const KEPT_PAGES: usize = 512;

// How a file is opened.
fn options(rt: &HostRuntime) -> Result<Options, DatabaseFault> {
    let Ok(state) = RandomState::new(rt) else {
        return Err(DatabaseFault::NoAccess);
    };
    let mut options = Options::new(state.hash_one(&0u8));
    options.cache_pages = KEPT_PAGES;
    Ok(options)
}

// Why there are no files at a path.
fn fault_of(error: OpenError) -> DatabaseFault {
    match error {
        OpenError::OutOfMemory => DatabaseFault::Memory,
        OpenError::Busy => DatabaseFault::Locked,
        OpenError::Io(error) if error.kind() == ErrorKind::OutOfMemory => DatabaseFault::Memory,
        OpenError::Io(_) | OpenError::HotJournal => DatabaseFault::NoAccess,
    }
}

// Whether SQLite takes a path for something else than a file of the system.
fn is_special(path: &str) -> bool {
    path == ":memory:" || path.starts_with("file:")
}

/// Opens the file at a path of the system, or makes it, as `sqlite` does, but for how much of it is kept in memory.
pub(crate) fn connected(
    rt: &HostRuntime,
    path: &str,
) -> Result<Connection<FileStore<File>>, DatabaseFault> {
    if is_special(path) {
        return Err(DatabaseFault::NoAccess);
    }
    let options = options(rt)?;
    let files = match sqlite_std_file::open(rt, path, Unknown) {
        Ok(files) => files,
        Err(error) => return Err(fault_of(error)),
    };
    match Connection::open_files(rt.alloc(), files, options) {
        Ok(mut conn) => {
            conn.set_clock(rt);
            Ok(conn)
        }
        Err((error, _left)) => Err(DatabaseFault::from(error)),
    }
}
