//! The outside of the runtime as traits: where bytes come from and go, and the keepers of files and tables.
//!
//! A `Source`, a `Sink`, `Files` or `Tables` tells its count of faults, and may tell its contents; the traits say what each call does to them
//! (`specs/Causes.antt`, `Contents.antt`, `FileStore.antt`, `TableStore.antt`, `Moves.antt`). A fault comes only where the count rose in that call.
//! `Calls` numbers the keeper calls of a run, and promises that exactly the failed ones are listed (`specs/Numbering.antt`).
#![tactic(auto)]

mod calls;
mod cell;
mod fail_list;
mod faults;
mod files;
mod row_place;
mod sink;
mod source;
mod stored;
mod tables;

pub use calls::Calls;
pub use cell::{Cell, Cells, Column, Columns, Kind, Row, Rows, Table};
pub use fail_list::FailList;
pub use faults::{Failed, KeepFault};
pub use files::{Entry, Files};
pub use resin_bytes::Bytes;
pub use sink::Sink;
pub use source::Source;
pub use stored::{Names, Stored, StoredCell, StoredRows};
pub use tables::Tables;
