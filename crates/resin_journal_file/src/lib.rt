//! Journal files: what the writes and filters of a run did, request by request, as text that a checker can read who trusts nothing of the run.
//!
//! `journal_text` promises the text of a journal as the file has it (`specs/Files.antt`), for all that such a file can tell (`specs/Limits.antt`).
//! A text is the file of one list of journals at most, and reading it item by item finds what stands there: `file_laws` says so (`specs/Laws.antt`,
//! over `specs/Reading.antt`).
#![tactic(auto)]

mod events;
mod journals;
mod laws;
mod lines;

pub use journals::journal_text;
pub use laws::file_laws;
