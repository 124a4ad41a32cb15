//! What this crate stands on, passed on to the crates above, which list this one alone.

pub use resin_journal_file as journal_file;
