//! What an audit answers.

/// What an audit of a text answers.
#[derive(Clone, Copy, Debug, PartialEq, Eq)]
pub enum Verdict {
    /// The text is the journal file of a run of so many answers and events, and each journal obeys the access law.
    Yes { requests: u64, events: u64 },
    /// The text is no journal file. Its longest run of whole items that is one ends at this offset.
    Form { offset: u64 },
    /// The text is a journal file, and the journal of this answer is the first that breaks the access law. The event, counted from 1 in
    /// its journal, is the first with which it does.
    Law { request: u64, event: u64 },
}
