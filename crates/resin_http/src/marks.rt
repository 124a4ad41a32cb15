//! How far the reading of a stream came.

/// What is known of a stream that waits for more bytes. A caller keeps it beside the stream, lends it to
/// [`next_marked`](crate::next_marked), and begins anew with [`Mark::START`] where the front of the stream is taken away.
#[derive(Clone, Copy, Debug, PartialEq, Eq)]
pub enum Mark {
    /// No blank line ends in the first `searched` bytes.
    Head { searched: usize },
    /// The head ends at `end` and announces a body of `body` bytes.
    Body { end: usize, body: u64 },
}

impl Mark {
    /// Nothing is known.
    pub const START: Mark = Mark::Head { searched: 0 };
}
