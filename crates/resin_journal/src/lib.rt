//! Journals: what the writes and filters of a request did, event by event, and the lines of the denial log.
//!
//! `specs/Events.antt` has the list of events that contracts see, and `specs/Access.antt` the access law, as far as it speaks of one request's
//! journal: data leaves only by writes in which each policy that it carries was asked, and let it pass. Who writes a journal promises the law; this
//! crate promises that `denial_line` tells each denial in one line (`specs/Lines.antt`) by the names of channels (`specs/Channels.antt`).
//!
//! ```rust
//! let event = Event::Denied {
//!     write: 1,
//!     channel: Channel::Http,
//!     policy: 1,
//!     class: Bytes::from_slice(alloc, b"NoExport")?,
//!     from: 1,
//!     to: 7,
//!     by: Bytes::from_slice(alloc, b"PolicyException")?,
//! };
//! let line = denial_line(alloc, 1, &event)?;
//! // deny request=1 write=1 channel=http policy=NoExport#1 bytes=1-7 by=PolicyException
//! ```
#![tactic(auto)]

mod channel;
mod denial;
mod event;
mod journal;

pub use channel::Channel;
pub use denial::denial_line;
pub use event::Event;
pub use journal::Journal;
