//! Recorded traffic: the records of a trace as it comes in pieces, and the streams of its connections.
//!
//! `specs/Records.antt` says which bytes are a record and what it says, and `specs/Verdicts.antt` how a whole trace ends. A `TraceReader` hands out
//! the records of all bytes that it was fed, in order and each once, wherever the pieces were cut (`specs/Reads.antt`, `Seen.antt`), and its faults
//! are those of the trace; `trace_laws` and `reader_laws` say that it can read a trace in one way. `Connections` keeps what waits on each
//! connection (`specs/Lines.antt`).
//!
//! ```rust
//! let mut reader = TraceReader::new(alloc);
//! reader.feed(b"1 2\nab\n1 e")?;
//! let piece = reader.next()?; // Some(TraceEvent::Piece { conn: 1, bytes }), with the bytes `ab`
//! let wait = reader.next()?; // None: what is left may become a record
//! reader.feed(b"nd\n")?;
//! let end = reader.next()?; // Some(TraceEvent::End { conn: 1 })
//! reader.finish()?; // the whole trace is records
//! ```
#![tactic(auto)]

mod connections;
mod event;
mod laws;
mod reader;
mod scan;
mod unread;

pub use connections::Connections;
pub use event::TraceEvent;
pub use laws::{reader_laws, trace_laws};
pub use reader::{TraceFault, TraceReader};
