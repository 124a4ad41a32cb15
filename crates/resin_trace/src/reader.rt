//! Reads the records of a trace that comes in pieces.
ghost use Rattle.std.specs.Prelude.{◌≡◌, ◌+◌, ◌≤◌, ◌↔◌, IsTrue, length};
ghost use Rattle.resin_trace.specs.Records.{limit};
ghost use Rattle.resin_trace.specs.Seen.{Seen, begin, taken_off};
ghost use Rattle.resin_trace.specs.Reads.{Feeds, Reads, Finishes, IsTooLong};

use crate::event::TraceEvent;
use crate::scan::{self, Scan};
use crate::unread::Unread;
use resin_bytes::Bytes;
use std::alloc::Global;
use std::marker::Model;

/// Why a trace has no next record.
#[derive(Clone, Copy, Debug, PartialEq, Eq)]
pub enum TraceFault {
    /// No record stands at the offset, and none can come there.
    Bad { offset: u64 },
    /// More than 67,108,864 bytes came, and a record that more bytes could make stands at the end of the records.
    TooLong,
    /// There was no memory.
    Memory,
}

/// The most bytes of a trace that are read.
const LIMIT: usize = 67_108_864;

/// A reader of the records of a trace. It keeps the bytes that no record took yet, up to the limit of a trace.
#[derive(Drop)]
pub struct TraceReader {
    alloc: Global,
    unread: Unread,
    place: usize,
    over: bool,
}

impl Model for TraceReader {
    ghost use Rattle.std.specs.Prelude.{◌+◌, ◌≤◌, length};
    ghost use Rattle.resin_trace.specs.Records.{limit};
    ghost use Rattle.resin_trace.specs.Seen.{Seen};

    ghost Value = { Seen };

    ghost view = { λ r. record { rest = r.unread; place = r.place; over = r.over } };

    ghost invariant = { λ r. r.place + length r.unread ≤ limit };
}

impl TraceReader {
    /// A reader that was fed nothing. It takes no memory.
    pub fn new(alloc: Global) -> TraceReader
        ensures { result ≡ begin }
    {
        TraceReader {
            alloc,
            unread: Unread::new(alloc),
            place: 0,
            over: false,
        }
    }

    /// Takes the next bytes of the trace, up to its limit. The answer is TooLong where more than 67,108,864 bytes
    /// were fed and their records end where more bytes could make another; the bytes up to the limit are kept then,
    /// and [`TraceReader::next`] still hands out their records. After want of memory the reader is as before.
    pub fn feed(&mut self, piece: &[u8]) -> Result<(), TraceFault>
        ensures { Feeds self.old piece.now result self.new }
    {
        let room = LIMIT - self.place - self.unread.as_slice().len();
        let kept = room.min(piece.len());
        let Ok(()) = self.unread.push_slice(&piece[..kept]) else {
            return Err(TraceFault::Memory);
        };
        self.over |= room < piece.len();
        if self.is_too_long() {
            return Err(TraceFault::TooLong);
        }
        Ok(())
    }

    /// Hands out the next whole record, or None where none stands and one can come. A record that can't come any
    /// more is Bad, at the offset where the records end; where bytes past the limit came, a record that could still
    /// come is TooLong. After each fault the reader is as before.
    pub fn next(&mut self) -> Result<Option<TraceEvent>, TraceFault>
        ensures { Reads self.old result self.new }
    {
        match scan::look(self.unread.as_slice()) {
            Scan::Piece { conn, from, to } => {
                let piece = &self.unread.as_slice()[from..to];
                let Ok(bytes) = Bytes::from_slice(self.alloc, piece) else {
                    return Err(TraceFault::Memory);
                };
                self.take_off(to + 1);
                Ok(Some(TraceEvent::Piece { conn, bytes }))
            }
            Scan::End { conn, used } => {
                self.take_off(used);
                Ok(Some(TraceEvent::End { conn }))
            }
            Scan::Need if self.over => Err(TraceFault::TooLong),
            Scan::Need => Ok(None),
            Scan::Bad => Err(TraceFault::Bad {
                offset: self.place as u64,
            }),
        }
    }

    /// Tells how the trace ends, where the bytes that were fed are all of it: well, or Bad at the offset where its
    /// records end, or TooLong. It takes no memory.
    pub fn finish(&self) -> Result<(), TraceFault>
        ensures { Finishes self.now result }
    {
        let text = self.unread.as_slice();
        let tail = scan::records_end(text);
        if self.over {
            if tail.goes {
                return Err(TraceFault::TooLong);
            }
        } else if tail.at == text.len() {
            return Ok(());
        }
        Err(TraceFault::Bad {
            offset: (self.place + tail.at) as u64,
        })
    }

    // Whether bytes past the limit came, and a record could still come.
    fn is_too_long(&self) -> bool
        ensures { IsTrue result ↔ IsTooLong self.now }
    {
        self.over && scan::records_end(self.unread.as_slice()).goes
    }

    // Takes a record of so many bytes off the front.
    fn take_off(&mut self, count: usize)
        requires { count ≤ length self.old.rest }
        ensures { self.new ≡ taken_off count self.old }
    {
        self.unread.skip(count);
        self.place += count;
    }
}
