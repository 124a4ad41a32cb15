//! A sink in memory, some of whose calls fail.
ghost use Rattle.std.specs.Prelude.{◌≡◌, ◌<◌, ◌≤◌, [], length, min, IfOk};

use crate::tally::Tally;
use resin_base::{Bytes, FailList, KeepFault, Sink};
use std::alloc::Global;
use std::marker::Model;

/// A sink in memory that fails at listed calls, counted from 1 and without those that find no memory. Every other call takes as many
/// bytes as the least of its chunk and the length of the piece; with a chunk of 0 it stalls.
#[derive(Drop)]
pub struct FakeSink {
    bytes: Bytes,
    chunk: usize,
    stalls: u64,
    tally: Tally,
}

impl Model for FakeSink {
    ghost use Rattle.resin_memory.specs.Fakes.{FakedSink};
    ghost use Rattle.resin_memory.specs.Codes.{faked_sink_code};

    ghost Value = { FakedSink };

    ghost coded = { faked_sink_code };

    ghost view = { λ s. record { written = s.bytes; chunk = s.chunk; stalls = s.stalls; tally = s.tally } };
}

impl FakeSink {
    /// An empty sink; `fail` holds the rising numbers of the calls that fail. It takes no memory.
    pub fn new(alloc: Global, chunk: usize, fail: FailList) -> FakeSink
        ensures { result ≡ record { written = []; chunk = chunk; stalls = 0; tally = record { fail = fail; made = 0; faults = 0 } } }
    {
        FakeSink {
            bytes: Bytes::new(alloc),
            chunk,
            stalls: 0,
            tally: Tally::new(fail),
        }
    }

    /// The bytes written.
    pub fn written(&self) -> &[u8]
        ensures { result.now ≡ self.now.written }
    {
        self.bytes.as_slice()
    }
}

impl Sink for FakeSink {
    ghost use Rattle.std.specs.Prelude.{Some};
    ghost use Rattle.resin_base.specs.Causes.{HasCause, Stalls};
    ghost use Rattle.resin_base.specs.Moves.{Gives};
    ghost use Rattle.resin_memory.specs.Tallies.{Plays};

    ghost written = { λ s. Some s.written };

    ghost faults = { λ s. s.tally.faults };

    ghost stalls = { λ s. s.stalls };

    fn give(&mut self, piece: &[u8]) -> Result<usize, KeepFault>
        requires { 0 < length piece.now }
        ensures bound { IfOk result (λ count. count ≤ length piece.now) }
        ensures moved { Gives piece.now result self.old.written self.new.written }
        ensures count { IfOk result (λ count. count ≡ min self.old.chunk (length piece.now)) }
        ensures chunk { self.new.chunk ≡ self.old.chunk }
        ensures plays { Plays self.old.tally result self.new.tally }
        ensures cause { HasCause self.old.tally.faults self.new.tally.faults result }
        ensures stalled { Stalls self.old.stalls self.new.stalls result }
    {
        if self.tally.fails_now() {
            return Err(KeepFault::Failed);
        }
        let count = self.chunk.min(piece.len());
        self.bytes.push_slice(&piece[..count])?;
        self.tally.count();
        if count == 0 {
            self.stalls = self.stalls.saturating_add(1);
        }
        Ok(count)
    }
}
