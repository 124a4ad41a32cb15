//! A source in memory, some of whose calls fail.
ghost use Rattle.std.specs.Prelude.{◌≡◌, ◌<◌, ◌≤◌, length, min, IfOk};

use crate::byte_queue::ByteQueue;
use crate::tally::Tally;
use resin_base::{Bytes, FailList, Failed, Source};
use std::marker::Model;

/// A source in memory that fails at listed calls, counted from 1. Every other call moves as many bytes as the least of its chunk, the
/// length of the buffer and the number of bytes left.
#[derive(Drop)]
pub struct FakeSource {
    queue: ByteQueue,
    chunk: usize,
    tally: Tally,
}

impl Model for FakeSource {
    ghost use Rattle.std.specs.Prelude.{◌<◌};
    ghost use Rattle.resin_memory.specs.Fakes.{FakedSource};
    ghost use Rattle.resin_memory.specs.Codes.{faked_source_code};

    ghost Value = { FakedSource };

    ghost coded = { faked_source_code };

    ghost view = { λ s. record { left = s.queue; chunk = s.chunk; tally = s.tally } };

    ghost invariant = { λ s. 0 < s.chunk };
}

impl FakeSource {
    /// A source of these bytes; `fail` holds the rising numbers of the calls that fail. The chunk must be positive.
    pub fn new(bytes: Bytes, chunk: usize, fail: FailList) -> FakeSource
        requires { 0 < chunk }
        ensures { result ≡ record { left = bytes; chunk = chunk; tally = record { fail = fail; made = 0; faults = 0 } } }
    {
        FakeSource {
            queue: ByteQueue::new(bytes),
            chunk,
            tally: Tally::new(fail),
        }
    }
}

impl Source for FakeSource {
    ghost use Rattle.std.specs.Prelude.{Some};
    ghost use Rattle.resin_base.specs.Causes.{TakeHasCause};
    ghost use Rattle.resin_base.specs.Moves.{Takes};
    ghost use Rattle.resin_memory.specs.Tallies.{PlaysTake};

    ghost left = { λ s. Some s.left };

    ghost faults = { λ s. s.tally.faults };

    #[tactic(auto, using(crate::proofs::Taking::taken_none))]
    fn take(&mut self, buf: &mut [u8]) -> Result<usize, Failed>
        requires { 0 < length buf.old }
        ensures bound { IfOk result (λ count. count ≤ length buf.old) }
        ensures moved { Takes buf.old buf.new result self.old.left self.new.left }
        ensures count { IfOk result (λ count. count ≡ min self.old.chunk (min (length buf.old) (length self.old.left))) }
        ensures chunk { self.new.chunk ≡ self.old.chunk }
        ensures plays { PlaysTake self.old.tally result self.new.tally }
        ensures cause { TakeHasCause self.old.tally.faults self.new.tally.faults result }
    {
        if self.tally.fails_now() {
            return Err(Failed);
        }
        let count = self.queue.take_front(buf, self.chunk);
        self.tally.count();
        Ok(count)
    }
}
