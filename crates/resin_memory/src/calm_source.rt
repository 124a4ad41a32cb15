//! A source in memory that never fails.
ghost use Rattle.std.specs.Prelude.{◌≡◌};

use crate::byte_queue::ByteQueue;
use resin_base::{Bytes, Failed, Source};
use std::marker::Model;

/// A source in memory whose calls never fail: its count of faults is always 0. Each call fills the buffer as far as bytes are left.
#[derive(Drop)]
pub struct CalmSource {
    queue: ByteQueue,
}

impl Model for CalmSource {
    ghost use Rattle.std.specs.Prelude.{ℕ, List};

    ghost Value = { List ℕ };

    ghost view = { λ s. s.queue };
}

impl CalmSource {
    /// A source of these bytes.
    pub fn new(bytes: Bytes) -> CalmSource
        ensures { result ≡ bytes }
    {
        CalmSource {
            queue: ByteQueue::new(bytes),
        }
    }
}

impl Source for CalmSource {
    ghost use Rattle.std.specs.Prelude.{Some};

    ghost left = { λ left. Some left };

    ghost faults = { λ _. 0 };

    #[tactic(auto, using(crate::proofs::Taking::taken_none))]
    fn take(&mut self, buf: &mut [u8]) -> Result<usize, Failed> {
        let most = buf.len();
        Ok(self.queue.take_front(buf, most))
    }
}
