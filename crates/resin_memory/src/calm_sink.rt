//! A sink in memory that never fails.
ghost use Rattle.std.specs.Prelude.{◌≡◌, []};

use resin_base::{Bytes, KeepFault, Sink};
use std::alloc::Global;
use std::marker::Model;

/// A sink in memory whose calls never fail: its counts of faults and stalls are always 0. Each call takes its whole piece.
#[derive(Drop)]
pub struct CalmSink {
    bytes: Bytes,
}

impl Model for CalmSink {
    ghost use Rattle.std.specs.Prelude.{ℕ, List};

    ghost Value = { List ℕ };

    ghost view = { λ s. s.bytes };
}

impl CalmSink {
    /// An empty sink. It takes no memory.
    pub fn new(alloc: Global) -> CalmSink
        ensures { result ≡ [] }
    {
        CalmSink {
            bytes: Bytes::new(alloc),
        }
    }

    /// The bytes written.
    pub fn written(&self) -> &[u8]
        ensures { result.now ≡ self.now }
    {
        self.bytes.as_slice()
    }
}

impl Sink for CalmSink {
    ghost use Rattle.std.specs.Prelude.{Some};

    ghost written = { λ written. Some written };

    ghost faults = { λ _. 0 };

    ghost stalls = { λ _. 0 };

    fn give(&mut self, piece: &[u8]) -> Result<usize, KeepFault> {
        self.bytes.push_slice(piece)?;
        Ok(piece.len())
    }
}
