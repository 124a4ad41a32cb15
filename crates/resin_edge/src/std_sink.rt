//! A sink over any writer of std.

use resin_base::{KeepFault, Sink};
use std::io::{ErrorKind, Write};

/// A writer of std, and how often it failed. A writer that takes no byte of a nonempty piece has failed, so it never stalls.
#[derive(Drop)]
pub struct StdSink<W: Write> {
    writer: W,
    faults: u64,
}

impl<W: Write> StdSink<W> {
    /// Wraps a writer.
    pub fn new(writer: W) -> StdSink<W> {
        StdSink { writer, faults: 0 }
    }
}

impl<W: Write> Sink for StdSink<W> {
    ghost use Rattle.std.specs.Prelude.{None};

    ghost written = { λ _. None };

    ghost faults = { λ s. s.faults };

    ghost stalls = { λ _. 0 };

    fn give(&mut self, piece: &[u8]) -> Result<usize, KeepFault> {
        match self.writer.write(piece) {
            Ok(count) if count > 0 => Ok(count),
            Err(error) if error.kind() == ErrorKind::OutOfMemory => Err(KeepFault::Memory),
            _ => {
                self.faults = self.faults.saturating_add(1);
                Err(KeepFault::Failed)
            }
        }
    }
}
