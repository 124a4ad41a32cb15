//! Bytes in memory that are taken from the front.
ghost use Rattle.std.specs.Prelude.{◌≡◌, ◌++◌, length, min, take, drop};

use resin_base::Bytes;
use std::marker::Model;

/// Bytes, of which those from a place on are left.
#[derive(Drop)]
pub struct ByteQueue {
    bytes: Bytes,
    place: usize,
}

impl Model for ByteQueue {
    ghost use Rattle.std.specs.Prelude.{ℕ, List, drop, length, ◌≤◌};

    ghost Value = { List ℕ };

    ghost view = { λ q. drop q.place q.bytes };

    ghost invariant = { λ q. q.place ≤ length q.bytes };
}

impl ByteQueue {
    /// All of the bytes are left.
    pub(crate) fn new(bytes: Bytes) -> ByteQueue
        ensures { result ≡ bytes }
    {
        ByteQueue { bytes, place: 0 }
    }

    /// Moves bytes from the front to that of a buffer, as far as both and the limit reach.
    pub(crate) fn take_front(&mut self, buf: &mut [u8], most: usize) -> usize
        ensures count { result ≡ min most (min (length buf.old) (length self.old)) }
        ensures left { self.old ≡ take result buf.new ++ self.new }
        ensures rest { drop result buf.new ≡ drop result buf.old }
    {
        let count = copy_front(&self.bytes.as_slice()[self.place..], buf, most);
        self.place += count;
        count
    }
}

// Copies the front of a slice to that of a buffer, as far as both and the limit reach.
fn copy_front(from: &[u8], buf: &mut [u8], most: usize) -> usize
    ensures count { result ≡ min most (min (length buf.old) (length from.now)) }
    ensures front { take result buf.new ≡ take result from.now }
    ensures rest { drop result buf.new ≡ drop result buf.old }
{
    let count = most.min(buf.len().min(from.len()));
    buf[..count].copy_from_slice(&from[..count]);
    count
}
