//! Bytes that wait to be taken.
ghost use Rattle.std.specs.Prelude.{◌≡◌, ◌≤◌, [], ◌++◌, length, drop, OnOk, OnErr};

use std::alloc::{AllocError, Global};
use std::marker::Model;

/// A queue of bytes in one slice. The bytes that were taken stand in front of `at` until they are as many as those
/// that wait; then the others move over them, and the memory beyond them is given back. So a byte moves at most once
/// for each byte that is taken, and the items are at most twice as many as wait.
#[derive(Drop)]
pub(crate) struct Unread {
    alloc: Global,
    bytes: Vec<u8>,
    at: usize,
}

impl Model for Unread {
    ghost use Rattle.std.specs.Prelude.{ℕ, List, ◌≤◌, length, drop};

    ghost Value = { List ℕ };

    ghost view = { λ u. drop u.at u.bytes.items };

    ghost invariant = { λ u. u.at ≤ length u.bytes.items };
}

impl Unread {
    /// No bytes. It takes no memory.
    pub(crate) fn new(alloc: Global) -> Unread
        ensures { result ≡ [] }
    {
        Unread {
            alloc,
            bytes: Vec::new(alloc),
            at: 0,
        }
    }

    /// The bytes that wait.
    pub(crate) fn as_slice(&self) -> &[u8]
        ensures { result.now ≡ self.now }
    {
        &self.bytes[self.at..]
    }

    /// Puts bytes last. After want of memory the bytes are as before.
    pub(crate) fn push_slice(&mut self, piece: &[u8]) -> Result<(), AllocError>
        ensures ok { OnOk result (self.new ≡ self.old ++ piece.now) }
        ensures err { OnErr result (self.new ≡ self.old) }
    {
        self.bytes.extend_from_slice(piece)?;
        Ok(())
    }

    /// Takes bytes from the front.
    pub(crate) fn skip(&mut self, count: usize)
        requires { count ≤ length self.old }
        ensures { self.new ≡ drop count self.old }
    {
        let at = self.at + count;
        let left = self.bytes.len() - at;
        if left == 0 {
            self.bytes = Vec::new(self.alloc);
            self.at = 0;
            return;
        }
        if left > at {
            self.at = at;
            return;
        }
        move_to_front(&mut self.bytes, at);
        self.at = 0;
    }

    /// Drops all bytes.
    pub(crate) fn clear(&mut self)
        ensures { self.new ≡ [] }
    {
        self.bytes = Vec::new(self.alloc);
        self.at = 0;
    }
}

// Moves the bytes from a place on over those before it, which are at least as many.
fn move_to_front(bytes: &mut Vec<u8>, at: usize)
    requires within { at ≤ length bytes.old.items }
    requires apart { length (drop at bytes.old.items) ≤ at }
    ensures { bytes.new.items ≡ drop at bytes.old.items }
{
    let left = bytes.len() - at;
    let (front, back) = bytes.split_at_mut(at);
    front[..left].copy_from_slice(back);
    bytes.truncate(left);
    bytes.shrink_to_fit();
}
