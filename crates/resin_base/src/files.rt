//! A keeper of files.
ghost use Rattle.std.specs.Prelude.{ℕ, List, Option, Bool};
ghost use Rattle.resin_base.specs.Causes.{HasCause, TellsMore, outcome};
ghost use Rattle.resin_base.specs.Contents.{Told};
ghost use Rattle.resin_base.specs.FileStore.{FileStore, Reads, Writes, Removes, Tests};

use crate::faults::KeepFault;
use resin_bytes::Bytes;

/// A file: its bytes, and the shadow text that tells the policies of each.
#[derive(Drop)]
pub struct Entry {
    pub bytes: Bytes,
    pub shadow: Bytes,
}

/// A keeper of files, each at a path. A call that answers an error changes no file.
pub trait Files {
    /// The files, where they are told.
    ghost stored: { Self → Option FileStore };

    /// How often a call failed; at its last value the count stays.
    ghost faults: { Self → ℕ };

    /// Which of the calls so far failed, in order and without those that found no memory, where that is told.
    ghost answers: { Self → Option (List Bool) };

    /// The entry at a path, None exactly where there is none.
    fn read(&mut self, path: &[u8]) -> Result<Option<Entry>, KeepFault>
        ensures contents { Told (stored self.old) (stored self.new) (λ s t. Reads s path.now result t) }
        ensures cause { HasCause (faults self.old) (faults self.new) result }
        ensures told { TellsMore (answers self.old) (answers self.new) (outcome result) };

    /// Sets the bytes and the shadow text at a path at once.
    fn write(&mut self, path: &[u8], bytes: &[u8], shadow: &[u8]) -> Result<(), KeepFault>
        ensures contents { Told (stored self.old) (stored self.new) (λ s t. Writes s path.now bytes.now shadow.now result t) }
        ensures cause { HasCause (faults self.old) (faults self.new) result }
        ensures told { TellsMore (answers self.old) (answers self.new) (outcome result) };

    /// Removes the entry at a path, and answers whether it was there.
    fn remove(&mut self, path: &[u8]) -> Result<bool, KeepFault>
        ensures contents { Told (stored self.old) (stored self.new) (λ s t. Removes s path.now result t) }
        ensures cause { HasCause (faults self.old) (faults self.new) result }
        ensures told { TellsMore (answers self.old) (answers self.new) (outcome result) };

    /// Whether a path has an entry.
    fn exists(&mut self, path: &[u8]) -> Result<bool, KeepFault>
        ensures contents { Told (stored self.old) (stored self.new) (λ s t. Tests s path.now result t) }
        ensures cause { HasCause (faults self.old) (faults self.new) result }
        ensures told { TellsMore (answers self.old) (answers self.new) (outcome result) };
}
