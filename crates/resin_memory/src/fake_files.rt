//! Files in memory, some of whose calls fail.
ghost use Rattle.std.specs.Prelude.{◌≡◌, OnOk, OnErr};
ghost use Rattle.std.specs.FinMap as map;

use crate::file_map::FileMap;
use crate::tally::Tally;
use resin_base::{Entry, FailList, Files, KeepFault};
use std::alloc::{AllocError, Global};
use std::marker::Model;

/// Files in memory that fail at listed calls, counted from 1 and without those that find no memory. They tell which calls failed while
/// their count of calls is below its last value; there no call fails.
#[derive(Drop)]
pub struct FakeFiles {
    files: FileMap,
    tally: Tally,
}

impl Model for FakeFiles {
    ghost use Rattle.resin_memory.specs.Fakes.{FakedFiles};
    ghost use Rattle.resin_memory.specs.Codes.{faked_files_code};

    ghost Value = { FakedFiles };

    ghost coded = { faked_files_code };

    ghost view = { λ f. record { files = f.files; tally = f.tally } };
}

impl FakeFiles {
    ghost use Rattle.std.specs.Option.{option_map};
    ghost use Rattle.resin_base.specs.FileStore.{entry_of, with_entry};

    /// No file; `fail` holds the rising numbers of the calls that fail. It takes no memory.
    pub fn new(alloc: Global, fail: FailList) -> FakeFiles
        ensures { result ≡ record { files = map.empty; tally = record { fail = fail; made = 0; faults = 0 } } }
    {
        FakeFiles {
            files: FileMap::new(alloc),
            tally: Tally::new(fail),
        }
    }

    /// Sets the entry at a path, its bytes and its shadow text. This is no keeper call. After want of memory the files are as before.
    pub fn put(&mut self, path: &[u8], bytes: &[u8], shadow: &[u8]) -> Result<(), AllocError>
        ensures ok { OnOk result (self.new.files ≡ with_entry self.old.files path.now bytes.now shadow.now) }
        ensures tally { self.new.tally ≡ self.old.tally }
        ensures err { OnErr result (self.new.files ≡ self.old.files) }
    {
        self.files.put(path, bytes, shadow)
    }

    /// The bytes and the shadow text of the entry at a path, None exactly where there is none. This is no keeper call.
    pub fn get(&self, path: &[u8]) -> Option<(&[u8], &[u8])>
        ensures { option_map (λ entry. entry_of entry.0.now entry.1.now) result ≡ map.get self.now.files path.now }
    {
        let entry = self.files.get(path)?;
        Some((entry.bytes.as_slice(), entry.shadow.as_slice()))
    }
}

#[tactic(auto, using(crate::proofs::Telling::telling))]
impl Files for FakeFiles {
    ghost use Rattle.std.specs.Prelude.{Some};
    ghost use Rattle.resin_base.specs.Causes.{HasCause, TellsMore, outcome};
    ghost use Rattle.resin_base.specs.FileStore.{Reads, Writes, Removes, Tests};
    ghost use Rattle.resin_memory.specs.Tallies.{Plays, told_answers};

    ghost stored = { λ f. Some f.files };

    ghost faults = { λ f. f.tally.faults };

    ghost answers = { λ f. told_answers f.tally };

    fn read(&mut self, path: &[u8]) -> Result<Option<Entry>, KeepFault>
        ensures contents { Reads self.old.files path.now result self.new.files }
        ensures plays { Plays self.old.tally result self.new.tally }
        ensures cause { HasCause self.old.tally.faults self.new.tally.faults result }
        ensures told { TellsMore (told_answers self.old.tally) (told_answers self.new.tally) (outcome result) }
    {
        if self.tally.fails_now() {
            return Err(KeepFault::Failed);
        }
        let answer = self.files.copy_at(path)?;
        self.tally.count();
        Ok(answer)
    }

    fn write(&mut self, path: &[u8], bytes: &[u8], shadow: &[u8]) -> Result<(), KeepFault>
        ensures contents { Writes self.old.files path.now bytes.now shadow.now result self.new.files }
        ensures plays { Plays self.old.tally result self.new.tally }
        ensures cause { HasCause self.old.tally.faults self.new.tally.faults result }
        ensures told { TellsMore (told_answers self.old.tally) (told_answers self.new.tally) (outcome result) }
    {
        if self.tally.fails_now() {
            return Err(KeepFault::Failed);
        }
        self.files.put(path, bytes, shadow)?;
        self.tally.count();
        Ok(())
    }

    fn remove(&mut self, path: &[u8]) -> Result<bool, KeepFault>
        ensures contents { Removes self.old.files path.now result self.new.files }
        ensures plays { Plays self.old.tally result self.new.tally }
        ensures cause { HasCause self.old.tally.faults self.new.tally.faults result }
        ensures told { TellsMore (told_answers self.old.tally) (told_answers self.new.tally) (outcome result) }
    {
        if self.tally.fails_now() {
            return Err(KeepFault::Failed);
        }
        let answer = self.files.take_out(path);
        self.tally.count();
        Ok(answer)
    }

    fn exists(&mut self, path: &[u8]) -> Result<bool, KeepFault>
        ensures contents { Tests self.old.files path.now result self.new.files }
        ensures plays { Plays self.old.tally result self.new.tally }
        ensures cause { HasCause self.old.tally.faults self.new.tally.faults result }
        ensures told { TellsMore (told_answers self.old.tally) (told_answers self.new.tally) (outcome result) }
    {
        if self.tally.fails_now() {
            return Err(KeepFault::Failed);
        }
        let answer = self.files.has(path);
        self.tally.count();
        Ok(answer)
    }
}
