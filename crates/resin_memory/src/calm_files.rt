//! Files in memory that never fail.
ghost use Rattle.std.specs.Prelude.{◌≡◌, OnOk, OnErr, IfOk};
ghost use Rattle.std.specs.FinMap as map;

use crate::file_map::FileMap;
use resin_base::{Entry, Files, KeepFault};
use std::alloc::{AllocError, Global};
use std::marker::Model;

/// Files in memory whose calls never fail: their count of faults is always 0.
#[derive(Drop)]
pub struct CalmFiles {
    files: FileMap,
}

impl Model for CalmFiles {
    ghost use Rattle.resin_base.specs.FileStore.{FileStore};
    ghost use Rattle.resin_memory.specs.Codes.{file_store_code};

    ghost Value = { FileStore };

    ghost coded = { file_store_code };

    ghost view = { λ c. c.files };
}

impl CalmFiles {
    ghost use Rattle.std.specs.Option.{option_map};
    ghost use Rattle.resin_base.specs.FileStore.{entry_of, with_entry};

    /// No file. It takes no memory.
    pub fn new(alloc: Global) -> CalmFiles
        ensures { result ≡ map.empty }
    {
        CalmFiles {
            files: FileMap::new(alloc),
        }
    }

    /// Files of their own that hold the same entries. It takes memory and time in proportion to what these hold. This is no keeper call.
    pub fn copy(&self) -> Result<CalmFiles, AllocError>
        ensures { IfOk result (λ copy. copy ≡ self.now) }
    {
        Ok(CalmFiles {
            files: self.files.copy()?,
        })
    }

    /// Sets the entry at a path, its bytes and its shadow text. This is no keeper call. After want of memory the files are as before.
    pub fn put(&mut self, path: &[u8], bytes: &[u8], shadow: &[u8]) -> Result<(), AllocError>
        ensures ok { OnOk result (self.new ≡ with_entry self.old path.now bytes.now shadow.now) }
        ensures err { OnErr result (self.new ≡ self.old) }
    {
        self.files.put(path, bytes, shadow)
    }

    /// The bytes and the shadow text of the entry at a path, None exactly where there is none. This is no keeper call.
    pub fn get(&self, path: &[u8]) -> Option<(&[u8], &[u8])>
        ensures { option_map (λ entry. entry_of entry.0.now entry.1.now) result ≡ map.get self.now path.now }
    {
        let entry = self.files.get(path)?;
        Some((entry.bytes.as_slice(), entry.shadow.as_slice()))
    }
}

impl Files for CalmFiles {
    ghost use Rattle.std.specs.Prelude.{Some, None};

    ghost stored = { λ files. Some files };

    ghost faults = { λ _. 0 };

    ghost answers = { λ _. None };

    fn read(&mut self, path: &[u8]) -> Result<Option<Entry>, KeepFault> {
        Ok(self.files.copy_at(path)?)
    }

    fn write(&mut self, path: &[u8], bytes: &[u8], shadow: &[u8]) -> Result<(), KeepFault> {
        self.files.put(path, bytes, shadow)?;
        Ok(())
    }

    fn remove(&mut self, path: &[u8]) -> Result<bool, KeepFault> {
        Ok(self.files.take_out(path))
    }

    fn exists(&mut self, path: &[u8]) -> Result<bool, KeepFault> {
        Ok(self.files.has(path))
    }
}
