//! Files kept in memory.
ghost use Rattle.std.specs.Prelude.{◌≡◌, IfOk, OnOk, OnErr};
ghost use Rattle.std.specs.FinMap.{from_entries, insert, remove};
ghost use Rattle.std.specs.Option.{option_copied};
ghost use Rattle.std.specs.FinMap as map;
ghost use Rattle.resin_base.specs.Contents.{byte_order};

use crate::places::{place_of, value_at};
use resin_base::{Bytes, Entry};
use std::alloc::{AllocError, Global};
use std::marker::Model;

/// A map from path to entry, looked up by walking.
#[derive(Drop)]
pub struct FileMap {
    alloc: Global,
    entries: Vec<(Bytes, Entry)>,
}

impl Model for FileMap {
    ghost use Rattle.std.specs.FinMap.{from_entries};
    ghost use Rattle.resin_base.specs.FileStore.{FileStore};
    ghost use Rattle.resin_memory.specs.Codes.{file_store_code};

    ghost Value = { FileStore };

    ghost coded = { file_store_code };

    ghost view = { λ m. from_entries m.entries.items };
}

impl FileMap {
    ghost use Rattle.resin_base.specs.FileStore.{with_entry};

    /// The map without entries, which takes no memory.
    pub(crate) fn new(alloc: Global) -> FileMap
        ensures { result ≡ map.empty }
    {
        FileMap {
            alloc,
            entries: Vec::new(alloc),
        }
    }

    /// The entry at a path.
    pub(crate) fn get(&self, path: &[u8]) -> Option<&Entry>
        ensures { option_copied result ≡ map.get self.now path.now }
    {
        value_at(&self.entries, path)
    }

    /// Whether a path has an entry.
    pub(crate) fn has(&self, path: &[u8]) -> bool
        ensures { result ≡ map.contains_key self.now path.now }
    {
        self.get(path).is_some()
    }

    /// A copy of the entry at a path.
    pub(crate) fn copy_at(&self, path: &[u8]) -> Result<Option<Entry>, AllocError>
        ensures { IfOk result (λ found. found ≡ map.get self.now path.now) }
    {
        match self.get(path) {
            Some(entry) => Ok(Some(copy_of(self.alloc, entry)?)),
            None => Ok(None),
        }
    }

    /// A copy of the map.
    pub(crate) fn copy(&self) -> Result<FileMap, AllocError>
        ensures { IfOk result (λ copy. copy ≡ self.now) }
    {
        Ok(FileMap {
            alloc: self.alloc,
            entries: copy_entries(self.alloc, &self.entries)?,
        })
    }

    /// Sets the entry at a path. After want of memory the map is as before.
    pub(crate) fn put(&mut self, path: &[u8], bytes: &[u8], shadow: &[u8]) -> Result<(), AllocError>
        ensures ok { OnOk result (self.new ≡ with_entry self.old path.now bytes.now shadow.now) }
        ensures err { OnErr result (self.new ≡ self.old) }
    {
        let entry = Entry {
            bytes: Bytes::from_slice(self.alloc, bytes)?,
            shadow: Bytes::from_slice(self.alloc, shadow)?,
        };
        put_entry(self.alloc, &mut self.entries, path, entry)
    }

    /// Takes the entry at a path out, and answers whether it was there.
    pub(crate) fn take_out(&mut self, path: &[u8]) -> bool
        ensures was { result ≡ map.contains_key self.old path.now }
        ensures out { self.new ≡ map.remove self.old path.now }
    {
        let was = self.has(path);
        keep_others(&mut self.entries, path);
        was
    }
}

// Takes out what stands at a path.
fn keep_others(entries: &mut Vec<(Bytes, Entry)>, path: &[u8])
    ensures { from_entries {R = byte_order} entries.new.items ≡ remove (from_entries entries.old.items) path.now }
{
    entries.retain(|entry| entry.0.as_slice() != path);
}

// Copies of entries with their paths.
fn copy_entries(
    alloc: Global,
    entries: &[(Bytes, Entry)],
) -> Result<Vec<(Bytes, Entry)>, AllocError>
    ensures { IfOk result (λ copy. copy.items ≡ entries.now) }
{
    let mut copy = Vec::new(alloc);
    for entry in entries {
        let path = Bytes::from_slice(alloc, entry.0.as_slice())?;
        copy.push((path, copy_of(alloc, &entry.1)?))?;
    }
    Ok(copy)
}

// A copy of an entry.
fn copy_of(alloc: Global, entry: &Entry) -> Result<Entry, AllocError>
    ensures { IfOk result (λ copy. copy ≡ entry.now) }
{
    Ok(Entry {
        bytes: Bytes::from_slice(alloc, entry.bytes.as_slice())?,
        shadow: Bytes::from_slice(alloc, entry.shadow.as_slice())?,
    })
}

// Puts an entry in place, or last.
fn put_entry(
    alloc: Global,
    entries: &mut Vec<(Bytes, Entry)>,
    path: &[u8],
    entry: Entry,
) -> Result<(), AllocError>
    ensures ok { OnOk result (from_entries {R = byte_order} entries.new.items ≡ insert (from_entries entries.old.items) path.now entry) }
    ensures err { OnErr result (entries.new.items ≡ entries.old.items) }
{
    match place_of(entries, path) {
        Some(i) => {
            entries[i].1 = entry;
        }
        None => {
            entries.push((Bytes::from_slice(alloc, path)?, entry))?;
        }
    }
    Ok(())
}
