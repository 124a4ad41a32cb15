//! A folder of files, whose shadow texts stand in sibling files.
ghost use Rattle.std.specs.Prelude.{◌≡◌};
ghost use Rattle.resin_base.specs.Causes.{HasCause};

use resin_base::{Bytes, Entry, Files, KeepFault};
use std::alloc::{AllocError, Global};
use std::io::ErrorKind;
use std::rt::Files as SystemFiles;
use std::{fs, io};

/// A folder of the system as a keeper of files. The path `a/b` is kept in `root/a/b` and its shadow text in `root/.resin/a/b`. A folder
/// that isn't there reads as empty, and missing folders are made by a write.
///
/// A write puts both texts beside the files that they replace, in names that no path has, and then renames the shadow and last the
/// file, so no reader sees half a file. Where the last step fails the shadow is put back. A removal takes the file away first, and puts
/// it back where its shadow can't be removed. A stop of the process between the two renames isn't covered, nor is a system that refuses
/// to undo: then the call has failed, and the file that is seen is as before.
#[derive(Drop)]
pub struct Folder<R: SystemFiles + AllocGlobal + Drop> {
    rt: R,
    root: String,
    faults: u64,
}

// Which fault an error of the system is.
fn fault_of(error: io::Error) -> KeepFault {
    match error.kind() {
        ErrorKind::OutOfMemory => KeepFault::Memory,
        _ => KeepFault::Failed,
    }
}

// A missing file is no fault, nor is a folder where a file is asked for.
fn unless_missing<T: Drop>(answer: io::Result<T>) -> Result<Option<T>, KeepFault> {
    match answer {
        Ok(value) => Ok(Some(value)),
        Err(error) => match error.kind() {
            ErrorKind::NotFound | ErrorKind::NotADirectory | ErrorKind::IsADirectory => Ok(None),
            _ => Err(fault_of(error)),
        },
    }
}

/// Where a text waits until it replaces a file: names that no lawful path has.
const NEW_BYTES: &[u8] = b"~bytes";

const NEW_SHADOW: &[u8] = b"~shadow";

// The folder that holds a file.
fn parent(path: &str) -> &str {
    match path.rsplit_once('/') {
        Some((front, _)) => front,
        None => path,
    }
}

impl<R: SystemFiles + AllocGlobal + Drop> Folder<R> {
    /// The folder at a path of the system. It need not be there yet.
    pub fn new(alloc: Global, rt: R, root: &str) -> Result<Folder<R>, AllocError> {
        Ok(Folder {
            rt,
            root: String::from_str(alloc, root)?,
            faults: 0,
        })
    }

    // The system's path. Bytes that are no text are no path of the system.
    fn place(&self, inner: &str, path: &[u8]) -> Result<String, KeepFault> {
        let Ok(text) = str::from_utf8(path) else {
            return Err(KeepFault::Failed);
        };
        let root = self.root.as_str();
        Ok(format!(in self.rt.alloc(); "{root}/{inner}{text}")?)
    }

    fn load(&self, place: &str) -> Result<Option<Bytes>, KeepFault> {
        match unless_missing(fs::read(&self.rt, place))? {
            Some(bytes) => Ok(Some(Bytes::from_slice(self.rt.alloc(), bytes.as_slice())?)),
            None => Ok(None),
        }
    }

    // Writes a text into the folder of shadows, where no path of a script leads, and gives its place.
    fn set_down(&self, name: &[u8], bytes: &[u8]) -> Result<String, KeepFault> {
        let place = self.place(".resin/", name)?;
        fs::create_dir_all(&self.rt, parent(place.as_str())).map_err(fault_of)?;
        fs::write(&self.rt, place.as_str(), bytes).map_err(fault_of)?;
        Ok(place)
    }

    // Moves a file to a place, whose folders are made.
    fn put_at(&self, from: &str, place: &str) -> Result<(), KeepFault> {
        fs::create_dir_all(&self.rt, parent(place)).map_err(fault_of)?;
        fs::rename(&self.rt, from, place).map_err(fault_of)
    }

    // Puts a shadow back as it was.
    fn restore(&self, place: &str, shadow: &Option<Bytes>) -> Result<(), KeepFault> {
        match shadow {
            Some(old) => self.put_at(self.set_down(NEW_SHADOW, old.as_slice())?.as_str(), place),
            None => {
                unless_missing(fs::remove_file(&self.rt, place))?;
                Ok(())
            }
        }
    }

    fn read_entry(&self, path: &[u8]) -> Result<Option<Entry>, KeepFault> {
        let Some(bytes) = self.load(self.place("", path)?.as_str())? else {
            return Ok(None);
        };
        let shadow = match self.load(self.place(".resin/", path)?.as_str())? {
            Some(shadow) => shadow,
            None => Bytes::new(self.rt.alloc()),
        };
        Ok(Some(Entry { bytes, shadow }))
    }

    fn write_entry(&self, path: &[u8], bytes: &[u8], shadow: &[u8]) -> Result<(), KeepFault> {
        let place = self.place("", path)?;
        let shadow_place = self.place(".resin/", path)?;
        let old = self.load(shadow_place.as_str())?;
        let new_shadow = self.set_down(NEW_SHADOW, shadow)?;
        let new_bytes = self.set_down(NEW_BYTES, bytes)?;
        self.put_at(new_shadow.as_str(), shadow_place.as_str())?;
        match self.put_at(new_bytes.as_str(), place.as_str()) {
            Ok(()) => Ok(()),
            Err(fault) => {
                self.restore(shadow_place.as_str(), &old)?;
                Err(fault)
            }
        }
    }

    fn remove_entry(&self, path: &[u8]) -> Result<bool, KeepFault> {
        let place = self.place("", path)?;
        let shadow_place = self.place(".resin/", path)?;
        if !self.has_entry(path)? {
            return Ok(false);
        }
        let aside = self.place(".resin/", NEW_BYTES)?;
        self.put_at(place.as_str(), aside.as_str())?;
        match unless_missing(fs::remove_file(&self.rt, shadow_place.as_str())) {
            Ok(_) => {
                // The entry is gone; what may stay aside is overwritten by the next write.
                let _aside = fs::remove_file(&self.rt, aside.as_str());
                Ok(true)
            }
            Err(fault) => {
                self.put_at(aside.as_str(), place.as_str())?;
                Err(fault)
            }
        }
    }

    fn has_entry(&self, path: &[u8]) -> Result<bool, KeepFault> {
        let place = self.place("", path)?;
        let found = unless_missing(fs::metadata(&self.rt, place.as_str()))?;
        Ok(found.is_some_and(|metadata| metadata.is_file()))
    }

    // Counts a call's fault.
    fn counted<T>(&mut self, answer: Result<T, KeepFault>) -> Result<T, KeepFault>
        ensures same { result ≡ answer }
        ensures cause { HasCause self.old.faults self.new.faults result }
    {
        if let Err(KeepFault::Failed) = &answer {
            self.faults = self.faults.saturating_add(1);
        }
        answer
    }
}

impl<R: SystemFiles + AllocGlobal + Drop> Files for Folder<R> {
    ghost use Rattle.std.specs.Prelude.{None};

    ghost stored = { λ _. None };

    ghost faults = { λ f. f.faults };

    ghost answers = { λ _. None };

    fn read(&mut self, path: &[u8]) -> Result<Option<Entry>, KeepFault> {
        let answer = self.read_entry(path);
        self.counted(answer)
    }

    fn write(&mut self, path: &[u8], bytes: &[u8], shadow: &[u8]) -> Result<(), KeepFault> {
        let answer = self.write_entry(path, bytes, shadow);
        self.counted(answer)
    }

    fn remove(&mut self, path: &[u8]) -> Result<bool, KeepFault> {
        let answer = self.remove_entry(path);
        self.counted(answer)
    }

    fn exists(&mut self, path: &[u8]) -> Result<bool, KeepFault> {
        let answer = self.has_entry(path);
        self.counted(answer)
    }
}
