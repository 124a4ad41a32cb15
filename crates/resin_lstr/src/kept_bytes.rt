//! Bytes as a text keeps them.
ghost use Rattle.std.specs.Prelude.{◌≡◌, ◌+◌, ◌≤◌, ◌++◌, length, IfOk, OnOk, OnErr};
ghost use Rattle.std.specs.Rc.{rc_slice_items};
ghost use Rattle.resin_lstr.specs.Texts.{LONGEST};
ghost use Rattle.resin_lstr.specs.Runs.{last_end, IsCoalesced, AreJoined};

use crate::kept_runs::KeptRuns;
use crate::text::Run;
use std::alloc::{AllocError, Global};
use std::marker::Model;
use std::rc::{Rc, RcSlice};

// Bytes that an owner who is alone extends in place.
#[derive(Drop)]
pub(crate) struct ByteList {
    items: Vec<u8>,
}

impl Model for ByteList {
    ghost use Rattle.std.specs.Prelude.{ℕ, List};

    ghost Value = { List ℕ };

    ghost view = { λ b. b.items.items };
}

impl ByteList {
    // These bytes and more.
    fn joined(alloc: Global, bytes: &[u8], more: &[u8]) -> Result<ByteList, AllocError>
        requires { length bytes.now + length more.now ≤ LONGEST }
        ensures { IfOk result (λ list. list ≡ bytes.now ++ more.now) }
    {
        let mut items = Vec::with_capacity(alloc, bytes.len() + more.len())?;
        items.extend_from_slice(bytes)?;
        items.extend_from_slice(more)?;
        Ok(ByteList { items })
    }

    // Puts `more` last, and their runs behind `runs`. After want of memory both are as before.
    fn append(
        &mut self,
        alloc: Global,
        more: &[u8],
        runs: &mut KeptRuns,
        more_runs: &[Run],
    ) -> Result<(), AllocError>
        requires coalesced { IsCoalesced 0 runs.old }
        requires more_coalesced { IsCoalesced 0 more_runs.now }
        requires short { last_end 0 runs.old + last_end 0 more_runs.now ≤ LONGEST }
        ensures ok { OnOk result (self.new ≡ self.old ++ more.now) }
        ensures joined { OnOk result (AreJoined runs.old more_runs.now runs.new) }
        ensures err { OnErr result (self.new ≡ self.old) }
        ensures runs_err { OnErr result (runs.new ≡ runs.old) }
    {
        self.items.reserve(more.len())?;
        runs.append(alloc, more_runs)?;
        self.items.extend_from_slice(more)?;
        Ok(())
    }
}

impl Clone for ByteList {
    ghost is_clone = { λ b copy. copy ≡ b };

    fn clone(&self) -> Result<ByteList, AllocError> {
        let alloc = *self.items.allocator();
        Ok(ByteList {
            items: Vec::from_slice(alloc, self.items.as_slice())?,
        })
    }
}

// Bytes that others may hold too, or bytes that grow in place while no one else holds them.
#[derive(Drop)]
pub(crate) enum HeldBytes {
    Shared(RcSlice<u8>),
    Growing(Rc<ByteList>),
}

// The bytes of a text, which copies share.
#[derive(Drop)]
pub(crate) struct KeptBytes {
    held: HeldBytes,
}

impl Model for KeptBytes {
    ghost use Rattle.std.specs.Prelude.{ℕ, List};
    ghost use Rattle.resin_lstr.specs.Keeping.{held_bytes};

    ghost Value = { List ℕ };

    ghost view = { λ b. held_bytes b.held };
}

impl KeptBytes {
    // These bytes, not copied.
    pub(crate) fn shared(bytes: RcSlice<u8>) -> KeptBytes
        ensures { result ≡ rc_slice_items bytes }
    {
        KeptBytes {
            held: HeldBytes::Shared(bytes),
        }
    }

    // These bytes, not copied.
    pub(crate) fn from_vec(bytes: Vec<u8>) -> Result<KeptBytes, AllocError>
        ensures { IfOk result (λ kept. kept ≡ bytes.items) }
    {
        let alloc = *bytes.allocator();
        let list = Rc::new(alloc, ByteList { items: bytes })?;
        Ok(KeptBytes {
            held: HeldBytes::Growing(list),
        })
    }

    // A copy of these bytes.
    pub(crate) fn from_slice(alloc: Global, bytes: &[u8]) -> Result<KeptBytes, AllocError>
        ensures { IfOk result (λ kept. kept ≡ bytes.now) }
    {
        let bytes = RcSlice::from_slice(alloc, bytes)?;
        Ok(KeptBytes::shared(bytes))
    }

    // These bytes and more.
    pub(crate) fn joined(alloc: Global, bytes: &[u8], more: &[u8]) -> Result<KeptBytes, AllocError>
        requires { length bytes.now + length more.now ≤ LONGEST }
        ensures { IfOk result (λ kept. kept ≡ bytes.now ++ more.now) }
    {
        let list = ByteList::joined(alloc, bytes, more)?;
        KeptBytes::from_vec(list.items)
    }

    // The bytes in order.
    pub(crate) fn as_slice(&self) -> &[u8]
        ensures { result.now ≡ self.now }
    {
        match &self.held {
            HeldBytes::Shared(bytes) => bytes.as_slice(),
            HeldBytes::Growing(list) => list.items.as_slice(),
        }
    }

    // Puts `more` last, and their runs behind `runs`; in place where no one else holds the bytes and they grew before. After want of memory both
    // are as before.
    pub(crate) fn append(
        &mut self,
        alloc: Global,
        more: &[u8],
        runs: &mut KeptRuns,
        more_runs: &[Run],
    ) -> Result<(), AllocError>
        requires coalesced { IsCoalesced 0 runs.old }
        requires more_coalesced { IsCoalesced 0 more_runs.now }
        requires short { last_end 0 runs.old + last_end 0 more_runs.now ≤ LONGEST }
        requires bytes_short { length self.old + length more.now ≤ LONGEST }
        ensures ok { OnOk result (self.new ≡ self.old ++ more.now) }
        ensures joined { OnOk result (AreJoined runs.old more_runs.now runs.new) }
        ensures err { OnErr result (self.new ≡ self.old) }
        ensures runs_err { OnErr result (runs.new ≡ runs.old) }
    {
        match &mut self.held {
            HeldBytes::Shared(bytes) => {
                let list = ByteList::joined(alloc, bytes.as_slice(), more)?;
                let list = Rc::new(alloc, list)?;
                runs.append(alloc, more_runs)?;
                self.held = HeldBytes::Growing(list);
                Ok(())
            }
            HeldBytes::Growing(shared) => {
                let list = Rc::make_mut(shared)?;
                list.append(alloc, more, runs, more_runs)
            }
        }
    }
}

impl Clone for KeptBytes {
    ghost is_clone = { λ b copy. copy ≡ b };

    fn clone(&self) -> Result<KeptBytes, AllocError> {
        let held = match &self.held {
            HeldBytes::Shared(bytes) => HeldBytes::Shared(bytes.clone()?),
            HeldBytes::Growing(list) => HeldBytes::Growing(list.clone()?),
        };
        Ok(KeptBytes { held })
    }
}
