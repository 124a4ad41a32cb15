//! Bytes with several owners.
ghost use Rattle.std.specs.Prelude.{◌≡◌, IfOk};
ghost use Rattle.std.specs.Rc.{rc_slice_items};

use std::alloc::{AllocError, Global};
use std::marker::Model;
use std::rc::RcSlice;

/// Bytes held by `Rc`, that contracts see as the list of them. A name or a text of a program is kept so, and is
/// copied by one more owner.
#[derive(Debug, Drop)]
pub struct SharedBytes {
    bytes: RcSlice<u8>,
}

impl Model for SharedBytes {
    ghost use Rattle.std.specs.Prelude.{ℕ, List};
    ghost use Rattle.std.specs.Rc.{rc_slice_items};

    ghost Value = { List ℕ };

    ghost view = { λ s. rc_slice_items s.bytes };
}

impl SharedBytes {
    /// A copy of these bytes in shared hands.
    pub fn from_slice(alloc: Global, bytes: &[u8]) -> Result<SharedBytes, AllocError>
        ensures { IfOk result (λ s. s ≡ bytes.now) }
    {
        Ok(SharedBytes {
            bytes: RcSlice::from_slice(alloc, bytes)?,
        })
    }

    /// Takes the bytes of a `Vec` into shared hands without copying them.
    pub fn from_vec(bytes: Vec<u8>) -> Result<SharedBytes, AllocError>
        ensures { IfOk result (λ s. s ≡ bytes.items) }
    {
        Ok(SharedBytes {
            bytes: RcSlice::from_vec(bytes)?,
        })
    }

    /// The bytes in order.
    pub fn as_slice(&self) -> &[u8]
        ensures { result.now ≡ self.now }
    {
        self.bytes.as_slice()
    }

    /// One more owner of the same bytes, as std's own type. It fails only where the count of owners is full.
    pub fn handle(&self) -> Result<RcSlice<u8>, AllocError>
        ensures { IfOk result (λ bytes. rc_slice_items bytes ≡ self.now) }
    {
        self.bytes.clone()
    }
}

impl Clone for SharedBytes {
    ghost is_clone = { λ s copy. copy ≡ s };

    /// One more owner of the same bytes. It fails only where the count of owners is full.
    fn clone(&self) -> Result<SharedBytes, AllocError> {
        Ok(SharedBytes {
            bytes: self.bytes.clone()?,
        })
    }
}
