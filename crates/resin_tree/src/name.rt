//! Names.
ghost use Rattle.std.specs.Prelude.{◌≡◌, IfOk};
ghost use Rattle.resin_scan.specs.Words.{IsName};

use resin_items::SharedBytes;
use std::alloc::AllocError;
use std::marker::Model;

/// A name as it is written: a letter, `_` or a byte from 128 on, then those and digits. Contracts see its bytes.
#[derive(Drop)]
pub struct Name {
    bytes: SharedBytes,
}

impl Model for Name {
    ghost use Rattle.std.specs.Prelude.{ℕ, List};
    ghost use Rattle.resin_scan.specs.Words.{IsName};

    ghost Value = { List ℕ };

    ghost view = { λ n. n.bytes };

    ghost invariant = { λ n. IsName n.bytes };
}

impl Name {
    /// The name that these bytes are.
    pub fn new(bytes: SharedBytes) -> Name
        requires { IsName bytes }
        ensures { result ≡ bytes }
    {
        Name { bytes }
    }

    /// The bytes in order.
    pub fn as_slice(&self) -> &[u8]
        ensures value { result.now ≡ self.now }
        ensures name { IsName result.now }
    {
        self.bytes.as_slice()
    }

    /// One more owner of the bytes. It fails only where the count of owners is full.
    pub fn bytes(&self) -> Result<SharedBytes, AllocError>
        ensures { IfOk result (λ bytes. bytes ≡ self.now) }
    {
        self.bytes.clone()
    }
}

impl Clone for Name {
    ghost is_clone = { λ n copy. copy ≡ n };

    /// One more owner of the same bytes. It fails only where the count of owners is full.
    fn clone(&self) -> Result<Name, AllocError> {
        Ok(Name {
            bytes: self.bytes.clone()?,
        })
    }
}
