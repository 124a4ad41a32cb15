//! Tables from bytes to the bytes that replace them.
ghost use Rattle.std.specs.Prelude.{◌≡◌, ℕ, ◌<◌, ◌≤◌, ◌++◌, length, slice_set, IfOk, OnOk, OnErr};
ghost use Rattle.resin_lstr.specs.Tables.{identity, replacement};
ghost use Rattle.std.specs.List.{flat_map};

use crate::limits::LONGEST;
use crate::text::TextFault;
use resin_bytes::Bytes;
use std::alloc::{AllocError, Global};
use std::marker::Model;

/// For each byte the bytes that replace it.
#[derive(Drop)]
pub struct ByteTable {
    rows: Vec<Option<Bytes>>,
    alloc: Global,
}

impl Model for ByteTable {
    ghost use Rattle.std.specs.Prelude.{ℕ, List, length, ◌≡◌};

    ghost Value = { List (List ℕ) };

    ghost use Rattle.resin_lstr.specs.Tables.{rows_from};

    ghost view = { λ a. rows_from 0 a.rows.items };

    ghost invariant = { λ a. length a.rows.items ≡ 256 };
}

impl ByteTable {
    /// The table that leaves each byte as it is.
    pub fn identity(alloc: Global) -> Result<ByteTable, AllocError>
        ensures { IfOk result (λ table. table ≡ identity) }
    {
        let mut rows = Vec::new(alloc);
        for _row in 0..256usize {
            rows.push(None)?;
        }
        Ok(ByteTable { rows, alloc })
    }

    /// Lets `with` replace a byte. After want of memory the table is as before.
    pub fn put(&mut self, byte: u8, with: &[u8]) -> Result<(), AllocError>
        ensures ok { OnOk result (self.new ≡ slice_set self.old byte with.now) }
        ensures err { OnErr result (self.new ≡ self.old) }
    {
        let row = Bytes::from_slice(self.alloc, with)?;
        self.rows[byte as usize] = Some(row);
        Ok(())
    }

    // Puts what replaces a byte last.
    fn push_row(&self, out: &mut Vec<u8>, byte: u8) -> Result<(), AllocError>
        ensures { OnOk result (out.new.items ≡ out.old.items ++ replacement self.now byte) }
    {
        match &self.rows[byte as usize] {
            Some(row) => out.extend_from_slice(row.as_slice())?,
            None => out.push(byte)?,
        }
        Ok(())
    }

    // Puts what replaces each of the bytes last, as far as a text may go.
    pub(crate) fn push_rows(&self, out: &mut Vec<u8>, bytes: &[u8]) -> Result<(), TextFault>
        requires { length out.old.items ≤ LONGEST }
        ensures ok { OnOk result (out.new.items ≡ out.old.items ++ flat_map (replacement self.now) bytes.now) }
        ensures short { OnOk result (length out.new.items ≤ LONGEST) }
        ensures too_long { result ≡ Err TextFault.TooLong
            → LONGEST < length (out.old.items ++ flat_map (replacement self.now) bytes.now) }
    {
        for byte in bytes {
            self.push_row(out, *byte)?;
            if out.len() > LONGEST {
                return Err(TextFault::TooLong);
            }
        }
        Ok(())
    }
}
