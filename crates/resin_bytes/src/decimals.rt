//! Numbers written in decimal.
ghost use Rattle.std.specs.Prelude.{◌≡◌, IfOk};
ghost use Rattle.std.specs.Fmt.{signed_decimal};

use crate::byte_list::Bytes;
use itoa::Buffer;
use std::alloc::{AllocError, Global};

/// An integer as text: its decimal digits without a leading zero, after `-` where it is below 0.
pub fn decimal(alloc: Global, n: i64) -> Result<Bytes, AllocError>
    ensures { IfOk result (λ text. text ≡ signed_decimal n) }
{
    let mut buffer = Buffer::new();
    Bytes::from_slice(alloc, buffer.format(n).as_bytes())
}
