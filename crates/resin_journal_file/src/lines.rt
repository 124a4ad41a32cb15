//! Fields of a line.
ghost use Rattle.std.specs.Prelude.{◌≡◌, ◌∷◌, ◌++◌, OnOk, decimal};

use itoa::Buffer;
use resin_bytes::Bytes;
use std::alloc::AllocError;

// Puts a further field last, behind a blank.
pub(crate) fn push_field(text: &mut Bytes, field: &[u8]) -> Result<(), AllocError>
    ensures { OnOk result (text.new ≡ text.old ++ 32 ∷ field.now) }
{
    text.push(b' ')?;
    text.push_slice(field)
}

// Puts a number last, behind a blank.
pub(crate) fn push_number(text: &mut Bytes, number: u64) -> Result<(), AllocError>
    ensures { OnOk result (text.new ≡ text.old ++ 32 ∷ decimal number) }
{
    let mut buffer = Buffer::new();
    push_field(text, buffer.format(number).as_bytes())
}
