//! The records and the lines of the output.
ghost use Rattle.std.specs.Prelude.{◌≡◌, ◌++◌, decimal, IfOk, OnOk};
ghost use Rattle.resin_serve.specs.Records.{record_text};

use itoa::Buffer;
use resin_site::under::base::Bytes;
use std::alloc::{AllocError, Global};

/// The most bytes of a record beside its response: a connection, a blank, a length and two newlines.
const MOST_BESIDE: usize = 28;

/// The record of a response that has this head and this body: `<conn> <len>`, a newline, the response and a newline. It is made in one piece of
/// memory, which it doesn't outgrow.
#[tactic(auto, unfolding(crate::specs::Records::record_text))]
pub(crate) fn output_record(
    alloc: Global,
    conn: u16,
    head: &[u8],
    body: &[u8],
) -> Result<Vec<u8>, AllocError>
    ensures { IfOk result (λ text. text.items ≡ record_text conn (head.now ++ body.now)) }
{
    let length = head.len() + body.len();
    let mut buffer = Buffer::new();
    let mut text = Vec::with_capacity(alloc, length.saturating_add(MOST_BESIDE))?;
    text.extend_from_slice(buffer.format(conn).as_bytes())?;
    text.extend_from_slice(b" ")?;
    text.extend_from_slice(buffer.format(length).as_bytes())?;
    text.extend_from_slice(b"\n")?;
    text.extend_from_slice(head)?;
    text.extend_from_slice(body)?;
    text.extend_from_slice(b"\n")?;
    Ok(text)
}

/// Puts a number last, behind what it counts.
pub(crate) fn push_count(text: &mut Bytes, name: &[u8], number: u64) -> Result<(), AllocError>
    ensures { OnOk result (text.new ≡ text.old ++ name.now ++ decimal number) }
{
    let mut buffer = Buffer::new();
    text.push_slice(name)?;
    text.push_slice(buffer.format(number).as_bytes())
}
