//! Records of mail.
ghost use Rattle.std.specs.Prelude.{◌≡◌, IfOk};
ghost use Rattle.resin_stage.specs.Lines.{mail_record};

use itoa::Buffer;
use resin_scope::under::bytes::Bytes;
use resin_scope::under::lstr::LText;
use std::alloc::{AllocError, Global};

/// The record of a mail: `mail request=Q len=N`, a newline, the text and a newline.
pub(crate) fn mail_record(alloc: Global, request: u64, text: &LText) -> Result<Bytes, AllocError>
    ensures { IfOk result (λ bytes. bytes ≡ mail_record request text.now) }
{
    let mut buffer = Buffer::new();
    let mut bytes = Bytes::from_slice(alloc, b"mail request=")?;
    bytes.push_slice(buffer.format(request).as_bytes())?;
    bytes.push_slice(b" len=")?;
    bytes.push_slice(buffer.format(text.len()).as_bytes())?;
    bytes.push_slice(b"\n")?;
    bytes.push_slice(text.bytes())?;
    bytes.push_slice(b"\n")?;
    Ok(bytes)
}
