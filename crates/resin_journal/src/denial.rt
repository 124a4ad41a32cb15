//! The lines of the denial log.
ghost use Rattle.std.specs.Prelude.{◌≡◌, ◌++◌, OnOk, IfOk};
ghost use Rattle.resin_journal.specs.Lines.{line_of, write_part, object_part, range_part};

use crate::channel::Channel;
use crate::event::Event;
use itoa::Buffer;
use resin_bytes::Bytes;
use std::alloc::{AllocError, Global};

/// The line of the denial log for an event of the request with that number: `None` exactly for `Passed` and `Sent`. The line of `Denied` is
/// `deny request=Q write=W channel=C policy=CLASS#N bytes=FROM-TO by=BY` and a newline; that of `FilterDenied` has `filter=CLASS#N` in the place
/// of the policy, and `bytes=0-LEN`.
pub fn denial_line(alloc: Global, request: u64, e: &Event) -> Result<Option<Bytes>, AllocError>
    ensures { IfOk result (λ line. line ≡ line_of request e.now) }
{
    match e {
        Event::Passed { .. } | Event::Sent { .. } => Ok(None),
        Event::Denied {
            write,
            channel,
            policy,
            class,
            from,
            to,
            by,
        } => {
            let mut line = Bytes::new(alloc);
            push_write(&mut line, request, *write, *channel)?;
            push_object(&mut line, b" policy=", class, *policy)?;
            push_range(&mut line, *from, *to, by)?;
            Ok(Some(line))
        }
        Event::FilterDenied {
            write,
            channel,
            filter,
            class,
            len,
            by,
        } => {
            let mut line = Bytes::new(alloc);
            push_write(&mut line, request, *write, *channel)?;
            push_object(&mut line, b" filter=", class, *filter)?;
            push_range(&mut line, 0, *len, by)?;
            Ok(Some(line))
        }
    }
}

// Puts last which write was denied.
fn push_write(
    line: &mut Bytes,
    request: u64,
    write: u64,
    channel: Channel,
) -> Result<(), AllocError>
    ensures { OnOk result (line.new ≡ line.old ++ write_part request write channel) }
{
    let mut buffer = Buffer::new();
    line.push_slice(b"deny request=")?;
    line.push_slice(buffer.format(request).as_bytes())?;
    line.push_slice(b" write=")?;
    line.push_slice(buffer.format(write).as_bytes())?;
    line.push_slice(b" channel=")?;
    line.push_slice(channel.name().as_bytes())
}

// Puts last which object denied it.
fn push_object(line: &mut Bytes, kind: &[u8], class: &Bytes, number: u32) -> Result<(), AllocError>
    ensures { OnOk result (line.new ≡ line.old ++ object_part kind.now class.now number) }
{
    let mut buffer = Buffer::new();
    line.push_slice(kind)?;
    line.push_slice(class.as_slice())?;
    line.push_slice(b"#")?;
    line.push_slice(buffer.format(number).as_bytes())
}

// Puts last which bytes were denied, and by which exception.
fn push_range(line: &mut Bytes, from: u64, to: u64, by: &Bytes) -> Result<(), AllocError>
    ensures { OnOk result (line.new ≡ line.old ++ range_part from to by.now) }
{
    let mut buffer = Buffer::new();
    line.push_slice(b" bytes=")?;
    line.push_slice(buffer.format(from).as_bytes())?;
    line.push_slice(b"-")?;
    line.push_slice(buffer.format(to).as_bytes())?;
    line.push_slice(b" by=")?;
    line.push_slice(by.as_slice())?;
    line.push_slice(b"\n")
}
