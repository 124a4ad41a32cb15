//! The requests of a stream.
ghost use Rattle.std.specs.Prelude.{◌≡◌, ◌≤◌, ◌<◌, ◌+◌, IfOk, IsTrue, length, take, drop, map, Some, None, All};
ghost use Rattle.httparse.specs.Spans.{IsHeaderWithin, header_bytes};
ghost use Rattle.resin_http.specs.Stream.{first, head_end, at_end, on_parts};
ghost use Rattle.resin_http.specs.Steps.{Steps, Fits};
ghost use Rattle.resin_http.specs.Marks.{IsMark, Looks, by_end, by_parts};

use crate::fields::{header_list, taken};
use crate::head::{head_end, line_count, whole_head};
use crate::marks::Mark;
use crate::request::{Request, Step};
use httparse::spans::{EMPTY_HEADER_SPAN, HeaderSpan};
use resin_inputs::under::bytes::Bytes;
use std::alloc::{AllocError, Global};

const MOST_HEAD: usize = 16_384;

const MOST_LINES: usize = 66;

/// What the front of a stream asks (RFC 9112 in a profile of this project). A head ends at the first CR LF CR LF, and the first rule that
/// applies decides.
///
/// 1. The first 16,384 bytes hold no CR LF CR LF, or more than 65 lines that end with CR LF stand before the blank line: refused with 431.
/// 2. The bytes up to the blank line are not one head of `httparse` with at most 64 fields, the target does not begin with `/`, or
///    `Content-Length` stands twice or is not one to ten digits: refused with 400.
/// 3. The method is not GET, HEAD or POST, or there is a `Transfer-Encoding`: refused with 501.
/// 4. The length is above 1,048,576: refused with 413.
/// 5. Otherwise the next `Content-Length` bytes are the body, none without that field.
///
/// `Need` where the stream decides nothing yet.
pub fn next_request(alloc: Global, stream: &[u8]) -> Result<Step, AllocError>
    ensures steps { IfOk result (λ s. Steps (first stream.now) s) }
    ensures fits { IfOk result (λ s. Fits stream.now s) }
{
    let mut mark = Mark::START;
    next_marked(alloc, stream, &mut mark)
}

/// What the front of a stream asks, as `next_request` says it, where a part of the stream was read before: the mark tells which. Bytes in
/// which no head ended are not searched again, and a head whose body is awaited is not read again, so that the bytes looked at are in
/// proportion to the stream, in however many pieces it comes.
pub fn next_marked(alloc: Global, stream: &[u8], mark: &mut Mark) -> Result<Step, AllocError>
    requires { IsMark stream.now mark.old }
    ensures steps { IfOk result (λ s. Steps (first stream.now) s) }
    ensures fits { IfOk result (λ s. Fits stream.now s) }
    ensures mark { IsMark stream.now mark.new }
{
    match *mark {
        Mark::Head { searched } => read_front(alloc, stream, searched, mark),
        Mark::Body { end, body } => {
            if awaits(stream.len(), end, body) {
                return Ok(Step::Need);
            }
            read_front(alloc, stream, 0, mark)
        }
    }
}

// Whether the body that a head announces isn't whole yet.
fn awaits(length: usize, end: usize, body: u64) -> bool
    ensures { IsTrue result → length < end + body }
{
    end <= length && ((length - end) as u64) < body
}

// What the front of a stream asks in whose first bytes no head ended.
#[tactic(auto, unfolding(crate::specs::Stream::first, crate::specs::Stream::most_head))]
fn read_front(
    alloc: Global,
    stream: &[u8],
    searched: usize,
    mark: &mut Mark,
) -> Result<Step, AllocError>
    requires searched { head_end (take searched stream.now) ≡ None }
    requires mark { IsMark stream.now mark.old }
    ensures steps { IfOk result (λ s. Steps (first stream.now) s) }
    ensures fits { IfOk result (λ s. Fits stream.now s) }
    ensures mark { IsMark stream.now mark.new }
{
    let front = &stream[..stream.len().min(MOST_HEAD)];
    let Some(end) = head_end(front, searched) else {
        if stream.len() >= MOST_HEAD {
            return Ok(Step::Refuse { status: 431 });
        }
        *mark = Mark::Head {
            searched: stream.len(),
        };
        return Ok(Step::Need);
    };
    match on_head(alloc, stream, end)? {
        Look::Asks(step) => Ok(step),
        Look::Awaits { body } => {
            *mark = Mark::Body { end, body };
            Ok(Step::Need)
        }
    }
}

/// What a whole head says of its stream.
#[derive(Drop)]
enum Look {
    /// The body that it announces isn't whole yet.
    Awaits { body: u64 },
    /// What the stream asks.
    Asks(Step),
}

// What a stream asks whose head ends there.
fn on_head(alloc: Global, stream: &[u8], end: usize) -> Result<Look, AllocError>
    requires { end ≤ length stream.now }
    ensures { IfOk result (λ l. Looks (at_end stream.now (Some end)) (by_end stream.now (Some end)) end l) }
{
    let head = &stream[..end];
    if line_count(head) > MOST_LINES {
        return Ok(Look::Asks(Step::Refuse { status: 431 }));
    }
    let mut fields = [EMPTY_HEADER_SPAN; 64];
    match whole_head(head, &mut fields) {
        None => Ok(Look::Asks(Step::Refuse { status: 400 })),
        Some(found) => {
            let method = found.method.of(head);
            let target = found.path.of(head);
            on_parts(alloc, stream, end, method, target, &fields[..found.headers])
        }
    }
}

// What a stream asks whose head has these parts.
fn on_parts(
    alloc: Global,
    stream: &[u8],
    end: usize,
    method: &[u8],
    target: &[u8],
    fields: &[HeaderSpan],
) -> Result<Look, AllocError>
    requires end { end ≤ length stream.now }
    requires within { All (IsHeaderWithin (length (take end stream.now))) fields.now }
    ensures { IfOk result (λ l. Looks (on_parts end (drop end stream.now) method.now target.now (map (header_bytes (take end stream.now)) fields.now))
        (by_parts end method.now target.now (map (header_bytes (take end stream.now)) fields.now)) end l) }
{
    let (head, after) = stream.split_at(end);
    match taken(method, target, head, fields) {
        Err(status) => Ok(Look::Asks(Step::Refuse { status })),
        Ok((method, body)) => {
            if body > after.len() as u64 {
                return Ok(Look::Awaits { body });
            }
            let length = body as usize;
            let request = Request {
                method,
                target: Bytes::from_slice(alloc, target)?,
                fields: header_list(alloc, head, fields)?,
                body: Bytes::from_slice(alloc, &after[..length])?,
            };
            Ok(Look::Asks(Step::Got {
                request,
                used: (end + length) as u64,
            }))
        }
    }
}
