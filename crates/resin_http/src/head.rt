//! The head of a request.
ghost use Rattle.std.specs.Prelude.{◌≡◌, ◌≤◌, length, take, None, IfSome, IfNone};
ghost use Rattle.httparse.specs.Grammar.{RequestHead};
ghost use Rattle.httparse.specs.Spans.{IsRequestAt, IsRequestWithin};
ghost use Rattle.resin_http.specs.Head.{IsHead};
ghost use Rattle.resin_http.specs.Stream.{head_end, line_count};

use httparse::Status;
use httparse::spans::{HeaderSpan, RequestSpans, parse_request};

/// Where the first CR LF CR LF ends. None ends in the bytes that were searched, which are passed over.
pub fn head_end(bytes: &[u8], searched: usize) -> Option<usize>
    requires { head_end (take searched bytes.now) ≡ None }
    ensures value { result ≡ head_end bytes.now }
    ensures within { IfSome result (λ end. end ≤ length bytes.now) }
{
    let start = searched.saturating_sub(3);
    for i in start..bytes.len() {
        if bytes[i..].starts_with(b"\r\n\r\n") {
            return Some(i + 4);
        }
    }
    None
}

/// How many lines end with CR LF.
pub fn line_count(bytes: &[u8]) -> usize
    ensures { result ≡ line_count bytes.now }
{
    let mut count: usize = 0;
    for i in 0..bytes.len() {
        if bytes[i..].starts_with(b"\r\n") {
            count += 1;
        }
    }
    count
}

/// Where the parts of a head stand, None exactly where the bytes are no whole head of at most 64 fields.
pub fn whole_head(head: &[u8], fields: &mut [HeaderSpan; 64]) -> Option<RequestSpans>
    ensures found { IfSome result (λ spans. (h : RequestHead) × IsHead head.now h × IsRequestAt head.now fields.new spans h) }
    ensures within { IfSome result (IsRequestWithin head.now fields.new) }
    ensures none { IfNone result ((h : RequestHead) → ¬ (IsHead head.now h)) }
{
    match parse_request(head, fields) {
        Ok(Status::Complete(found)) if found.len == head.len() => Some(found),
        _ => None,
    }
}
