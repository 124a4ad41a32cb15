//! Requests.
use resin_inputs::under::bytes::{Bytes, HeaderList};

/// The methods that are served.
#[derive(Clone, Copy, Debug, PartialEq, Eq)]
pub enum Method {
    Get,
    Head,
    Post,
}

/// One request of a stream. `next_request` gives only requests whose target begins with `/`, whose target, field names and field values
/// have at most 16,384 bytes together, and whose body has at most 1,048,576.
#[derive(Drop)]
pub struct Request {
    pub method: Method,
    pub target: Bytes,
    /// The fields in order. A value has no blanks at its ends.
    pub fields: HeaderList,
    pub body: Bytes,
}

/// What the front of a stream asks.
#[derive(Drop)]
pub enum Step {
    /// More bytes decide it.
    Need,
    /// A request, which takes `used` bytes of the stream.
    Got { request: Request, used: u64 },
    /// The stream is refused with this status: 400, 413, 431 or 501.
    Refuse { status: u16 },
}
