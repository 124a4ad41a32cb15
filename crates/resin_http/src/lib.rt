//! Requests of a stream, what scripts see of them, and the texts of responses.
//!
//! `next_request` says what the front of a stream asks: a request, a refusal, or more bytes (`specs/Stream.antt`, over the grammar of heads in
//! `specs/Head.antt` and of fields in `specs/Fields.antt`). The answers of a stream do not depend on how it is cut (`answers_grow`), and a `Mark`
//! keeps how far it was read (`specs/Marks.antt`). `inputs` has what scripts see (`specs/Inputs.antt`), `response_text` what goes out
//! (`specs/Response.antt`), and `response_head` what of it stands before the body.
//!
//! ```rust
//! match next_request(alloc, stream)? {
//!     Step::Need => {} // more bytes decide it
//!     Step::Got { request, used } => {
//!         let arrays = inputs(alloc, &request)?; // the next request begins behind `used` bytes
//!     }
//!     Step::Refuse { status } => {} // 431, 400, 501 or 413; nothing behind it counts
//! }
//! ```
#![tactic(auto)]

mod arrays;
mod fields;
mod head;
mod laws;
mod marks;
mod request;
mod response;
mod stream;

pub use arrays::inputs;
pub use laws::{answers_grow, ends_shortest, head_law, mark_stays, stays_first, takes_some};
pub use marks::Mark;
pub use request::{Method, Request, Step};
pub use resin_inputs::InputArrays;
pub use resin_inputs::under::bytes::{Header, HeaderList};
pub use response::{response_head, response_text};
pub use stream::{next_marked, next_request};
