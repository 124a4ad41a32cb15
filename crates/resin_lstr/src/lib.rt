//! Labelled texts: each byte carries a set of policy numbers.
//!
//! Everything that scripts hold, receive and send is such a text, so what happens to a byte happens to its set. Contracts see a text as the list of
//! its bytes with their sets (`specs/Texts.antt`), and each call says the list that it gives, or that the text would pass 16,777,216 bytes
//! (`specs/Faults.antt`). A text is kept as bytes beside runs of equal sets (`specs/Runs.antt`): a text of few sets costs little more than its
//! bytes. Copies of a text share both, and a text that no one else holds grows in place (`append`). `specs/Tables.antt` has the tables that
//! replace bytes.
//!
//! ```rust
//! let secret = LText::plain(alloc, b"secret")?.mark(alloc, 1)?;
//! let text = LText::plain(alloc, b"a")?.concat(alloc, &secret)?;
//! let range = text.first_run_of(1); // Some((1, 7)): the bytes of `secret`
//! let front = text.slice(alloc, 0, 1)?; // `a`, whose byte carries nothing
//! ```
#![tactic(auto)]

mod body;
mod builder;
mod kept_bytes;
mod kept_runs;
mod limits;
mod lists;
mod replace;
mod runs;
mod table;
mod text;

pub use builder::Builder;
pub use limits::LONGEST;
pub use lists::{Numbers, Parts, Sets, Texts};
pub use table::ByteTable;
pub use text::{LText, Run, TextFault};
