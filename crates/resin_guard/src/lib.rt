//! Guards against injection: whether bytes that carry certain policies stand outside the harmless places of a query or a page.
//!
//! Of a query the harmless places are its text and integer literals. Of a page they are its data, and the values of attributes that
//! are neither code nor addresses; what a page is says `specs/Pages.antt`.
#![tactic(auto)]

mod html;
mod judge;
mod laws;
mod literals;
mod page;
mod query;
mod stretch;
mod tag;

pub use html::html_guard;
pub use judge::Guard;
pub use laws::{shape_laws, verdict_laws};
pub use literals::literal_spans;
pub use query::sql_guard;
