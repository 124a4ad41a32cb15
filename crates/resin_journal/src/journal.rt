//! Journals.

use crate::event::Event;
use resin_bytes::Items;

/// The events of a request, in order.
pub type Journal = Items<Event>;
