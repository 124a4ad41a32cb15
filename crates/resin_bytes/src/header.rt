//! Header fields and lists of them.

use crate::byte_list::Bytes;
use resin_items::Items;

/// A header field: its name, and its value without the blanks round it.
#[derive(Drop)]
pub struct Header {
    pub name: Bytes,
    pub value: Bytes,
}

/// A list of header fields.
pub type HeaderList = Items<Header>;
