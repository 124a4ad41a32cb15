//! The arguments of a format.

use resin_bytes::Items;
use resin_label::PSet;
use resin_lstr::LText;

/// An argument of a format: an integer with its set, or a text.
#[derive(Drop)]
pub enum FormatArg {
    Int(i64, PSet),
    Text(LText),
}

/// A list of arguments of a format.
pub type FormatArgs = Items<FormatArg>;
