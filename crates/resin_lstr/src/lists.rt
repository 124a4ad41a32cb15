//! Lists of parts, sets, numbers and texts.

use crate::text::LText;
use resin_bytes::Items;
use resin_label::PSet;

/// A list of parts of a text: the start and the end of each, the end not included.
pub type Parts = Items<(usize, usize)>;

/// A list of policy numbers.
pub type Numbers = Items<u32>;

/// A list of sets of policy numbers.
pub type Sets = Items<PSet>;

/// A list of labelled texts.
pub type Texts = Items<LText>;
