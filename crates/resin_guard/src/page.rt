//! Reading a page.

ghost use Rattle.std.specs.Prelude.{◌≡◌, ◌<◌, [], IfOk};
ghost use Rattle.resin_form.specs.Reading.{Got};
ghost use Rattle.resin_sql_words.specs.Forms.{under};
ghost use Rattle.resin_guard.specs.Answers.{Reads};
ghost use Rattle.resin_guard.specs.Pages as spec;

use crate::stretch::{before, byte, comment, doctype};
use crate::tag::{closing, is_alphabetic, opening, put};
use resin_lstr::Parts;
use resin_scan::bytes::lower;
use resin_sql_words::{ByteCursor, Placed};
use std::alloc::{AllocError, Global};

/// Why a text is no page.
#[derive(Clone, Copy, Debug, PartialEq, Eq)]
pub(crate) enum PageFault {
    /// The next byte, or the end, is none that a page lets stand there.
    Syntax,
    /// Memory ran out.
    Memory,
}

impl From<AllocError> for PageFault {
    ghost use Rattle.std.specs.Prelude.{◌≡◌};
    ghost use Rattle.resin_guard.specs.declared.page.PageFault.TheVariants.{Memory};

    ghost from_gives = { λ _ e. e ≡ Memory };

    fn from(_: AllocError) -> PageFault {
        PageFault::Memory
    }
}

/// A comment or a doctype, by the byte behind `<!`.
#[tactic(auto, unfolding(crate::specs::Pages::declared_from))]
fn declared_from(bytes: &mut ByteCursor<'_>, first: u8) -> Result<(), PageFault>
    ensures { Reads (under (spec.declared_from first) bytes.old) result bytes.new }
{
    if first == b'-' {
        byte(bytes, b'-')?;
        comment(bytes)
    } else {
        doctype(bytes)
    }
}

/// A comment or a doctype, behind `<!`.
#[tactic(auto, unfolding(crate::specs::Pages::declared))]
fn declared(bytes: &mut ByteCursor<'_>) -> Result<(), PageFault>
    ensures { Reads (under spec.declared bytes.old) result bytes.new }
{
    match bytes.peek() {
        Some(next) if next.byte == b'-' || lower(next.byte) == b'd' => {
            bytes.skip(next);
            declared_from(bytes, next.byte)
        }
        _ => Err(PageFault::Syntax),
    }
}

/// The item with this byte behind its `<`.
#[tactic(auto, unfolding(crate::specs::Pages::item_from))]
fn item_from(
    alloc: Global,
    bytes: &mut ByteCursor<'_>,
    places: Parts,
    first: u8,
) -> Result<Parts, PageFault>
    ensures { Reads (under (spec.item_from places first) bytes.old) result bytes.new }
{
    if first == b'!' {
        declared(bytes)?;
        Ok(places)
    } else if first == b'/' {
        closing(alloc, bytes, places)
    } else {
        opening(alloc, bytes, places, first)
    }
}

fn begins_item(byte: u8) -> bool
    ensures { result ≡ spec.begins_item byte }
{
    byte == b'!' || byte == b'/' || is_alphabetic(byte)
}

/// A comment, a doctype, a raw element or a tag, behind its `<`.
#[tactic(auto, unfolding(crate::specs::Pages::item))]
fn item(alloc: Global, bytes: &mut ByteCursor<'_>, places: Parts) -> Result<Parts, PageFault>
    ensures { Reads (under (spec.item places) bytes.old) result bytes.new }
{
    match bytes.peek() {
        Some(next) if begins_item(next.byte) => {
            bytes.skip(next);
            item_from(alloc, bytes, places, next.byte)
        }
        _ => Err(PageFault::Syntax),
    }
}

/// Data, from its first byte on.
#[tactic(auto, unfolding(crate::specs::Pages::text))]
fn text(bytes: &mut ByteCursor<'_>, places: Parts, first: Placed) -> Result<Parts, PageFault>
    requires { first.at < usize.MAX }
    ensures { Reads (under (spec.text places first) bytes.old) result bytes.new }
{
    let to = before(bytes, b'<', first.at + 1);
    put(bytes, places, first.at, to)
}

/// An item, or data, by its first byte.
#[tactic(auto, unfolding(crate::specs::Pages::piece))]
fn piece(
    alloc: Global,
    bytes: &mut ByteCursor<'_>,
    places: Parts,
    first: Placed,
) -> Result<Parts, PageFault>
    requires { first.at < usize.MAX }
    ensures { Reads (under (spec.piece places first) bytes.old) result bytes.new }
{
    if first.byte == b'<' {
        item(alloc, bytes, places)
    } else {
        text(bytes, places, first)
    }
}

/// The safe places of the page that the bytes are, all of them.
pub(crate) fn read_page(alloc: Global, bytes: &mut ByteCursor<'_>) -> Result<Parts, PageFault>
    ensures reads { Reads (under (spec.page []) bytes.old) result bytes.new }
    ensures all { IfOk result (λ _. bytes.new ≡ []) }
{
    let mut places = Parts::new(alloc);
    'turns: while let Some(next) = bytes.peek() {
        bytes.skip(next);
        places = piece(alloc, bytes, places, next)?;
    }
    Ok(places)
}
