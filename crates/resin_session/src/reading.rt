//! Reading session texts.
ghost use Rattle.std.specs.Prelude.{◌≡◌, IfOk};
ghost use Rattle.resin_session.specs.Reading as spec;
ghost use Rattle.resin_session.specs.Answers.{Is, KeepsArray};

use crate::entries::read_entry;
use crate::rest::Rest;
use crate::stop::Stop;
use resin_value::Arr;
use resin_value::under::lstr::LText;
use std::alloc::{AllocError, Global};

/// The array that a session text keeps, `None` exactly where the text keeps none: where it isn't, entry by entry,
///
/// - `s` of a text or `i` of an integer, a space, the length of the key, a space, the length of the value, a newline,
/// - the key, the value, a newline;
///
/// lengths in bytes, as decimals without a leading zero, integers as canonical decimals in 64 bits, and each key once. Only the bytes of
/// values may carry labels, and those of an integer all carry the same. A key that is a canonical decimal in 64 bits is an integer key. The
/// next key of the array is one more than its largest integer key. Reading takes time in proportion to the text.
pub fn read_session(alloc: Global, text: &LText) -> Result<Option<Arr>, AllocError>
    ensures kept { IfOk result (λ array. KeepsArray text.now array) }
    ensures read { IfOk result (λ array. array ≡ spec.session text.now) }
{
    let _len = text.len();
    match read_entries(alloc, text) {
        Ok(array) => Ok(Some(array)),
        Err(Stop::Form) => Ok(None),
        Err(Stop::Memory) => Err(AllocError),
    }
}

// The same by all entries.
#[tactic(auto, unfolding(crate::specs::Reading::session))]
fn read_entries(alloc: Global, text: &LText) -> Result<Arr, Stop>
    ensures { Is (spec.session text.now) result }
{
    let mut rest = Rest::new(text);
    let mut array = Arr::new(alloc)?;
    'entries: while !rest.is_empty() {
        array = read_entry(alloc, &mut rest, array)?;
    }
    Ok(array)
}
