//! Bytes as numbers and numbers as bytes.
ghost use Rattle.std.specs.Prelude.{Ok};
ghost use Rattle.resin_escape_fn.specs.Stops.{GivesOrNoMemory};
ghost use Rattle.resin_escape_fn.specs.Characters.{character, first_byte};

use crate::answer::text_answer;
use resin_label::PSet;
use resin_lstr::LText;
use resin_scalar::CallStop;
use std::alloc::Global;

/// The one byte that `n` is modulo 256, with the set `set`; -1 is the byte 255. PHP's function of that name.
pub fn chr(alloc: Global, n: i64, set: &PSet) -> Result<LText, CallStop>
    ensures { GivesOrNoMemory result (Ok (character n set.now)) }
{
    let byte = n.rem_euclid(256) as u8;
    text_answer(LText::with_set(alloc, &[byte], set))
}

/// The first byte as a number, with its set; 0 without policies for the empty text. PHP's function of that name.
pub fn ord(s: &LText) -> Result<(i64, PSet), CallStop>
    ensures { GivesOrNoMemory result (Ok (first_byte s.now)) }
{
    if s.is_empty() {
        return Ok((0, PSet::empty()));
    }
    let set = s.set_at(0).clone()?;
    Ok((i64::from(s.byte_at(0)), set))
}
