//! Texts in which others are replaced.
ghost use Rattle.std.specs.Prelude.{◌≡◌, unwrap_or, slice_get, Err};
ghost use Rattle.resin_lstr.specs.Faults.{GivesText};
ghost use Rattle.resin_text_fn.specs.Stops.{GivesCharged, GivesOrNoMemory, fitting};
ghost use Rattle.resin_text_fn.specs.Matches.{replaced};
ghost use Rattle.resin_text_fn.specs.Rows.{str_replace};

use crate::search::matched_parts;
use crate::stop::text_stop;
use resin_lstr::{Builder, LText, TextFault, Texts};
use resin_scalar::{CallStop, Ticks};
use std::alloc::Global;

/// `str_replace`: the text with the matches of each search replaced, one search after the other, by the text at the same place in `with`, by the
/// empty text where there is none. An empty search changes nothing. Each search first costs a tick for each 256 bytes of the text that it takes;
/// `FuelSpent` comes exactly where that is more than what is left, and `TextTooLong` exactly where a search's answer would pass 16,777,216 bytes.
/// Want of memory may come in the place of any answer, and leaves the ticks as they were.
pub fn str_replace(
    alloc: Global,
    searches: &Texts,
    with: &Texts,
    s: &LText,
    ticks: &mut Ticks,
) -> Result<LText, CallStop>
    ensures answer { GivesCharged result ticks.new.left (str_replace searches.now with.now s.now ticks.old.left) }
    ensures kept { result ≡ Err CallStop.Memory → ticks.new.left ≡ ticks.old.left }
{
    let before = ticks.left;
    match replaced_in_turn(alloc, searches.as_slice(), with.as_slice(), s, ticks) {
        Err(CallStop::Memory) => {
            ticks.left = before;
            Err(CallStop::Memory)
        }
        answer => answer,
    }
}

// The same, but for the ticks that want of memory leaves.
fn replaced_in_turn(
    alloc: Global,
    searches: &[LText],
    with: &[LText],
    s: &LText,
    ticks: &mut Ticks,
) -> Result<LText, CallStop>
    ensures { GivesCharged result ticks.new.left (str_replace searches.now with.now s.now ticks.old.left) }
{
    let none = Builder::new(alloc).finish()?;
    let mut text = s.clone()?;
    for (k, search) in searches.iter().enumerate() {
        ticks.spend(text.len() as u64 / 256)?;
        text = search_replaced(alloc, search, entry_at(with, k, &none), &text)?;
    }
    Ok(text)
}

// The text at a place, another one past the end.
fn entry_at<'a>(texts: &'a [LText], k: usize, other: &'a LText) -> &'a LText
    ensures { result.now ≡ unwrap_or (slice_get texts.now k) other.now }
{
    match texts.get(k) {
        Some(text) => text,
        None => other,
    }
}

// One search and its replacement, as the end of a call where it fails.
fn search_replaced(
    alloc: Global,
    search: &LText,
    with: &LText,
    text: &LText,
) -> Result<LText, CallStop>
    ensures { GivesOrNoMemory result (fitting (replaced search.now with.now text.now)) }
{
    replaced(alloc, search, with, text).map_err(text_stop)
}

// The text with another in the place of each match of a search.
fn replaced(alloc: Global, search: &LText, with: &LText, text: &LText) -> Result<LText, TextFault>
    ensures { GivesText result (replaced search.now with.now text.now) }
{
    let _lens = (search.len(), text.len());
    if search.is_empty() {
        return Ok(text.clone()?);
    }
    let parts = matched_parts(alloc, text.bytes(), search.bytes())?;
    text.replace_parts(alloc, &parts, with)
}
