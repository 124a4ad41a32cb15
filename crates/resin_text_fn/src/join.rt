//! Texts that are repeated or joined.
ghost use Rattle.std.specs.Prelude.{◌≡◌, ◌<◌, ◌≤◌, ◌++◌, length};
ghost use Rattle.std.specs.List.{repeat, join_by};
ghost use Rattle.resin_lstr.specs.declared.limits.TheConstants.{LONGEST};
ghost use Rattle.resin_lstr.specs.Faults.{GivesText};
ghost use Rattle.resin_text_fn.specs.Stops.{GivesOrNoMemory};
ghost use Rattle.resin_text_fn.specs.Rows.{str_repeat, cycled, lacking, str_pad, implode};

use crate::stop::text_stop;
use resin_lstr::{Builder, LText, TextFault, Texts};
use resin_scalar::{CallStop, ErrorKind};
use std::alloc::Global;

/// `str_repeat`: the text so many times. `ValueError` is thrown exactly for a negative count; `TextTooLong` comes exactly where the answer would pass
/// 16,777,216 bytes, or want of memory in its place.
pub fn str_repeat(alloc: Global, s: &LText, times: i64) -> Result<LText, CallStop>
    ensures { GivesOrNoMemory result (str_repeat s.now times) }
{
    if times < 0 {
        return Err(CallStop::Throw(ErrorKind::Value));
    }
    repeated(alloc, s, times as usize).map_err(text_stop)
}

// The text so many times, by doubling it.
fn repeated(alloc: Global, s: &LText, times: usize) -> Result<LText, TextFault>
    ensures { GivesText result (repeat times s.now) }
{
    let mut out = Builder::new(alloc);
    let mut block = s.clone()?;
    let mut left = times;
    while left > 1 {
        if left % 2 == 1 {
            out = out.append(&block)?;
        }
        block = block.concat(alloc, &block)?;
        left /= 2;
    }
    if left == 1 {
        out = out.append(&block)?;
    }
    Ok(out.finish()?)
}

/// `str_pad`: the text with `padding`, repeated and cut, at its left (side 0) or right (side 1) so that it is `width` bytes long, unchanged where
/// it has that many. `ValueError` is thrown exactly for an empty padding or another side, also where nothing is added; `TextTooLong` comes
/// exactly where the answer would pass 16,777,216 bytes, or want of memory in its place.
pub fn str_pad(
    alloc: Global,
    s: &LText,
    width: i64,
    padding: &LText,
    side: i64,
) -> Result<LText, CallStop>
    ensures { GivesOrNoMemory result (str_pad s.now width padding.now side) }
{
    if padding.is_empty() {
        return Err(CallStop::Throw(ErrorKind::Value));
    }
    let _len = padding.len();
    let count = lacking(width, s.len());
    match side {
        0 => padded_left(alloc, s, count, padding).map_err(text_stop),
        1 => padded_right(alloc, s, count, padding).map_err(text_stop),
        _ => Err(CallStop::Throw(ErrorKind::Value)),
    }
}

// How many bytes a text of so many lacks to a width.
fn lacking(width: i64, len: usize) -> usize
    requires { len ≤ LONGEST }
    ensures { result ≡ lacking width len }
{
    if width <= len as i64 {
        0
    } else {
        width as usize - len
    }
}

// The text behind so many bytes of padding.
fn padded_left(alloc: Global, s: &LText, count: usize, padding: &LText) -> Result<LText, TextFault>
    requires { 0 < length padding.now }
    ensures { GivesText result (cycled count padding.now ++ s.now) }
{
    cycled(alloc, padding, count)?.concat(alloc, s)
}

// The text before so many bytes of padding.
fn padded_right(alloc: Global, s: &LText, count: usize, padding: &LText) -> Result<LText, TextFault>
    requires { 0 < length padding.now }
    ensures { GivesText result (s.now ++ cycled count padding.now) }
{
    s.concat(alloc, &cycled(alloc, padding, count)?)
}

// The first `len` bytes of a text that is written over and over.
fn cycled(alloc: Global, p: &LText, len: usize) -> Result<LText, TextFault>
    requires { 0 < length p.now }
    ensures { GivesText result (cycled len p.now) }
{
    let whole = repeated(alloc, p, len / p.len())?;
    let out = Builder::new(alloc)
        .append(&whole)?
        .append_part(p, 0, len % p.len())?;
    Ok(out.finish()?)
}

/// `implode`: the texts with `glue` between neighbours. `TextTooLong` comes exactly where the answer would pass 16,777,216 bytes, or want of
/// memory in its place.
pub fn implode(alloc: Global, glue: &LText, texts: &Texts) -> Result<LText, CallStop>
    ensures { GivesOrNoMemory result (implode glue.now texts.now) }
{
    joined(alloc, glue, texts.as_slice()).map_err(text_stop)
}

// The texts with the glue between neighbours.
fn joined(alloc: Global, glue: &LText, texts: &[LText]) -> Result<LText, TextFault>
    ensures { GivesText result (join_by (λ t. t) glue.now texts.now) }
{
    let mut out = Builder::new(alloc);
    let Some((first, others)) = texts.split_first() else {
        return Ok(out.finish()?);
    };
    out = out.append(first)?;
    for text in others {
        out = out.append(glue)?.append(text)?;
    }
    Ok(out.finish()?)
}
