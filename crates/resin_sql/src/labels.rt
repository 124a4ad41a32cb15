//! What literals carry of the text that they were read from.

ghost use Rattle.std.specs.Prelude.{◌≡◌, ◌≤◌, ◌<◌, ◌+◌, ◌⊎◌, true, length, slice_range, IfOk};
ghost use Rattle.resin_lstr.specs.Texts.{Text};
ghost use Rattle.resin_lstr.specs.Faults.{GivesText};
ghost use Rattle.resin_sql.specs.Labels.{begins_doubled, unquoted, labelled, GivesPart};

use resin_lstr::{Builder, LText, TextFault};
use resin_sql_words::{Literal, Span};
use std::alloc::{AllocError, Global};

/// Whether a doubled quote stands at `at`, before `to`.
fn is_doubled(text: &LText, at: usize, to: usize) -> bool
    requires before { at < to }
    requires within { to ≤ length text.now }
    ensures value { result ≡ begins_doubled (slice_range text.now at to) }
    ensures room { result ≡ true → at + 2 ≤ to }
{
    let _len = text.len();
    if at + 1 < to {
        text.byte_at(at) == b'\'' && text.byte_at(at + 1) == b'\''
    } else {
        false
    }
}

/// Puts what stands at `at` between quotes last, and tells what stands behind it.
fn put_next(
    alloc: Global,
    out: Builder,
    text: &LText,
    at: usize,
    to: usize,
) -> Result<(Builder, usize), TextFault>
    requires before { at < to }
    requires within { to ≤ length text.now }
    ensures { GivesPart result out text.now at to }
{
    let _len = text.len();
    if is_doubled(text, at, to) {
        let both = text.set_at(at).union(alloc, text.set_at(at + 1))?;
        let longer = out.append_bytes(b"'", &both)?;
        Ok((longer, at + 2))
    } else {
        let longer = out.append_part(text, at, at + 1)?;
        Ok((longer, at + 1))
    }
}

/// What a text literal means that stands between these offsets.
fn unquote(alloc: Global, text: &LText, from: usize, to: usize) -> Result<LText, TextFault>
    requires ordered { from ≤ to }
    requires within { to ≤ length text.now }
    ensures { GivesText result (unquoted (slice_range text.now from to)) }
{
    let mut out = Builder::new(alloc);
    let mut at = from;
    'parts: while at < to {
        let (longer, next) = put_next(alloc, out, text, at, to)?;
        out = longer;
        at = next;
    }
    let _len = out.len();
    Ok(out.finish()?)
}

fn least(a: usize, b: usize) -> usize
    ensures { ((a ≤ b) × (result ≡ a)) ⊎ ((b < a) × (result ≡ b)) }
{
    if a <= b { a } else { b }
}

/// The same range within a text of this length.
fn clamped(span: Span, len: usize) -> Span
    ensures ordered { result.from ≤ result.to }
    ensures within { result.to ≤ len }
    ensures same { (t : Text) → length t ≡ len → slice_range t span.from span.to ≡ slice_range t result.from result.to }
{
    let to = least(span.to, len);
    let from = least(span.from, to);
    Span { from, to }
}

/// The labelled bytes of a literal in the text that it was read from: those of a text literal without its quotes, a doubled
/// quote as one with the sets of both; those of an integer as they are written, whose sets are to be merged; none of NULL.
pub fn literal_text(alloc: Global, text: &LText, literal: Literal) -> Result<LText, AllocError>
    ensures { IfOk result (λ t. t ≡ labelled text.now literal) }
{
    match literal {
        Literal::Null => Builder::new(alloc).finish(),
        Literal::Integer(_, span) => {
            let place = clamped(span, text.len());
            text.slice(alloc, place.from, place.to)
        }
        Literal::Text(span) => {
            let place = clamped(span, text.len());
            match unquote(alloc, text, place.from, place.to) {
                Ok(found) => Ok(found),
                // Unquoted it is no longer than the text, so memory is all that it can lack.
                Err(_) => Err(AllocError),
            }
        }
    }
}
