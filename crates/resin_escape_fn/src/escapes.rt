//! Texts with each byte escaped. What is written for a byte carries its set.
ghost use Rattle.std.specs.Prelude.{◌≤◌, ◌++◌, codes, length, slice_range};
ghost use Rattle.std.specs.List.{flat_map};
ghost use Rattle.resin_label.specs.Sets.{empty};
ghost use Rattle.resin_lstr.specs.Texts.{carrying};
ghost use Rattle.resin_lstr.specs.Faults.{GivesText};
ghost use Rattle.resin_lstr.specs.Runs.{AreRunsOf, text_of};
ghost use Rattle.resin_escape_fn.specs.Stops.{GivesOrNoMemory, fitting};
ghost use Rattle.resin_escape_fn.specs.Escapes.{escaped, html_entity, slashed, sql_literal, url_escape, raw_url_escape, hex_pair};
ghost use Rattle.resin_escape_fn.specs.Rules.{rule_of};

use crate::answer::text_answer;
use crate::escape::Escape;
use resin_label::PSet;
use resin_lstr::{Builder, LText, Run, TextFault};
use resin_scalar::CallStop;
use std::alloc::Global;

/// The text with `&`, `<`, `>`, `"` and `'` as entities, whose bytes carry the set of the byte. `TextTooLong` comes where it
/// would pass 16,777,216 bytes. PHP's function of that name, with `ENT_QUOTES`; bytes that are no UTF-8 stay.
pub fn htmlspecialchars(alloc: Global, s: &LText) -> Result<LText, CallStop>
    ensures { GivesOrNoMemory result (fitting (escaped html_entity s.now)) }
{
    text_answer(written(alloc, s, Escape::Html))
}

/// The text with a backslash before `'`, `"` and a backslash, and NUL as a backslash and `0`. `TextTooLong` comes where it
/// would pass 16,777,216 bytes. PHP's function of that name.
pub fn addslashes(alloc: Global, s: &LText) -> Result<LText, CallStop>
    ensures { GivesOrNoMemory result (fitting (escaped slashed s.now)) }
{
    text_answer(written(alloc, s, Escape::Slashes))
}

/// The text as an SQL literal: `'` doubled, both with its set, between two `'` without policies. `TextTooLong` comes where
/// it would pass 16,777,216 bytes. A function of this project.
pub fn sql_quote(alloc: Global, s: &LText) -> Result<LText, CallStop>
    ensures { GivesOrNoMemory result (fitting (sql_literal s.now)) }
{
    text_answer(between_quotes(alloc, s))
}

/// The text for a query of a URL: letters, digits, `-`, `_` and `.` stay, a space becomes `+`, other bytes `%` and two
/// upper-case hexadecimal digits. `TextTooLong` comes where it would pass 16,777,216 bytes. PHP's function of that name.
pub fn urlencode(alloc: Global, s: &LText) -> Result<LText, CallStop>
    ensures { GivesOrNoMemory result (fitting (escaped url_escape s.now)) }
{
    text_answer(written(alloc, s, Escape::Url))
}

/// The text for a URL by RFC 3986: letters, digits, `-`, `_`, `.` and `~` stay, other bytes become `%` and two upper-case
/// hexadecimal digits. `TextTooLong` comes where it would pass 16,777,216 bytes. PHP's function of that name.
pub fn rawurlencode(alloc: Global, s: &LText) -> Result<LText, CallStop>
    ensures { GivesOrNoMemory result (fitting (escaped raw_url_escape s.now)) }
{
    text_answer(written(alloc, s, Escape::RawUrl))
}

/// Each byte as two lower-case hexadecimal digits, both with its set. `TextTooLong` comes where the text would pass
/// 16,777,216 bytes. PHP's function of that name.
pub fn bin2hex(alloc: Global, s: &LText) -> Result<LText, CallStop>
    ensures { GivesOrNoMemory result (fitting (escaped hex_pair s.now)) }
{
    text_answer(written(alloc, s, Escape::Hex))
}

// The text as it is written.
fn written(alloc: Global, s: &LText, how: Escape) -> Result<LText, TextFault>
    ensures { GivesText result (escaped (rule_of how) s.now) }
{
    let out = append_written(alloc, Builder::new(alloc), s, how)?;
    Ok(out.finish()?)
}

fn between_quotes(alloc: Global, s: &LText) -> Result<LText, TextFault>
    ensures { GivesText result (sql_literal s.now) }
{
    let out = append_quote(Builder::new(alloc))?;
    let out = append_quote(append_written(alloc, out, s, Escape::Quotes)?)?;
    Ok(out.finish()?)
}

// Puts a quote without policies last.
fn append_quote(out: Builder) -> Result<Builder, TextFault>
    ensures { GivesText result (out ++ carrying empty (codes "'")) }
{
    out.append_bytes(b"'", &PSet::empty())
}

// Puts the text as it is written last.
fn append_written(alloc: Global, out: Builder, s: &LText, how: Escape) -> Result<Builder, TextFault>
    ensures { GivesText result (out ++ escaped (rule_of how) s.now) }
{
    append_runs_written(alloc, out, s.bytes(), s.runs(), how)
}

// Puts the text of these bytes and runs as it is written last.
fn append_runs_written(
    alloc: Global,
    out: Builder,
    bytes: &[u8],
    runs: &[Run],
    how: Escape,
) -> Result<Builder, TextFault>
    requires { AreRunsOf (length bytes.now) runs.now }
    ensures { GivesText result (out ++ escaped (rule_of how) (text_of bytes.now runs.now)) }
{
    let _len = out.len();
    let mut out = out;
    let mut from = 0;
    for run in runs {
        out = append_run_written(alloc, out, bytes, from, run, how)?;
        from = run.end as usize;
    }
    Ok(out)
}

// Puts the bytes of a run that begins at `from` as they are written last.
fn append_run_written(
    alloc: Global,
    out: Builder,
    bytes: &[u8],
    from: usize,
    run: &Run,
    how: Escape,
) -> Result<Builder, TextFault>
    requires ordered { from ≤ run.now.end }
    requires within { run.now.end ≤ length bytes.now }
    ensures { GivesText result
        (out ++ carrying run.now.set (flat_map (rule_of how) (slice_range bytes.now from run.now.end))) }
{
    append_bytes_written(alloc, out, &bytes[from..run.end as usize], &run.set, how)
}

// Puts bytes as they are written last, with the set `set`.
fn append_bytes_written(
    alloc: Global,
    out: Builder,
    bytes: &[u8],
    set: &PSet,
    how: Escape,
) -> Result<Builder, TextFault>
    ensures { GivesText result (out ++ carrying set.now (flat_map (rule_of how) bytes.now)) }
{
    let mut written = Vec::new(alloc);
    how.push_all(&mut written, bytes)?;
    out.append_bytes(&written, set)
}
