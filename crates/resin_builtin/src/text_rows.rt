//! The functions of texts.
ghost use Rattle.resin_array_fn.specs.Under.value.Seen.{trees_of};
ghost use Rattle.resin_array_fn.specs.Under.ops.Places.{seen_answer};
ghost use Rattle.resin_array_fn.specs.Under.text_fn.Stops.{GivesOrNoMemory};
ghost use Rattle.resin_builtin.specs.Arguments.{text_at};
ghost use Rattle.resin_array_fn.specs.Filled.{and_then};
ghost use Rattle.std.specs.Prelude.{◌≡◌, Ok, IfOk};
ghost use Rattle.resin_format.specs.Under.label.Sets.{empty};
ghost use Rattle.resin_format.specs.Under.lstr.Texts.{carrying};
ghost use Rattle.resin_builtin.specs.Rows.{trimmed, one_text_row, digest_row, two_text_row, trim_row};
ghost use Rattle.resin_builtin.specs.Rows.{substr_row, strpos_row, str_repeat_row, implode_row, str_pad_row};

use crate::answers::{array_value, bool_value, number_value, place_value, text_value};
use crate::arguments::{array_at, count_at, number_at, number_or, text_at, text_or};
use crate::builtin::{Digest, OneText, TrimSide, TwoTexts};
use resin_array_fn::under::text_fn::{
    explode, implode, ltrim, rtrim, str_contains, str_ends_with, str_pad, str_repeat,
    str_starts_with, strcmp, strlen, strpos, strrev, strrpos, strtolower, strtoupper, substr,
    substr_count, trim, ucfirst,
};
use resin_array_fn::under::value::Value;
use resin_array_fn::{list_of_texts, texts_in};
use resin_format::under::escape_fn::{
    addslashes, bin2hex, htmlspecialchars, md5, nl2br, ord, rawurlencode, sha1, sql_quote,
    urlencode,
};
use resin_format::under::label::PSet;
use resin_format::under::lstr::LText;
use resin_format::under::scalar::CallStop;
use std::alloc::{AllocError, Global};

// A function of one text.
pub(crate) fn one_text_row(alloc: Global, row: OneText, s: &LText) -> Result<Value, CallStop>
    ensures { GivesOrNoMemory (seen_answer result) (one_text_row row s.now) }
{
    match row {
        OneText::Length => number_value(strlen(s)),
        OneText::UpperCase => text_value(strtoupper(alloc, s)),
        OneText::LowerCase => text_value(strtolower(alloc, s)),
        OneText::UpperFirst => text_value(ucfirst(alloc, s)),
        OneText::Reversed => text_value(strrev(alloc, s)),
        OneText::HtmlEscaped => text_value(htmlspecialchars(alloc, s)),
        OneText::Slashed => text_value(addslashes(alloc, s)),
        OneText::SqlQuoted => text_value(sql_quote(alloc, s)),
        OneText::UrlEncoded => text_value(urlencode(alloc, s)),
        OneText::RawUrlEncoded => text_value(rawurlencode(alloc, s)),
        OneText::WithBreaks => text_value(nl2br(alloc, s)),
        OneText::Hexadecimal => text_value(bin2hex(alloc, s)),
        OneText::FirstByte => first_byte(s),
        OneText::Itself => Ok(Value::Text(s.clone()?)),
    }
}

fn first_byte(s: &LText) -> Result<Value, CallStop>
    ensures { GivesOrNoMemory (seen_answer result) (one_text_row OneText.FirstByte s.now) }
{
    let (n, set) = ord(s)?;
    Ok(Value::Int(n, set))
}

// A digest of one text, whose answer carries `set`.
pub(crate) fn digest_row(
    alloc: Global,
    row: Digest,
    s: &LText,
    set: &PSet,
) -> Result<Value, CallStop>
    ensures { GivesOrNoMemory (seen_answer result) (Ok (digest_row row s.now set.now)) }
{
    match row {
        Digest::Md5 => text_value(md5(alloc, s, set)),
        Digest::Sha1 => text_value(sha1(alloc, s, set)),
    }
}

// A function of two texts.
pub(crate) fn two_text_row(
    alloc: Global,
    row: TwoTexts,
    a: &LText,
    b: &LText,
) -> Result<Value, CallStop>
    ensures { GivesOrNoMemory (seen_answer result) (two_text_row row a.now b.now) }
{
    match row {
        TwoTexts::LastPlace => place_value(strrpos(a, b)),
        TwoTexts::Contains => bool_value(str_contains(a, b)),
        TwoTexts::StartsWith => bool_value(str_starts_with(a, b)),
        TwoTexts::EndsWith => bool_value(str_ends_with(a, b)),
        TwoTexts::MatchCount => number_value(substr_count(a, b)),
        TwoTexts::Order => number_value(strcmp(a, b)),
        TwoTexts::Explode => explode_row(alloc, a, b),
    }
}

fn explode_row(alloc: Global, separator: &LText, s: &LText) -> Result<Value, CallStop>
    ensures { GivesOrNoMemory (seen_answer result) (two_text_row TwoTexts.Explode separator.now s.now) }
{
    let pieces = explode(alloc, separator, s)?;
    array_value(list_of_texts(alloc, &pieces))
}

// A short text without labels.
fn plain(alloc: Global, bytes: &[u8]) -> Result<LText, AllocError>
    ensures { IfOk result (λ text. text ≡ carrying empty bytes.now) }
{
    match LText::plain(alloc, bytes) {
        Ok(text) => Ok(text),
        // Those that are left out are far from too long.
        Err(_) => Err(AllocError),
    }
}

pub(crate) fn trim_row(alloc: Global, side: TrimSide, args: &[Value]) -> Result<Value, CallStop>
    ensures { GivesOrNoMemory (seen_answer result) (trim_row side (trees_of args.now)) }
{
    let blanks = plain(alloc, b" \n\r\t\x0b\0")?;
    let s = text_at(args, 0)?;
    let chars = text_or(args, 1, &blanks)?;
    text_value(trimmed(alloc, side, s, chars))
}

fn trimmed(alloc: Global, side: TrimSide, s: &LText, chars: &LText) -> Result<LText, CallStop>
    ensures { GivesOrNoMemory result (Ok (trimmed side s.now chars.now)) }
{
    match side {
        TrimSide::Both => trim(alloc, s, chars),
        TrimSide::Front => ltrim(alloc, s, chars),
        TrimSide::Back => rtrim(alloc, s, chars),
    }
}

pub(crate) fn substr_row(alloc: Global, args: &[Value]) -> Result<Value, CallStop>
    ensures { GivesOrNoMemory (seen_answer result) (substr_row (trees_of args.now)) }
{
    let s = text_at(args, 0)?;
    let offset = number_at(args, 1)?;
    let count = count_at(args, 2)?;
    text_value(substr(alloc, s, offset, count))
}

pub(crate) fn strpos_row(args: &[Value]) -> Result<Value, CallStop>
    ensures { GivesOrNoMemory (seen_answer result) (strpos_row (trees_of args.now)) }
{
    let haystack = text_at(args, 0)?;
    let needle = text_at(args, 1)?;
    let offset = number_or(args, 2, 0)?;
    place_value(strpos(haystack, needle, offset))
}

pub(crate) fn str_repeat_row(alloc: Global, args: &[Value]) -> Result<Value, CallStop>
    ensures { GivesOrNoMemory (seen_answer result) (str_repeat_row (trees_of args.now)) }
{
    let s = text_at(args, 0)?;
    let times = number_at(args, 1)?;
    text_value(str_repeat(alloc, s, times))
}

pub(crate) fn implode_row(alloc: Global, args: &[Value]) -> Result<Value, CallStop>
    ensures { GivesOrNoMemory (seen_answer result) (implode_row (trees_of args.now)) }
{
    let glue = text_at(args, 0)?;
    let array = array_at(args, 1)?;
    let parts = texts_in(alloc, array)?;
    text_value(implode(alloc, glue, &parts))
}

pub(crate) fn str_pad_row(alloc: Global, args: &[Value]) -> Result<Value, CallStop>
    ensures { GivesOrNoMemory (seen_answer result) (str_pad_row (trees_of args.now)) }
{
    let space = plain(alloc, b" ")?;
    let s = text_at(args, 0)?;
    let width = number_at(args, 1)?;
    let padding = text_or(args, 2, &space)?;
    let side = number_or(args, 3, 1)?;
    text_value(str_pad(alloc, s, width, padding, side))
}
