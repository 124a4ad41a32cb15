//! Arguments as conversions write them.
ghost use Rattle.std.specs.Prelude.{◌≡◌, ◌≤◌, ◌-◌, ◌++◌, length, replicate, IfOk, string_bytes};
ghost use Rattle.std.specs.Fmt.{sign_text};
ghost use Rattle.resin_lstr.specs.Texts.{carrying};
ghost use Rattle.resin_lstr.specs.Faults.{GivesText};
ghost use Rattle.resin_format.specs.Arguments.{digits_of, sign_of, filled, written};

use crate::args::FormatArg;
use crate::form::{Conversion, Kind};
use resin_label::PSet;
use resin_lstr::{Builder, LText, TextFault};
use std::alloc::{AllocError, Global};

// Puts an argument last as a conversion writes it, whose `%` has the set `mark`.
pub(crate) fn append_argument(
    alloc: Global,
    out: Builder,
    conversion: &Conversion,
    mark: &PSet,
    argument: &FormatArg,
) -> Result<Builder, TextFault>
    ensures { GivesText result (out ++ written conversion.now mark.now argument.now) }
{
    match argument {
        FormatArg::Int(n, set) => {
            let sign = LText::with_set(alloc, sign(conversion.kind, *n), set)?;
            let digits = digits(alloc, conversion.kind, *n)?;
            let body = LText::with_set(alloc, digits.as_bytes(), set)?;
            append_filled(alloc, out, conversion, mark, &sign, &body)
        }
        FormatArg::Text(text) => {
            let sign = LText::plain(alloc, b"")?;
            append_filled(alloc, out, conversion, mark, &sign, text)
        }
    }
}

// Puts a sign and what stands behind it last, at the width of a conversion.
fn append_filled(
    alloc: Global,
    out: Builder,
    conversion: &Conversion,
    mark: &PSet,
    sign: &LText,
    body: &LText,
) -> Result<Builder, TextFault>
    ensures { GivesText result (out ++ filled conversion.now mark.now sign.now body.now) }
{
    let missing = (conversion.width as usize).saturating_sub(sign.len() + body.len());
    if conversion.left {
        let out = out.append(sign)?.append(body)?;
        append_filling(alloc, out, b' ', missing, mark)
    } else if conversion.zeros && conversion.kind.is_integer() {
        let out = append_filling(alloc, out.append(sign)?, b'0', missing, mark)?;
        out.append(body)
    } else {
        let out = append_filling(alloc, out, b' ', missing, mark)?;
        out.append(sign)?.append(body)
    }
}

// Puts a byte last so many times.
fn append_filling(
    alloc: Global,
    out: Builder,
    byte: u8,
    count: usize,
    set: &PSet,
) -> Result<Builder, TextFault>
    ensures { GivesText result (out ++ carrying set.now (replicate count byte)) }
{
    let filling = vec![in alloc; byte; count]?;
    out.append_bytes(&filling, set)
}

fn sign(kind: Kind, n: i64) -> &'static [u8]
    ensures { result.now ≡ sign_of kind n }
{
    if kind == Kind::Decimal && n < 0 {
        b"-"
    } else {
        b""
    }
}

fn digits(alloc: Global, kind: Kind, n: i64) -> Result<String, AllocError>
    ensures { IfOk result (λ text. string_bytes text ≡ digits_of kind n) }
{
    match kind {
        Kind::Text => format!(in alloc; "{n}"),
        Kind::Decimal => {
            let magnitude = n.unsigned_abs();
            format!(in alloc; "{magnitude}")
        }
        Kind::Hexadecimal => {
            let bits = n.cast_unsigned();
            format!(in alloc; "{bits:x}")
        }
    }
}
