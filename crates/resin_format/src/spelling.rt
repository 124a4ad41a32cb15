//! Texts by a format.
ghost use Rattle.std.specs.Prelude.{◌≡◌, ◌<◌, ◌≤◌, ◌++◌, length, slice_range, slice_index_or};
ghost use Rattle.resin_label.specs.Sets.{empty};
ghost use Rattle.resin_lstr.specs.Texts.{sets_of};
ghost use Rattle.resin_lstr.specs.Faults.{GivesText};
ghost use Rattle.resin_escape_fn.specs.Stops.{GivesOrNoMemory};
ghost use Rattle.resin_format.specs.Directives.{directives};
ghost use Rattle.resin_format.specs.Formats.{form_text, args_behind, spelled, formatted};

use crate::args::{FormatArg, FormatArgs};
use crate::form::Form;
use crate::pieces::append_argument;
use crate::places::throw_of;
use crate::walk::{Found, next_form};
use resin_escape_fn::text_answer;
use resin_label::PSet;
use resin_lstr::{Builder, LText, TextFault};
use resin_scalar::CallStop;
use std::alloc::Global;

/// The text that a format spells with its arguments. `%%` is one `%`; a conversion is `%`, `-` or nothing, `0` or nothing, a
/// width up to 16,777,216 or nothing, and `s`, `d` or `x`. `-` fills up to the width with spaces behind the argument, `0`
/// with zeros between the sign and the digits of an integer, and otherwise spaces stand before it. A filling and `%%` have
/// the set of the `%`, and each digit and the sign of an integer have the integer's; `x` writes the 64 bits of an integer.
///
/// Read from the left, the first conversion without an argument throws `ArgumentCountError`, and the first other form behind
/// a `%` `ValueError`. `TextTooLong` comes where nothing is thrown and the text would pass 16,777,216 bytes. Arguments that
/// the format doesn't use are passed over. PHP's function of that name, in this project's profile.
pub fn sprintf(alloc: Global, f: &LText, args: &FormatArgs) -> Result<LText, CallStop>
    ensures { GivesOrNoMemory result (formatted f.now args.now) }
{
    if let Some(kind) = throw_of(f, args.as_slice().len()) {
        return Err(CallStop::Throw(kind));
    }
    text_answer(spell(alloc, f, args))
}

fn spell(alloc: Global, f: &LText, args: &FormatArgs) -> Result<LText, TextFault>
    ensures { GivesText result (spelled (directives f.now) args.now) }
{
    let bytes = f.bytes();
    let len = f.len();
    let mut arguments = args.as_slice();
    let mut out = Builder::new(alloc);
    let mut at = 0;
    while let Some(found) = next_form(bytes, at) {
        out = append_next(alloc, out, f, at, &found, arguments)?;
        arguments = arguments_behind(found.form, arguments);
        at = found.end;
    }
    let out = out.append_part(f, at, len)?;
    Ok(out.finish()?)
}

// Puts the literal bytes before a form last, and what the form writes.
fn append_next(
    alloc: Global,
    out: Builder,
    f: &LText,
    at: usize,
    found: &Found,
    arguments: &[FormatArg],
) -> Result<Builder, TextFault>
    requires ordered { at ≤ found.now.percent }
    requires within { found.now.percent < length f.now }
    ensures { GivesText result
        (out ++ slice_range f.now at found.now.percent
        ++ form_text found.now.form (slice_index_or (sets_of f.now) found.now.percent empty) arguments.now) }
{
    let out = out.append_part(f, at, found.percent)?;
    append_form(alloc, out, found.form, f.set_at(found.percent), arguments)
}

// Puts what a form writes last, whose `%` has the set `mark`.
fn append_form(
    alloc: Global,
    out: Builder,
    form: Form,
    mark: &PSet,
    arguments: &[FormatArg],
) -> Result<Builder, TextFault>
    ensures { GivesText result (out ++ form_text form mark.now arguments.now) }
{
    let _len = out.len();
    match form {
        Form::Percent => out.append_bytes(b"%", mark),
        Form::Convert(conversion) => match arguments {
            [argument, ..] => append_argument(alloc, out, &conversion, mark, argument),
            [] => Ok(out),
        },
        Form::Wrong => Ok(out),
    }
}

// The arguments that are left behind a form.
fn arguments_behind(form: Form, arguments: &[FormatArg]) -> &[FormatArg]
    ensures { result.now ≡ args_behind form arguments.now }
{
    match form {
        Form::Convert(_) => match arguments {
            [_, rest @ ..] => rest,
            [] => arguments,
        },
        Form::Percent | Form::Wrong => arguments,
    }
}
