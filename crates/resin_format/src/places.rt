//! How a format reads its arguments.
ghost use Rattle.std.specs.Prelude.{◌≡◌, IfOk};
ghost use Rattle.resin_format.specs.Directives.{directives, kinds, is_integer_place, thrown};

use crate::form::{Form, Kind};
use crate::walk::next_form;
use resin_bytes::Items;
use resin_lstr::LText;
use resin_scalar::ErrorKind;
use std::alloc::{AllocError, Global};

/// A list of how arguments are read.
pub type Kinds = Items<Kind>;

/// How each argument of a format is read, in their order, up to the format's first wrong form: how many arguments it uses,
/// and which of them are integers. It reads the format once.
pub fn argument_kinds(alloc: Global, format: &LText) -> Result<Kinds, AllocError>
    ensures { IfOk result (λ list. list ≡ kinds (directives format.now)) }
{
    let bytes = format.bytes();
    let _len = format.len();
    let mut list = Kinds::new(alloc);
    let mut at = 0;
    while let Some(found) = next_form(bytes, at) {
        match found.form {
            Form::Percent => {}
            Form::Convert(conversion) => {
                list.push(conversion.kind)?;
            }
            Form::Wrong => {}
        }
        at = found.end;
    }
    Ok(list)
}

/// Whether the argument behind the format with the number `i`, from 0, is read as an integer: by `d` or `x`. It reads the
/// format up to that argument; `argument_kinds` tells this of all arguments at once.
pub fn int_places(format: &LText, i: usize) -> bool
    ensures { result ≡ is_integer_place (directives format.now) i }
{
    let bytes = format.bytes();
    let _len = format.len();
    let mut left = i;
    let mut at = 0;
    while let Some(found) = next_form(bytes, at) {
        match found.form {
            Form::Percent => {}
            Form::Convert(conversion) => {
                if left == 0 {
                    return conversion.kind.is_integer();
                }
                left -= 1;
            }
            Form::Wrong => {}
        }
        at = found.end;
    }
    false
}

// What a format throws that has so many arguments.
pub(crate) fn throw_of(format: &LText, arguments: usize) -> Option<ErrorKind>
    ensures { result ≡ thrown (directives format.now) arguments }
{
    let bytes = format.bytes();
    let _len = format.len();
    let mut left = arguments;
    let mut at = 0;
    while let Some(found) = next_form(bytes, at) {
        match found.form {
            Form::Percent => {}
            Form::Convert(_) => {
                if left == 0 {
                    return Some(ErrorKind::ArgumentCount);
                }
                left -= 1;
            }
            Form::Wrong => return Some(ErrorKind::Value),
        }
        at = found.end;
    }
    None
}
