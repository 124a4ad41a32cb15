//! Going from form to form.
ghost use Rattle.std.specs.Prelude.{◌≡◌, ◌<◌, ◌≤◌, length, drop, position, MatchOption, None, IfSome};
ghost use Rattle.resin_format.specs.Directives.{is_percent};
ghost use Rattle.resin_format.specs.Found.{IsFirstForm};

use crate::form::{Form, read_form};

/// A `%`, what it begins, and the place behind that.
#[derive(Clone, Copy)]
pub(crate) struct Found {
    pub(crate) percent: usize,
    pub(crate) form: Form,
    pub(crate) end: usize,
}

// The first `%` from a place on.
pub(crate) fn next_form(bytes: &[u8], at: usize) -> Option<Found>
    requires { at ≤ length bytes.now }
    ensures { MatchOption result (position is_percent (drop at bytes.now) ≡ None) (IsFirstForm bytes.now at) }
{
    let skipped = percent_in(&bytes[at..])?;
    let percent = at + skipped;
    let (form, len) = read_form(&bytes[percent + 1..]);
    Some(Found {
        percent,
        form,
        end: percent + 1 + len,
    })
}

fn percent_in(bytes: &[u8]) -> Option<usize>
    ensures place { result ≡ position is_percent bytes.now }
    ensures within { IfSome result (λ k. k < length bytes.now) }
{
    bytes.iter().position(|b| *b == b'%')
}
