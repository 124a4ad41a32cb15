//! Places of a source text, as people count them.

ghost use Rattle.std.specs.Prelude.{◌≡◌, ◌≤◌, ◌+◌, length};
ghost use Rattle.resin_check.specs.Places.{IsPlace, column_behind, next_column};

use resin_lex::line_of;

/// A place of a text.
#[derive(Clone, Copy)]
pub(crate) struct Place {
    /// How many bytes stand before it.
    pub(crate) offset: u32,
    /// Its line, from 1, which LF, CR LF and a lone CR end.
    pub(crate) line: u32,
    /// How many bytes of its line stand before it, and one more.
    pub(crate) column: usize,
}

/// The column behind a byte that stands in a column.
fn next_column(column: usize, byte: u8) -> usize
    requires { column ≤ 16777216 }
    ensures value { result ≡ next_column column byte }
    ensures bound { result ≤ column + 1 }
{
    if byte == b'\n' || byte == b'\r' {
        1
    } else {
        column + 1
    }
}

/// The column behind the front of a text.
fn column_behind(front: &[u8]) -> usize
    requires { length front.now ≤ 16777216 }
    ensures { result ≡ column_behind 1 front.now }
{
    let mut column = 1;
    for byte in front {
        column = next_column(column, *byte);
    }
    column
}

impl Place {
    /// The place of an offset in a text. Behind its end the line and the column are those of the end.
    pub(crate) fn of(text: &[u8], offset: u32) -> Place
        requires { length text.now ≤ 16777216 }
        ensures { IsPlace text.now offset result }
    {
        let within = (offset as usize).min(text.len());
        Place {
            offset,
            line: line_of(text, within as u32),
            column: column_behind(&text[..within]),
        }
    }
}
