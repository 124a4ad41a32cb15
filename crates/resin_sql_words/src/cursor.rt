//! The bytes that are left, with their offsets.

ghost use Rattle.std.specs.Prelude.{◌≡◌, ◌≤◌, ◌<◌, ◌∷◌, length, Some, MatchOption};
ghost use Rattle.resin_form.specs.Reads.{first};
ghost use Rattle.resin_sql_words.specs.Places.{placed};

use std::marker::Model;

/// A byte and its offset in the text.
#[derive(Clone, Copy, Debug)]
pub struct Placed {
    pub at: usize,
    pub byte: u8,
}

/// A place in a text. Contracts see the bytes from there on, with their offsets.
#[derive(Drop)]
pub struct ByteCursor<'a> {
    all: &'a [u8],
    at: usize,
}

impl<'a> Model for ByteCursor<'a> {
    ghost use Rattle.std.specs.Prelude.{List, drop, ◌≤◌, length};
    ghost use Rattle.resin_sql_words.specs.Places.{placed};
    ghost use Rattle.resin_sql_words.specs.declared.cursor.Placed.{Placed};

    ghost Value = { List Placed };

    ghost view = { λ c. placed c.at (drop c.at c.all.now) };

    ghost invariant = { λ c. c.at ≤ length c.all.now };
}

impl<'a> ByteCursor<'a> {
    /// The place before the first byte.
    pub fn new(all: &'a [u8]) -> ByteCursor<'a>
        ensures { result ≡ placed 0 all.now }
    {
        ByteCursor { all, at: 0 }
    }

    /// How many bytes are left.
    pub fn left(&self) -> usize
        ensures { result ≡ length self.now }
    {
        self.all.len() - self.at
    }

    /// The next byte.
    pub fn peek(&self) -> Option<Placed>
        ensures next { result ≡ first self.now }
        ensures small { MatchOption result (Unit {0}) (λ next. next.at < usize.MAX) }
    {
        match self.all.get(self.at) {
            Some(byte) => Some(Placed {
                at: self.at,
                byte: *byte,
            }),
            None => None,
        }
    }

    /// Passes the next byte.
    pub fn skip(&mut self, next: Placed)
        requires { first self.old ≡ Some next }
        ensures { self.old ≡ next ∷ self.new }
    {
        let _passed = next;
        self.at += 1;
    }
}
