//! The tokens that are left.

ghost use Rattle.std.specs.Prelude.{◌≡◌, ◌≤◌, ◌∷◌, drop, length, Some};
ghost use Rattle.std.specs.Option.{option_copied};
ghost use Rattle.resin_form.specs.Reads.{first};

use std::marker::Model;

/// A place in a list of tokens. Contracts see the tokens from there on.
#[derive(Drop)]
pub struct Cursor<'a, T> {
    all: &'a [T],
    at: usize,
}

impl<'a, T> Model for Cursor<'a, T> {
    ghost use Rattle.std.specs.Prelude.{List, drop, ◌≤◌, length};

    ghost Value = { List T };

    ghost view = { λ c. drop c.at c.all.now };

    ghost invariant = { λ c. c.at ≤ length c.all.now };
}

impl<'a, T> Cursor<'a, T> {
    /// The place before the first token.
    pub fn new(all: &'a [T]) -> Cursor<'a, T>
        ensures { result ≡ all.now }
    {
        Cursor { all, at: 0 }
    }

    /// The place before the token of this index, or the end.
    pub fn from_index(all: &'a [T], at: usize) -> Cursor<'a, T>
        requires { at ≤ length all.now }
        ensures { result ≡ drop at all.now }
    {
        Cursor { all, at }
    }

    /// How many tokens are left.
    pub fn left(&self) -> usize
        ensures { result ≡ length self.now }
    {
        self.all.len() - self.at
    }

    /// The next token.
    pub fn peek(&self) -> Option<&'a T>
        ensures { option_copied result ≡ first self.now }
    {
        self.all.get(self.at)
    }

    /// Passes the next token.
    pub fn skip(&mut self, next: &T)
        requires { first self.old ≡ Some next.now }
        ensures { self.old ≡ next.now ∷ self.new }
    {
        let _passed = next;
        self.at += 1;
    }
}
