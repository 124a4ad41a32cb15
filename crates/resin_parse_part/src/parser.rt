//! What every part of the parser stands on.

ghost use Rattle.std.specs.Prelude.{◌≡◌, suc, ◌+◌, ◌<◌, ◌&&◌, not, IsTrue};
ghost use Rattle.resin_form.specs.Form.{Opens, Stands};
ghost use Rattle.resin_form.specs.Meaning.{allows_at, reading};
ghost use Rattle.resin_form.specs.Reading.{Got};
ghost use Rattle.resin_form.specs.Reads.{Reads};
ghost use Rattle.resin_grammar.specs.Expressions as spec;
ghost use Rattle.resin_grammar.specs.Heights.{height};
ghost use Rattle.resin_grammar.specs.Names as name;
ghost use Rattle.resin_grammar.specs.Places.{place_height};
ghost use Rattle.resin_grammar.specs.Reading.{is_low, under};
ghost use Rattle.resin_grammar.specs.Signs.{is_sign as is_sign_kind};
ghost use Rattle.resin_parse_part.specs.Nests.{Nests};

use resin_form::{Cursor, Fault};
use resin_grammar::sign::is_sign;
use resin_grammar::tokens::{is_name, name_of};
use resin_grammar::{Sign, Tall, TallPlace};
use resin_items::SharedBytes;
use resin_lex::{Token, TokenKind};
use std::alloc::Global;

/// A parser of expressions where so many constructs may still open in one another.
#[derive(Clone, Copy)]
pub struct Parser<F> {
    pub alloc: Global,
    /// How many constructs may still open in one another.
    pub depth: usize,
    /// Reads an expression of a level, where so many constructs may still open in one another.
    pub level: F,
}

/// Whether a list that is not yet closed goes on with a comma.
pub fn comma_follows(closed: bool, kind: &TokenKind) -> bool
    ensures { result ≡ (not closed && is_sign_kind Sign.Comma kind.now) }
{
    !closed && is_sign(Sign::Comma, kind)
}

impl<F: Fn(Global, &mut Cursor<'_, Token>, usize, u8) -> Result<Tall, Fault> + Copy> Parser<F> {
    /// Whether a construct may open.
    pub fn opens(&self) -> bool
        ensures is { result ≡ allows_at is_low (suc self.now.depth) Opens 0 }
        ensures room { IsTrue result → 0 < self.now.depth }
    {
        self.depth > 0
    }

    /// Whether a construct may open to the right of this tree.
    pub fn opens_after(&self, left: &Tall) -> bool
        ensures is { result ≡ allows_at is_low (suc self.now.depth) Opens (height left.now) }
        ensures room { IsTrue result → 0 < self.now.depth }
    {
        self.depth > 0 && left.is_low()
    }

    /// Whether a construct may open to the right of this target.
    pub fn opens_at(&self, left: &TallPlace) -> bool
        ensures is { result ≡ allows_at is_low (suc self.now.depth) Opens (place_height left.now) }
        ensures room { IsTrue result → 0 < self.now.depth }
    {
        self.depth > 0 && left.is_low()
    }

    /// Whether a token that opens nothing may stand to the right of this tree.
    pub fn stands_after(&self, left: &Tall) -> bool
        ensures { result ≡ allows_at is_low (suc self.now.depth) Stands (height left.now) }
    {
        left.is_low()
    }

    /// Whether a token that opens nothing may stand to the right of this target.
    pub fn stands_at(&self, left: &TallPlace) -> bool
        ensures { result ≡ allows_at is_low (suc self.now.depth) Stands (place_height left.now) }
    {
        left.is_low()
    }

    /// The parser inside a construct that opens here.
    pub fn inside(&self) -> Parser<F>
        requires room { 0 < self.now.depth }
        requires nests { Nests self.now.depth (F.pre self.now.level) (F.post self.now.level) }
        ensures depth { result.depth + 1 ≡ self.now.depth }
        ensures nests { Nests (result.depth + 1) (F.pre result.level) (F.post result.level) }
        ensures fewer { Nests result.depth (F.pre result.level) (F.post result.level) }
    {
        Parser {
            alloc: self.alloc,
            depth: self.depth - 1,
            level: self.level,
        }
    }

    /// An expression of a level to the right of an operator, which opened a construct.
    pub fn nested(&self, tokens: &mut Cursor<'_, Token>, level: u8) -> Result<Tall, Fault>
        requires room { 0 < self.now.depth }
        requires nests { Nests self.now.depth (F.pre self.now.level) (F.post self.now.level) }
        ensures { Reads (reading spec.rules is_low (suc self.now.depth) (name.Level level) tokens.old) result tokens.new }
    {
        (self.level)(self.alloc, tokens, self.depth - 1, level)
    }

    /// A whole expression, in a parser inside a construct.
    #[tactic(auto, unfolding(resin_grammar::specs::Expressions::level))]
    pub fn expression_within(&self, tokens: &mut Cursor<'_, Token>) -> Result<Tall, Fault>
        requires { Nests (self.now.depth + 1) (F.pre self.now.level) (F.post self.now.level) }
        ensures { Reads (under self.now.depth spec.expression tokens.old) result tokens.new }
    {
        (self.level)(self.alloc, tokens, self.depth, 14)
    }

    /// An expression of level 12, in a parser inside a construct.
    #[tactic(auto, unfolding(resin_grammar::specs::Expressions::level))]
    pub fn coalesced_within(&self, tokens: &mut Cursor<'_, Token>) -> Result<Tall, Fault>
        requires { Nests (self.now.depth + 1) (F.pre self.now.level) (F.post self.now.level) }
        ensures { Reads (under self.now.depth spec.coalesced tokens.old) result tokens.new }
    {
        (self.level)(self.alloc, tokens, self.depth, 12)
    }

    /// Passes the next token if it is this one.
    #[tactic(auto, unfolding(resin_grammar::specs::Expressions::eats))]
    pub fn eat(&self, tokens: &mut Cursor<'_, Token>, sign: Sign) -> bool
        ensures { under self.now.depth (spec.eats sign) tokens.old ≡ Got result tokens.new }
    {
        match tokens.peek() {
            Some(next) if is_sign(sign, &next.kind) => {
                tokens.skip(next);
                true
            }
            _ => false,
        }
    }

    /// Passes the next token, which is this one.
    #[tactic(auto, unfolding(resin_grammar::specs::Expressions::expects))]
    pub fn expect(&self, tokens: &mut Cursor<'_, Token>, sign: Sign) -> Result<(), Fault>
        ensures { Reads (under self.now.depth (spec.expects sign) tokens.old) result tokens.new }
    {
        match tokens.peek() {
            Some(next) if is_sign(sign, &next.kind) => {
                tokens.skip(next);
                Ok(())
            }
            _ => Err(Fault::Syntax),
        }
    }

    /// A name.
    #[tactic(auto, unfolding(resin_grammar::specs::Expressions::a_name))]
    pub fn a_name(&self, tokens: &mut Cursor<'_, Token>) -> Result<SharedBytes, Fault>
        ensures { Reads (under self.now.depth spec.a_name tokens.old) result tokens.new }
    {
        match tokens.peek() {
            Some(next) if is_name(&next.kind) => {
                tokens.skip(next);
                Ok(name_of(self.alloc, &next.kind)?)
            }
            _ => Err(Fault::Syntax),
        }
    }
}
