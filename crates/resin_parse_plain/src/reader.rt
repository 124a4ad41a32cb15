//! A place to read from: how deep, on which lines, and the tokens that stand for themselves.

ghost use Rattle.std.specs.Prelude.{◌≡◌, suc, ◌+◌, ◌<◌, IsTrue};
ghost use Rattle.resin_form.specs.Form.{Opens};
ghost use Rattle.resin_form.specs.Meaning.{allows_at};
ghost use Rattle.resin_form.specs.Reading.{Got};
ghost use Rattle.resin_form.specs.Reads.{Reads};
ghost use Rattle.resin_grammar.specs.Places.{target_of};
ghost use Rattle.resin_grammar.specs.Reading.{is_low};
ghost use Rattle.resin_program_grammar.specs.Combine as spec;
ghost use Rattle.resin_program_grammar.specs.Reading.{under};
ghost use Rattle.resin_parse_plain.specs.Lines.{line_in};

use crate::lines::Lines;
use resin_form::{Cursor, Fault};
use resin_grammar::sign::is_sign;
use resin_grammar::tokens::{is_variable, name_of};
use resin_grammar::{Sign, TallPlace};
use resin_lex::{Expr, Name, SharedBytes, Token, TokenKind};
use resin_parse_expr::{read_expression, read_target};
use resin_program_grammar::Word;
use resin_program_grammar::word::is_word;
use std::alloc::Global;

/// What a reader of statements goes by.
#[derive(Clone, Copy)]
pub struct Reader<'l> {
    pub alloc: Global,
    /// How many constructs may still open in one another.
    pub depth: usize,
    pub lines: &'l Lines,
}

impl<'l> Reader<'l> {
    /// Whether a construct may open.
    pub fn opens(&self) -> bool
        ensures is { result ≡ allows_at is_low (suc self.now.depth) Opens 0 }
        ensures room { IsTrue result → 0 < self.now.depth }
    {
        self.depth > 0
    }

    /// The reader inside a construct that opens here.
    pub fn inside(&self) -> Reader<'l>
        requires { 0 < self.now.depth }
        ensures depth { result.depth + 1 ≡ self.now.depth }
        ensures lines { result.lines.now ≡ self.now.lines.now }
    {
        Reader {
            alloc: self.alloc,
            depth: self.depth - 1,
            lines: self.lines,
        }
    }

    /// Passes the next token, which is this one.
    #[tactic(auto, unfolding(resin_program_grammar::specs::Combine::expects))]
    pub fn expect(&self, tokens: &mut Cursor<'_, Token>, sign: Sign) -> Result<(), Fault>
        ensures { Reads (under (line_in self.now.lines.now) self.now.depth (spec.expects sign) tokens.old) result tokens.new }
    {
        match tokens.peek() {
            Some(next) if is_sign(sign, &next.kind) => {
                tokens.skip(next);
                Ok(())
            }
            _ => Err(Fault::Syntax),
        }
    }

    /// Passes the next token, which is this one.
    #[tactic(auto, unfolding(resin_program_grammar::specs::Combine::wants))]
    pub fn want(&self, tokens: &mut Cursor<'_, Token>, word: Word) -> Result<(), Fault>
        ensures { Reads (under (line_in self.now.lines.now) self.now.depth (spec.wants word) tokens.old) result tokens.new }
    {
        match tokens.peek() {
            Some(next) if is_word(word, &next.kind) => {
                tokens.skip(next);
                Ok(())
            }
            _ => Err(Fault::Syntax),
        }
    }

    /// Passes the next token if it is this one.
    #[tactic(auto, unfolding(resin_program_grammar::specs::Combine::eats))]
    pub fn eat(&self, tokens: &mut Cursor<'_, Token>, sign: Sign) -> bool
        ensures { under (line_in self.now.lines.now) self.now.depth (spec.eats sign) tokens.old ≡ Got result tokens.new }
    {
        match tokens.peek() {
            Some(next) if is_sign(sign, &next.kind) => {
                tokens.skip(next);
                true
            }
            _ => false,
        }
    }

    /// A name.
    #[tactic(auto, unfolding(resin_program_grammar::specs::Combine::a_name))]
    pub fn a_name(&self, tokens: &mut Cursor<'_, Token>) -> Result<Name, Fault>
        ensures { Reads (under (line_in self.now.lines.now) self.now.depth spec.a_name tokens.old) result tokens.new }
    {
        let Some(next) = tokens.peek() else {
            return Err(Fault::Syntax);
        };
        match &next.kind {
            TokenKind::Name(name) => {
                tokens.skip(next);
                Ok(name.clone()?)
            }
            _ => Err(Fault::Syntax),
        }
    }

    /// A variable, by its name without the `$`.
    #[tactic(auto, unfolding(resin_program_grammar::specs::Combine::a_variable))]
    pub fn a_variable(&self, tokens: &mut Cursor<'_, Token>) -> Result<SharedBytes, Fault>
        ensures { Reads (under (line_in self.now.lines.now) self.now.depth spec.a_variable tokens.old) result tokens.new }
    {
        match tokens.peek() {
            Some(next) if is_variable(&next.kind) => {
                tokens.skip(next);
                Ok(name_of(self.alloc, &next.kind)?)
            }
            _ => Err(Fault::Syntax),
        }
    }

    /// A whole expression.
    pub fn expression(&self, tokens: &mut Cursor<'_, Token>) -> Result<Expr, Fault>
        ensures { Reads (under (line_in self.now.lines.now) self.now.depth spec.expression tokens.old) result tokens.new }
    {
        let tree = read_expression(self.alloc, tokens, self.depth)?;
        Ok(tree.into_tree().into_inner())
    }

    /// A target: a variable with `[e]` and `->p`.
    pub fn target(&self, tokens: &mut Cursor<'_, Token>) -> Result<TallPlace, Fault>
        ensures { Reads (under (line_in self.now.lines.now) self.now.depth spec.target tokens.old) result tokens.new }
    {
        read_target(self.alloc, tokens, self.depth)
    }

    /// `(` and an expression.
    #[tactic(auto, unfolding(resin_program_grammar::specs::Combine::in_round))]
    pub fn condition(&self, tokens: &mut Cursor<'_, Token>) -> Result<Expr, Fault>
        ensures { Reads (under (line_in self.now.lines.now) self.now.depth spec.condition tokens.old) result tokens.new }
    {
        match tokens.peek() {
            Some(next) if is_sign(Sign::LeftRound, &next.kind) => {
                tokens.skip(next);
                if !self.opens() {
                    return Err(Fault::TooDeep);
                }
                self.inside().expression(tokens)
            }
            _ => Err(Fault::Syntax),
        }
    }
}
