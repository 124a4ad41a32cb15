//! Targets that stand alone.

ghost use Rattle.std.specs.Prelude.{◌≡◌, ◌+◌, ◌<◌, ◌≤◌, [], None, Some};
ghost use Rattle.resin_grammar.specs.Expressions as spec;
ghost use Rattle.resin_grammar.specs.Reading.{behind, under};
ghost use Rattle.resin_form.specs.Reads.{Reads};
ghost use Rattle.resin_parse_part.specs.Nests.{Nests};

use crate::parser::Parser;
use resin_form::{Cursor, Fault};
use resin_grammar::sign::is_sign;
use resin_grammar::tokens::{is_postfix, is_variable, name_of};
use resin_grammar::{Sign, Tall, TallPlace};
use resin_lex::{Token, TokenKind};
use std::alloc::Global;

impl<F: Fn(Global, &mut Cursor<'_, Token>, usize, u8) -> Result<Tall, Fault> + Copy> Parser<F> {
    /// What follows `t [` where only `[e]` may stand.
    #[tactic(auto, unfolding(resin_grammar::specs::Expressions::step_index))]
    pub fn step_index(
        &self,
        tokens: &mut Cursor<'_, Token>,
        mut place: TallPlace,
    ) -> Result<TallPlace, Fault>
        requires { Nests self.now.depth (F.pre self.now.level) (F.post self.now.level) }
        ensures { Reads (behind self.now.depth (spec.step_index place) tokens.old) result tokens.new }
    {
        if !self.opens_at(&place) {
            return Err(Fault::TooDeep);
        }
        let index = self.in_index(tokens)?;
        place.push_index(index)?;
        Ok(place)
    }

    /// What follows `t->` where only `->p` may stand.
    #[tactic(auto, unfolding(resin_grammar::specs::Expressions::step_property))]
    pub fn step_property(
        &self,
        tokens: &mut Cursor<'_, Token>,
        mut place: TallPlace,
    ) -> Result<TallPlace, Fault>
        ensures { Reads (behind self.now.depth (spec.step_property place) tokens.old) result tokens.new }
    {
        if !self.stands_at(&place) {
            return Err(Fault::TooDeep);
        }
        let name = self.a_name(tokens)?;
        place.push_property(name)?;
        Ok(place)
    }

    /// What follows the token that begins a postfix of a target that stands alone.
    #[tactic(auto, unfolding(resin_grammar::specs::Expressions::step))]
    pub fn step(
        &self,
        tokens: &mut Cursor<'_, Token>,
        place: TallPlace,
        kind: &TokenKind,
    ) -> Result<TallPlace, Fault>
        requires { Nests self.now.depth (F.pre self.now.level) (F.post self.now.level) }
        ensures { Reads (behind self.now.depth (spec.step place kind.now) tokens.old) result tokens.new }
    {
        if is_sign(Sign::LeftSquare, kind) {
            self.step_index(tokens, place)
        } else {
            self.step_property(tokens, place)
        }
    }

    /// The postfixes of a target that stands alone.
    pub fn steps(
        &self,
        tokens: &mut Cursor<'_, Token>,
        first: TallPlace,
    ) -> Result<TallPlace, Fault>
        requires { Nests self.now.depth (F.pre self.now.level) (F.post self.now.level) }
        ensures { Reads (under self.now.depth (spec.steps first) tokens.old) result tokens.new }
    {
        let mut place = first;
        'turns: while let Some(next) = tokens.peek() {
            if !is_postfix(&next.kind) {
                break;
            }
            tokens.skip(next);
            place = self.step(tokens, place, &next.kind)?;
        }
        Ok(place)
    }

    /// A target that stands alone: a variable with `[e]` and `->p`.
    #[tactic(auto, unfolding(resin_grammar::specs::Expressions::target))]
    pub fn target(&self, tokens: &mut Cursor<'_, Token>) -> Result<TallPlace, Fault>
        requires { Nests self.now.depth (F.pre self.now.level) (F.post self.now.level) }
        ensures { Reads (under self.now.depth spec.target tokens.old) result tokens.new }
    {
        match tokens.peek() {
            Some(next) if is_variable(&next.kind) => {
                tokens.skip(next);
                let place = TallPlace::new(self.alloc, name_of(self.alloc, &next.kind)?);
                self.steps(tokens, place)
            }
            _ => Err(Fault::Syntax),
        }
    }
}
