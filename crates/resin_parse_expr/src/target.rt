//! Targets, what writes to them, and whole operands.

ghost use Rattle.std.specs.Prelude.{◌≡◌, ◌+◌, ◌<◌, ◌≤◌, [], None, Some, true, false};
ghost use Rattle.resin_grammar.specs.Expressions as spec;
ghost use Rattle.resin_grammar.specs.Names as name;
ghost use Rattle.resin_grammar.specs.Reading.{behind, is_low, under};
ghost use Rattle.resin_form.specs.Meaning.{reading};
ghost use Rattle.resin_form.specs.Reads.{Reads};
ghost use Rattle.resin_parse_part.specs.Nests.{Nests};
ghost use Rattle.resin_grammar.specs.Places.{has_next};

use crate::levels::Levels;
use resin_form::{Cursor, Fault};
use resin_grammar::operators::writing_of;
use resin_grammar::place::{assignment, post_decrement, post_increment};
use resin_grammar::sign::is_sign;
use resin_grammar::tokens::is_postfix;
use resin_grammar::{Operand, Sign, Tall, TallPlace, Writing};
use resin_items::SharedBytes;
use resin_lex::{Token, TokenKind};
use std::alloc::Global;

/// Whether an operand is a target and the token begins a postfix of it.
fn takes_postfix(operand: &Operand, kind: &TokenKind) -> bool
    ensures { result ≡ spec.takes_postfix operand.now kind.now }
{
    match operand {
        Operand::Target(_) => is_postfix(kind),
        Operand::Tree(_) => false,
        Operand::Closed(_) => false,
    }
}

impl<F: Fn(Global, &mut Cursor<'_, Token>, usize, u8) -> Result<Tall, Fault> + Copy> Levels<F> {
    /// What follows `t [` in an operand.
    #[tactic(auto, unfolding(resin_grammar::specs::Expressions::index_of_target))]
    pub fn index_of_target(
        &self,
        tokens: &mut Cursor<'_, Token>,
        mut place: TallPlace,
    ) -> Result<Operand, Fault>
        requires { Nests self.now.parser.depth (F.pre self.now.parser.level) (F.post self.now.parser.level) }
        ensures { Reads (behind self.now.parser.depth (spec.index_of_target place) tokens.old) result tokens.new }
    {
        if !self.parser.opens_at(&place) {
            return Err(Fault::TooDeep);
        }
        match self.parser.in_index_or_next(tokens)? {
            Some(index) => place.push_index(index)?,
            None => place.push_next()?,
        }
        Ok(Operand::Target(place))
    }

    /// What follows `t->m (`.
    #[tactic(auto, unfolding(resin_grammar::specs::Expressions::method_of_target))]
    pub fn method_of_target(
        &self,
        tokens: &mut Cursor<'_, Token>,
        place: TallPlace,
        name: SharedBytes,
    ) -> Result<Operand, Fault>
        requires nests { Nests self.now.parser.depth (F.pre self.now.parser.level) (F.post self.now.parser.level) }
        requires read { has_next place ≡ false }
        ensures { Reads (behind self.now.parser.depth (spec.method_of_target place name) tokens.old) result tokens.new }
    {
        if !self.parser.opens() {
            return Err(Fault::TooDeep);
        }
        let arguments = self.parser.in_call(tokens)?;
        let object = place.into_tall(self.parser.alloc)?;
        Ok(Operand::Tree(Tall::method_call(self.parser.alloc, object, name, arguments)?))
    }

    /// `->p` behind a target.
    #[tactic(auto, unfolding(resin_grammar::specs::Expressions::property_of_target))]
    pub fn property_of_target(
        &self,
        tokens: &mut Cursor<'_, Token>,
        mut place: TallPlace,
        name: SharedBytes,
    ) -> Result<Operand, Fault>
        ensures { Reads (under self.now.parser.depth (spec.property_of_target place name) tokens.old) result tokens.new }
    {
        let _none = &tokens;
        place.push_property(name)?;
        Ok(Operand::Target(place))
    }

    /// What follows `t->m`.
    #[tactic(auto, unfolding(resin_grammar::specs::Expressions::named_of_target, resin_grammar::specs::Expressions::property_of_target))]
    pub fn named_of_target(
        &self,
        tokens: &mut Cursor<'_, Token>,
        place: TallPlace,
        name: SharedBytes,
    ) -> Result<Operand, Fault>
        requires { Nests self.now.parser.depth (F.pre self.now.parser.level) (F.post self.now.parser.level) }
        ensures { Reads (under self.now.parser.depth (spec.named_of_target place name) tokens.old) result tokens.new }
    {
        match tokens.peek() {
            Some(next) if !place.has_next() && is_sign(Sign::LeftRound, &next.kind) => {
                tokens.skip(next);
                self.method_of_target(tokens, place, name)
            }
            _ => self.property_of_target(tokens, place, name),
        }
    }

    /// What follows `t->`.
    #[tactic(auto, unfolding(resin_grammar::specs::Expressions::member_of_target))]
    pub fn member_of_target(
        &self,
        tokens: &mut Cursor<'_, Token>,
        place: TallPlace,
    ) -> Result<Operand, Fault>
        requires { Nests self.now.parser.depth (F.pre self.now.parser.level) (F.post self.now.parser.level) }
        ensures { Reads (behind self.now.parser.depth (spec.member_of_target place) tokens.old) result tokens.new }
    {
        if !self.parser.stands_at(&place) {
            return Err(Fault::TooDeep);
        }
        let name = self.parser.a_name(tokens)?;
        self.named_of_target(tokens, place, name)
    }

    /// What follows the token that begins a postfix of a target.
    #[tactic(auto, unfolding(resin_grammar::specs::Expressions::target_postfix))]
    pub fn target_postfix(
        &self,
        tokens: &mut Cursor<'_, Token>,
        place: TallPlace,
        kind: &TokenKind,
    ) -> Result<Operand, Fault>
        requires { Nests self.now.parser.depth (F.pre self.now.parser.level) (F.post self.now.parser.level) }
        ensures { Reads (behind self.now.parser.depth (spec.target_postfix place kind.now) tokens.old) result tokens.new }
    {
        if is_sign(Sign::LeftSquare, kind) {
            self.index_of_target(tokens, place)
        } else {
            self.member_of_target(tokens, place)
        }
    }

    /// What follows the token that begins a postfix of an operand that is a target.
    pub fn operand_postfix(
        &self,
        tokens: &mut Cursor<'_, Token>,
        operand: Operand,
        kind: &TokenKind,
    ) -> Result<Operand, Fault>
        requires { Nests self.now.parser.depth (F.pre self.now.parser.level) (F.post self.now.parser.level) }
        ensures { Reads (behind self.now.parser.depth (spec.operand_postfix operand kind.now) tokens.old) result tokens.new }
    {
        match operand {
            Operand::Target(place) => self.target_postfix(tokens, place, kind),
            Operand::Tree(tree) => Ok(Operand::Tree(tree)),
            Operand::Closed(tree) => Ok(Operand::Closed(tree)),
        }
    }

    /// Postfixes behind an operand, as long as it is a target.
    pub fn target_postfixes(
        &self,
        tokens: &mut Cursor<'_, Token>,
        first: Operand,
    ) -> Result<Operand, Fault>
        requires { Nests self.now.parser.depth (F.pre self.now.parser.level) (F.post self.now.parser.level) }
        ensures { Reads (under self.now.parser.depth (spec.target_postfixes first) tokens.old) result tokens.new }
    {
        let mut operand = first;
        'turns: while let Some(next) = tokens.peek() {
            if !takes_postfix(&operand, &next.kind) {
                break;
            }
            tokens.skip(next);
            operand = self.operand_postfix(tokens, operand, &next.kind)?;
        }
        Ok(operand)
    }

    /// What follows `t =` and its kin.
    #[tactic(auto, unfolding(resin_grammar::specs::Expressions::assigned))]
    pub fn assigned(
        &self,
        tokens: &mut Cursor<'_, Token>,
        writing: Writing,
        place: TallPlace,
    ) -> Result<Tall, Fault>
        requires { Nests self.now.parser.depth (F.pre self.now.parser.level) (F.post self.now.parser.level) }
        ensures { Reads (behind self.now.parser.depth (spec.assigned writing place) tokens.old) result tokens.new }
    {
        if !self.parser.opens_at(&place) {
            return Err(Fault::TooDeep);
        }
        let value = self.parser.nested(tokens, 14)?;
        Ok(assignment(self.parser.alloc, writing, place, value)?)
    }

    /// What follows `t++`.
    #[tactic(auto, unfolding(resin_grammar::specs::Expressions::incremented))]
    pub fn incremented(
        &self,
        tokens: &mut Cursor<'_, Token>,
        place: TallPlace,
    ) -> Result<Tall, Fault>
        ensures { Reads (behind self.now.parser.depth (spec.incremented place) tokens.old) result tokens.new }
    {
        let _none = &tokens;
        if !self.parser.stands_at(&place) {
            return Err(Fault::TooDeep);
        }
        Ok(post_increment(self.parser.alloc, place)?)
    }

    /// What follows `t--`.
    #[tactic(auto, unfolding(resin_grammar::specs::Expressions::decremented))]
    pub fn decremented(
        &self,
        tokens: &mut Cursor<'_, Token>,
        place: TallPlace,
    ) -> Result<Tall, Fault>
        ensures { Reads (behind self.now.parser.depth (spec.decremented place) tokens.old) result tokens.new }
    {
        let _none = &tokens;
        if !self.parser.stands_at(&place) {
            return Err(Fault::TooDeep);
        }
        Ok(post_decrement(self.parser.alloc, place)?)
    }

    /// What follows a target and an operator that writes to it.
    pub fn written(
        &self,
        tokens: &mut Cursor<'_, Token>,
        writing: Writing,
        place: TallPlace,
    ) -> Result<Tall, Fault>
        requires { Nests self.now.parser.depth (F.pre self.now.parser.level) (F.post self.now.parser.level) }
        ensures { Reads (behind self.now.parser.depth (spec.written (Some writing) place) tokens.old) result tokens.new }
    {
        match writing {
            Writing::Increment => self.incremented(tokens, place),
            Writing::Decrement => self.decremented(tokens, place),
            Writing::Assign => self.assigned(tokens, Writing::Assign, place),
            Writing::Compound(op) => self.assigned(tokens, Writing::Compound(op), place),
            Writing::CoalesceAssign => self.assigned(tokens, Writing::CoalesceAssign, place),
        }
    }

    /// What follows a target that holds `[]`.
    pub fn next_end(&self, tokens: &mut Cursor<'_, Token>, place: TallPlace) -> Result<Tall, Fault>
        requires { Nests self.now.parser.depth (F.pre self.now.parser.level) (F.post self.now.parser.level) }
        ensures { Reads (under self.now.parser.depth (spec.target_end true place) tokens.old) result tokens.new }
    {
        match tokens.peek() {
            Some(next) if is_sign(Sign::Assign, &next.kind) => {
                tokens.skip(next);
                self.assigned(tokens, Writing::Assign, place)
            }
            _ => Err(Fault::Syntax),
        }
    }

    /// A target that is read.
    #[tactic(auto, unfolding(resin_grammar::specs::Expressions::read_target))]
    pub fn read_target(
        &self,
        tokens: &mut Cursor<'_, Token>,
        place: TallPlace,
    ) -> Result<Tall, Fault>
        requires { has_next place ≡ false }
        ensures { Reads (under self.now.parser.depth (spec.read_target place) tokens.old) result tokens.new }
    {
        let _none = &tokens;
        Ok(place.into_tall(self.parser.alloc)?)
    }

    /// What follows another target.
    #[tactic(auto, unfolding(resin_grammar::specs::Expressions::read_target))]
    pub fn plain_end(&self, tokens: &mut Cursor<'_, Token>, place: TallPlace) -> Result<Tall, Fault>
        requires nests { Nests self.now.parser.depth (F.pre self.now.parser.level) (F.post self.now.parser.level) }
        requires read { has_next place ≡ false }
        ensures { Reads (under self.now.parser.depth (spec.target_end false place) tokens.old) result tokens.new }
    {
        match tokens.peek() {
            Some(next) => match writing_of(&next.kind) {
                Some(writing) => {
                    tokens.skip(next);
                    self.written(tokens, writing, place)
                }
                None => self.read_target(tokens, place),
            },
            None => self.read_target(tokens, place),
        }
    }

    /// What follows a target.
    pub fn target_end(
        &self,
        tokens: &mut Cursor<'_, Token>,
        place: TallPlace,
    ) -> Result<Tall, Fault>
        requires { Nests self.now.parser.depth (F.pre self.now.parser.level) (F.post self.now.parser.level) }
        ensures { Reads (under self.now.parser.depth (spec.target_end (has_next place) place) tokens.old) result tokens.new }
    {
        if place.has_next() {
            self.next_end(tokens, place)
        } else {
            self.plain_end(tokens, place)
        }
    }

    /// What follows an operand and the postfixes of its target.
    pub fn operand_end(
        &self,
        tokens: &mut Cursor<'_, Token>,
        operand: Operand,
    ) -> Result<Tall, Fault>
        requires { Nests self.now.parser.depth (F.pre self.now.parser.level) (F.post self.now.parser.level) }
        ensures { Reads (under self.now.parser.depth (spec.operand_end operand) tokens.old) result tokens.new }
    {
        match operand {
            Operand::Target(place) => self.target_end(tokens, place),
            Operand::Tree(tree) => self.parser.postfixes(tokens, tree),
            Operand::Closed(tree) => Ok(tree),
        }
    }

    /// An operand: level 1, and assignments.
    #[tactic(auto, unfolding(resin_grammar::specs::Expressions::operand))]
    pub fn operand(&self, tokens: &mut Cursor<'_, Token>) -> Result<Tall, Fault>
        requires { Nests self.now.parser.depth (F.pre self.now.parser.level) (F.post self.now.parser.level) }
        ensures { Reads (under self.now.parser.depth spec.operand tokens.old) result tokens.new }
    {
        let first = self.any_operand(tokens)?;
        let operand = self.target_postfixes(tokens, first)?;
        self.operand_end(tokens, operand)
    }
}
