//! The levels of operators.

ghost use Rattle.std.specs.Prelude.{◌≡◌, ◌==◌, ◌+◌, ◌<◌, ◌≤◌, [], None, Some};
ghost use Rattle.resin_grammar.specs.Expressions as spec;
ghost use Rattle.resin_grammar.specs.Names as name;
ghost use Rattle.resin_grammar.specs.Operators.{level_of as level_of_kind};
ghost use Rattle.resin_grammar.specs.Reading.{behind, is_low, under};
ghost use Rattle.resin_form.specs.Meaning.{reading};
ghost use Rattle.resin_form.specs.Reads.{Reads};
ghost use Rattle.resin_parse_part.specs.Nests.{Nests};

use resin_form::{Cursor, Fault};
use resin_grammar::operators::{import_of, level_of, operator_of, prefix_of};
use resin_grammar::place::{pre_decrement, pre_increment};
use resin_grammar::sign::is_sign;
use resin_grammar::{Prefix, Sign, Tall};
use resin_lex::{Import, Token, TokenKind, Unary};
use resin_parse_part::Parser;
use std::alloc::Global;

/// A parser of the levels of operators, over one of what stands in brackets and behind operands.
#[derive(Clone, Copy)]
pub struct Levels<F> {
    pub parser: Parser<F>,
}

/// Whether a token is an operator of this level.
fn is_of_level(level: u8, kind: &TokenKind) -> bool
    ensures { result ≡ (level_of_kind kind.now == level) }
{
    level_of(kind) == level
}

impl<F: Fn(Global, &mut Cursor<'_, Token>, usize, u8) -> Result<Tall, Fault> + Copy> Levels<F> {
    /// What follows a sign or a cast.
    #[tactic(auto, unfolding(resin_grammar::specs::Expressions::unary_of))]
    pub fn unary_of(&self, tokens: &mut Cursor<'_, Token>, op: Unary) -> Result<Tall, Fault>
        requires { Nests self.now.parser.depth (F.pre self.now.parser.level) (F.post self.now.parser.level) }
        ensures { Reads (behind self.now.parser.depth (spec.unary_of op) tokens.old) result tokens.new }
    {
        if !self.parser.opens() {
            return Err(Fault::TooDeep);
        }
        let operand = self.parser.nested(tokens, 2)?;
        Ok(Tall::unary(self.parser.alloc, op, operand)?)
    }

    /// What follows `++` before a target.
    #[tactic(auto, unfolding(resin_grammar::specs::Expressions::increment_of))]
    pub fn increment_of(&self, tokens: &mut Cursor<'_, Token>) -> Result<Tall, Fault>
        requires { Nests self.now.parser.depth (F.pre self.now.parser.level) (F.post self.now.parser.level) }
        ensures { Reads (behind self.now.parser.depth spec.increment_of tokens.old) result tokens.new }
    {
        if !self.parser.opens() {
            return Err(Fault::TooDeep);
        }
        let place = self.parser.in_step(tokens)?;
        Ok(pre_increment(self.parser.alloc, place)?)
    }

    /// What follows `--` before a target.
    #[tactic(auto, unfolding(resin_grammar::specs::Expressions::decrement_of))]
    pub fn decrement_of(&self, tokens: &mut Cursor<'_, Token>) -> Result<Tall, Fault>
        requires { Nests self.now.parser.depth (F.pre self.now.parser.level) (F.post self.now.parser.level) }
        ensures { Reads (behind self.now.parser.depth spec.decrement_of tokens.old) result tokens.new }
    {
        if !self.parser.opens() {
            return Err(Fault::TooDeep);
        }
        let place = self.parser.in_step(tokens)?;
        Ok(pre_decrement(self.parser.alloc, place)?)
    }

    /// What follows an operator of level 2.
    pub fn prefixed(&self, tokens: &mut Cursor<'_, Token>, prefix: Prefix) -> Result<Tall, Fault>
        requires { Nests self.now.parser.depth (F.pre self.now.parser.level) (F.post self.now.parser.level) }
        ensures { Reads (behind self.now.parser.depth (spec.prefixed (Some prefix)) tokens.old) result tokens.new }
    {
        match prefix {
            Prefix::Unary(op) => self.unary_of(tokens, op),
            Prefix::Increment => self.increment_of(tokens),
            Prefix::Decrement => self.decrement_of(tokens),
        }
    }

    /// An operator of level 2 with its operand, or nothing.
    #[tactic(auto, unfolding(resin_grammar::specs::Expressions::prefix_form))]
    pub fn prefix_form(&self, tokens: &mut Cursor<'_, Token>) -> Result<Option<Tall>, Fault>
        requires { Nests self.now.parser.depth (F.pre self.now.parser.level) (F.post self.now.parser.level) }
        ensures { Reads (under self.now.parser.depth spec.prefix_form tokens.old) result tokens.new }
    {
        match tokens.peek() {
            Some(next) => match prefix_of(&next.kind) {
                Some(prefix) => {
                    tokens.skip(next);
                    Ok(Some(self.prefixed(tokens, prefix)?))
                }
                None => Ok(None),
            },
            None => Ok(None),
        }
    }

    /// Level 2.
    #[tactic(auto, unfolding(resin_grammar::specs::Expressions::unary))]
    pub fn unary(&self, tokens: &mut Cursor<'_, Token>) -> Result<Tall, Fault>
        requires { Nests self.now.parser.depth (F.pre self.now.parser.level) (F.post self.now.parser.level) }
        ensures { Reads (under self.now.parser.depth spec.unary tokens.old) result tokens.new }
    {
        match self.prefix_form(tokens)? {
            Some(tree) => Ok(tree),
            None => self.operand(tokens),
        }
    }

    /// What follows `e instanceof`.
    #[tactic(auto, unfolding(resin_grammar::specs::Expressions::instance_of))]
    pub fn instance_of(&self, tokens: &mut Cursor<'_, Token>, tree: Tall) -> Result<Tall, Fault>
        ensures { Reads (behind self.now.parser.depth (spec.instance_of tree) tokens.old) result tokens.new }
    {
        if !self.parser.stands_after(&tree) {
            return Err(Fault::TooDeep);
        }
        let class = self.parser.a_name(tokens)?;
        Ok(Tall::instance_of(self.parser.alloc, tree, class)?)
    }

    /// `instanceof C` behind an operand, or nothing.
    #[tactic(auto, unfolding(resin_grammar::specs::Expressions::class_test))]
    pub fn class_test(&self, tokens: &mut Cursor<'_, Token>, tree: Tall) -> Result<Tall, Fault>
        ensures { Reads (under self.now.parser.depth (spec.class_test tree) tokens.old) result tokens.new }
    {
        match tokens.peek() {
            Some(next) if is_sign(Sign::InstanceOf, &next.kind) => {
                tokens.skip(next);
                self.instance_of(tokens, tree)
            }
            _ => Ok(tree),
        }
    }

    /// What follows `!`.
    #[tactic(auto, unfolding(resin_grammar::specs::Expressions::negation))]
    pub fn negation(&self, tokens: &mut Cursor<'_, Token>) -> Result<Tall, Fault>
        requires { Nests self.now.parser.depth (F.pre self.now.parser.level) (F.post self.now.parser.level) }
        ensures { Reads (behind self.now.parser.depth spec.negation tokens.old) result tokens.new }
    {
        if !self.parser.opens() {
            return Err(Fault::TooDeep);
        }
        let operand = self.parser.nested(tokens, 4)?;
        Ok(Tall::unary(self.parser.alloc, Unary::Not, operand)?)
    }

    /// `!` with its operand, or nothing.
    #[tactic(auto, unfolding(resin_grammar::specs::Expressions::not_form))]
    pub fn not_form(&self, tokens: &mut Cursor<'_, Token>) -> Result<Option<Tall>, Fault>
        requires { Nests self.now.parser.depth (F.pre self.now.parser.level) (F.post self.now.parser.level) }
        ensures { Reads (under self.now.parser.depth spec.not_form tokens.old) result tokens.new }
    {
        match tokens.peek() {
            Some(next) if is_sign(Sign::Not, &next.kind) => {
                tokens.skip(next);
                Ok(Some(self.negation(tokens)?))
            }
            _ => Ok(None),
        }
    }

    /// Level 3.
    #[tactic(auto, unfolding(resin_grammar::specs::Expressions::tested))]
    pub fn tested(&self, tokens: &mut Cursor<'_, Token>) -> Result<Tall, Fault>
        requires { Nests self.now.parser.depth (F.pre self.now.parser.level) (F.post self.now.parser.level) }
        ensures { Reads (under self.now.parser.depth spec.tested tokens.old) result tokens.new }
    {
        let tree = self.unary(tokens)?;
        self.class_test(tokens, tree)
    }

    /// Level 4.
    #[tactic(auto, unfolding(resin_grammar::specs::Expressions::negated))]
    pub fn negated(&self, tokens: &mut Cursor<'_, Token>) -> Result<Tall, Fault>
        requires { Nests self.now.parser.depth (F.pre self.now.parser.level) (F.post self.now.parser.level) }
        ensures { Reads (under self.now.parser.depth spec.negated tokens.old) result tokens.new }
    {
        match self.not_form(tokens)? {
            Some(tree) => Ok(tree),
            None => self.tested(tokens),
        }
    }

    /// An operator of a level, and the operand to its right.
    #[tactic(auto, unfolding(resin_grammar::specs::Expressions::joined))]
    pub fn joined(
        &self,
        tokens: &mut Cursor<'_, Token>,
        level: u8,
        left: Tall,
        kind: &TokenKind,
    ) -> Result<Tall, Fault>
        requires nests { Nests self.now.parser.depth (F.pre self.now.parser.level) (F.post self.now.parser.level) }
        requires level { 0 < level }
        ensures { Reads (behind self.now.parser.depth (spec.joined level left kind.now) tokens.old) result tokens.new }
    {
        if !self.parser.opens_after(&left) {
            return Err(Fault::TooDeep);
        }
        let right = self.parser.nested(tokens, level - 1)?;
        Ok(Tall::binary(self.parser.alloc, operator_of(kind), left, right)?)
    }

    /// Operators of a level again and again.
    pub fn chain(
        &self,
        tokens: &mut Cursor<'_, Token>,
        level: u8,
        first: Tall,
    ) -> Result<Tall, Fault>
        requires nests { Nests self.now.parser.depth (F.pre self.now.parser.level) (F.post self.now.parser.level) }
        requires level { 0 < level }
        ensures { Reads (under self.now.parser.depth (spec.chain level first) tokens.old) result tokens.new }
    {
        let mut left = first;
        'turns: while let Some(next) = tokens.peek() {
            if !is_of_level(level, &next.kind) {
                break;
            }
            tokens.skip(next);
            left = self.joined(tokens, level, left, &next.kind)?;
        }
        Ok(left)
    }

    /// One operator of a level, or none.
    #[tactic(auto, unfolding(resin_grammar::specs::Expressions::once))]
    pub fn once(&self, tokens: &mut Cursor<'_, Token>, level: u8, left: Tall) -> Result<Tall, Fault>
        requires nests { Nests self.now.parser.depth (F.pre self.now.parser.level) (F.post self.now.parser.level) }
        requires level { 0 < level }
        ensures { Reads (under self.now.parser.depth (spec.once level left) tokens.old) result tokens.new }
    {
        match tokens.peek() {
            Some(next) if is_of_level(level, &next.kind) => {
                tokens.skip(next);
                self.joined(tokens, level, left, &next.kind)
            }
            _ => Ok(left),
        }
    }

    /// The operators of a level.
    #[tactic(auto, unfolding(resin_grammar::specs::Expressions::operations))]
    pub fn operations(
        &self,
        tokens: &mut Cursor<'_, Token>,
        level: u8,
        left: Tall,
    ) -> Result<Tall, Fault>
        requires nests { Nests self.now.parser.depth (F.pre self.now.parser.level) (F.post self.now.parser.level) }
        requires level { 0 < level }
        ensures { Reads (under self.now.parser.depth (spec.operations level left) tokens.old) result tokens.new }
    {
        if level == 8 || level == 9 {
            self.once(tokens, level, left)
        } else {
            self.chain(tokens, level, left)
        }
    }

    /// Level 4 + count.
    #[tactic(auto, using(crate::proofs::LevelLaws::binaries_step))]
    pub fn binaries(&self, tokens: &mut Cursor<'_, Token>, count: u8) -> Result<Tall, Fault>
        requires nests { Nests self.now.parser.depth (F.pre self.now.parser.level) (F.post self.now.parser.level) }
        requires small { count < 8 }
        ensures { Reads (under self.now.parser.depth (spec.binaries count) tokens.old) result tokens.new }
    {
        if count == 0 {
            return self.negated(tokens);
        }
        let left = self.binaries(tokens, count - 1)?;
        self.operations(tokens, count + 4, left)
    }

    /// What follows `a ??`.
    #[tactic(auto, unfolding(resin_grammar::specs::Expressions::default_of))]
    pub fn default_of(&self, tokens: &mut Cursor<'_, Token>, left: Tall) -> Result<Tall, Fault>
        requires { Nests self.now.parser.depth (F.pre self.now.parser.level) (F.post self.now.parser.level) }
        ensures { Reads (behind self.now.parser.depth (spec.default_of left) tokens.old) result tokens.new }
    {
        if !self.parser.opens_after(&left) {
            return Err(Fault::TooDeep);
        }
        let right = self.parser.nested(tokens, 12)?;
        Ok(Tall::coalesce(self.parser.alloc, left, right)?)
    }

    /// `?? b` behind an operand, or nothing.
    #[tactic(auto, unfolding(resin_grammar::specs::Expressions::defaulted))]
    pub fn defaulted(&self, tokens: &mut Cursor<'_, Token>, left: Tall) -> Result<Tall, Fault>
        requires { Nests self.now.parser.depth (F.pre self.now.parser.level) (F.post self.now.parser.level) }
        ensures { Reads (under self.now.parser.depth (spec.defaulted left) tokens.old) result tokens.new }
    {
        match tokens.peek() {
            Some(next) if is_sign(Sign::Coalesce, &next.kind) => {
                tokens.skip(next);
                self.default_of(tokens, left)
            }
            _ => Ok(left),
        }
    }

    /// Level 12.
    #[tactic(auto, unfolding(resin_grammar::specs::Expressions::coalesced))]
    pub fn coalesced(&self, tokens: &mut Cursor<'_, Token>) -> Result<Tall, Fault>
        requires { Nests self.now.parser.depth (F.pre self.now.parser.level) (F.post self.now.parser.level) }
        ensures { Reads (under self.now.parser.depth spec.coalesced tokens.old) result tokens.new }
    {
        let left = self.binaries(tokens, 7)?;
        self.defaulted(tokens, left)
    }

    /// What follows `c ?`: the tree, and whether it may be the test of another `?:`.
    #[tactic(auto, unfolding(resin_grammar::specs::Expressions::branches))]
    pub fn branches(
        &self,
        tokens: &mut Cursor<'_, Token>,
        test: Tall,
    ) -> Result<(Tall, bool), Fault>
        requires { Nests self.now.parser.depth (F.pre self.now.parser.level) (F.post self.now.parser.level) }
        ensures { Reads (behind self.now.parser.depth (spec.branches test) tokens.old) result tokens.new }
    {
        if !self.parser.opens_after(&test) {
            return Err(Fault::TooDeep);
        }
        let (value, other) = self.parser.in_choice(tokens)?;
        match value {
            Some(value) => Ok((Tall::choice(self.parser.alloc, test, value, other)?, false)),
            None => Ok((Tall::either(self.parser.alloc, test, other)?, true)),
        }
    }

    /// A choice, or nothing.
    #[tactic(auto, unfolding(resin_grammar::specs::Expressions::first_choice))]
    pub fn first_choice(
        &self,
        tokens: &mut Cursor<'_, Token>,
        test: Tall,
    ) -> Result<(Tall, bool), Fault>
        requires { Nests self.now.parser.depth (F.pre self.now.parser.level) (F.post self.now.parser.level) }
        ensures { Reads (under self.now.parser.depth (spec.first_choice test) tokens.old) result tokens.new }
    {
        match tokens.peek() {
            Some(next) if is_sign(Sign::Question, &next.kind) => {
                tokens.skip(next);
                self.branches(tokens, test)
            }
            _ => Ok((test, false)),
        }
    }

    /// What follows `c ?` where only `: b` may stand.
    #[tactic(auto, unfolding(resin_grammar::specs::Expressions::otherwise))]
    pub fn otherwise(&self, tokens: &mut Cursor<'_, Token>, test: Tall) -> Result<Tall, Fault>
        requires { Nests self.now.parser.depth (F.pre self.now.parser.level) (F.post self.now.parser.level) }
        ensures { Reads (behind self.now.parser.depth (spec.otherwise test) tokens.old) result tokens.new }
    {
        if !self.parser.opens_after(&test) {
            return Err(Fault::TooDeep);
        }
        let other = self.parser.in_otherwise(tokens)?;
        Ok(Tall::either(self.parser.alloc, test, other)?)
    }

    /// `?: b` again and again.
    pub fn shorts(&self, tokens: &mut Cursor<'_, Token>, first: Tall) -> Result<Tall, Fault>
        requires { Nests self.now.parser.depth (F.pre self.now.parser.level) (F.post self.now.parser.level) }
        ensures { Reads (under self.now.parser.depth (spec.shorts first) tokens.old) result tokens.new }
    {
        let mut test = first;
        'turns: while let Some(next) = tokens.peek() {
            if !is_sign(Sign::Question, &next.kind) {
                break;
            }
            tokens.skip(next);
            test = self.otherwise(tokens, test)?;
        }
        Ok(test)
    }

    /// What follows an expression of level 12.
    #[tactic(auto, unfolding(resin_grammar::specs::Expressions::choice))]
    pub fn choice(&self, tokens: &mut Cursor<'_, Token>, test: Tall) -> Result<Tall, Fault>
        requires { Nests self.now.parser.depth (F.pre self.now.parser.level) (F.post self.now.parser.level) }
        ensures { Reads (under self.now.parser.depth (spec.choice test) tokens.old) result tokens.new }
    {
        let (tree, goes_on) = self.first_choice(tokens, test)?;
        if goes_on {
            self.shorts(tokens, tree)
        } else {
            Ok(tree)
        }
    }

    /// Level 13.
    #[tactic(auto, unfolding(resin_grammar::specs::Expressions::chosen))]
    pub fn chosen(&self, tokens: &mut Cursor<'_, Token>) -> Result<Tall, Fault>
        requires { Nests self.now.parser.depth (F.pre self.now.parser.level) (F.post self.now.parser.level) }
        ensures { Reads (under self.now.parser.depth spec.chosen tokens.old) result tokens.new }
    {
        let test = self.coalesced(tokens)?;
        self.choice(tokens, test)
    }

    /// What follows `include` and its kin.
    #[tactic(auto, unfolding(resin_grammar::specs::Expressions::imported))]
    pub fn imported(&self, tokens: &mut Cursor<'_, Token>, kind: Import) -> Result<Tall, Fault>
        requires { Nests self.now.parser.depth (F.pre self.now.parser.level) (F.post self.now.parser.level) }
        ensures { Reads (behind self.now.parser.depth (spec.imported (Some kind)) tokens.old) result tokens.new }
    {
        if !self.parser.opens() {
            return Err(Fault::TooDeep);
        }
        let operand = self.parser.nested(tokens, 14)?;
        Ok(Tall::import(self.parser.alloc, kind, operand)?)
    }

    /// `include` and its kin with the operand, or nothing.
    #[tactic(auto, unfolding(resin_grammar::specs::Expressions::import_form))]
    pub fn import_form(&self, tokens: &mut Cursor<'_, Token>) -> Result<Option<Tall>, Fault>
        requires { Nests self.now.parser.depth (F.pre self.now.parser.level) (F.post self.now.parser.level) }
        ensures { Reads (under self.now.parser.depth spec.import_form tokens.old) result tokens.new }
    {
        match tokens.peek() {
            Some(next) => match import_of(&next.kind) {
                Some(kind) => {
                    tokens.skip(next);
                    Ok(Some(self.imported(tokens, kind)?))
                }
                None => Ok(None),
            },
            None => Ok(None),
        }
    }

    /// Level 14: a whole expression.
    #[tactic(auto, unfolding(resin_grammar::specs::Expressions::expression))]
    pub fn expression(&self, tokens: &mut Cursor<'_, Token>) -> Result<Tall, Fault>
        requires { Nests self.now.parser.depth (F.pre self.now.parser.level) (F.post self.now.parser.level) }
        ensures { Reads (under self.now.parser.depth spec.expression tokens.old) result tokens.new }
    {
        match self.import_form(tokens)? {
            Some(tree) => Ok(tree),
            None => self.chosen(tokens),
        }
    }

    /// An expression of level 2, or of one from 4 on.
    #[tactic(auto, unfolding(resin_grammar::specs::Expressions::level))]
    pub fn any_level(&self, tokens: &mut Cursor<'_, Token>, level: u8) -> Result<Tall, Fault>
        requires { Nests self.now.parser.depth (F.pre self.now.parser.level) (F.post self.now.parser.level) }
        ensures { Reads (under self.now.parser.depth (spec.level level) tokens.old) result tokens.new }
    {
        if level <= 2 {
            self.unary(tokens)
        } else if level <= 11 {
            self.binaries(tokens, level.saturating_sub(4))
        } else if level <= 12 {
            self.coalesced(tokens)
        } else {
            self.expression(tokens)
        }
    }
}
