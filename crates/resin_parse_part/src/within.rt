//! What stands in brackets, read where they are open.

ghost use Rattle.std.specs.Prelude.{◌≡◌, ◌+◌, ◌<◌, ◌≤◌, [], None, Some};
ghost use Rattle.resin_grammar.specs.Expressions as spec;
ghost use Rattle.resin_grammar.specs.Names as name;
ghost use Rattle.resin_grammar.specs.Reading.{behind, is_low, under};
ghost use Rattle.resin_form.specs.Meaning.{reading};
ghost use Rattle.resin_form.specs.Reads.{Reads};
ghost use Rattle.resin_parse_part.specs.Nests.{Nests};

use crate::parser::{Parser, comma_follows};
use resin_form::{Cursor, Fault};
use resin_grammar::sign::is_sign;
use resin_grammar::{Pairs, Sign, Tall, Trees};
use resin_lex::Token;
use std::alloc::Global;

impl<F: Fn(Global, &mut Cursor<'_, Token>, usize, u8) -> Result<Tall, Fault> + Copy> Parser<F> {
    /// A whole expression and then this bracket.
    #[tactic(auto, unfolding(resin_grammar::specs::Expressions::closed_by))]
    pub fn closed_by(&self, tokens: &mut Cursor<'_, Token>, close: Sign) -> Result<Tall, Fault>
        requires { Nests (self.now.depth + 1) (F.pre self.now.level) (F.post self.now.level) }
        ensures { Reads (under self.now.depth (spec.closed_by close) tokens.old) result tokens.new }
    {
        let inner = self.expression_within(tokens)?;
        self.expect(tokens, close)?;
        Ok(inner)
    }

    /// `e ]`, or the `]` of `[]`.
    #[tactic(auto, unfolding(resin_grammar::specs::Expressions::index_or_next))]
    pub fn index_or_next_within(
        &self,
        tokens: &mut Cursor<'_, Token>,
    ) -> Result<Option<Tall>, Fault>
        requires { Nests (self.now.depth + 1) (F.pre self.now.level) (F.post self.now.level) }
        ensures { Reads (under self.now.depth spec.index_or_next tokens.old) result tokens.new }
    {
        if self.eat(tokens, Sign::RightSquare) {
            Ok(None)
        } else {
            Ok(Some(self.closed_by(tokens, Sign::RightSquare)?))
        }
    }

    /// `e` or `e => e`, put behind the items.
    #[tactic(auto, unfolding(resin_grammar::specs::Expressions::pair_after))]
    pub fn pair(&self, tokens: &mut Cursor<'_, Token>, mut items: Pairs) -> Result<Pairs, Fault>
        requires { Nests (self.now.depth + 1) (F.pre self.now.level) (F.post self.now.level) }
        ensures { Reads (under self.now.depth (spec.pair_after items) tokens.old) result tokens.new }
    {
        let first = self.expression_within(tokens)?;
        if self.eat(tokens, Sign::FatArrow) {
            let value = self.expression_within(tokens)?;
            items.push_pair(first, value)?;
        } else {
            items.push_value(first)?;
        }
        Ok(items)
    }

    /// The closing bracket, or an item.
    #[tactic(auto, unfolding(resin_grammar::specs::Expressions::item))]
    pub fn item(
        &self,
        tokens: &mut Cursor<'_, Token>,
        close: Sign,
        items: Pairs,
    ) -> Result<(Pairs, bool), Fault>
        requires { Nests (self.now.depth + 1) (F.pre self.now.level) (F.post self.now.level) }
        ensures { Reads (under self.now.depth (spec.item close items) tokens.old) result tokens.new }
    {
        if self.eat(tokens, close) {
            return Ok((items, true));
        }
        Ok((self.pair(tokens, items)?, false))
    }

    /// `, e` again and again.
    pub fn more_items(
        &self,
        tokens: &mut Cursor<'_, Token>,
        close: Sign,
        first: Pairs,
        first_closed: bool,
    ) -> Result<(Pairs, bool), Fault>
        requires { Nests (self.now.depth + 1) (F.pre self.now.level) (F.post self.now.level) }
        ensures { Reads (under self.now.depth (spec.more_items close (first, first_closed)) tokens.old) result tokens.new }
    {
        let mut items = first;
        let mut closed = first_closed;
        'turns: while let Some(next) = tokens.peek() {
            if !comma_follows(closed, &next.kind) {
                break;
            }
            tokens.skip(next);
            let (longer, ended) = self.item(tokens, close, items)?;
            items = longer;
            closed = ended;
        }
        Ok((items, closed))
    }

    /// The items of an array, up to this bracket.
    #[tactic(auto, unfolding(resin_grammar::specs::Expressions::items))]
    pub fn items_within(&self, tokens: &mut Cursor<'_, Token>, close: Sign) -> Result<Pairs, Fault>
        requires { Nests (self.now.depth + 1) (F.pre self.now.level) (F.post self.now.level) }
        ensures { Reads (under self.now.depth (spec.items close) tokens.old) result tokens.new }
    {
        let (first, closed) = self.item(tokens, close, Pairs::new(self.alloc))?;
        let (items, closed) = self.more_items(tokens, close, first, closed)?;
        if closed {
            return Ok(items);
        }
        self.expect(tokens, close)?;
        Ok(items)
    }

    /// The closing bracket, or an argument.
    #[tactic(auto, unfolding(resin_grammar::specs::Expressions::argument))]
    pub fn argument(
        &self,
        tokens: &mut Cursor<'_, Token>,
        mut arguments: Trees,
    ) -> Result<(Trees, bool), Fault>
        requires { Nests (self.now.depth + 1) (F.pre self.now.level) (F.post self.now.level) }
        ensures { Reads (under self.now.depth (spec.argument arguments) tokens.old) result tokens.new }
    {
        if self.eat(tokens, Sign::RightRound) {
            return Ok((arguments, true));
        }
        let argument = self.expression_within(tokens)?;
        arguments.push(argument)?;
        Ok((arguments, false))
    }

    /// `, e` again and again.
    pub fn more_arguments(
        &self,
        tokens: &mut Cursor<'_, Token>,
        first: Trees,
        first_closed: bool,
    ) -> Result<(Trees, bool), Fault>
        requires { Nests (self.now.depth + 1) (F.pre self.now.level) (F.post self.now.level) }
        ensures { Reads (under self.now.depth (spec.more_arguments (first, first_closed)) tokens.old) result tokens.new }
    {
        let mut arguments = first;
        let mut closed = first_closed;
        'turns: while let Some(next) = tokens.peek() {
            if !comma_follows(closed, &next.kind) {
                break;
            }
            tokens.skip(next);
            let (longer, ended) = self.argument(tokens, arguments)?;
            arguments = longer;
            closed = ended;
        }
        Ok((arguments, closed))
    }

    /// The arguments of a call, and `)`.
    #[tactic(auto, unfolding(resin_grammar::specs::Expressions::arguments))]
    pub fn arguments_within(&self, tokens: &mut Cursor<'_, Token>) -> Result<Trees, Fault>
        requires { Nests (self.now.depth + 1) (F.pre self.now.level) (F.post self.now.level) }
        ensures { Reads (under self.now.depth spec.arguments tokens.old) result tokens.new }
    {
        let (first, closed) = self.argument(tokens, Trees::new(self.alloc))?;
        let (arguments, closed) = self.more_arguments(tokens, first, closed)?;
        if closed {
            return Ok(arguments);
        }
        self.expect(tokens, Sign::RightRound)?;
        Ok(arguments)
    }

    /// An operand of `isset`, put behind the others.
    #[tactic(auto, unfolding(resin_grammar::specs::Expressions::one_asked))]
    pub fn one_asked(
        &self,
        tokens: &mut Cursor<'_, Token>,
        mut operands: Trees,
    ) -> Result<Trees, Fault>
        requires { Nests self.now.depth (F.pre self.now.level) (F.post self.now.level) }
        ensures { Reads (under self.now.depth (spec.one_asked operands) tokens.old) result tokens.new }
    {
        let operand = self.asked_operand(tokens)?;
        operands.push(operand)?;
        Ok(operands)
    }

    /// `, t` again and again.
    pub fn more_asked(&self, tokens: &mut Cursor<'_, Token>, first: Trees) -> Result<Trees, Fault>
        requires { Nests self.now.depth (F.pre self.now.level) (F.post self.now.level) }
        ensures { Reads (under self.now.depth (spec.more_asked first) tokens.old) result tokens.new }
    {
        let mut operands = first;
        'turns: while let Some(next) = tokens.peek() {
            if !is_sign(Sign::Comma, &next.kind) {
                break;
            }
            tokens.skip(next);
            operands = self.one_asked(tokens, operands)?;
        }
        Ok(operands)
    }

    /// The operands of `isset`, and `)`.
    #[tactic(auto, unfolding(resin_grammar::specs::Expressions::all_asked))]
    pub fn asked_within(&self, tokens: &mut Cursor<'_, Token>) -> Result<Trees, Fault>
        requires { Nests self.now.depth (F.pre self.now.level) (F.post self.now.level) }
        ensures { Reads (under self.now.depth spec.all_asked tokens.old) result tokens.new }
    {
        let first = self.one_asked(tokens, Trees::new(self.alloc))?;
        let operands = self.more_asked(tokens, first)?;
        self.expect(tokens, Sign::RightRound)?;
        Ok(operands)
    }

    /// `: b`
    #[tactic(auto, unfolding(resin_grammar::specs::Expressions::otherwise_branch))]
    pub fn otherwise_within(&self, tokens: &mut Cursor<'_, Token>) -> Result<Tall, Fault>
        requires { Nests (self.now.depth + 1) (F.pre self.now.level) (F.post self.now.level) }
        ensures { Reads (under self.now.depth spec.otherwise_branch tokens.old) result tokens.new }
    {
        self.expect(tokens, Sign::Colon)?;
        self.coalesced_within(tokens)
    }

    /// `a : b`, or `: b`.
    #[tactic(auto, unfolding(resin_grammar::specs::Expressions::both_branches))]
    pub fn branches_within(
        &self,
        tokens: &mut Cursor<'_, Token>,
    ) -> Result<(Option<Tall>, Tall), Fault>
        requires { Nests (self.now.depth + 1) (F.pre self.now.level) (F.post self.now.level) }
        ensures { Reads (under self.now.depth spec.both_branches tokens.old) result tokens.new }
    {
        if self.eat(tokens, Sign::Colon) {
            let other = self.coalesced_within(tokens)?;
            return Ok((None, other));
        }
        let value = self.closed_by(tokens, Sign::Colon)?;
        let other = self.coalesced_within(tokens)?;
        Ok((Some(value), other))
    }

    /// A variable with its postfixes, and `}`.
    #[tactic(auto, unfolding(resin_grammar::specs::Expressions::braced))]
    pub fn braced_within(&self, tokens: &mut Cursor<'_, Token>) -> Result<Tall, Fault>
        requires { Nests self.now.depth (F.pre self.now.level) (F.post self.now.level) }
        ensures { Reads (under self.now.depth spec.braced tokens.old) result tokens.new }
    {
        let value = self.braced_value(tokens)?;
        self.expect(tokens, Sign::RightBrace)?;
        Ok(value)
    }
}
