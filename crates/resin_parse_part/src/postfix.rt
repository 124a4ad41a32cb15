//! Postfixes behind trees.

ghost use Rattle.std.specs.Prelude.{◌≡◌, ◌+◌, ◌<◌, ◌≤◌, [], None, Some};
ghost use Rattle.resin_grammar.specs.Expressions as spec;
ghost use Rattle.resin_grammar.specs.Names as name;
ghost use Rattle.resin_grammar.specs.Reading.{behind, is_low, under};
ghost use Rattle.resin_form.specs.Meaning.{reading};
ghost use Rattle.resin_form.specs.Reads.{Reads};
ghost use Rattle.resin_parse_part.specs.Nests.{Nests};

use crate::parser::Parser;
use resin_form::{Cursor, Fault};
use resin_grammar::sign::is_sign;
use resin_grammar::tokens::{is_postfix, is_variable, name_of};
use resin_grammar::{Sign, Tall};
use resin_items::SharedBytes;
use resin_lex::{Token, TokenKind};
use std::alloc::Global;

impl<F: Fn(Global, &mut Cursor<'_, Token>, usize, u8) -> Result<Tall, Fault> + Copy> Parser<F> {
    /// What follows `a [`.
    #[tactic(auto, unfolding(resin_grammar::specs::Expressions::index_of_tree))]
    pub fn index_of_tree(&self, tokens: &mut Cursor<'_, Token>, array: Tall) -> Result<Tall, Fault>
        requires { Nests self.now.depth (F.pre self.now.level) (F.post self.now.level) }
        ensures { Reads (behind self.now.depth (spec.index_of_tree array) tokens.old) result tokens.new }
    {
        if !self.opens_after(&array) {
            return Err(Fault::TooDeep);
        }
        let index = self.in_index(tokens)?;
        Ok(Tall::index(self.alloc, array, index)?)
    }

    /// What follows `a->m (`.
    #[tactic(auto, unfolding(resin_grammar::specs::Expressions::method_of_tree))]
    pub fn method_of_tree(
        &self,
        tokens: &mut Cursor<'_, Token>,
        object: Tall,
        name: SharedBytes,
    ) -> Result<Tall, Fault>
        requires { Nests self.now.depth (F.pre self.now.level) (F.post self.now.level) }
        ensures { Reads (behind self.now.depth (spec.method_of_tree object name) tokens.old) result tokens.new }
    {
        if !self.opens() {
            return Err(Fault::TooDeep);
        }
        let arguments = self.in_call(tokens)?;
        Ok(Tall::method_call(self.alloc, object, name, arguments)?)
    }

    /// What follows `a->m`.
    #[tactic(auto, unfolding(resin_grammar::specs::Expressions::named_member))]
    pub fn named_member(
        &self,
        tokens: &mut Cursor<'_, Token>,
        object: Tall,
        name: SharedBytes,
    ) -> Result<Tall, Fault>
        requires { Nests self.now.depth (F.pre self.now.level) (F.post self.now.level) }
        ensures { Reads (under self.now.depth (spec.named_member object name) tokens.old) result tokens.new }
    {
        match tokens.peek() {
            Some(next) if is_sign(Sign::LeftRound, &next.kind) => {
                tokens.skip(next);
                self.method_of_tree(tokens, object, name)
            }
            _ => Ok(Tall::property(self.alloc, object, name)?),
        }
    }

    /// What follows `a->`.
    #[tactic(auto, unfolding(resin_grammar::specs::Expressions::member_of_tree))]
    pub fn member_of_tree(
        &self,
        tokens: &mut Cursor<'_, Token>,
        object: Tall,
    ) -> Result<Tall, Fault>
        requires { Nests self.now.depth (F.pre self.now.level) (F.post self.now.level) }
        ensures { Reads (behind self.now.depth (spec.member_of_tree object) tokens.old) result tokens.new }
    {
        if !self.stands_after(&object) {
            return Err(Fault::TooDeep);
        }
        let name = self.a_name(tokens)?;
        self.named_member(tokens, object, name)
    }

    /// What follows the token that begins a postfix.
    #[tactic(auto, unfolding(resin_grammar::specs::Expressions::postfix))]
    pub fn postfix(
        &self,
        tokens: &mut Cursor<'_, Token>,
        tree: Tall,
        kind: &TokenKind,
    ) -> Result<Tall, Fault>
        requires { Nests self.now.depth (F.pre self.now.level) (F.post self.now.level) }
        ensures { Reads (behind self.now.depth (spec.postfix tree kind.now) tokens.old) result tokens.new }
    {
        if is_sign(Sign::LeftSquare, kind) {
            self.index_of_tree(tokens, tree)
        } else {
            self.member_of_tree(tokens, tree)
        }
    }

    /// Postfixes behind a tree.
    pub fn postfixes(&self, tokens: &mut Cursor<'_, Token>, first: Tall) -> Result<Tall, Fault>
        requires { Nests self.now.depth (F.pre self.now.level) (F.post self.now.level) }
        ensures { Reads (under self.now.depth (spec.postfixes first) tokens.old) result tokens.new }
    {
        let mut tree = first;
        'turns: while let Some(next) = tokens.peek() {
            if !is_postfix(&next.kind) {
                break;
            }
            tokens.skip(next);
            tree = self.postfix(tokens, tree, &next.kind)?;
        }
        Ok(tree)
    }

    /// A variable with its postfixes, in the braces of a text.
    #[tactic(auto, unfolding(resin_grammar::specs::Expressions::braced_value))]
    pub fn braced_value(&self, tokens: &mut Cursor<'_, Token>) -> Result<Tall, Fault>
        requires { Nests self.now.depth (F.pre self.now.level) (F.post self.now.level) }
        ensures { Reads (under self.now.depth spec.braced_value tokens.old) result tokens.new }
    {
        match tokens.peek() {
            Some(next) if is_variable(&next.kind) => {
                tokens.skip(next);
                let variable = Tall::variable(self.alloc, name_of(self.alloc, &next.kind)?)?;
                self.postfixes(tokens, variable)
            }
            _ => Err(Fault::Syntax),
        }
    }

    /// What follows `a->` in an operand of `isset`.
    #[tactic(auto, unfolding(resin_grammar::specs::Expressions::asked_property))]
    pub fn asked_property(
        &self,
        tokens: &mut Cursor<'_, Token>,
        object: Tall,
    ) -> Result<Tall, Fault>
        ensures { Reads (behind self.now.depth (spec.asked_property object) tokens.old) result tokens.new }
    {
        if !self.stands_after(&object) {
            return Err(Fault::TooDeep);
        }
        let name = self.a_name(tokens)?;
        Ok(Tall::property(self.alloc, object, name)?)
    }

    /// What follows the token that begins a postfix of an operand of `isset`.
    #[tactic(auto, unfolding(resin_grammar::specs::Expressions::asked_step))]
    pub fn asked_step(
        &self,
        tokens: &mut Cursor<'_, Token>,
        tree: Tall,
        kind: &TokenKind,
    ) -> Result<Tall, Fault>
        requires { Nests self.now.depth (F.pre self.now.level) (F.post self.now.level) }
        ensures { Reads (behind self.now.depth (spec.asked_step tree kind.now) tokens.old) result tokens.new }
    {
        if is_sign(Sign::LeftSquare, kind) {
            self.index_of_tree(tokens, tree)
        } else {
            self.asked_property(tokens, tree)
        }
    }

    /// The postfixes of an operand of `isset`.
    pub fn asked_steps(&self, tokens: &mut Cursor<'_, Token>, first: Tall) -> Result<Tall, Fault>
        requires { Nests self.now.depth (F.pre self.now.level) (F.post self.now.level) }
        ensures { Reads (under self.now.depth (spec.asked_steps first) tokens.old) result tokens.new }
    {
        let mut tree = first;
        'turns: while let Some(next) = tokens.peek() {
            if !is_postfix(&next.kind) {
                break;
            }
            tokens.skip(next);
            tree = self.asked_step(tokens, tree, &next.kind)?;
        }
        Ok(tree)
    }

    /// An operand of `isset`.
    #[tactic(auto, unfolding(resin_grammar::specs::Expressions::asked_operand))]
    pub fn asked_operand(&self, tokens: &mut Cursor<'_, Token>) -> Result<Tall, Fault>
        requires { Nests self.now.depth (F.pre self.now.level) (F.post self.now.level) }
        ensures { Reads (under self.now.depth spec.asked_operand tokens.old) result tokens.new }
    {
        match tokens.peek() {
            Some(next) if is_variable(&next.kind) => {
                tokens.skip(next);
                let variable = Tall::variable(self.alloc, name_of(self.alloc, &next.kind)?)?;
                self.asked_steps(tokens, variable)
            }
            _ => Err(Fault::Syntax),
        }
    }
}
