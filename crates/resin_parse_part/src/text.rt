//! Texts with interpolation.

ghost use Rattle.std.specs.Prelude.{◌≡◌, ◌+◌, ◌<◌, ◌≤◌, [], None, Some};
ghost use Rattle.resin_grammar.specs.Expressions as spec;
ghost use Rattle.resin_grammar.specs.Names as name;
ghost use Rattle.resin_grammar.specs.Reading.{behind, is_low, under};
ghost use Rattle.resin_form.specs.Meaning.{reading};
ghost use Rattle.resin_form.specs.Reads.{Reads};
ghost use Rattle.resin_parse_part.specs.Nests.{Nests};

use crate::parser::Parser;
use resin_form::{Cursor, Fault};
use resin_grammar::tokens::{begins_part, is_simple_postfix};
use resin_grammar::{Operand, Sign, Tall, Trees};
use resin_items::SharedBytes;
use resin_lex::{Token, TokenKind};
use std::alloc::Global;

impl<F: Fn(Global, &mut Cursor<'_, Token>, usize, u8) -> Result<Tall, Fault> + Copy> Parser<F> {
    /// `$v[k]` in a text, with a word or digits.
    #[tactic(auto, unfolding(resin_grammar::specs::Expressions::text_index))]
    pub fn text_index(
        &self,
        tokens: &mut Cursor<'_, Token>,
        name: &SharedBytes,
        key: &SharedBytes,
    ) -> Result<Tall, Fault>
        ensures { Reads (behind self.now.depth (spec.text_index name.now key.now) tokens.old) result tokens.new }
    {
        let _none = &tokens;
        if !self.opens() {
            return Err(Fault::TooDeep);
        }
        let array = Tall::variable(self.alloc, name.clone()?)?;
        let index = Tall::text(self.alloc, key.clone()?)?;
        Ok(Tall::index(self.alloc, array, index)?)
    }

    /// `$v[$k]` in a text.
    #[tactic(auto, unfolding(resin_grammar::specs::Expressions::variable_index))]
    pub fn variable_index(
        &self,
        tokens: &mut Cursor<'_, Token>,
        name: &SharedBytes,
        key: &SharedBytes,
    ) -> Result<Tall, Fault>
        ensures { Reads (behind self.now.depth (spec.variable_index name.now key.now) tokens.old) result tokens.new }
    {
        let _none = &tokens;
        if !self.opens() {
            return Err(Fault::TooDeep);
        }
        let array = Tall::variable(self.alloc, name.clone()?)?;
        let index = Tall::variable(self.alloc, key.clone()?)?;
        Ok(Tall::index(self.alloc, array, index)?)
    }

    /// `$v->p` in a text.
    #[tactic(auto, unfolding(resin_grammar::specs::Expressions::text_property))]
    pub fn text_property(
        &self,
        tokens: &mut Cursor<'_, Token>,
        name: &SharedBytes,
        property: &SharedBytes,
    ) -> Result<Tall, Fault>
        ensures { Reads (under self.now.depth (spec.text_property name.now property.now) tokens.old) result tokens.new }
    {
        let _none = &tokens;
        let object = Tall::variable(self.alloc, name.clone()?)?;
        Ok(Tall::property(self.alloc, object, property.clone()?)?)
    }

    /// A variable alone.
    #[tactic(auto, unfolding(resin_grammar::specs::Expressions::text_variable))]
    pub fn text_variable(
        &self,
        tokens: &mut Cursor<'_, Token>,
        name: &SharedBytes,
    ) -> Result<Tall, Fault>
        ensures { Reads (under self.now.depth (spec.text_variable name.now) tokens.old) result tokens.new }
    {
        let _none = &tokens;
        Ok(Tall::variable(self.alloc, name.clone()?)?)
    }

    /// What follows a variable in a text: a key or a property.
    pub fn simple_postfix(
        &self,
        tokens: &mut Cursor<'_, Token>,
        name: &SharedBytes,
        kind: &TokenKind,
    ) -> Result<Tall, Fault>
        ensures { Reads (behind self.now.depth (spec.simple_postfix name.now kind.now) tokens.old) result tokens.new }
    {
        match kind {
            TokenKind::IndexText(key) => self.text_index(tokens, name, key),
            TokenKind::IndexVariable(key) => self.variable_index(tokens, name, key),
            TokenKind::Property(property) => self.text_property(tokens, name, property),
            _ => self.text_variable(tokens, name),
        }
    }

    /// A variable in a text, with a key or a property or none.
    #[tactic(auto, unfolding(resin_grammar::specs::Expressions::simple, resin_grammar::specs::Expressions::text_variable))]
    pub fn simple(&self, tokens: &mut Cursor<'_, Token>, name: &SharedBytes) -> Result<Tall, Fault>
        ensures { Reads (under self.now.depth (spec.simple name.now) tokens.old) result tokens.new }
    {
        match tokens.peek() {
            Some(next) if is_simple_postfix(&next.kind) => {
                tokens.skip(next);
                self.simple_postfix(tokens, name, &next.kind)
            }
            _ => self.text_variable(tokens, name),
        }
    }

    /// What follows the `{` of a text.
    #[tactic(auto, unfolding(resin_grammar::specs::Expressions::interpolated))]
    pub fn interpolated(&self, tokens: &mut Cursor<'_, Token>) -> Result<Tall, Fault>
        requires { Nests self.now.depth (F.pre self.now.level) (F.post self.now.level) }
        ensures { Reads (behind self.now.depth spec.interpolated tokens.old) result tokens.new }
    {
        if !self.opens() {
            return Err(Fault::TooDeep);
        }
        self.in_braces(tokens)
    }

    /// A stretch between interpolations.
    #[tactic(auto, unfolding(resin_grammar::specs::Expressions::stretch))]
    pub fn stretch(
        &self,
        tokens: &mut Cursor<'_, Token>,
        bytes: &SharedBytes,
    ) -> Result<Tall, Fault>
        ensures { Reads (under self.now.depth (spec.stretch bytes.now) tokens.old) result tokens.new }
    {
        let _none = &tokens;
        Ok(Tall::text(self.alloc, bytes.clone()?)?)
    }

    /// What follows the token that begins a part of a text.
    pub fn part(&self, tokens: &mut Cursor<'_, Token>, kind: &TokenKind) -> Result<Tall, Fault>
        requires { Nests self.now.depth (F.pre self.now.level) (F.post self.now.level) }
        ensures { Reads (behind self.now.depth (spec.part kind.now) tokens.old) result tokens.new }
    {
        match kind {
            TokenKind::Stretch(bytes) => self.stretch(tokens, bytes),
            TokenKind::Variable(name) => self.simple(tokens, name),
            _ => self.interpolated(tokens),
        }
    }

    /// A part of a text, put behind the others.
    #[tactic(auto, unfolding(resin_grammar::specs::Expressions::part_after))]
    pub fn part_after(
        &self,
        tokens: &mut Cursor<'_, Token>,
        mut parts: Trees,
        kind: &TokenKind,
    ) -> Result<Trees, Fault>
        requires { Nests self.now.depth (F.pre self.now.level) (F.post self.now.level) }
        ensures { Reads (behind self.now.depth (spec.part_after parts kind.now) tokens.old) result tokens.new }
    {
        let part = self.part(tokens, kind)?;
        parts.push(part)?;
        Ok(parts)
    }

    /// The parts of a text.
    pub fn parts(&self, tokens: &mut Cursor<'_, Token>, first: Trees) -> Result<Trees, Fault>
        requires { Nests self.now.depth (F.pre self.now.level) (F.post self.now.level) }
        ensures { Reads (under self.now.depth (spec.parts first) tokens.old) result tokens.new }
    {
        let mut parts = first;
        'turns: while let Some(next) = tokens.peek() {
            if !begins_part(&next.kind) {
                break;
            }
            tokens.skip(next);
            parts = self.part_after(tokens, parts, &next.kind)?;
        }
        Ok(parts)
    }

    /// A text with interpolation, behind its opening quote.
    #[tactic(auto, unfolding(resin_grammar::specs::Expressions::text))]
    pub fn text(&self, tokens: &mut Cursor<'_, Token>) -> Result<Operand, Fault>
        requires { Nests self.now.depth (F.pre self.now.level) (F.post self.now.level) }
        ensures { Reads (under self.now.depth spec.text tokens.old) result tokens.new }
    {
        let parts = self.parts(tokens, Trees::new(self.alloc))?;
        self.expect(tokens, Sign::TextClose)?;
        Ok(Operand::Tree(Tall::join(self.alloc, parts)?))
    }
}
