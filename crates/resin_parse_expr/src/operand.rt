//! Operands without their postfixes.

ghost use Rattle.std.specs.Prelude.{◌≡◌, ◌+◌, ◌<◌, ◌≤◌, [], None, Some};
ghost use Rattle.resin_grammar.specs.Expressions as spec;
ghost use Rattle.resin_grammar.specs.Names as name;
ghost use Rattle.resin_grammar.specs.Reading.{behind, is_low, under};
ghost use Rattle.resin_form.specs.Meaning.{reading};
ghost use Rattle.resin_form.specs.Reads.{Reads};
ghost use Rattle.resin_parse_part.specs.Nests.{Nests};

use crate::levels::Levels;
use resin_form::{Cursor, Fault};
use resin_grammar::operators::constant_of;
use resin_grammar::sign::is_sign;
use resin_grammar::tokens::begins_operand;
use resin_grammar::{Operand, Sign, Tall, TallPlace, Trees};
use resin_items::SharedBytes;
use resin_lex::{ConstantName, Keyword, Mark, Token, TokenKind};
use std::alloc::Global;

impl<F: Fn(Global, &mut Cursor<'_, Token>, usize, u8) -> Result<Tall, Fault> + Copy> Levels<F> {
    /// What follows `f (`.
    #[tactic(auto, unfolding(resin_grammar::specs::Expressions::function_call))]
    pub fn function_call(
        &self,
        tokens: &mut Cursor<'_, Token>,
        name: SharedBytes,
    ) -> Result<Operand, Fault>
        requires { Nests self.now.parser.depth (F.pre self.now.parser.level) (F.post self.now.parser.level) }
        ensures { Reads (behind self.now.parser.depth (spec.function_call name) tokens.old) result tokens.new }
    {
        if !self.parser.opens() {
            return Err(Fault::TooDeep);
        }
        let arguments = self.parser.in_call(tokens)?;
        Ok(Operand::Tree(Tall::function_call(self.parser.alloc, name, arguments)?))
    }

    /// A call of a function whose name is that of a constant, or the constant.
    pub fn constant_or_call(
        &self,
        tokens: &mut Cursor<'_, Token>,
        constant: ConstantName,
        name: SharedBytes,
    ) -> Result<Operand, Fault>
        requires { Nests self.now.parser.depth (F.pre self.now.parser.level) (F.post self.now.parser.level) }
        ensures { Reads (under self.now.parser.depth (spec.called_or (Some constant) name) tokens.old) result tokens.new }
    {
        match tokens.peek() {
            Some(next) if is_sign(Sign::LeftRound, &next.kind) => {
                tokens.skip(next);
                self.function_call(tokens, name)
            }
            _ => Ok(Operand::Tree(Tall::constant(self.parser.alloc, constant)?)),
        }
    }

    /// A call of a function.
    pub fn call(&self, tokens: &mut Cursor<'_, Token>, name: SharedBytes) -> Result<Operand, Fault>
        requires { Nests self.now.parser.depth (F.pre self.now.parser.level) (F.post self.now.parser.level) }
        ensures { Reads (under self.now.parser.depth (spec.called_or None name) tokens.old) result tokens.new }
    {
        match tokens.peek() {
            Some(next) if is_sign(Sign::LeftRound, &next.kind) => {
                tokens.skip(next);
                self.function_call(tokens, name)
            }
            _ => Err(Fault::Syntax),
        }
    }

    /// What follows a name.
    #[tactic(auto, unfolding(resin_grammar::specs::Expressions::named))]
    pub fn named(&self, tokens: &mut Cursor<'_, Token>, name: SharedBytes) -> Result<Operand, Fault>
        requires { Nests self.now.parser.depth (F.pre self.now.parser.level) (F.post self.now.parser.level) }
        ensures { Reads (under self.now.parser.depth (spec.named name) tokens.old) result tokens.new }
    {
        match constant_of(name.as_slice()) {
            Some(constant) => self.constant_or_call(tokens, constant, name),
            None => self.call(tokens, name),
        }
    }

    /// What follows `(`.
    #[tactic(auto, unfolding(resin_grammar::specs::Expressions::bracketed))]
    pub fn bracketed(&self, tokens: &mut Cursor<'_, Token>) -> Result<Operand, Fault>
        requires { Nests self.now.parser.depth (F.pre self.now.parser.level) (F.post self.now.parser.level) }
        ensures { Reads (behind self.now.parser.depth spec.bracketed tokens.old) result tokens.new }
    {
        if !self.parser.opens() {
            return Err(Fault::TooDeep);
        }
        let inner = self.parser.in_brackets(tokens)?;
        Ok(Operand::Tree(inner))
    }

    /// What follows the bracket of an array.
    #[tactic(auto, unfolding(resin_grammar::specs::Expressions::array))]
    pub fn array(&self, tokens: &mut Cursor<'_, Token>, close: Sign) -> Result<Operand, Fault>
        requires { Nests self.now.parser.depth (F.pre self.now.parser.level) (F.post self.now.parser.level) }
        ensures { Reads (behind self.now.parser.depth (spec.array close) tokens.old) result tokens.new }
    {
        if !self.parser.opens() {
            return Err(Fault::TooDeep);
        }
        let items = self.parser.in_array(tokens, close)?;
        Ok(Operand::Tree(Tall::array(self.parser.alloc, items)?))
    }

    /// `array(..)`
    #[tactic(auto, unfolding(resin_grammar::specs::Expressions::long_array))]
    pub fn long_array(&self, tokens: &mut Cursor<'_, Token>) -> Result<Operand, Fault>
        requires { Nests self.now.parser.depth (F.pre self.now.parser.level) (F.post self.now.parser.level) }
        ensures { Reads (under self.now.parser.depth spec.long_array tokens.old) result tokens.new }
    {
        match tokens.peek() {
            Some(next) if is_sign(Sign::LeftRound, &next.kind) => {
                tokens.skip(next);
                self.array(tokens, Sign::RightRound)
            }
            _ => Err(Fault::Syntax),
        }
    }

    /// What follows `new C (`.
    #[tactic(auto, unfolding(resin_grammar::specs::Expressions::new_arguments))]
    pub fn new_arguments(
        &self,
        tokens: &mut Cursor<'_, Token>,
        class: SharedBytes,
    ) -> Result<Operand, Fault>
        requires { Nests self.now.parser.depth (F.pre self.now.parser.level) (F.post self.now.parser.level) }
        ensures { Reads (behind self.now.parser.depth (spec.new_arguments class) tokens.old) result tokens.new }
    {
        if !self.parser.opens() {
            return Err(Fault::TooDeep);
        }
        let arguments = self.parser.in_call(tokens)?;
        Ok(Operand::Closed(Tall::new_object(self.parser.alloc, class, arguments)?))
    }

    /// `new C` or `new C(..)`, behind the class.
    #[tactic(auto, unfolding(resin_grammar::specs::Expressions::new_of))]
    pub fn new_of(
        &self,
        tokens: &mut Cursor<'_, Token>,
        class: SharedBytes,
    ) -> Result<Operand, Fault>
        requires { Nests self.now.parser.depth (F.pre self.now.parser.level) (F.post self.now.parser.level) }
        ensures { Reads (under self.now.parser.depth (spec.new_of class) tokens.old) result tokens.new }
    {
        match tokens.peek() {
            Some(next) if is_sign(Sign::LeftRound, &next.kind) => {
                tokens.skip(next);
                self.new_arguments(tokens, class)
            }
            _ => Ok(Operand::Closed(Tall::new_object(
                self.parser.alloc,
                class,
                Trees::new(self.parser.alloc),
            )?)),
        }
    }

    /// What follows `new`.
    #[tactic(auto, unfolding(resin_grammar::specs::Expressions::new_object))]
    pub fn new_object(&self, tokens: &mut Cursor<'_, Token>) -> Result<Operand, Fault>
        requires { Nests self.now.parser.depth (F.pre self.now.parser.level) (F.post self.now.parser.level) }
        ensures { Reads (under self.now.parser.depth spec.new_object tokens.old) result tokens.new }
    {
        let class = self.parser.a_name(tokens)?;
        self.new_of(tokens, class)
    }

    /// What follows `parent::m (`.
    #[tactic(auto, unfolding(resin_grammar::specs::Expressions::parent_arguments))]
    pub fn parent_arguments(
        &self,
        tokens: &mut Cursor<'_, Token>,
        name: SharedBytes,
    ) -> Result<Operand, Fault>
        requires { Nests self.now.parser.depth (F.pre self.now.parser.level) (F.post self.now.parser.level) }
        ensures { Reads (behind self.now.parser.depth (spec.parent_arguments name) tokens.old) result tokens.new }
    {
        if !self.parser.opens() {
            return Err(Fault::TooDeep);
        }
        let arguments = self.parser.in_call(tokens)?;
        Ok(Operand::Tree(Tall::parent_call(self.parser.alloc, name, arguments)?))
    }

    /// What follows `parent::m`.
    #[tactic(auto, unfolding(resin_grammar::specs::Expressions::parent_method))]
    pub fn parent_method(
        &self,
        tokens: &mut Cursor<'_, Token>,
        name: SharedBytes,
    ) -> Result<Operand, Fault>
        requires { Nests self.now.parser.depth (F.pre self.now.parser.level) (F.post self.now.parser.level) }
        ensures { Reads (under self.now.parser.depth (spec.parent_method name) tokens.old) result tokens.new }
    {
        match tokens.peek() {
            Some(next) if is_sign(Sign::LeftRound, &next.kind) => {
                tokens.skip(next);
                self.parent_arguments(tokens, name)
            }
            _ => Err(Fault::Syntax),
        }
    }

    /// What follows `parent`.
    #[tactic(auto, unfolding(resin_grammar::specs::Expressions::parent_call))]
    pub fn parent_call(&self, tokens: &mut Cursor<'_, Token>) -> Result<Operand, Fault>
        requires { Nests self.now.parser.depth (F.pre self.now.parser.level) (F.post self.now.parser.level) }
        ensures { Reads (under self.now.parser.depth spec.parent_call tokens.old) result tokens.new }
    {
        self.parser.expect(tokens, Sign::DoubleColon)?;
        let name = self.parser.a_name(tokens)?;
        self.parent_method(tokens, name)
    }

    /// What follows `isset (`.
    #[tactic(auto, unfolding(resin_grammar::specs::Expressions::asked))]
    pub fn asked(&self, tokens: &mut Cursor<'_, Token>) -> Result<Operand, Fault>
        requires { Nests self.now.parser.depth (F.pre self.now.parser.level) (F.post self.now.parser.level) }
        ensures { Reads (behind self.now.parser.depth spec.asked tokens.old) result tokens.new }
    {
        if !self.parser.opens() {
            return Err(Fault::TooDeep);
        }
        let operands = self.parser.in_isset(tokens)?;
        Ok(Operand::Tree(Tall::isset(self.parser.alloc, operands)?))
    }

    /// What follows `isset`.
    #[tactic(auto, unfolding(resin_grammar::specs::Expressions::isset))]
    pub fn isset(&self, tokens: &mut Cursor<'_, Token>) -> Result<Operand, Fault>
        requires { Nests self.now.parser.depth (F.pre self.now.parser.level) (F.post self.now.parser.level) }
        ensures { Reads (under self.now.parser.depth spec.isset tokens.old) result tokens.new }
    {
        match tokens.peek() {
            Some(next) if is_sign(Sign::LeftRound, &next.kind) => {
                tokens.skip(next);
                self.asked(tokens)
            }
            _ => Err(Fault::Syntax),
        }
    }

    /// What follows `empty (`.
    #[tactic(auto, unfolding(resin_grammar::specs::Expressions::emptied))]
    pub fn emptied(&self, tokens: &mut Cursor<'_, Token>) -> Result<Operand, Fault>
        requires { Nests self.now.parser.depth (F.pre self.now.parser.level) (F.post self.now.parser.level) }
        ensures { Reads (behind self.now.parser.depth spec.emptied tokens.old) result tokens.new }
    {
        if !self.parser.opens() {
            return Err(Fault::TooDeep);
        }
        let inner = self.parser.in_brackets(tokens)?;
        Ok(Operand::Tree(Tall::empty(self.parser.alloc, inner)?))
    }

    /// What follows `empty`.
    #[tactic(auto, unfolding(resin_grammar::specs::Expressions::empty))]
    pub fn empty(&self, tokens: &mut Cursor<'_, Token>) -> Result<Operand, Fault>
        requires { Nests self.now.parser.depth (F.pre self.now.parser.level) (F.post self.now.parser.level) }
        ensures { Reads (under self.now.parser.depth spec.empty tokens.old) result tokens.new }
    {
        match tokens.peek() {
            Some(next) if is_sign(Sign::LeftRound, &next.kind) => {
                tokens.skip(next);
                self.emptied(tokens)
            }
            _ => Err(Fault::Syntax),
        }
    }

    /// A text without interpolation.
    #[tactic(auto, unfolding(resin_grammar::specs::Expressions::literal_text))]
    pub fn literal_text(
        &self,
        tokens: &mut Cursor<'_, Token>,
        bytes: &SharedBytes,
    ) -> Result<Operand, Fault>
        ensures { Reads (under self.now.parser.depth (spec.literal_text bytes.now) tokens.old) result tokens.new }
    {
        let _none = &tokens;
        Ok(Operand::Tree(Tall::text(self.parser.alloc, bytes.clone()?)?))
    }

    /// A variable, which may be written to.
    #[tactic(auto, unfolding(resin_grammar::specs::Expressions::variable_target))]
    pub fn variable_target(
        &self,
        tokens: &mut Cursor<'_, Token>,
        name: &SharedBytes,
    ) -> Result<Operand, Fault>
        ensures { Reads (under self.now.parser.depth (spec.variable_target name.now) tokens.old) result tokens.new }
    {
        let _none = &tokens;
        Ok(Operand::Target(TallPlace::new(self.parser.alloc, name.clone()?)))
    }

    /// What follows the token that begins an operand.
    pub fn first_operand(
        &self,
        tokens: &mut Cursor<'_, Token>,
        kind: &TokenKind,
    ) -> Result<Operand, Fault>
        requires { Nests self.now.parser.depth (F.pre self.now.parser.level) (F.post self.now.parser.level) }
        ensures { Reads (behind self.now.parser.depth (spec.first_operand kind.now) tokens.old) result tokens.new }
    {
        match kind {
            TokenKind::Int(n) => Ok(Operand::Tree(Tall::int(self.parser.alloc, *n)?)),
            TokenKind::Text(bytes) => self.literal_text(tokens, bytes),
            TokenKind::Variable(name) => self.variable_target(tokens, name),
            TokenKind::Name(name) => self.named(tokens, name.bytes()?),
            TokenKind::Mark(Mark::LeftRound) => self.bracketed(tokens),
            TokenKind::Mark(Mark::LeftSquare) => self.array(tokens, Sign::RightSquare),
            TokenKind::Keyword(Keyword::Array) => self.long_array(tokens),
            TokenKind::Keyword(Keyword::New) => self.new_object(tokens),
            TokenKind::Keyword(Keyword::Parent) => self.parent_call(tokens),
            TokenKind::Keyword(Keyword::Isset) => self.isset(tokens),
            TokenKind::Keyword(Keyword::Empty) => self.empty(tokens),
            _ => self.parser.text(tokens),
        }
    }

    /// An operand without its postfixes.
    #[tactic(auto, unfolding(resin_grammar::specs::Expressions::any_operand))]
    pub fn any_operand(&self, tokens: &mut Cursor<'_, Token>) -> Result<Operand, Fault>
        requires { Nests self.now.parser.depth (F.pre self.now.parser.level) (F.post self.now.parser.level) }
        ensures { Reads (under self.now.parser.depth spec.any_operand tokens.old) result tokens.new }
    {
        match tokens.peek() {
            Some(next) if begins_operand(&next.kind) => {
                tokens.skip(next);
                self.first_operand(tokens, &next.kind)
            }
            _ => Err(Fault::Syntax),
        }
    }
}
