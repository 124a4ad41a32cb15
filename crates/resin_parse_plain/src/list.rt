//! Lists split by commas or bars.

ghost use Rattle.std.specs.Prelude.{◌≡◌, [], ◌∷◌};
ghost use Rattle.resin_form.specs.Reads.{Reads};
ghost use Rattle.resin_program_grammar.specs.Plain as spec;
ghost use Rattle.resin_program_grammar.specs.Reading.{under};
ghost use Rattle.resin_parse_plain.specs.Lines.{line_in};

use crate::reader::Reader;
use resin_form::{Cursor, Fault};
use resin_grammar::Sign;
use resin_grammar::sign::is_sign;
use resin_lex::{Expr, Items, SharedBytes, Target, Token};
use resin_program_grammar::Word;
use resin_program_grammar::tokens::begins_expression;
use resin_program_grammar::word::is_word;

impl<'l> Reader<'l> {
    /// An expression, put behind the others.
    #[tactic(auto, unfolding(resin_program_grammar::specs::Plain::one_expression))]
    pub fn one_expression(
        &self,
        tokens: &mut Cursor<'_, Token>,
        mut expressions: Items<Expr>,
    ) -> Result<Items<Expr>, Fault>
        ensures { Reads (under (line_in self.now.lines.now) self.now.depth (spec.one_expression expressions) tokens.old) result tokens.new }
    {
        let next = self.expression(tokens)?;
        expressions.push(next)?;
        Ok(expressions)
    }

    /// `, e` again and again.
    pub fn more_expressions(
        &self,
        tokens: &mut Cursor<'_, Token>,
        first: Items<Expr>,
    ) -> Result<Items<Expr>, Fault>
        ensures { Reads (under (line_in self.now.lines.now) self.now.depth (spec.more_expressions first) tokens.old) result tokens.new }
    {
        let mut expressions = first;
        'turns: while let Some(next) = tokens.peek() {
            if !is_sign(Sign::Comma, &next.kind) {
                break;
            }
            tokens.skip(next);
            expressions = self.one_expression(tokens, expressions)?;
        }
        Ok(expressions)
    }

    /// Expressions, one at least.
    #[tactic(auto, unfolding(resin_program_grammar::specs::Plain::expressions))]
    pub fn expressions(&self, tokens: &mut Cursor<'_, Token>) -> Result<Items<Expr>, Fault>
        ensures { Reads (under (line_in self.now.lines.now) self.now.depth spec.expressions tokens.old) result tokens.new }
    {
        let first = self.expression(tokens)?;
        let mut expressions = Items::new(self.alloc);
        expressions.push(first)?;
        self.more_expressions(tokens, expressions)
    }

    /// Expressions, or none.
    pub fn any_expressions(&self, tokens: &mut Cursor<'_, Token>) -> Result<Items<Expr>, Fault>
        ensures { Reads (under (line_in self.now.lines.now) self.now.depth spec.any_expressions tokens.old) result tokens.new }
    {
        match tokens.peek() {
            Some(next) if begins_expression(next) => self.expressions(tokens),
            _ => Ok(Items::new(self.alloc)),
        }
    }

    /// A target, put behind the others.
    #[tactic(auto, unfolding(resin_program_grammar::specs::Plain::one_target))]
    pub fn one_target(
        &self,
        tokens: &mut Cursor<'_, Token>,
        mut targets: Items<Target>,
    ) -> Result<Items<Target>, Fault>
        ensures { Reads (under (line_in self.now.lines.now) self.now.depth (spec.one_target targets) tokens.old) result tokens.new }
    {
        let next = self.target(tokens)?;
        targets.push(next.into_target())?;
        Ok(targets)
    }

    /// `, t` again and again.
    pub fn more_targets(
        &self,
        tokens: &mut Cursor<'_, Token>,
        first: Items<Target>,
    ) -> Result<Items<Target>, Fault>
        ensures { Reads (under (line_in self.now.lines.now) self.now.depth (spec.more_targets first) tokens.old) result tokens.new }
    {
        let mut targets = first;
        'turns: while let Some(next) = tokens.peek() {
            if !is_sign(Sign::Comma, &next.kind) {
                break;
            }
            tokens.skip(next);
            targets = self.one_target(tokens, targets)?;
        }
        Ok(targets)
    }

    /// Targets, one at least.
    #[tactic(auto, unfolding(resin_program_grammar::specs::Plain::targets))]
    pub fn targets(&self, tokens: &mut Cursor<'_, Token>) -> Result<Items<Target>, Fault>
        ensures { Reads (under (line_in self.now.lines.now) self.now.depth spec.targets tokens.old) result tokens.new }
    {
        let first = self.one_target(tokens, Items::new(self.alloc))?;
        self.more_targets(tokens, first)
    }

    /// A variable, put behind the others.
    #[tactic(auto, unfolding(resin_program_grammar::specs::Plain::one_variable))]
    pub fn one_variable(
        &self,
        tokens: &mut Cursor<'_, Token>,
        mut variables: Items<SharedBytes>,
    ) -> Result<Items<SharedBytes>, Fault>
        ensures { Reads (under (line_in self.now.lines.now) self.now.depth (spec.one_variable variables) tokens.old) result tokens.new }
    {
        let next = self.a_variable(tokens)?;
        variables.push(next)?;
        Ok(variables)
    }

    /// `, $v` again and again.
    pub fn more_variables(
        &self,
        tokens: &mut Cursor<'_, Token>,
        first: Items<SharedBytes>,
    ) -> Result<Items<SharedBytes>, Fault>
        ensures { Reads (under (line_in self.now.lines.now) self.now.depth (spec.more_variables first) tokens.old) result tokens.new }
    {
        let mut variables = first;
        'turns: while let Some(next) = tokens.peek() {
            if !is_sign(Sign::Comma, &next.kind) {
                break;
            }
            tokens.skip(next);
            variables = self.one_variable(tokens, variables)?;
        }
        Ok(variables)
    }

    /// Variables, one at least.
    #[tactic(auto, unfolding(resin_program_grammar::specs::Plain::variables))]
    pub fn variables(&self, tokens: &mut Cursor<'_, Token>) -> Result<Items<SharedBytes>, Fault>
        ensures { Reads (under (line_in self.now.lines.now) self.now.depth spec.variables tokens.old) result tokens.new }
    {
        let first = self.one_variable(tokens, Items::new(self.alloc))?;
        self.more_variables(tokens, first)
    }

    /// A class, put behind the others.
    #[tactic(auto, unfolding(resin_program_grammar::specs::Plain::one_class))]
    pub fn one_class(
        &self,
        tokens: &mut Cursor<'_, Token>,
        mut classes: Items<SharedBytes>,
    ) -> Result<Items<SharedBytes>, Fault>
        ensures { Reads (under (line_in self.now.lines.now) self.now.depth (spec.one_class classes) tokens.old) result tokens.new }
    {
        let next = self.a_name(tokens)?.bytes()?;
        classes.push(next)?;
        Ok(classes)
    }

    /// `| C` again and again.
    pub fn more_classes(
        &self,
        tokens: &mut Cursor<'_, Token>,
        first: Items<SharedBytes>,
    ) -> Result<Items<SharedBytes>, Fault>
        ensures { Reads (under (line_in self.now.lines.now) self.now.depth (spec.more_classes first) tokens.old) result tokens.new }
    {
        let mut classes = first;
        'turns: while let Some(next) = tokens.peek() {
            if !is_word(Word::Bar, &next.kind) {
                break;
            }
            tokens.skip(next);
            classes = self.one_class(tokens, classes)?;
        }
        Ok(classes)
    }

    /// Classes, one at least.
    #[tactic(auto, unfolding(resin_program_grammar::specs::Plain::classes))]
    pub fn classes(&self, tokens: &mut Cursor<'_, Token>) -> Result<Items<SharedBytes>, Fault>
        ensures { Reads (under (line_in self.now.lines.now) self.now.depth spec.classes tokens.old) result tokens.new }
    {
        let first = self.one_class(tokens, Items::new(self.alloc))?;
        self.more_classes(tokens, first)
    }
}
