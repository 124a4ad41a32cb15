//! Types and parameters.

ghost use Rattle.std.specs.Prelude.{◌≡◌, suc, ◌<◌, [], ◌∷◌};
ghost use Rattle.resin_form.specs.Meaning.{reading};
ghost use Rattle.resin_form.specs.Reads.{Reads};
ghost use Rattle.resin_grammar.specs.Reading.{is_low};
ghost use Rattle.resin_program_grammar.specs.Combine.{in_round};
ghost use Rattle.resin_program_grammar.specs.Declarations as spec;
ghost use Rattle.resin_program_grammar.specs.Declarations.{rules};
ghost use Rattle.resin_program_grammar.specs.Names as name;
ghost use Rattle.resin_program_grammar.specs.Reading.{under};
ghost use Rattle.resin_parse_plain.specs.Lines.{line_in};

use crate::constant::read_constant;
use crate::reader::Reader;
use resin_form::{Cursor, Fault};
use resin_grammar::Sign;
use resin_grammar::sign::is_sign;
use resin_lex::{Constant, Items, Parameter, Token, TokenKind};
use resin_program_grammar::Word;
use resin_program_grammar::tokens::{begins_parameter, begins_type};
use resin_program_grammar::word::is_word;

impl<'l> Reader<'l> {
    /// A further name of a type.
    #[tactic(auto, unfolding(resin_program_grammar::specs::Declarations::one_type))]
    pub fn one_type(&self, tokens: &mut Cursor<'_, Token>) -> Result<(), Fault>
        ensures { Reads (under (line_in self.now.lines.now) self.now.depth spec.one_type tokens.old) result tokens.new }
    {
        let _name = self.a_name(tokens)?;
        Ok(())
    }

    /// `| T` again and again.
    pub fn more_types(&self, tokens: &mut Cursor<'_, Token>) -> Result<(), Fault>
        ensures { Reads (under (line_in self.now.lines.now) self.now.depth spec.more_types tokens.old) result tokens.new }
    {
        'turns: while let Some(next) = tokens.peek() {
            if !is_word(Word::Bar, &next.kind) {
                break;
            }
            tokens.skip(next);
            self.one_type(tokens)?;
        }
        Ok(())
    }

    /// The rest of a type behind its first token.
    #[tactic(auto, unfolding(resin_program_grammar::specs::Declarations::type_behind))]
    pub fn type_behind(&self, tokens: &mut Cursor<'_, Token>, kind: &TokenKind) -> Result<(), Fault>
        ensures { Reads (under (line_in self.now.lines.now) self.now.depth (spec.type_behind kind.now) tokens.old) result tokens.new }
    {
        if is_sign(Sign::Question, kind) {
            self.one_type(tokens)?;
        }
        self.more_types(tokens)
    }

    /// A type.
    #[tactic(auto, unfolding(resin_program_grammar::specs::Declarations::a_type))]
    pub fn a_type(&self, tokens: &mut Cursor<'_, Token>) -> Result<(), Fault>
        ensures { Reads (under (line_in self.now.lines.now) self.now.depth spec.a_type tokens.old) result tokens.new }
    {
        match tokens.peek() {
            Some(next) if begins_type(&next.kind) => {
                tokens.skip(next);
                self.type_behind(tokens, &next.kind)
            }
            _ => Err(Fault::Syntax),
        }
    }

    /// A type, or nothing.
    #[tactic(auto, unfolding(resin_program_grammar::specs::Declarations::any_type))]
    pub fn any_type(&self, tokens: &mut Cursor<'_, Token>) -> Result<(), Fault>
        ensures { Reads (under (line_in self.now.lines.now) self.now.depth spec.any_type tokens.old) result tokens.new }
    {
        match tokens.peek() {
            Some(next) if begins_type(&next.kind) => {
                tokens.skip(next);
                self.type_behind(tokens, &next.kind)
            }
            _ => Ok(()),
        }
    }

    /// `: T` behind the parameters of a function, or nothing.
    #[tactic(auto, unfolding(resin_program_grammar::specs::Declarations::result_type))]
    pub fn result_type(&self, tokens: &mut Cursor<'_, Token>) -> Result<(), Fault>
        ensures { Reads (under (line_in self.now.lines.now) self.now.depth spec.result_type tokens.old) result tokens.new }
    {
        match tokens.peek() {
            Some(next) if is_sign(Sign::Colon, &next.kind) => {
                tokens.skip(next);
                self.a_type(tokens)
            }
            _ => Ok(()),
        }
    }

    /// `= c` behind a parameter or a property, or nothing.
    #[tactic(auto, unfolding(resin_program_grammar::specs::Declarations::default))]
    pub fn default(&self, tokens: &mut Cursor<'_, Token>) -> Result<Option<Constant>, Fault>
        ensures { Reads (under (line_in self.now.lines.now) self.now.depth spec.default tokens.old) result tokens.new }
    {
        match tokens.peek() {
            Some(next) if is_sign(Sign::Assign, &next.kind) => {
                tokens.skip(next);
                Ok(Some(read_constant(*self, tokens)?))
            }
            _ => Ok(None),
        }
    }

    /// A parameter.
    #[tactic(auto, unfolding(resin_program_grammar::specs::Declarations::parameter))]
    pub fn parameter(&self, tokens: &mut Cursor<'_, Token>) -> Result<Parameter, Fault>
        ensures { Reads (under (line_in self.now.lines.now) self.now.depth spec.parameter tokens.old) result tokens.new }
    {
        self.any_type(tokens)?;
        let name = self.a_variable(tokens)?;
        let default = self.default(tokens)?;
        Ok(Parameter { name, default })
    }

    /// A parameter, put behind the others.
    #[tactic(auto, unfolding(resin_program_grammar::specs::Declarations::one_parameter))]
    pub fn one_parameter(
        &self,
        tokens: &mut Cursor<'_, Token>,
        mut parameters: Items<Parameter>,
    ) -> Result<Items<Parameter>, Fault>
        ensures { Reads (under (line_in self.now.lines.now) self.now.depth (spec.one_parameter parameters) tokens.old) result tokens.new }
    {
        let next = self.parameter(tokens)?;
        parameters.push(next)?;
        Ok(parameters)
    }

    /// `, p` again and again.
    pub fn more_parameters(
        &self,
        tokens: &mut Cursor<'_, Token>,
        first: Items<Parameter>,
    ) -> Result<Items<Parameter>, Fault>
        ensures { Reads (under (line_in self.now.lines.now) self.now.depth (spec.more_parameters first) tokens.old) result tokens.new }
    {
        let mut parameters = first;
        'turns: while let Some(next) = tokens.peek() {
            if !is_sign(Sign::Comma, &next.kind) {
                break;
            }
            tokens.skip(next);
            parameters = self.one_parameter(tokens, parameters)?;
        }
        Ok(parameters)
    }

    /// Parameters, one at least.
    #[tactic(auto, unfolding(resin_program_grammar::specs::Declarations::some_parameters))]
    fn some_parameters(&self, tokens: &mut Cursor<'_, Token>) -> Result<Items<Parameter>, Fault>
        ensures { Reads (under (line_in self.now.lines.now) self.now.depth spec.some_parameters tokens.old) result tokens.new }
    {
        let first = self.parameter(tokens)?;
        let mut parameters = Items::new(self.alloc);
        parameters.push(first)?;
        self.more_parameters(tokens, parameters)
    }

    /// Parameters, or none.
    pub fn parameters(&self, tokens: &mut Cursor<'_, Token>) -> Result<Items<Parameter>, Fault>
        ensures { Reads (under (line_in self.now.lines.now) self.now.depth spec.parameters tokens.old) result tokens.new }
    {
        match tokens.peek() {
            Some(next) if begins_parameter(next) => self.some_parameters(tokens),
            _ => Ok(Items::new(self.alloc)),
        }
    }

    /// Parameters, or none, in a construct that opens here.
    fn parameters_inside(&self, tokens: &mut Cursor<'_, Token>) -> Result<Items<Parameter>, Fault>
        requires { 0 < self.now.depth }
        ensures { Reads (reading (rules (line_in self.now.lines.now)) is_low
            (suc self.now.depth) name.FunctionParameters tokens.old) result tokens.new }
    {
        self.inside().parameters(tokens)
    }

    /// `(p, ..`, behind the name of a function.
    #[tactic(auto, unfolding(resin_program_grammar::specs::Combine::in_round))]
    pub fn in_parameters(&self, tokens: &mut Cursor<'_, Token>) -> Result<Items<Parameter>, Fault>
        ensures { Reads (under (line_in self.now.lines.now) self.now.depth (in_round name.FunctionParameters) tokens.old) result tokens.new }
    {
        match tokens.peek() {
            Some(next) if is_sign(Sign::LeftRound, &next.kind) => {
                tokens.skip(next);
                if !self.opens() {
                    return Err(Fault::TooDeep);
                }
                self.parameters_inside(tokens)
            }
            _ => Err(Fault::Syntax),
        }
    }
}
