//! What stands in the brackets of `for`, `foreach` and `catch`, and behind `case`.

ghost use Rattle.std.specs.Prelude.{◌≡◌, suc, ◌<◌};
ghost use Rattle.resin_form.specs.Meaning.{reading};
ghost use Rattle.resin_form.specs.Reads.{Reads};
ghost use Rattle.resin_grammar.specs.Reading.{is_low};
ghost use Rattle.resin_program_grammar.specs.Combine.{in_round};
ghost use Rattle.resin_program_grammar.specs.Declarations.{rules};
ghost use Rattle.resin_program_grammar.specs.Names as name;
ghost use Rattle.resin_program_grammar.specs.Plain as spec;
ghost use Rattle.resin_program_grammar.specs.Reading.{under};
ghost use Rattle.resin_parse_plain.specs.Lines.{line_in};

use crate::reader::Reader;
use resin_form::{Cursor, Fault};
use resin_grammar::Sign;
use resin_grammar::sign::is_sign;
use resin_grammar::tokens::{is_variable, name_of};
use resin_lex::{Expr, Items, SharedBytes, Token, TokenKind};
use resin_program_grammar::Word;
use resin_program_grammar::word::is_word;

impl<'l> Reader<'l> {
    /// A list of expressions, which may be empty, and `;`.
    #[tactic(auto, unfolding(resin_program_grammar::specs::Plain::for_list))]
    pub fn for_list(&self, tokens: &mut Cursor<'_, Token>) -> Result<Items<Expr>, Fault>
        ensures { Reads (under (line_in self.now.lines.now) self.now.depth spec.for_list tokens.old) result tokens.new }
    {
        let expressions = self.any_expressions(tokens)?;
        self.want(tokens, Word::Semicolon)?;
        Ok(expressions)
    }

    /// The last list in the brackets of a `for`, behind the others.
    #[tactic(auto, unfolding(resin_program_grammar::specs::Plain::for_steps))]
    pub fn for_steps(
        &self,
        tokens: &mut Cursor<'_, Token>,
        first: Items<Expr>,
        tests: Items<Expr>,
    ) -> Result<(Items<Expr>, Items<Expr>, Items<Expr>), Fault>
        ensures { Reads (under (line_in self.now.lines.now) self.now.depth (spec.for_steps first tests) tokens.old) result tokens.new }
    {
        let steps = self.any_expressions(tokens)?;
        Ok((first, tests, steps))
    }

    /// `e, ..; e, ..; e, ..`
    #[tactic(auto, unfolding(resin_program_grammar::specs::Plain::for_head))]
    pub fn for_head(
        &self,
        tokens: &mut Cursor<'_, Token>,
    ) -> Result<(Items<Expr>, Items<Expr>, Items<Expr>), Fault>
        ensures { Reads (under (line_in self.now.lines.now) self.now.depth spec.for_head tokens.old) result tokens.new }
    {
        let first = self.for_list(tokens)?;
        let tests = self.for_list(tokens)?;
        self.for_steps(tokens, first, tests)
    }

    /// `e, ..; e, ..; e, ..`, in a construct that opens here.
    fn for_head_inside(
        &self,
        tokens: &mut Cursor<'_, Token>,
    ) -> Result<(Items<Expr>, Items<Expr>, Items<Expr>), Fault>
        requires { 0 < self.now.depth }
        ensures { Reads (reading (rules (line_in self.now.lines.now)) is_low (suc self.now.depth) name.ForHead tokens.old) result tokens.new }
    {
        self.inside().for_head(tokens)
    }

    /// `(e, ..; e, ..; e, ..`, behind `for`.
    #[tactic(auto, unfolding(resin_program_grammar::specs::Combine::in_round))]
    pub fn in_for(
        &self,
        tokens: &mut Cursor<'_, Token>,
    ) -> Result<(Items<Expr>, Items<Expr>, Items<Expr>), Fault>
        ensures { Reads (under (line_in self.now.lines.now) self.now.depth (in_round name.ForHead) tokens.old) result tokens.new }
    {
        match tokens.peek() {
            Some(next) if is_sign(Sign::LeftRound, &next.kind) => {
                tokens.skip(next);
                if !self.opens() {
                    return Err(Fault::TooDeep);
                }
                self.for_head_inside(tokens)
            }
            _ => Err(Fault::Syntax),
        }
    }

    /// `=> $v` or nothing, behind `e as $k`.
    #[tactic(auto, unfolding(resin_program_grammar::specs::Plain::foreach_variables))]
    pub fn foreach_variables(
        &self,
        tokens: &mut Cursor<'_, Token>,
        array: Expr,
        variable: SharedBytes,
    ) -> Result<(Expr, Option<SharedBytes>, SharedBytes), Fault>
        ensures { Reads (under (line_in self.now.lines.now) self.now.depth (spec.foreach_variables array variable) tokens.old) result tokens.new }
    {
        match tokens.peek() {
            Some(next) if is_sign(Sign::FatArrow, &next.kind) => {
                tokens.skip(next);
                let value = self.a_variable(tokens)?;
                Ok((array, Some(variable), value))
            }
            _ => Ok((array, None, variable)),
        }
    }

    /// `e as $v` or `e as $k => $v`.
    #[tactic(auto, unfolding(resin_program_grammar::specs::Plain::foreach_head))]
    pub fn foreach_head(
        &self,
        tokens: &mut Cursor<'_, Token>,
    ) -> Result<(Expr, Option<SharedBytes>, SharedBytes), Fault>
        ensures { Reads (under (line_in self.now.lines.now) self.now.depth spec.foreach_head tokens.old) result tokens.new }
    {
        let array = self.expression(tokens)?;
        self.want(tokens, Word::As)?;
        let variable = self.a_variable(tokens)?;
        self.foreach_variables(tokens, array, variable)
    }

    /// `e as $v` or `e as $k => $v`, in a construct that opens here.
    fn foreach_head_inside(
        &self,
        tokens: &mut Cursor<'_, Token>,
    ) -> Result<(Expr, Option<SharedBytes>, SharedBytes), Fault>
        requires { 0 < self.now.depth }
        ensures { Reads (reading (rules (line_in self.now.lines.now)) is_low (suc self.now.depth) name.ForeachHead tokens.old) result tokens.new }
    {
        self.inside().foreach_head(tokens)
    }

    /// `(e as $v` or `(e as $k => $v`, behind `foreach`.
    #[tactic(auto, unfolding(resin_program_grammar::specs::Combine::in_round))]
    pub fn in_foreach(
        &self,
        tokens: &mut Cursor<'_, Token>,
    ) -> Result<(Expr, Option<SharedBytes>, SharedBytes), Fault>
        ensures { Reads (under (line_in self.now.lines.now) self.now.depth (in_round name.ForeachHead) tokens.old) result tokens.new }
    {
        match tokens.peek() {
            Some(next) if is_sign(Sign::LeftRound, &next.kind) => {
                tokens.skip(next);
                if !self.opens() {
                    return Err(Fault::TooDeep);
                }
                self.foreach_head_inside(tokens)
            }
            _ => Err(Fault::Syntax),
        }
    }

    /// The variable of a `catch`, or nothing.
    #[tactic(auto, unfolding(resin_program_grammar::specs::Plain::caught))]
    pub fn caught(
        &self,
        tokens: &mut Cursor<'_, Token>,
        classes: Items<SharedBytes>,
    ) -> Result<(Items<SharedBytes>, Option<SharedBytes>), Fault>
        ensures { Reads (under (line_in self.now.lines.now) self.now.depth (spec.caught classes) tokens.old) result tokens.new }
    {
        match tokens.peek() {
            Some(next) if is_variable(&next.kind) => {
                tokens.skip(next);
                Ok((classes, Some(name_of(self.alloc, &next.kind)?)))
            }
            _ => Ok((classes, None)),
        }
    }

    /// `A | B $e` or `A | B`.
    #[tactic(auto, unfolding(resin_program_grammar::specs::Plain::catch_head))]
    pub fn catch_head(
        &self,
        tokens: &mut Cursor<'_, Token>,
    ) -> Result<(Items<SharedBytes>, Option<SharedBytes>), Fault>
        ensures { Reads (under (line_in self.now.lines.now) self.now.depth spec.catch_head tokens.old) result tokens.new }
    {
        let classes = self.classes(tokens)?;
        self.caught(tokens, classes)
    }

    /// `A | B $e` or `A | B`, in a construct that opens here.
    fn catch_head_inside(
        &self,
        tokens: &mut Cursor<'_, Token>,
    ) -> Result<(Items<SharedBytes>, Option<SharedBytes>), Fault>
        requires { 0 < self.now.depth }
        ensures { Reads (reading (rules (line_in self.now.lines.now)) is_low (suc self.now.depth) name.CatchHead tokens.old) result tokens.new }
    {
        self.inside().catch_head(tokens)
    }

    /// `(A | B $e` or `(A | B`, behind `catch`.
    #[tactic(auto, unfolding(resin_program_grammar::specs::Combine::in_round))]
    pub fn in_catch(
        &self,
        tokens: &mut Cursor<'_, Token>,
    ) -> Result<(Items<SharedBytes>, Option<SharedBytes>), Fault>
        ensures { Reads (under (line_in self.now.lines.now) self.now.depth (in_round name.CatchHead) tokens.old) result tokens.new }
    {
        match tokens.peek() {
            Some(next) if is_sign(Sign::LeftRound, &next.kind) => {
                tokens.skip(next);
                if !self.opens() {
                    return Err(Fault::TooDeep);
                }
                self.catch_head_inside(tokens)
            }
            _ => Err(Fault::Syntax),
        }
    }

    /// The value behind `case`, or nothing behind `default`.
    #[tactic(auto, unfolding(resin_program_grammar::specs::Plain::case_test))]
    pub fn case_test(
        &self,
        tokens: &mut Cursor<'_, Token>,
        kind: &TokenKind,
    ) -> Result<Option<Expr>, Fault>
        ensures { Reads (under (line_in self.now.lines.now) self.now.depth (spec.case_test kind.now) tokens.old) result tokens.new }
    {
        if is_word(Word::Default, kind) {
            Ok(None)
        } else {
            Ok(Some(self.expression(tokens)?))
        }
    }
}
