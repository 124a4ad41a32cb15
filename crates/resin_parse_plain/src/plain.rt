//! Statements without others in them, behind their first tokens.

ghost use Rattle.std.specs.Prelude.{◌≡◌, suc, ◌<◌, true};
ghost use Rattle.resin_form.specs.Meaning.{reading};
ghost use Rattle.resin_form.specs.Reads.{Reads};
ghost use Rattle.resin_grammar.specs.Reading.{is_low};
ghost use Rattle.resin_program_grammar.specs.Combine.{in_round};
ghost use Rattle.resin_program_grammar.specs.Declarations.{rules};
ghost use Rattle.resin_program_grammar.specs.Names as name;
ghost use Rattle.resin_program_grammar.specs.Plain as spec;
ghost use Rattle.resin_program_grammar.specs.Reading.{under};
ghost use Rattle.resin_parse_plain.specs.Lines.{line_in};

use crate::reader::Reader;
use resin_form::{Cursor, Fault};
use resin_grammar::Sign;
use resin_grammar::sign::is_sign;
use resin_lex::{Expr, Items, Simple, Stmt, StmtKind, Target, Token};
use resin_program_grammar::tokens::begins_expression;
use resin_program_grammar::{Plain, Word};

impl<'l> Reader<'l> {
    /// A statement up to its `;`.
    #[tactic(auto, unfolding(resin_program_grammar::specs::Plain::ended))]
    pub fn ended(
        &self,
        tokens: &mut Cursor<'_, Token>,
        line: u32,
        simple: Simple,
    ) -> Result<Stmt, Fault>
        ensures { Reads (under (line_in self.now.lines.now) self.now.depth (spec.ended line simple) tokens.old) result tokens.new }
    {
        self.want(tokens, Word::Semicolon).and(Ok(Stmt {
            line,
            kind: StmtKind::Simple(simple),
        }))
    }

    /// `e, ..;`, behind `echo`.
    #[tactic(auto, unfolding(resin_program_grammar::specs::Plain::echo))]
    pub fn echo(&self, tokens: &mut Cursor<'_, Token>, line: u32) -> Result<Stmt, Fault>
        ensures { Reads (under (line_in self.now.lines.now) self.now.depth (spec.echo line) tokens.old) result tokens.new }
    {
        let values = self.expressions(tokens)?;
        self.ended(tokens, line, Simple::Echo(values))
    }

    /// `()` or nothing, behind `exit`.
    #[tactic(auto, unfolding(resin_program_grammar::specs::Plain::no_argument))]
    pub fn no_argument(&self, tokens: &mut Cursor<'_, Token>) -> Result<(), Fault>
        ensures { Reads (under (line_in self.now.lines.now) self.now.depth spec.no_argument tokens.old) result tokens.new }
    {
        match tokens.peek() {
            Some(next) if is_sign(Sign::LeftRound, &next.kind) => {
                tokens.skip(next);
                if !self.opens() {
                    return Err(Fault::TooDeep);
                }
                self.expect(tokens, Sign::RightRound)
            }
            _ => Ok(()),
        }
    }

    /// `();` or `;`, behind `exit`.
    #[tactic(auto, unfolding(resin_program_grammar::specs::Plain::exit))]
    pub fn exit(&self, tokens: &mut Cursor<'_, Token>, line: u32) -> Result<Stmt, Fault>
        ensures { Reads (under (line_in self.now.lines.now) self.now.depth (spec.exit line) tokens.old) result tokens.new }
    {
        self.no_argument(tokens)?;
        self.ended(tokens, line, Simple::Exit)
    }

    /// `$v, ..;`, behind `global`.
    #[tactic(auto, unfolding(resin_program_grammar::specs::Plain::global))]
    pub fn global(&self, tokens: &mut Cursor<'_, Token>, line: u32) -> Result<Stmt, Fault>
        ensures { Reads (under (line_in self.now.lines.now) self.now.depth (spec.global line) tokens.old) result tokens.new }
    {
        let variables = self.variables(tokens)?;
        self.ended(tokens, line, Simple::Global(variables))
    }

    /// An expression.
    #[tactic(auto, unfolding(resin_program_grammar::specs::Plain::some_expression))]
    fn some_expression(&self, tokens: &mut Cursor<'_, Token>) -> Result<Option<Expr>, Fault>
        ensures { Reads (under (line_in self.now.lines.now) self.now.depth spec.some_expression tokens.old) result tokens.new }
    {
        Ok(Some(self.expression(tokens)?))
    }

    /// An expression, or nothing.
    pub fn any_expression(&self, tokens: &mut Cursor<'_, Token>) -> Result<Option<Expr>, Fault>
        ensures { Reads (under (line_in self.now.lines.now) self.now.depth spec.any_expression tokens.old) result tokens.new }
    {
        match tokens.peek() {
            Some(next) if begins_expression(next) => self.some_expression(tokens),
            _ => Ok(None),
        }
    }

    /// `e;` or `;`, behind `return`.
    #[tactic(auto, unfolding(resin_program_grammar::specs::Plain::return_form))]
    pub fn return_form(&self, tokens: &mut Cursor<'_, Token>, line: u32) -> Result<Stmt, Fault>
        ensures { Reads (under (line_in self.now.lines.now) self.now.depth (spec.return_form line) tokens.old) result tokens.new }
    {
        let value = self.any_expression(tokens)?;
        self.ended(tokens, line, Simple::Return(value))
    }

    /// `e;`, behind `throw`.
    #[tactic(auto, unfolding(resin_program_grammar::specs::Plain::throw))]
    pub fn throw(&self, tokens: &mut Cursor<'_, Token>, line: u32) -> Result<Stmt, Fault>
        ensures { Reads (under (line_in self.now.lines.now) self.now.depth (spec.throw line) tokens.old) result tokens.new }
    {
        let value = self.expression(tokens)?;
        self.ended(tokens, line, Simple::Throw(value))
    }

    /// Targets, in a construct that opens here.
    fn targets_inside(&self, tokens: &mut Cursor<'_, Token>) -> Result<Items<Target>, Fault>
        requires { 0 < self.now.depth }
        ensures { Reads (reading (rules (line_in self.now.lines.now)) is_low (suc self.now.depth) name.Targets tokens.old) result tokens.new }
    {
        self.inside().targets(tokens)
    }

    /// `(t, ..`, behind `unset`.
    #[tactic(auto, unfolding(resin_program_grammar::specs::Combine::in_round))]
    pub fn in_unset(&self, tokens: &mut Cursor<'_, Token>) -> Result<Items<Target>, Fault>
        ensures { Reads (under (line_in self.now.lines.now) self.now.depth (in_round name.Targets) tokens.old) result tokens.new }
    {
        match tokens.peek() {
            Some(next) if is_sign(Sign::LeftRound, &next.kind) => {
                tokens.skip(next);
                if !self.opens() {
                    return Err(Fault::TooDeep);
                }
                self.targets_inside(tokens)
            }
            _ => Err(Fault::Syntax),
        }
    }

    /// `(t, ..);`, behind `unset`.
    #[tactic(auto, unfolding(resin_program_grammar::specs::Plain::unset))]
    pub fn unset(&self, tokens: &mut Cursor<'_, Token>, line: u32) -> Result<Stmt, Fault>
        ensures { Reads (under (line_in self.now.lines.now) self.now.depth (spec.unset line) tokens.old) result tokens.new }
    {
        let targets = self.in_unset(tokens)?;
        self.expect(tokens, Sign::RightRound)?;
        self.ended(tokens, line, Simple::Unset(targets))
    }

    /// The rest of a statement behind its first token.
    pub fn plain_statement(
        &self,
        tokens: &mut Cursor<'_, Token>,
        line: u32,
        plain: Plain,
    ) -> Result<Stmt, Fault>
        ensures { Reads (under (line_in self.now.lines.now) self.now.depth (spec.plain_statement line plain) tokens.old) result tokens.new }
    {
        match plain {
            Plain::Semicolon => Ok(Stmt {
                line,
                kind: StmtKind::Block(Items::new(self.alloc)),
            }),
            Plain::Break => self.ended(tokens, line, Simple::Break),
            Plain::Continue => self.ended(tokens, line, Simple::Continue),
            Plain::Echo => self.echo(tokens, line),
            Plain::Exit => self.exit(tokens, line),
            Plain::Global => self.global(tokens, line),
            Plain::Return => self.return_form(tokens, line),
            Plain::Throw => self.throw(tokens, line),
            Plain::Unset => self.unset(tokens, line),
        }
    }

    /// `e;`, on this line.
    #[tactic(auto, unfolding(resin_program_grammar::specs::Plain::done))]
    fn done(&self, tokens: &mut Cursor<'_, Token>, line: u32) -> Result<Stmt, Fault>
        ensures { Reads (under (line_in self.now.lines.now) self.now.depth (spec.done line) tokens.old) result tokens.new }
    {
        let value = self.expression(tokens)?;
        self.ended(tokens, line, Simple::Do(value))
    }

    /// `e;`
    pub fn expression_statement(&self, tokens: &mut Cursor<'_, Token>) -> Result<Stmt, Fault>
        ensures { Reads (under (line_in self.now.lines.now) self.now.depth
            (spec.whole_expression_statement (line_in self.now.lines.now)) tokens.old) result tokens.new }
    {
        match tokens.peek() {
            Some(next) if begins_expression(next) => self.done(tokens, self.lines.line_of(next)),
            _ => Err(Fault::Syntax),
        }
    }
}
