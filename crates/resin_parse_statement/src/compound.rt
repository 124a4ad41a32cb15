//! Statements with others in them, behind their first tokens, and any statement.

ghost use Rattle.std.specs.Prelude.{◌≡◌, suc, ◌+◌, ◌<◌, ◌||◌};
ghost use Rattle.resin_form.specs.Meaning.{reading};
ghost use Rattle.resin_form.specs.Reads.{Reads};
ghost use Rattle.resin_grammar.specs.Reading.{is_low};
ghost use Rattle.resin_program_grammar.specs.Combine.{condition, in_braces};
ghost use Rattle.resin_program_grammar.specs.Declarations as declarations;
ghost use Rattle.resin_program_grammar.specs.Names as name;
ghost use Rattle.resin_program_grammar.specs.Plain.{plain_statement as plain_statement_spec, whole_expression_statement};
ghost use Rattle.resin_program_grammar.specs.Statements as spec;
ghost use Rattle.resin_program_grammar.specs.Trees as tree;
ghost use Rattle.resin_program_grammar.specs.Words.{is_word as is_word_of};
ghost use Rattle.resin_program_grammar.specs.declared.word.Word.TheVariants as w;
ghost use Rattle.resin_tree.specs.declared.statement.Simple.TheVariants as simple;
ghost use Rattle.resin_parse_statement.specs.Nested.{Nests, by, by_after, inline_form, line_by};

use crate::parser::{Nested, Parser, alone, block, inside_of, statement_of};
use resin_form::{Cursor, Fault};
use resin_grammar::Sign;
use resin_grammar::sign::is_sign;
use resin_lex::{
    Boxed, Case, Catch, Expr, Items, Loop, SharedBytes, Simple, Stmt, StmtKind, Token, TokenKind,
};
use resin_parse_plain::Reader;
use resin_program_grammar::lead::{compound_of, plain_of};
use resin_program_grammar::tokens::{begins_statement, is_inline};
use resin_program_grammar::word::is_word;
use resin_program_grammar::{Around, Compound, Left, Plain, Word};

/// A body of a loop.
fn looping(around: Around) -> Around
    ensures { result ≡ spec.looping around }
{
    Around {
        in_loop: true,
        in_part: around.in_part,
    }
}

/// Whether a token is `case` or `default`.
fn is_case(kind: &TokenKind) -> bool
    ensures { result ≡ (is_word_of w.Case kind.now || is_word_of w.Default kind.now) }
{
    is_word(Word::Case, kind) || is_word(Word::Default, kind)
}

/// Text outside code.
fn inline(line: u32, text: SharedBytes) -> Stmt
    ensures { result ≡ tree.simple line (simple.Inline text) }
{
    Stmt {
        line,
        kind: StmtKind::Simple(Simple::Inline(text)),
    }
}

/// A loop with its line.
fn loop_statement(line: u32, inner: Loop) -> Stmt
    ensures { result ≡ tree.loop line inner }
{
    Stmt {
        line,
        kind: StmtKind::Loop(inner),
    }
}

impl<
    'l,
    F: Fn(Reader<'_>, &mut Cursor<'_, Token>, Nested) -> Result<(Boxed<Stmt>, Left), Fault> + Copy,
> Parser<'l, F> {
    /// A loop's body: one statement, or `:` and statements up to this word and `;`.
    pub fn loop_body(
        &self,
        tokens: &mut Cursor<'_, Token>,
        ends: Word,
        body: Option<(Boxed<Stmt>, Left)>,
    ) -> Result<(Boxed<Stmt>, Left), Fault>
        requires { Nests self.now.reader.depth (F.pre self.now.nested) (F.post self.now.nested) }
        ensures { Reads (by self.now.reader (spec.loop_body (line_by self.now.reader) ends body) tokens.old) result tokens.new }
    {
        match body {
            Some(body) => Ok(body),
            None => {
                let body = self.colon_block(tokens, true)?;
                self.reader.want(tokens, ends)?;
                self.reader.want(tokens, Word::Semicolon)?;
                Ok((body, Left::Nothing))
            }
        }
    }

    /// `(e`, where `)` comes next. The expression stands in a box while what follows it is read.
    fn boxed_condition(&self, tokens: &mut Cursor<'_, Token>) -> Result<Boxed<Expr>, Fault>
        ensures { Reads (by self.now.reader condition tokens.old) result tokens.new }
    {
        let test = self.reader.condition(tokens)?;
        Ok(Boxed::new(self.reader.alloc, test)?)
    }

    /// What follows `while`.
    #[tactic(auto, unfolding(resin_program_grammar::specs::Statements::while_form))]
    pub fn while_form(
        &self,
        tokens: &mut Cursor<'_, Token>,
        around: Around,
        line: u32,
    ) -> Result<(Boxed<Stmt>, Left), Fault>
        requires { Nests self.now.reader.depth (F.pre self.now.nested) (F.post self.now.nested) }
        ensures { Reads (by self.now.reader (spec.while_form (line_by self.now.reader) around line) tokens.old) result tokens.new }
    {
        let test = self.boxed_condition(tokens)?;
        let body = self.body_follows(tokens, looping(around))?;
        let (body, left) = self.loop_body(tokens, Word::EndWhile, body)?;
        let whole = loop_statement(line, Loop::While(test.into_inner(), body));
        Ok((Boxed::new(self.reader.alloc, whole)?, left))
    }

    /// What follows `for`.
    #[tactic(auto, unfolding(resin_program_grammar::specs::Statements::for_form))]
    pub fn for_form(
        &self,
        tokens: &mut Cursor<'_, Token>,
        around: Around,
        line: u32,
    ) -> Result<(Boxed<Stmt>, Left), Fault>
        requires { Nests self.now.reader.depth (F.pre self.now.nested) (F.post self.now.nested) }
        ensures { Reads (by self.now.reader (spec.for_form (line_by self.now.reader) around line) tokens.old) result tokens.new }
    {
        let (first, tests, steps) = self.reader.in_for(tokens)?;
        let body = self.body_follows(tokens, looping(around))?;
        let (body, left) = self.loop_body(tokens, Word::EndFor, body)?;
        let whole = loop_statement(line, Loop::For(first, tests, steps, body));
        Ok((Boxed::new(self.reader.alloc, whole)?, left))
    }

    /// What follows `foreach`.
    #[tactic(auto, unfolding(resin_program_grammar::specs::Statements::foreach_form))]
    pub fn foreach_form(
        &self,
        tokens: &mut Cursor<'_, Token>,
        around: Around,
        line: u32,
    ) -> Result<(Boxed<Stmt>, Left), Fault>
        requires { Nests self.now.reader.depth (F.pre self.now.nested) (F.post self.now.nested) }
        ensures { Reads (by self.now.reader (spec.foreach_form (line_by self.now.reader) around line) tokens.old) result tokens.new }
    {
        let (array, key, value) = self.reader.in_foreach(tokens)?;
        let array = Boxed::new(self.reader.alloc, array)?;
        let body = self.body_follows(tokens, looping(around))?;
        let (body, left) = self.loop_body(tokens, Word::EndForeach, body)?;
        let whole = loop_statement(line, Loop::Foreach(array.into_inner(), key, value, body));
        Ok((Boxed::new(self.reader.alloc, whole)?, left))
    }

    /// What follows the body of a `do`.
    #[tactic(auto, unfolding(resin_program_grammar::specs::Combine::no_token), using(crate::proofs::Opened::refused))]
    pub fn do_end(
        &self,
        tokens: &mut Cursor<'_, Token>,
        line: u32,
        body: Option<(Boxed<Stmt>, Left)>,
    ) -> Result<(Boxed<Stmt>, Left), Fault>
        ensures { Reads (by self.now.reader (spec.do_end line body) tokens.old) result tokens.new }
    {
        let Some(read) = body else {
            return Err(Fault::Syntax);
        };
        let body = statement_of(read);
        self.reader.want(tokens, Word::While)?;
        let test = self.boxed_condition(tokens)?;
        self.reader.expect(tokens, Sign::RightRound)?;
        self.reader.want(tokens, Word::Semicolon)?;
        let whole = loop_statement(line, Loop::DoWhile(body, test.into_inner()));
        Ok(alone(self.reader.alloc, whole)?)
    }

    /// What follows `do`.
    #[tactic(auto, unfolding(resin_program_grammar::specs::Statements::do_form))]
    pub fn do_form(
        &self,
        tokens: &mut Cursor<'_, Token>,
        line: u32,
    ) -> Result<(Boxed<Stmt>, Left), Fault>
        requires { Nests self.now.reader.depth (F.pre self.now.nested) (F.post self.now.nested) }
        ensures { Reads (by_after self.now.reader (spec.do_form line) tokens.old) result tokens.new }
    {
        let body = self.body(tokens, inside_of(true))?;
        self.do_end(tokens, line, body)
    }

    /// A `case` or a `default` behind its word, put behind the others, in a parser inside the braces.
    #[tactic(auto, unfolding(resin_program_grammar::specs::Statements::case_after))]
    pub fn case_after(
        &self,
        tokens: &mut Cursor<'_, Token>,
        mut cases: Items<Case>,
        kind: &TokenKind,
    ) -> Result<Items<Case>, Fault>
        requires { Nests (self.now.reader.depth + 1) (F.pre self.now.nested) (F.post self.now.nested) }
        ensures { Reads (by self.now.reader (spec.case_after (line_by self.now.reader) cases kind.now) tokens.old) result tokens.new }
    {
        let condition = self.reader.case_test(tokens, kind)?;
        let condition = Boxed::new(self.reader.alloc, condition)?;
        self.reader.expect(tokens, Sign::Colon)?;
        let statements = self.inner_statements(tokens, true)?;
        cases.push(Case {
            condition: condition.into_inner(),
            statements,
        })?;
        Ok(cases)
    }

    /// The cases of a `switch`, in a parser inside the braces, put behind these.
    pub fn more_cases(
        &self,
        tokens: &mut Cursor<'_, Token>,
        first: Items<Case>,
    ) -> Result<Items<Case>, Fault>
        requires { Nests (self.now.reader.depth + 1) (F.pre self.now.nested) (F.post self.now.nested) }
        ensures { Reads (by self.now.reader (spec.more_cases (line_by self.now.reader) first) tokens.old) result tokens.new }
    {
        let mut cases = first;
        'turns: while let Some(next) = tokens.peek() {
            if !is_case(&next.kind) {
                break;
            }
            tokens.skip(next);
            cases = self.case_after(tokens, cases, &next.kind)?;
        }
        Ok(cases)
    }

    /// The cases of a `switch`, in a parser inside the braces.
    #[tactic(auto, unfolding(resin_program_grammar::specs::Statements::cases))]
    pub fn cases(&self, tokens: &mut Cursor<'_, Token>) -> Result<Items<Case>, Fault>
        requires { Nests (self.now.reader.depth + 1) (F.pre self.now.nested) (F.post self.now.nested) }
        ensures { Reads (by self.now.reader (spec.cases (line_by self.now.reader)) tokens.old) result tokens.new }
    {
        self.more_cases(tokens, Items::new(self.reader.alloc))
    }

    /// The cases of a `switch`, in braces that open here.
    pub fn cases_inside(&self, tokens: &mut Cursor<'_, Token>) -> Result<Items<Case>, Fault>
        requires nests { Nests self.now.reader.depth (F.pre self.now.nested) (F.post self.now.nested) }
        requires room { 0 < self.now.reader.depth }
        ensures { Reads (reading (declarations.rules (line_by self.now.reader)) is_low
            (suc self.now.reader.depth) (name.Cases) tokens.old) result tokens.new }
    {
        self.inside().cases(tokens)
    }

    /// `{` and the cases of a `switch`.
    #[tactic(auto, unfolding(resin_program_grammar::specs::Combine::in_braces))]
    pub fn in_cases(&self, tokens: &mut Cursor<'_, Token>) -> Result<Items<Case>, Fault>
        requires { Nests self.now.reader.depth (F.pre self.now.nested) (F.post self.now.nested) }
        ensures { Reads (by self.now.reader (in_braces name.Cases) tokens.old) result tokens.new }
    {
        match tokens.peek() {
            Some(next) if is_word(Word::LeftBrace, &next.kind) => {
                tokens.skip(next);
                if !self.reader.opens() {
                    return Err(Fault::TooDeep);
                }
                self.cases_inside(tokens)
            }
            _ => Err(Fault::Syntax),
        }
    }

    /// What follows `switch`.
    #[tactic(auto, unfolding(resin_program_grammar::specs::Statements::switch))]
    pub fn switch(&self, tokens: &mut Cursor<'_, Token>, line: u32) -> Result<Stmt, Fault>
        requires { Nests self.now.reader.depth (F.pre self.now.nested) (F.post self.now.nested) }
        ensures { Reads (by self.now.reader (spec.switch line) tokens.old) result tokens.new }
    {
        let subject = self.boxed_condition(tokens)?;
        self.reader.expect(tokens, Sign::RightRound)?;
        let cases = self.in_cases(tokens)?;
        self.reader.expect(tokens, Sign::RightBrace)?;
        Ok(Stmt {
            line,
            kind: StmtKind::Switch(subject.into_inner(), cases),
        })
    }

    /// What follows `catch`, put behind the others.
    #[tactic(auto, unfolding(resin_program_grammar::specs::Statements::catch_part))]
    pub fn catch_part(
        &self,
        tokens: &mut Cursor<'_, Token>,
        in_loop: bool,
        mut catches: Items<Catch>,
    ) -> Result<Items<Catch>, Fault>
        requires { Nests self.now.reader.depth (F.pre self.now.nested) (F.post self.now.nested) }
        ensures { Reads (by self.now.reader (spec.catch_part in_loop catches) tokens.old) result tokens.new }
    {
        let (classes, variable) = self.reader.in_catch(tokens)?;
        self.reader.expect(tokens, Sign::RightRound)?;
        let statements = self.braces(tokens, in_loop)?;
        catches.push(Catch {
            classes,
            variable,
            statements,
        })?;
        Ok(catches)
    }

    /// The `catch` parts of a `try`, put behind these.
    pub fn more_catches(
        &self,
        tokens: &mut Cursor<'_, Token>,
        in_loop: bool,
        first: Items<Catch>,
    ) -> Result<Items<Catch>, Fault>
        requires { Nests self.now.reader.depth (F.pre self.now.nested) (F.post self.now.nested) }
        ensures { Reads (by self.now.reader (spec.more_catches in_loop first) tokens.old) result tokens.new }
    {
        let mut catches = first;
        'turns: while let Some(next) = tokens.peek() {
            if !is_word(Word::Catch, &next.kind) {
                break;
            }
            tokens.skip(next);
            catches = self.catch_part(tokens, in_loop, catches)?;
        }
        Ok(catches)
    }

    /// The `catch` parts of a `try`.
    #[tactic(auto, unfolding(resin_program_grammar::specs::Statements::catches))]
    pub fn catches(
        &self,
        tokens: &mut Cursor<'_, Token>,
        in_loop: bool,
    ) -> Result<Items<Catch>, Fault>
        requires { Nests self.now.reader.depth (F.pre self.now.nested) (F.post self.now.nested) }
        ensures { Reads (by self.now.reader (spec.catches in_loop) tokens.old) result tokens.new }
    {
        self.more_catches(tokens, in_loop, Items::new(self.reader.alloc))
    }

    /// What follows `finally`.
    #[tactic(auto, unfolding(resin_program_grammar::specs::Statements::finally_part))]
    pub fn finally_part(
        &self,
        tokens: &mut Cursor<'_, Token>,
        in_loop: bool,
    ) -> Result<Option<Items<Stmt>>, Fault>
        requires { Nests self.now.reader.depth (F.pre self.now.nested) (F.post self.now.nested) }
        ensures { Reads (by self.now.reader (spec.finally_part in_loop) tokens.old) result tokens.new }
    {
        Ok(Some(self.braces(tokens, in_loop)?))
    }

    /// The `finally` of a `try`, which may be missing where a `catch` stands.
    #[tactic(auto, unfolding(resin_program_grammar::specs::Combine::wants))]
    pub fn finally(
        &self,
        tokens: &mut Cursor<'_, Token>,
        in_loop: bool,
        catches: &Items<Catch>,
    ) -> Result<Option<Items<Stmt>>, Fault>
        requires { Nests self.now.reader.depth (F.pre self.now.nested) (F.post self.now.nested) }
        ensures { Reads (by self.now.reader (spec.finally in_loop catches.now) tokens.old) result tokens.new }
    {
        match tokens.peek() {
            Some(next) if is_word(Word::Finally, &next.kind) => {
                tokens.skip(next);
                self.finally_part(tokens, in_loop)
            }
            _ => {
                if catches.is_empty() {
                    Err(Fault::Syntax)
                } else {
                    Ok(None)
                }
            }
        }
    }

    /// What follows `try`.
    #[tactic(auto, unfolding(resin_program_grammar::specs::Statements::try_form))]
    pub fn try_form(
        &self,
        tokens: &mut Cursor<'_, Token>,
        in_loop: bool,
        line: u32,
    ) -> Result<Stmt, Fault>
        requires { Nests self.now.reader.depth (F.pre self.now.nested) (F.post self.now.nested) }
        ensures { Reads (by self.now.reader (spec.try_form in_loop line) tokens.old) result tokens.new }
    {
        let statements = self.braces(tokens, in_loop)?;
        let catches = self.catches(tokens, in_loop)?;
        let last = self.finally(tokens, in_loop, &catches)?;
        Ok(Stmt {
            line,
            kind: StmtKind::Try(statements, catches, last),
        })
    }

    /// What follows `{`.
    #[tactic(auto, unfolding(resin_program_grammar::specs::Statements::block_form))]
    pub fn block_form(
        &self,
        tokens: &mut Cursor<'_, Token>,
        in_loop: bool,
        line: u32,
    ) -> Result<(Boxed<Stmt>, Left), Fault>
        requires { Nests self.now.reader.depth (F.pre self.now.nested) (F.post self.now.nested) }
        ensures { Reads (by_after self.now.reader (spec.block_form (line_by self.now.reader) in_loop line) tokens.old) result tokens.new }
    {
        if !self.reader.opens() {
            return Err(Fault::TooDeep);
        }
        let statements = self.statements_inside(tokens, in_loop)?;
        self.reader.expect(tokens, Sign::RightBrace)?;
        Ok(alone(self.reader.alloc, block(line, statements))?)
    }

    /// A statement with others in it, behind its first token.
    #[tactic(auto, unfolding(resin_program_grammar::specs::Statements::left_nothing))]
    pub fn compound_statement(
        &self,
        tokens: &mut Cursor<'_, Token>,
        around: Around,
        line: u32,
        compound: Compound,
    ) -> Result<(Boxed<Stmt>, Left), Fault>
        requires { Nests self.now.reader.depth (F.pre self.now.nested) (F.post self.now.nested) }
        ensures { Reads (by_after self.now.reader (spec.compound_statement (line_by self.now.reader) around line compound) tokens.old)
            result tokens.new }
    {
        match compound {
            Compound::Block => self.block_form(tokens, around.in_loop, line),
            Compound::Do => self.do_form(tokens, line),
            Compound::For => self.for_form(tokens, around, line),
            Compound::Foreach => self.foreach_form(tokens, around, line),
            Compound::If => self.if_form(tokens, around, line),
            Compound::Switch => Ok(alone(self.reader.alloc, self.switch(tokens, line)?)?),
            Compound::Try => Ok(alone(
                self.reader.alloc,
                self.try_form(tokens, around.in_loop, line)?,
            )?),
            Compound::While => self.while_form(tokens, around, line),
        }
    }

    /// Text outside code.
    #[tactic(auto, unfolding(crate::specs::Nested::inline_form))]
    fn inline(&self, tokens: &mut Cursor<'_, Token>) -> Result<Stmt, Fault>
        ensures { Reads (by self.now.reader (inline_form (line_by self.now.reader)) tokens.old) result tokens.new }
    {
        let Some(next) = tokens.peek() else {
            return Err(Fault::Syntax);
        };
        match &next.kind {
            TokenKind::Inline(text) => {
                let line = self.reader.lines.line_of(next);
                tokens.skip(next);
                Ok(inline(line, text.clone()?))
            }
            _ => Err(Fault::Syntax),
        }
    }

    #[tactic(auto, unfolding(resin_program_grammar::specs::Statements::left_nothing))]
    fn inline_statement(&self, tokens: &mut Cursor<'_, Token>) -> Result<(Boxed<Stmt>, Left), Fault>
        ensures { Reads (by self.now.reader (spec.left_nothing (line_by self.now.reader) (inline_form (line_by self.now.reader))) tokens.old)
            result tokens.new }
    {
        Ok(alone(self.reader.alloc, self.inline(tokens)?)?)
    }

    #[tactic(auto, unfolding(resin_program_grammar::specs::Statements::left_nothing))]
    fn plain_statement(
        &self,
        tokens: &mut Cursor<'_, Token>,
        line: u32,
        plain: Plain,
    ) -> Result<(Boxed<Stmt>, Left), Fault>
        ensures { Reads (by self.now.reader (spec.left_nothing (line_by self.now.reader) (plain_statement_spec line plain)) tokens.old)
            result tokens.new }
    {
        let statement = self.reader.plain_statement(tokens, line, plain)?;
        Ok(alone(self.reader.alloc, statement)?)
    }

    #[tactic(auto, unfolding(resin_program_grammar::specs::Statements::left_nothing))]
    fn expression_statement(
        &self,
        tokens: &mut Cursor<'_, Token>,
    ) -> Result<(Boxed<Stmt>, Left), Fault>
        ensures { Reads (by self.now.reader
            (spec.left_nothing (line_by self.now.reader) (whole_expression_statement (line_by self.now.reader))) tokens.old)
            result tokens.new }
    {
        let statement = self.reader.expression_statement(tokens)?;
        Ok(alone(self.reader.alloc, statement)?)
    }

    /// One statement.
    #[tactic(auto, unfolding(resin_program_grammar::specs::Statements::one_statement))]
    pub fn one_statement(
        &self,
        tokens: &mut Cursor<'_, Token>,
        around: Around,
    ) -> Result<(Boxed<Stmt>, Left), Fault>
        requires { Nests self.now.reader.depth (F.pre self.now.nested) (F.post self.now.nested) }
        ensures { Reads (by self.now.reader (spec.one_statement (line_by self.now.reader) around) tokens.old) result tokens.new }
    {
        match tokens.peek() {
            Some(next) if begins_statement(around.in_loop, next) => {
                if is_inline(&next.kind) {
                    return self.inline_statement(tokens);
                }
                let line = self.reader.lines.line_of(next);
                if let Some(plain) = plain_of(around.in_loop, &next.kind) {
                    tokens.skip(next);
                    return self.plain_statement(tokens, line, plain);
                }
                match compound_of(&next.kind) {
                    Some(compound) => {
                        tokens.skip(next);
                        self.compound_statement(tokens, around, line, compound)
                    }
                    None => self.expression_statement(tokens),
                }
            }
            _ => Err(Fault::Syntax),
        }
    }
}
