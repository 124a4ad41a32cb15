//! `if` in the form with `:`, and `if` itself.

ghost use Rattle.std.specs.Prelude.{suc, ◌+◌, ◌<◌};
ghost use Rattle.resin_form.specs.Meaning.{reading};
ghost use Rattle.resin_form.specs.Reads.{Reads};
ghost use Rattle.resin_grammar.specs.Reading.{is_low};
ghost use Rattle.resin_program_grammar.specs.Declarations as declarations;
ghost use Rattle.resin_program_grammar.specs.Names as name;
ghost use Rattle.resin_program_grammar.specs.Statements as spec;
ghost use Rattle.resin_parse_statement.specs.Nested.{Nests, by, by_after, line_by};

use crate::branch::longer;
use crate::parser::{Nested, Parser, block, statement_of, whole_if};
use resin_form::{Cursor, Fault};
use resin_grammar::Sign;
use resin_grammar::sign::is_sign;
use resin_lex::{Boxed, Expr, Stmt, Token, TokenKind};
use resin_parse_plain::Reader;
use resin_program_grammar::word::is_word;
use resin_program_grammar::{Around, Chain, Left, Parts, Word};

impl<
    'l,
    F: Fn(Reader<'_>, &mut Cursor<'_, Token>, Nested) -> Result<(Boxed<Stmt>, Left), Fault> + Copy,
> Parser<'l, F> {
    /// `: s.. endif;`, behind `else`.
    #[tactic(auto, unfolding(resin_program_grammar::specs::Statements::last_part))]
    pub fn last_part(
        &self,
        tokens: &mut Cursor<'_, Token>,
        in_loop: bool,
        chain: Chain,
    ) -> Result<Boxed<Stmt>, Fault>
        requires { Nests self.now.reader.depth (F.pre self.now.nested) (F.post self.now.nested) }
        ensures { Reads (by self.now.reader (spec.last_part (line_by self.now.reader) in_loop chain) tokens.old) result tokens.new }
    {
        let body = self.colon_block(tokens, in_loop)?;
        self.reader.want(tokens, Word::EndIf)?;
        self.reader.want(tokens, Word::Semicolon)?;
        Ok(whole_if(self.reader.alloc, chain, Some(body))?)
    }

    /// `;`, behind `endif`.
    #[tactic(auto, unfolding(resin_program_grammar::specs::Statements::parts_ended))]
    pub fn parts_ended(
        &self,
        tokens: &mut Cursor<'_, Token>,
        chain: Chain,
    ) -> Result<Boxed<Stmt>, Fault>
        ensures { Reads (by self.now.reader (spec.parts_ended (line_by self.now.reader) chain) tokens.old) result tokens.new }
    {
        self.reader.want(tokens, Word::Semicolon)?;
        Ok(whole_if(self.reader.alloc, chain, None)?)
    }

    /// The rest of an `if` from the `:` body of a link on, in a parser inside a construct.
    #[tactic(auto, using(crate::proofs::Opened::alone_got, crate::proofs::Opened::alone_err))]
    pub fn part_within(
        &self,
        tokens: &mut Cursor<'_, Token>,
        in_loop: bool,
        chain: Chain,
        test: Expr,
    ) -> Result<Boxed<Stmt>, Fault>
        requires { Nests (self.now.reader.depth + 1) (F.pre self.now.nested) (F.post self.now.nested) }
        ensures { Reads (by self.now.reader (spec.part_from (line_by self.now.reader) in_loop chain test) tokens.old) result tokens.new }
    {
        Ok(statement_of((self.nested)(self.reader, tokens, Nested::Part(in_loop, chain, test))?))
    }

    /// `(e): s..` and the rest of the `if`, in a parser inside the link.
    #[tactic(auto, unfolding(resin_program_grammar::specs::Statements::part_link))]
    pub fn part_link(
        &self,
        tokens: &mut Cursor<'_, Token>,
        in_loop: bool,
        chain: Chain,
    ) -> Result<Boxed<Stmt>, Fault>
        requires { Nests (self.now.reader.depth + 1) (F.pre self.now.nested) (F.post self.now.nested) }
        ensures { Reads (by self.now.reader (spec.part_link (line_by self.now.reader) in_loop chain) tokens.old) result tokens.new }
    {
        let test = self.reader.condition(tokens)?;
        self.reader.expect(tokens, Sign::RightRound)?;
        self.part_within(tokens, in_loop, chain, test)
    }

    /// `(e): s..` and the rest of the `if`, in a link that opens here.
    pub fn part_link_inside(
        &self,
        tokens: &mut Cursor<'_, Token>,
        in_loop: bool,
        chain: Chain,
    ) -> Result<Boxed<Stmt>, Fault>
        requires nests { Nests self.now.reader.depth (F.pre self.now.nested) (F.post self.now.nested) }
        requires room { 0 < self.now.reader.depth }
        ensures { Reads (reading (declarations.rules (line_by self.now.reader)) is_low
            (suc self.now.reader.depth) (name.PartLink in_loop chain) tokens.old) result tokens.new }
    {
        self.inside().part_link(tokens, in_loop, chain)
    }

    /// What follows `elseif`, `else` or `endif`.
    pub fn part_word(
        &self,
        tokens: &mut Cursor<'_, Token>,
        in_loop: bool,
        chain: Chain,
        kind: &TokenKind,
    ) -> Result<Boxed<Stmt>, Fault>
        requires { Nests self.now.reader.depth (F.pre self.now.nested) (F.post self.now.nested) }
        ensures { Reads (by_after self.now.reader (spec.part_word (line_by self.now.reader) in_loop chain kind.now) tokens.old) result tokens.new }
    {
        if is_word(Word::ElseIf, kind) {
            if !self.reader.opens() {
                return Err(Fault::TooDeep);
            }
            return self.part_link_inside(tokens, in_loop, chain);
        }
        if is_word(Word::Else, kind) {
            return self.last_part(tokens, in_loop, chain);
        }
        self.parts_ended(tokens, chain)
    }

    /// `elseif`, `else` or `endif`, and the rest of the `if`.
    #[tactic(auto, unfolding(resin_program_grammar::specs::Statements::open_parts))]
    pub fn open_parts(
        &self,
        tokens: &mut Cursor<'_, Token>,
        in_loop: bool,
        chain: Chain,
    ) -> Result<Boxed<Stmt>, Fault>
        requires { Nests self.now.reader.depth (F.pre self.now.nested) (F.post self.now.nested) }
        ensures { Reads (by self.now.reader (spec.open_parts (line_by self.now.reader) in_loop chain) tokens.old) result tokens.new }
    {
        match tokens.peek() {
            Some(next)
                if is_word(Word::ElseIf, &next.kind)
                    || is_word(Word::Else, &next.kind)
                    || is_word(Word::EndIf, &next.kind) => {
                tokens.skip(next);
                self.part_word(tokens, in_loop, chain, &next.kind)
            }
            _ => Err(Fault::Syntax),
        }
    }

    /// The rest of an `if` behind the `:` body of a link.
    pub fn parts_on(
        &self,
        tokens: &mut Cursor<'_, Token>,
        in_loop: bool,
        parts: Parts,
    ) -> Result<Boxed<Stmt>, Fault>
        requires { Nests self.now.reader.depth (F.pre self.now.nested) (F.post self.now.nested) }
        ensures { Reads (by self.now.reader (spec.parts_on (line_by self.now.reader) in_loop parts) tokens.old) result tokens.new }
    {
        match parts {
            Parts::Open(chain) => self.open_parts(tokens, in_loop, chain),
            Parts::AtElse(chain) => self.last_part(tokens, in_loop, chain),
            Parts::Whole(whole) => Ok(Boxed::new(self.reader.alloc, whole)?),
        }
    }

    /// What follows the statements of a `:` body, in a parser inside it.
    pub fn part_end(
        &self,
        tokens: &mut Cursor<'_, Token>,
        in_loop: bool,
        chain: Chain,
        left: Left,
    ) -> Result<Parts, Fault>
        requires { Nests (self.now.reader.depth + 1) (F.pre self.now.nested) (F.post self.now.nested) }
        ensures { Reads (by self.now.reader (spec.part_end (line_by self.now.reader) in_loop chain left) tokens.old) result tokens.new }
    {
        match left {
            Left::Nothing => Ok(Parts::Open(chain)),
            Left::Else => Ok(Parts::AtElse(chain)),
            Left::ElseIf(test) => {
                let whole = self.part_within(tokens, in_loop, chain, test)?;
                Ok(Parts::Whole(whole.into_inner()))
            }
        }
    }

    /// The `:` body of a link behind the `:`, in a parser inside it. The condition stands in a box while the body is read.
    #[tactic(auto, unfolding(resin_program_grammar::specs::Statements::part))]
    pub fn part(
        &self,
        tokens: &mut Cursor<'_, Token>,
        in_loop: bool,
        chain: Chain,
        test: Boxed<Expr>,
        line: u32,
    ) -> Result<Parts, Fault>
        requires { Nests (self.now.reader.depth + 1) (F.pre self.now.nested) (F.post self.now.nested) }
        ensures { Reads (by self.now.reader (spec.part (line_by self.now.reader) in_loop chain test line) tokens.old) result tokens.new }
    {
        let around = Around {
            in_loop,
            in_part: true,
        };
        let (statements, left) = self.statements(tokens, around)?;
        let body = block(line, statements);
        let test = test.into_inner();
        let (chain, left) = longer(self.reader.alloc, chain, test, body, left)?;
        self.part_end(tokens, in_loop, chain, left)
    }

    /// The `:` body of a link, which opens here.
    pub fn part_inside(
        &self,
        tokens: &mut Cursor<'_, Token>,
        in_loop: bool,
        chain: Chain,
        test: Boxed<Expr>,
        line: u32,
    ) -> Result<Parts, Fault>
        requires nests { Nests self.now.reader.depth (F.pre self.now.nested) (F.post self.now.nested) }
        requires room { 0 < self.now.reader.depth }
        ensures { Reads (reading (declarations.rules (line_by self.now.reader)) is_low
            (suc self.now.reader.depth) (name.Part in_loop chain test line) tokens.old) result tokens.new }
    {
        self.inside().part(tokens, in_loop, chain, test, line)
    }

    /// The `:` body of a link.
    #[tactic(auto, unfolding(resin_program_grammar::specs::Statements::one_part))]
    pub fn one_part(
        &self,
        tokens: &mut Cursor<'_, Token>,
        in_loop: bool,
        chain: Chain,
        test: Expr,
    ) -> Result<Parts, Fault>
        requires { Nests self.now.reader.depth (F.pre self.now.nested) (F.post self.now.nested) }
        ensures { Reads (by self.now.reader (spec.one_part (line_by self.now.reader) in_loop chain test) tokens.old) result tokens.new }
    {
        let test = Boxed::new(self.reader.alloc, test)?;
        match tokens.peek() {
            Some(next) if is_sign(Sign::Colon, &next.kind) => {
                let line = self.reader.lines.line_of(next);
                tokens.skip(next);
                if !self.reader.opens() {
                    return Err(Fault::TooDeep);
                }
                self.part_inside(tokens, in_loop, chain, test, line)
            }
            _ => Err(Fault::Syntax),
        }
    }

    /// The `:` body of a link, and the rest of the `if`.
    #[tactic(auto, unfolding(resin_program_grammar::specs::Statements::part_from))]
    pub fn part_from(
        &self,
        tokens: &mut Cursor<'_, Token>,
        in_loop: bool,
        chain: Chain,
        test: Expr,
    ) -> Result<Boxed<Stmt>, Fault>
        requires { Nests self.now.reader.depth (F.pre self.now.nested) (F.post self.now.nested) }
        ensures { Reads (by self.now.reader (spec.part_from (line_by self.now.reader) in_loop chain test) tokens.old) result tokens.new }
    {
        let parts = self.one_part(tokens, in_loop, chain, test)?;
        self.parts_on(tokens, in_loop, parts)
    }

    /// The rest of an `if` behind its condition and its body, or `:`.
    pub fn if_body(
        &self,
        tokens: &mut Cursor<'_, Token>,
        around: Around,
        line: u32,
        test: Expr,
        body: Option<(Boxed<Stmt>, Left)>,
    ) -> Result<(Boxed<Stmt>, Left), Fault>
        requires { Nests self.now.reader.depth (F.pre self.now.nested) (F.post self.now.nested) }
        ensures { Reads (by self.now.reader (spec.if_body (line_by self.now.reader) around line test body) tokens.old) result tokens.new }
    {
        let chain = Chain::new(self.reader.alloc, line);
        match body {
            Some(body) => self.linked_body(tokens, around, chain, test, body),
            None => Ok((
                self.part_from(tokens, around.in_loop, chain, test)?,
                Left::Nothing,
            )),
        }
    }

    /// What follows `if`.
    #[tactic(auto, unfolding(resin_program_grammar::specs::Statements::if_form))]
    pub fn if_form(
        &self,
        tokens: &mut Cursor<'_, Token>,
        around: Around,
        line: u32,
    ) -> Result<(Boxed<Stmt>, Left), Fault>
        requires { Nests self.now.reader.depth (F.pre self.now.nested) (F.post self.now.nested) }
        ensures { Reads (by self.now.reader (spec.if_form (line_by self.now.reader) around line) tokens.old) result tokens.new }
    {
        let test = self.reader.condition(tokens)?;
        let body = self.body_follows(tokens, around)?;
        self.if_body(tokens, around, line, test, body)
    }
}
