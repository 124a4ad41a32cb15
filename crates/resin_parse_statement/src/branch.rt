//! `if` without `:`: links, and what stands behind `else`.

ghost use Rattle.std.specs.Prelude.{◌≡◌, suc, ◌+◌, ◌<◌, true, None, Some, IfOk};
ghost use Rattle.resin_form.specs.Meaning.{reading};
ghost use Rattle.resin_form.specs.Reads.{Reads, first};
ghost use Rattle.resin_grammar.specs.Reading.{is_low};
ghost use Rattle.resin_program_grammar.specs.Combine.{in_round, in_braces};
ghost use Rattle.resin_program_grammar.specs.Declarations as declarations;
ghost use Rattle.resin_program_grammar.specs.Names as name;
ghost use Rattle.resin_program_grammar.specs.Plain.{begins_statement as begins_statement_spec};
ghost use Rattle.resin_program_grammar.specs.Statements as spec;
ghost use Rattle.resin_program_grammar.specs.Trees as tree;
ghost use Rattle.resin_parse_statement.specs.Nested.{Nests, by, by_after, line_by, link_end, other_body};

use crate::parser::{Nested, Parser, whole_if};
use resin_form::{Cursor, Fault};
use resin_lex::{Boxed, Expr, Stmt, Token, TokenKind};
use resin_parse_plain::Reader;
use resin_program_grammar::tokens::begins_statement;
use resin_program_grammar::word::is_word;
use resin_program_grammar::{Around, Chain, Left, Word};
use std::alloc::{AllocError, Global};

/// The whole `if`, and what its last link has left.
fn ended(alloc: Global, chain: Chain, left: Left) -> Result<(Boxed<Stmt>, Left), AllocError>
    ensures { IfOk result (λ read. read ≡ (tree.whole chain None, left)) }
{
    Ok((whole_if(alloc, chain, None)?, left))
}

/// The `if` with one link more, and what the body of the link has left.
pub fn longer(
    alloc: Global,
    mut chain: Chain,
    test: Expr,
    body: Stmt,
    left: Left,
) -> Result<(Chain, Left), AllocError>
    ensures { IfOk result (λ longer. longer ≡ (tree.longer chain test body, left)) }
{
    chain.push(alloc, test, body)?;
    Ok((chain, left))
}

impl<
    'l,
    F: Fn(Reader<'_>, &mut Cursor<'_, Token>, Nested) -> Result<(Boxed<Stmt>, Left), Fault> + Copy,
> Parser<'l, F> {
    /// A link from its condition on, with the rest of the `if`, in a parser inside it.
    pub fn link_within(
        &self,
        tokens: &mut Cursor<'_, Token>,
        around: Around,
        chain: Chain,
        may: bool,
    ) -> Result<(Boxed<Stmt>, Left), Fault>
        requires { Nests (self.now.reader.depth + 1) (F.pre self.now.nested) (F.post self.now.nested) }
        ensures { Reads (by self.now.reader (spec.link around chain may) tokens.old) result tokens.new }
    {
        (self.nested)(self.reader, tokens, Nested::Link(around, chain, may))
    }

    /// A link behind `elseif`, with the rest of the `if`.
    pub fn in_link(
        &self,
        tokens: &mut Cursor<'_, Token>,
        around: Around,
        chain: Chain,
    ) -> Result<(Boxed<Stmt>, Left), Fault>
        requires nests { Nests self.now.reader.depth (F.pre self.now.nested) (F.post self.now.nested) }
        requires room { 0 < self.now.reader.depth }
        ensures { Reads (reading (declarations.rules (line_by self.now.reader)) is_low
            (suc self.now.reader.depth) (name.Link around chain) tokens.old) result tokens.new }
    {
        self.inside().link_within(tokens, around, chain, true)
    }

    /// A body behind `else`, which ends the `if`, in a parser inside it.
    #[tactic(auto, unfolding(crate::specs::Nested::other_body))]
    pub fn other_body(
        &self,
        tokens: &mut Cursor<'_, Token>,
        around: Around,
        chain: Chain,
        next: &Token,
    ) -> Result<(Boxed<Stmt>, Left), Fault>
        requires nests { Nests (self.now.reader.depth + 1) (F.pre self.now.nested) (F.post self.now.nested) }
        requires next { first tokens.old ≡ Some next.now }
        requires begins { begins_statement_spec around.in_loop next.now ≡ true }
        ensures { Reads (by self.now.reader (other_body (line_by self.now.reader) around chain) tokens.old) result tokens.new }
    {
        let (other, left) = self.body_statement(tokens, around, next)?;
        Ok((whole_if(self.reader.alloc, chain, Some(other))?, left))
    }

    /// What ends an `if` behind `else` where neither a link nor a body stands.
    #[tactic(auto, unfolding(resin_program_grammar::specs::Combine::no_token), using(crate::proofs::Opened::refused))]
    pub fn else_end(
        &self,
        tokens: &mut Cursor<'_, Token>,
        around: Around,
        chain: Chain,
    ) -> Result<(Boxed<Stmt>, Left), Fault>
        ensures { Reads (by self.now.reader (spec.else_end (line_by self.now.reader) around chain) tokens.old) result tokens.new }
    {
        if around.in_part {
            Ok((whole_if(self.reader.alloc, chain, None)?, Left::Else))
        } else {
            let _none = &tokens;
            Err(Fault::Syntax)
        }
    }

    /// What stands behind `else`, in a parser inside it.
    #[tactic(auto, unfolding(resin_program_grammar::specs::Statements::otherwise))]
    pub fn otherwise_within(
        &self,
        tokens: &mut Cursor<'_, Token>,
        around: Around,
        chain: Chain,
    ) -> Result<(Boxed<Stmt>, Left), Fault>
        requires { Nests (self.now.reader.depth + 1) (F.pre self.now.nested) (F.post self.now.nested) }
        ensures { Reads (by self.now.reader (spec.otherwise (line_by self.now.reader) around chain) tokens.old) result tokens.new }
    {
        match tokens.peek() {
            Some(next) if begins_statement(around.in_loop, next) => {
                if is_word(Word::If, &next.kind) {
                    tokens.skip(next);
                    return self.link_within(tokens, around, chain, false);
                }
                self.other_body(tokens, around, chain, next)
            }
            _ => self.else_end(tokens, around, chain),
        }
    }

    /// What stands behind `else` where no construct may open.
    #[tactic(auto, unfolding(resin_program_grammar::specs::Statements::otherwise), using(crate::proofs::Opened::closed))]
    pub fn no_otherwise(
        &self,
        tokens: &mut Cursor<'_, Token>,
        around: Around,
        chain: Chain,
    ) -> Result<(Boxed<Stmt>, Left), Fault>
        requires { self.now.reader.depth ≡ 0 }
        ensures { Reads (reading (declarations.rules (line_by self.now.reader)) is_low
            (suc self.now.reader.depth) (name.Otherwise around chain) tokens.old) result tokens.new }
    {
        match tokens.peek() {
            Some(next) if begins_statement(around.in_loop, next) => {
                tokens.skip(next);
                Err(Fault::TooDeep)
            }
            _ => self.else_end(tokens, around, chain),
        }
    }

    /// What stands behind `else`, where a construct may open.
    pub fn otherwise_inside(
        &self,
        tokens: &mut Cursor<'_, Token>,
        around: Around,
        chain: Chain,
    ) -> Result<(Boxed<Stmt>, Left), Fault>
        requires nests { Nests self.now.reader.depth (F.pre self.now.nested) (F.post self.now.nested) }
        requires room { 0 < self.now.reader.depth }
        ensures { Reads (reading (declarations.rules (line_by self.now.reader)) is_low
            (suc self.now.reader.depth) (name.Otherwise around chain) tokens.old) result tokens.new }
    {
        self.inside().otherwise_within(tokens, around, chain)
    }

    /// What stands behind `else`, with the rest of the `if`.
    pub fn otherwise(
        &self,
        tokens: &mut Cursor<'_, Token>,
        around: Around,
        chain: Chain,
    ) -> Result<(Boxed<Stmt>, Left), Fault>
        requires { Nests self.now.reader.depth (F.pre self.now.nested) (F.post self.now.nested) }
        ensures { Reads (reading (declarations.rules (line_by self.now.reader)) is_low
            (suc self.now.reader.depth) (name.Otherwise around chain) tokens.old) result tokens.new }
    {
        if self.reader.depth == 0 {
            self.no_otherwise(tokens, around, chain)
        } else {
            self.otherwise_inside(tokens, around, chain)
        }
    }

    /// What follows `elseif` or `else` behind the body of a link.
    pub fn else_word(
        &self,
        tokens: &mut Cursor<'_, Token>,
        around: Around,
        chain: Chain,
        kind: &TokenKind,
    ) -> Result<(Boxed<Stmt>, Left), Fault>
        requires { Nests self.now.reader.depth (F.pre self.now.nested) (F.post self.now.nested) }
        ensures { Reads (by_after self.now.reader (spec.else_word around chain kind.now) tokens.old) result tokens.new }
    {
        if !is_word(Word::ElseIf, kind) {
            return self.otherwise(tokens, around, chain);
        }
        if !self.reader.opens() {
            return Err(Fault::TooDeep);
        }
        self.in_link(tokens, around, chain)
    }

    /// More links, or `else`, or nothing, behind the body of a link.
    #[tactic(auto, unfolding(resin_program_grammar::specs::Statements::chain_end))]
    pub fn chain_end(
        &self,
        tokens: &mut Cursor<'_, Token>,
        around: Around,
        chain: Chain,
    ) -> Result<(Boxed<Stmt>, Left), Fault>
        requires { Nests self.now.reader.depth (F.pre self.now.nested) (F.post self.now.nested) }
        ensures { Reads (by self.now.reader (spec.chain_end around chain) tokens.old) result tokens.new }
    {
        match tokens.peek() {
            Some(next) if is_word(Word::ElseIf, &next.kind) || is_word(Word::Else, &next.kind) => {
                tokens.skip(next);
                self.else_word(tokens, around, chain, &next.kind)
            }
            _ => Ok((whole_if(self.reader.alloc, chain, None)?, Left::Nothing)),
        }
    }

    /// The rest of an `if` behind the body of a link that has left this.
    #[tactic(auto, using(crate::proofs::Chains::something_left))]
    pub fn chain_on(
        &self,
        tokens: &mut Cursor<'_, Token>,
        around: Around,
        chain: Chain,
        left: Left,
    ) -> Result<(Boxed<Stmt>, Left), Fault>
        requires { Nests self.now.reader.depth (F.pre self.now.nested) (F.post self.now.nested) }
        ensures { Reads (by self.now.reader (spec.chain_on around chain left) tokens.old) result tokens.new }
    {
        if self.is_nothing(&left) {
            return self.chain_end(tokens, around, chain);
        }
        Ok(ended(self.reader.alloc, chain, left)?)
    }

    /// The rest of an `if` behind the condition of a link and its body.
    pub fn linked_body(
        &self,
        tokens: &mut Cursor<'_, Token>,
        around: Around,
        chain: Chain,
        test: Expr,
        body: (Boxed<Stmt>, Left),
    ) -> Result<(Boxed<Stmt>, Left), Fault>
        requires { Nests self.now.reader.depth (F.pre self.now.nested) (F.post self.now.nested) }
        ensures { Reads (by self.now.reader (spec.chain_on around (tree.longer chain test body.0) body.1) tokens.old) result tokens.new }
    {
        let (body, left) = body;
        let (chain, left) = longer(self.reader.alloc, chain, test, body.into_inner(), left)?;
        self.chain_on(tokens, around, chain, left)
    }

    /// What ends an `if` behind the condition of a link where no body stands.
    #[tactic(auto, unfolding(resin_program_grammar::specs::Combine::no_token), using(crate::proofs::Opened::refused))]
    pub fn link_end(
        &self,
        tokens: &mut Cursor<'_, Token>,
        chain: Chain,
        may: bool,
        test: Expr,
    ) -> Result<(Boxed<Stmt>, Left), Fault>
        ensures { Reads (by self.now.reader (link_end chain may test) tokens.old) result tokens.new }
    {
        if may {
            return Ok(ended(self.reader.alloc, chain, Left::ElseIf(test))?);
        }
        let _none = &tokens;
        Err(Fault::Syntax)
    }

    /// The rest of an `if` behind the condition of a link and its body, or nothing.
    pub fn linked(
        &self,
        tokens: &mut Cursor<'_, Token>,
        around: Around,
        chain: Chain,
        may: bool,
        test: Expr,
        body: Option<(Boxed<Stmt>, Left)>,
    ) -> Result<(Boxed<Stmt>, Left), Fault>
        requires { Nests self.now.reader.depth (F.pre self.now.nested) (F.post self.now.nested) }
        ensures { Reads (by self.now.reader (spec.linked around chain may test body) tokens.old) result tokens.new }
    {
        match body {
            Some(body) => self.linked_body(tokens, around, chain, test, body),
            None => self.link_end(tokens, chain, may && around.in_part, test),
        }
    }

    /// `(e) s` and the rest of the `if`.
    #[tactic(auto, unfolding(resin_program_grammar::specs::Statements::link))]
    pub fn link(
        &self,
        tokens: &mut Cursor<'_, Token>,
        around: Around,
        chain: Chain,
        may: bool,
    ) -> Result<(Boxed<Stmt>, Left), Fault>
        requires { Nests self.now.reader.depth (F.pre self.now.nested) (F.post self.now.nested) }
        ensures { Reads (by self.now.reader (spec.link around chain may) tokens.old) result tokens.new }
    {
        let test = self.reader.condition(tokens)?;
        let body = self.body_follows(tokens, around)?;
        self.linked(tokens, around, chain, may, test, body)
    }
}
