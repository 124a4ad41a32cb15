//! What every part of the parser stands on: statements one behind the other, and bodies.

ghost use Rattle.std.specs.Prelude.{◌≡◌, suc, ◌+◌, ◌<◌, ◌&&◌, [], true, None, Some, IfOk};
ghost use Rattle.resin_form.specs.Meaning.{reading};
ghost use Rattle.resin_form.specs.Reads.{Reads, first};
ghost use Rattle.resin_grammar.specs.Reading.{is_low};
ghost use Rattle.resin_program_grammar.specs.Combine.{in_round, in_braces};
ghost use Rattle.resin_program_grammar.specs.Declarations as declarations;
ghost use Rattle.resin_program_grammar.specs.Names as name;
ghost use Rattle.resin_program_grammar.specs.Plain.{begins_statement as begins_statement_spec};
ghost use Rattle.resin_program_grammar.specs.Statements as spec;
ghost use Rattle.resin_program_grammar.specs.Trees as tree;
ghost use Rattle.resin_parse_statement.specs.Nested.{Nests, by, by_after, line_by, one_more};

use resin_form::{Cursor, Fault};
use resin_grammar::Sign;
use resin_grammar::sign::is_sign;
use resin_lex::{Boxed, Expr, Items, Stmt, StmtKind, Token};
use resin_parse_plain::Reader;
use resin_program_grammar::tokens::begins_statement;
use resin_program_grammar::word::is_word;
use resin_program_grammar::{Around, Chain, Left, Word};
use std::alloc::{AllocError, Global};

/// What nests in statements.
#[derive(Drop)]
pub enum Nested {
    /// One statement.
    Statement(Around),
    /// A link of an `if` from its condition on, with the rest of the `if`. The links so far, and whether it begins with
    /// `elseif`.
    Link(Around, Chain, bool),
    /// The `:` body of a link with this condition, and the rest of the `if`. In a loop or a `switch` or not, and the links
    /// so far.
    Part(bool, Chain, Expr),
}

/// A parser of statements, and the function that reads what nests in them.
#[derive(Clone, Copy)]
pub struct Parser<'l, F> {
    pub reader: Reader<'l>,
    pub nested: F,
}

/// In braces or a `:` body of a loop: no `else` goes out of it.
pub fn inside_of(in_loop: bool) -> Around
    ensures { result ≡ spec.inside in_loop }
{
    Around {
        in_loop,
        in_part: false,
    }
}

/// A statement that has left nothing behind. What is read of a statement stands in a box, so that the calls in which others
/// nest take little of the stack.
pub fn alone(alloc: Global, statement: Stmt) -> Result<(Boxed<Stmt>, Left), AllocError>
    ensures { IfOk result (λ read. read ≡ spec.alone statement) }
{
    Ok((Boxed::new(alloc, statement)?, Left::Nothing))
}

/// The statement that was read, without what it has left.
pub fn statement_of(read: (Boxed<Stmt>, Left)) -> Boxed<Stmt>
    ensures { result ≡ read.0 }
{
    read.0
}

/// The statements that were read, without what the last has left.
pub fn statements_of(read: (Items<Stmt>, Left)) -> Items<Stmt>
    ensures { result ≡ read.0 }
{
    read.0
}

/// The whole `if`, with the statement behind `else`, where it is written.
pub fn whole_if(
    alloc: Global,
    chain: Chain,
    other: Option<Boxed<Stmt>>,
) -> Result<Boxed<Stmt>, AllocError>
    ensures { IfOk result (λ whole. whole ≡ tree.whole chain other) }
{
    let other = match other {
        Some(other) => Some(other.into_inner()),
        None => None,
    };
    Boxed::new(alloc, chain.whole(alloc, other)?)
}

/// A block, with its line.
pub fn block(line: u32, statements: Items<Stmt>) -> Stmt
    ensures { result ≡ tree.block line statements }
{
    Stmt {
        line,
        kind: StmtKind::Block(statements),
    }
}

impl<
    'l,
    F: Fn(Reader<'_>, &mut Cursor<'_, Token>, Nested) -> Result<(Boxed<Stmt>, Left), Fault> + Copy,
> Parser<'l, F> {
    /// The parser inside a construct that opens here.
    pub fn inside(&self) -> Parser<'l, F>
        requires room { 0 < self.now.reader.depth }
        requires nests { Nests self.now.reader.depth (F.pre self.now.nested) (F.post self.now.nested) }
        ensures depth { result.reader.depth + 1 ≡ self.now.reader.depth }
        ensures lines { result.reader.lines.now ≡ self.now.reader.lines.now }
        ensures nests { Nests (result.reader.depth + 1) (F.pre result.nested) (F.post result.nested) }
        ensures fewer { Nests result.reader.depth (F.pre result.nested) (F.post result.nested) }
    {
        Parser {
            reader: self.reader.inside(),
            nested: self.nested,
        }
    }

    /// One statement, in a parser inside a construct.
    pub fn statement_within(
        &self,
        tokens: &mut Cursor<'_, Token>,
        around: Around,
    ) -> Result<(Boxed<Stmt>, Left), Fault>
        requires { Nests (self.now.reader.depth + 1) (F.pre self.now.nested) (F.post self.now.nested) }
        ensures { Reads (by self.now.reader (spec.one_statement (line_by self.now.reader) around) tokens.old) result tokens.new }
    {
        (self.nested)(self.reader, tokens, Nested::Statement(around))
    }

    /// One statement, put behind these.
    #[tactic(auto, unfolding(crate::specs::Nested::one_more))]
    pub fn one_more(
        &self,
        tokens: &mut Cursor<'_, Token>,
        around: Around,
        mut done: Items<Stmt>,
    ) -> Result<(Items<Stmt>, Left), Fault>
        requires { Nests (self.now.reader.depth + 1) (F.pre self.now.nested) (F.post self.now.nested) }
        ensures { Reads (by self.now.reader (one_more (line_by self.now.reader) around done) tokens.old) result tokens.new }
    {
        let (statement, left) = self.statement_within(tokens, around)?;
        done.push(statement.into_inner())?;
        Ok((done, left))
    }

    /// Whether nothing is left behind a statement.
    pub fn is_nothing(&self, left: &Left) -> bool
        ensures { result ≡ spec.is_nothing (line_by self.now.reader) left.now }
    {
        match left {
            Left::Nothing => true,
            Left::Else => false,
            Left::ElseIf(_) => false,
        }
    }

    /// Whether statements go on with this token behind one that has left this.
    fn goes_on(&self, left: &Left, in_loop: bool, token: &Token) -> bool
        ensures { result ≡ (spec.is_nothing (line_by self.now.reader) left.now && begins_statement_spec in_loop token.now) }
    {
        self.is_nothing(left) && begins_statement(in_loop, token)
    }

    /// Further statements behind these, until one has left something.
    pub fn more_statements(
        &self,
        tokens: &mut Cursor<'_, Token>,
        around: Around,
        first: (Items<Stmt>, Left),
    ) -> Result<(Items<Stmt>, Left), Fault>
        requires { Nests (self.now.reader.depth + 1) (F.pre self.now.nested) (F.post self.now.nested) }
        ensures { Reads (by self.now.reader (spec.more_statements (line_by self.now.reader) around first) tokens.old) result tokens.new }
    {
        let mut read = first;
        'turns: while let Some(next) = tokens.peek() {
            if !self.goes_on(&read.1, around.in_loop, next) {
                break;
            }
            read = self.one_more(tokens, around, statements_of(read))?;
        }
        Ok(read)
    }

    /// Statements one behind the other, until one has left something.
    #[tactic(auto, unfolding(resin_program_grammar::specs::Statements::statements))]
    pub fn statements(
        &self,
        tokens: &mut Cursor<'_, Token>,
        around: Around,
    ) -> Result<(Items<Stmt>, Left), Fault>
        requires { Nests (self.now.reader.depth + 1) (F.pre self.now.nested) (F.post self.now.nested) }
        ensures { Reads (by self.now.reader (spec.statements (line_by self.now.reader) around) tokens.old) result tokens.new }
    {
        self.more_statements(
            tokens,
            around,
            (Items::new(self.reader.alloc), Left::Nothing),
        )
    }

    /// Statements in braces or a `:` body of a loop.
    #[tactic(auto, unfolding(resin_program_grammar::specs::Statements::inner_statements))]
    pub fn inner_statements(
        &self,
        tokens: &mut Cursor<'_, Token>,
        in_loop: bool,
    ) -> Result<Items<Stmt>, Fault>
        requires { Nests (self.now.reader.depth + 1) (F.pre self.now.nested) (F.post self.now.nested) }
        ensures { Reads (by self.now.reader (spec.inner_statements (line_by self.now.reader) in_loop) tokens.old) result tokens.new }
    {
        Ok(statements_of(self.statements(tokens, inside_of(in_loop))?))
    }

    /// The same, in a construct that opens here.
    pub fn statements_inside(
        &self,
        tokens: &mut Cursor<'_, Token>,
        in_loop: bool,
    ) -> Result<Items<Stmt>, Fault>
        requires nests { Nests self.now.reader.depth (F.pre self.now.nested) (F.post self.now.nested) }
        requires room { 0 < self.now.reader.depth }
        ensures { Reads (reading (declarations.rules (line_by self.now.reader)) is_low
            (suc self.now.reader.depth) (name.Statements in_loop) tokens.old) result tokens.new }
    {
        self.inside().inner_statements(tokens, in_loop)
    }

    /// `{ s..`, where `}` comes next.
    #[tactic(auto, unfolding(resin_program_grammar::specs::Combine::in_braces))]
    pub fn in_statements(
        &self,
        tokens: &mut Cursor<'_, Token>,
        in_loop: bool,
    ) -> Result<Items<Stmt>, Fault>
        requires { Nests self.now.reader.depth (F.pre self.now.nested) (F.post self.now.nested) }
        ensures { Reads (by self.now.reader (in_braces (name.Statements in_loop)) tokens.old) result tokens.new }
    {
        match tokens.peek() {
            Some(next) if is_word(Word::LeftBrace, &next.kind) => {
                tokens.skip(next);
                if !self.reader.opens() {
                    return Err(Fault::TooDeep);
                }
                self.statements_inside(tokens, in_loop)
            }
            _ => Err(Fault::Syntax),
        }
    }

    /// `{ s.. }`
    #[tactic(auto, unfolding(resin_program_grammar::specs::Statements::braces))]
    pub fn braces(
        &self,
        tokens: &mut Cursor<'_, Token>,
        in_loop: bool,
    ) -> Result<Items<Stmt>, Fault>
        requires { Nests self.now.reader.depth (F.pre self.now.nested) (F.post self.now.nested) }
        ensures { Reads (by self.now.reader (spec.braces in_loop) tokens.old) result tokens.new }
    {
        let statements = self.in_statements(tokens, in_loop)?;
        self.reader.expect(tokens, Sign::RightBrace)?;
        Ok(statements)
    }

    /// The block of a `:` body.
    #[tactic(auto, unfolding(resin_program_grammar::specs::Statements::colon_block))]
    pub fn colon_block(
        &self,
        tokens: &mut Cursor<'_, Token>,
        in_loop: bool,
    ) -> Result<Boxed<Stmt>, Fault>
        requires { Nests self.now.reader.depth (F.pre self.now.nested) (F.post self.now.nested) }
        ensures { Reads (by self.now.reader (spec.colon_block (line_by self.now.reader) in_loop) tokens.old) result tokens.new }
    {
        match tokens.peek() {
            Some(next) if is_sign(Sign::Colon, &next.kind) => {
                let line = self.reader.lines.line_of(next);
                tokens.skip(next);
                if !self.reader.opens() {
                    return Err(Fault::TooDeep);
                }
                let statements = self.statements_inside(tokens, in_loop)?;
                Ok(Boxed::new(self.reader.alloc, block(line, statements))?)
            }
            _ => Err(Fault::Syntax),
        }
    }

    /// A body, whose first token is the next one, in a parser inside it.
    #[tactic(auto, unfolding(resin_program_grammar::specs::Statements::one_body, resin_program_grammar::specs::Statements::body_statement))]
    pub fn body_statement(
        &self,
        tokens: &mut Cursor<'_, Token>,
        around: Around,
        next: &Token,
    ) -> Result<(Boxed<Stmt>, Left), Fault>
        requires nests { Nests (self.now.reader.depth + 1) (F.pre self.now.nested) (F.post self.now.nested) }
        requires next { first tokens.old ≡ Some next.now }
        requires begins { begins_statement_spec around.in_loop next.now ≡ true }
        ensures { Reads (by self.now.reader (spec.one_body (line_by self.now.reader) around) tokens.old) result tokens.new }
    {
        if !is_word(Word::LeftBrace, &next.kind) {
            return self.statement_within(tokens, around);
        }
        let line = self.reader.lines.line_of(next);
        tokens.skip(next);
        let statements = self.inner_statements(tokens, around.in_loop)?;
        self.reader.expect(tokens, Sign::RightBrace)?;
        Ok(alone(self.reader.alloc, block(line, statements))?)
    }

    /// A body, or nothing where no statement begins, in a parser inside it.
    #[tactic(auto, unfolding(resin_program_grammar::specs::Statements::body))]
    pub fn body_within(
        &self,
        tokens: &mut Cursor<'_, Token>,
        around: Around,
    ) -> Result<Option<(Boxed<Stmt>, Left)>, Fault>
        requires { Nests (self.now.reader.depth + 1) (F.pre self.now.nested) (F.post self.now.nested) }
        ensures { Reads (by self.now.reader (spec.body (line_by self.now.reader) around) tokens.old) result tokens.new }
    {
        match tokens.peek() {
            Some(next) if begins_statement(around.in_loop, next) => {
                Ok(Some(self.body_statement(tokens, around, next)?))
            }
            _ => Ok(None),
        }
    }

    /// A body where no construct may open.
    #[tactic(auto, unfolding(resin_program_grammar::specs::Statements::body), using(crate::proofs::Opened::closed))]
    pub fn no_body(
        &self,
        tokens: &mut Cursor<'_, Token>,
        around: Around,
    ) -> Result<Option<(Boxed<Stmt>, Left)>, Fault>
        requires { self.now.reader.depth ≡ 0 }
        ensures { Reads (reading (declarations.rules (line_by self.now.reader)) is_low
            (suc self.now.reader.depth) (name.Body around) tokens.old) result tokens.new }
    {
        match tokens.peek() {
            Some(next) if begins_statement(around.in_loop, next) => {
                tokens.skip(next);
                Err(Fault::TooDeep)
            }
            _ => Ok(None),
        }
    }

    /// A body, or nothing where no statement begins, where a construct may open.
    pub fn body_inside(
        &self,
        tokens: &mut Cursor<'_, Token>,
        around: Around,
    ) -> Result<Option<(Boxed<Stmt>, Left)>, Fault>
        requires nests { Nests self.now.reader.depth (F.pre self.now.nested) (F.post self.now.nested) }
        requires room { 0 < self.now.reader.depth }
        ensures { Reads (reading (declarations.rules (line_by self.now.reader)) is_low
            (suc self.now.reader.depth) (name.Body around) tokens.old) result tokens.new }
    {
        self.inside().body_within(tokens, around)
    }

    /// A body, or nothing where no statement begins, behind the token before it.
    pub fn body(
        &self,
        tokens: &mut Cursor<'_, Token>,
        around: Around,
    ) -> Result<Option<(Boxed<Stmt>, Left)>, Fault>
        requires { Nests self.now.reader.depth (F.pre self.now.nested) (F.post self.now.nested) }
        ensures { Reads (reading (declarations.rules (line_by self.now.reader)) is_low
            (suc self.now.reader.depth) (name.Body around) tokens.old) result tokens.new }
    {
        if self.reader.depth == 0 {
            self.no_body(tokens, around)
        } else {
            self.body_inside(tokens, around)
        }
    }

    /// `)` and a body, or nothing where no statement begins.
    #[tactic(auto, unfolding(resin_program_grammar::specs::Statements::body_follows))]
    pub fn body_follows(
        &self,
        tokens: &mut Cursor<'_, Token>,
        around: Around,
    ) -> Result<Option<(Boxed<Stmt>, Left)>, Fault>
        requires { Nests self.now.reader.depth (F.pre self.now.nested) (F.post self.now.nested) }
        ensures { Reads (by self.now.reader (spec.body_follows around) tokens.old) result tokens.new }
    {
        match tokens.peek() {
            Some(next) if is_sign(Sign::RightRound, &next.kind) => {
                tokens.skip(next);
                self.body(tokens, around)
            }
            _ => Err(Fault::Syntax),
        }
    }
}
