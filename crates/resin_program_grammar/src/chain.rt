//! What stands around a statement, and an `if` while it is read.

ghost use Rattle.std.specs.Prelude.{◌≡◌, IfOk, OnOk, OnErr};
ghost use Rattle.resin_program_grammar.specs.Trees as tree;

use resin_lex::{Boxed, Branch, Expr, Items, Stmt, StmtKind};
use std::alloc::{AllocError, Global};

/// What stands around a statement.
#[derive(Clone, Copy)]
pub struct Around {
    /// A loop or a `switch`, so that `break` and `continue` may stand.
    pub in_loop: bool,
    /// The `:` body of an `if`, with nothing between but statements without braces, so that an `else` or an `elseif`
    /// before `:` belongs to it.
    pub in_part: bool,
}

/// What a statement has read behind its end, of a link that belongs to an `if` around it, whose `:` comes next.
#[derive(Drop)]
pub enum Left {
    Nothing,
    /// `else`
    Else,
    /// `elseif (e)`
    ElseIf(Expr),
}

/// An `if` that is being read: the line of its first token, and the links so far.
#[derive(Drop)]
pub struct Chain {
    pub line: u32,
    pub branches: Items<Branch>,
}

/// How far an `if` in the form with `:` has been read behind the body of a link.
#[derive(Drop)]
pub enum Parts {
    /// Another link, `else` or `endif` comes next.
    Open(Chain),
    /// `else` has been read, and `:` comes next.
    AtElse(Chain),
    /// It has been read to its end.
    Whole(Stmt),
}

impl Chain {
    /// An `if` before its first link.
    pub fn new(alloc: Global, line: u32) -> Chain
        ensures { result ≡ tree.chain line }
    {
        Chain {
            line,
            branches: Items::new(alloc),
        }
    }

    /// Puts a link last. Where memory is wanted the chain is as before.
    pub fn push(&mut self, alloc: Global, condition: Expr, body: Stmt) -> Result<(), AllocError>
        ensures ok { OnOk result (self.new ≡ tree.longer self.old condition body) }
        ensures err { OnErr result (self.new ≡ self.old) }
    {
        let body = Boxed::new(alloc, body)?;
        self.branches.push(Branch { condition, body })
    }

    /// The whole `if`, with the statement behind `else`, where it is written.
    pub fn whole(self, alloc: Global, other: Option<Stmt>) -> Result<Stmt, AllocError>
        ensures { IfOk result (λ s. s ≡ tree.whole self other) }
    {
        let Chain { line, branches } = self;
        let other = match other {
            Some(other) => Some(Boxed::new(alloc, other)?),
            None => None,
        };
        Ok(Stmt {
            line,
            kind: StmtKind::If(branches, other),
        })
    }
}
