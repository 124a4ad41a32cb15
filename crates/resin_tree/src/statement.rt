//! Statements. Each keeps the line of its first token.

use crate::expression::{Expr, Target};
use resin_items::{Boxed, Items, SharedBytes};

/// A statement that holds no other.
pub enum Simple {
    /// Text outside code.
    Inline(SharedBytes),
    /// `e;`
    Do(Expr),
    /// `echo e, ..;` or `<?= e, .. ?>`
    Echo(Items<Expr>),
    /// `return;` or `return e;`
    Return(Option<Expr>),
    /// `throw e;`
    Throw(Expr),
    Break,
    Continue,
    /// `unset(t, ..);`
    Unset(Items<Target>),
    /// `global $a, ..;`
    Global(Items<SharedBytes>),
    /// `exit;`, `exit();`, `die;` or `die();`
    Exit,
}

impl Drop for Simple {
    fn drop(self) {
        match self {
            Simple::Inline(_) => {}
            Simple::Do(_) => {}
            Simple::Echo(_) => {}
            Simple::Return(_) => {}
            Simple::Throw(_) => {}
            Simple::Break => {}
            Simple::Continue => {}
            Simple::Unset(_) => {}
            Simple::Global(_) => {}
            Simple::Exit => {}
        }
    }
}

/// A statement, and the line of its first token, from 1.
#[cycle(stmts)]
pub struct Stmt {
    pub line: u32,
    pub kind: StmtKind,
}

impl Drop for Stmt {
    #[cycle(drops_of_statements)]
    fn drop(self) {
        let Stmt { line: _, kind: _ } = self;
    }
}

/// A statement without its line.
#[cycle(stmts)]
pub enum StmtKind {
    Simple(Simple),
    /// `{ s.. }`, and `;`, which holds nothing.
    Block(Items<Stmt>),
    /// The `if` and each `elseif` or `else if` from the first on, then the statement behind `else`.
    If(Items<Branch>, Option<Boxed<Stmt>>),
    Loop(Loop),
    /// `switch (e) { .. }`
    Switch(Expr, Items<Case>),
    /// The body, the `catch` parts, and the statements of `finally`, where it is written.
    Try(Items<Stmt>, Items<Catch>, Option<Items<Stmt>>),
}

impl Drop for StmtKind {
    #[cycle(drops_of_statements)]
    fn drop(self) {
        match self {
            StmtKind::Simple(_) => {}
            StmtKind::Block(_) => {}
            StmtKind::If(_, _) => {}
            StmtKind::Loop(_) => {}
            StmtKind::Switch(_, _) => {}
            StmtKind::Try(_, _, _) => {}
        }
    }
}

/// A condition of an `if`, and what runs where it is the first that holds.
#[cycle(stmts)]
pub struct Branch {
    pub condition: Expr,
    pub body: Boxed<Stmt>,
}

impl Drop for Branch {
    #[cycle(drops_of_statements)]
    fn drop(self) {
        let Branch {
            condition: _,
            body: _,
        } = self;
    }
}

/// A loop.
#[cycle(stmts)]
pub enum Loop {
    /// `while (e) s`
    While(Expr, Boxed<Stmt>),
    /// `do s while (e);`
    DoWhile(Boxed<Stmt>, Expr),
    /// `for (e, ..; e, ..; e, ..) s`
    For(Items<Expr>, Items<Expr>, Items<Expr>, Boxed<Stmt>),
    /// `foreach (e as $k => $v) s`: the array, the variable of the key, where it is written, and that of the value.
    Foreach(Expr, Option<SharedBytes>, SharedBytes, Boxed<Stmt>),
}

impl Drop for Loop {
    #[cycle(drops_of_statements)]
    fn drop(self) {
        match self {
            Loop::While(_, _) => {}
            Loop::DoWhile(_, _) => {}
            Loop::For(_, _, _, _) => {}
            Loop::Foreach(_, _, _, _) => {}
        }
    }
}

/// A `case e:`, or `default:`, which has no condition.
#[cycle(stmts)]
pub struct Case {
    pub condition: Option<Expr>,
    pub statements: Items<Stmt>,
}

impl Drop for Case {
    #[cycle(drops_of_statements)]
    fn drop(self) {
        let Case {
            condition: _,
            statements: _,
        } = self;
    }
}

/// `catch (A | B $e) { .. }`: the classes, the variable, where it is written, and the statements.
#[cycle(stmts)]
pub struct Catch {
    pub classes: Items<SharedBytes>,
    pub variable: Option<SharedBytes>,
    pub statements: Items<Stmt>,
}

impl Drop for Catch {
    #[cycle(drops_of_statements)]
    fn drop(self) {
        let Catch {
            classes: _,
            variable: _,
            statements: _,
        } = self;
    }
}
