//! Expressions, in groups of a kind.

use resin_items::{Boxed, Items, SharedBytes};

/// The names of constants that stand for a value.
#[derive(Clone, Copy, PartialEq, Eq)]
pub enum ConstantName {
    Null,
    True,
    False,
    /// `PHP_INT_MAX`
    IntMax,
    /// `PHP_INT_MIN`
    IntMin,
    /// `PHP_EOL`
    EndOfLine,
    /// `FILE_APPEND`
    FileAppend,
    /// `STR_PAD_LEFT`
    PadLeft,
    /// `STR_PAD_RIGHT`
    PadRight,
}

/// What a source text spells as a value of its own.
pub enum Literal {
    Int(i64),
    /// A text without interpolation, its escapes worked out.
    Text(SharedBytes),
    Constant(ConstantName),
}

impl Drop for Literal {
    fn drop(self) {
        match self {
            Literal::Int(_) => {}
            Literal::Text(_) => {}
            Literal::Constant(_) => {}
        }
    }
}

/// An operator before one operand.
#[derive(Clone, Copy, PartialEq, Eq)]
pub enum Unary {
    Minus,
    Plus,
    Not,
    /// `(int)`
    ToInt,
    /// `(string)`
    ToText,
    /// `(bool)`
    ToBool,
}

/// An operator that makes a number or a text of two values. `+=` and its kin use these too.
#[derive(Clone, Copy, PartialEq, Eq)]
pub enum Combining {
    Multiply,
    Divide,
    Remainder,
    Add,
    Subtract,
    /// `.`
    Concat,
}

/// An operator that compares two values.
#[derive(Clone, Copy, PartialEq, Eq)]
pub enum Comparison {
    Less,
    LessOrEqual,
    Greater,
    GreaterOrEqual,
    /// `==`
    Equal,
    /// `!=` or `<>`
    NotEqual,
    /// `===`
    Identical,
    /// `!==`
    NotIdentical,
    /// `<=>`
    Compare,
}

/// The four forms that run another file.
#[derive(Clone, Copy, PartialEq, Eq)]
pub enum Import {
    Include,
    IncludeOnce,
    Require,
    RequireOnce,
}

/// An expression. Brackets round one leave no trace.
#[cycle(tree)]
pub enum Expr {
    Literal(Literal),
    /// `$v`, by its name without the `$`.
    Variable(SharedBytes),
    /// `[..]` or `array(..)`
    Array(Items<ArrayItem>),
    /// A text with interpolation: its parts in order, a stretch between them as a text literal.
    Join(Items<Expr>),
    Access(Access),
    Operation(Operation),
    Test(Test),
    Assignment(Assignment),
    Call(Call),
}

impl Drop for Expr {
    #[cycle(drops_of_expressions)]
    fn drop(self) {
        match self {
            Expr::Literal(_) => {}
            Expr::Variable(_) => {}
            Expr::Array(_) => {}
            Expr::Join(_) => {}
            Expr::Access(_) => {}
            Expr::Operation(_) => {}
            Expr::Test(_) => {}
            Expr::Assignment(_) => {}
            Expr::Call(_) => {}
        }
    }
}

/// One item of an array.
#[cycle(tree)]
pub struct ArrayItem {
    /// What stands before `=>`, where it is written.
    pub key: Option<Boxed<Expr>>,
    pub value: Boxed<Expr>,
}

impl Drop for ArrayItem {
    #[cycle(drops_of_expressions)]
    fn drop(self) {
        let ArrayItem { key: _, value: _ } = self;
    }
}

/// A part of a value that is read.
#[cycle(tree)]
pub enum Access {
    /// `a[e]`
    Index(Boxed<Expr>, Boxed<Expr>),
    /// `a->p`
    Property(Boxed<Expr>, SharedBytes),
}

impl Drop for Access {
    #[cycle(drops_of_expressions)]
    fn drop(self) {
        match self {
            Access::Index(_, _) => {}
            Access::Property(_, _) => {}
        }
    }
}

/// An operator whose operands are all evaluated.
#[cycle(tree)]
pub enum Operation {
    Unary(Unary, Boxed<Expr>),
    Combine(Combining, Boxed<Expr>, Boxed<Expr>),
    Compare(Comparison, Boxed<Expr>, Boxed<Expr>),
    /// `e instanceof C`
    InstanceOf(Boxed<Expr>, SharedBytes),
}

impl Drop for Operation {
    #[cycle(drops_of_expressions)]
    fn drop(self) {
        match self {
            Operation::Unary(_, _) => {}
            Operation::Combine(_, _, _) => {}
            Operation::Compare(_, _, _) => {}
            Operation::InstanceOf(_, _) => {}
        }
    }
}

/// A form that evaluates only what it needs, or asks whether a value is there.
#[cycle(tree)]
pub enum Test {
    /// `a && b`
    And(Boxed<Expr>, Boxed<Expr>),
    /// `a || b`
    Or(Boxed<Expr>, Boxed<Expr>),
    /// `a ?? b`
    Coalesce(Boxed<Expr>, Boxed<Expr>),
    /// `c ? a : b`
    Choice(Boxed<Expr>, Boxed<Expr>, Boxed<Expr>),
    /// `c ?: b`
    Either(Boxed<Expr>, Boxed<Expr>),
    /// `isset(t, ..)`, each operand a variable with postfixes, read as an expression.
    Isset(Items<Expr>),
    /// `empty(e)`
    Empty(Boxed<Expr>),
}

impl Drop for Test {
    #[cycle(drops_of_expressions)]
    fn drop(self) {
        match self {
            Test::And(_, _) => {}
            Test::Or(_, _) => {}
            Test::Coalesce(_, _) => {}
            Test::Choice(_, _, _) => {}
            Test::Either(_, _) => {}
            Test::Isset(_) => {}
            Test::Empty(_) => {}
        }
    }
}

/// What is assigned to, or unset: a variable and the postfixes behind it, from the left.
#[cycle(tree)]
pub struct Target {
    pub variable: SharedBytes,
    pub path: Items<PathStep>,
}

impl Drop for Target {
    #[cycle(drops_of_expressions)]
    fn drop(self) {
        let Target {
            variable: _,
            path: _,
        } = self;
    }
}

/// One postfix of a target.
#[cycle(tree)]
#[derive(Drop)]
pub enum PathStep {
    /// `[e]`
    Index(Boxed<Expr>),
    /// `[]`, the next free index. It stands only where a value is assigned by `=`.
    Append,
    /// `->p`
    Property(SharedBytes),
}

/// A form that writes to a target.
#[cycle(tree)]
pub enum Assignment {
    /// `t = e`
    Assign(Target, Boxed<Expr>),
    /// `t += e` and its kin.
    Compound(Combining, Target, Boxed<Expr>),
    /// `t ??= e`
    CoalesceAssign(Target, Boxed<Expr>),
    /// `++t`
    PreIncrement(Target),
    /// `--t`
    PreDecrement(Target),
    /// `t++`
    PostIncrement(Target),
    /// `t--`
    PostDecrement(Target),
}

impl Drop for Assignment {
    #[cycle(drops_of_expressions)]
    fn drop(self) {
        match self {
            Assignment::Assign(_, _) => {}
            Assignment::Compound(_, _, _) => {}
            Assignment::CoalesceAssign(_, _) => {}
            Assignment::PreIncrement(_) => {}
            Assignment::PreDecrement(_) => {}
            Assignment::PostIncrement(_) => {}
            Assignment::PostDecrement(_) => {}
        }
    }
}

/// A form that runs code of another place.
#[cycle(tree)]
pub enum Call {
    /// `f(args)`, by the name as it is written.
    Function(SharedBytes, Items<Expr>),
    /// `a->m(args)`
    Method(Boxed<Expr>, SharedBytes, Items<Expr>),
    /// `parent::m(args)`
    Parent(SharedBytes, Items<Expr>),
    /// `new C(args)`, or `new C`, which has no arguments.
    New(SharedBytes, Items<Expr>),
    /// `include e` and its kin.
    Import(Import, Boxed<Expr>),
}

impl Drop for Call {
    #[cycle(drops_of_expressions)]
    fn drop(self) {
        match self {
            Call::Function(_, _) => {}
            Call::Method(_, _, _) => {}
            Call::Parent(_, _) => {}
            Call::New(_, _) => {}
            Call::Import(_, _) => {}
        }
    }
}
