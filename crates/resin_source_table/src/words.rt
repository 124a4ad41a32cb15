//! The words by which enums are printed.
use resin_grammar::operators::{Operator, Prefix, Writing};
use resin_lex::{Combining, Comparison, ConstantName, Import, Unary};
use resin_program_grammar::{Compound, Plain};

fn combining(op: Combining) -> &'static str {
    match op {
        Combining::Multiply => "multiply",
        Combining::Divide => "divide",
        Combining::Remainder => "remainder",
        Combining::Add => "add",
        Combining::Subtract => "subtract",
        Combining::Concat => "concat",
    }
}

fn comparison(op: Comparison) -> &'static str {
    match op {
        Comparison::Less => "less",
        Comparison::LessOrEqual => "less or equal",
        Comparison::Greater => "greater",
        Comparison::GreaterOrEqual => "greater or equal",
        Comparison::Equal => "equal",
        Comparison::NotEqual => "not equal",
        Comparison::Identical => "identical",
        Comparison::NotIdentical => "not identical",
        Comparison::Compare => "compare",
    }
}

pub fn operator(op: Operator) -> &'static str {
    match op {
        Operator::Combine(op) => combining(op),
        Operator::Compare(op) => comparison(op),
        Operator::And => "and",
        Operator::Or => "or",
    }
}

pub fn prefix(prefix: Prefix) -> &'static str {
    match prefix {
        Prefix::Unary(Unary::Minus) => "minus",
        Prefix::Unary(Unary::Plus) => "plus",
        Prefix::Unary(Unary::Not) => "not",
        Prefix::Unary(Unary::ToInt) => "to int",
        Prefix::Unary(Unary::ToText) => "to text",
        Prefix::Unary(Unary::ToBool) => "to bool",
        Prefix::Increment => "increment",
        Prefix::Decrement => "decrement",
    }
}

/// An operator with `=` behind it has its own name.
pub fn writing(writing: Writing) -> &'static str {
    match writing {
        Writing::Assign => "assign",
        Writing::Compound(op) => combining(op),
        Writing::CoalesceAssign => "coalesce",
        Writing::Increment => "increment",
        Writing::Decrement => "decrement",
    }
}

pub fn import(import: Import) -> &'static str {
    match import {
        Import::Include => "include",
        Import::IncludeOnce => "include once",
        Import::Require => "require",
        Import::RequireOnce => "require once",
    }
}

pub fn constant(name: ConstantName) -> &'static str {
    match name {
        ConstantName::Null => "null",
        ConstantName::True => "true",
        ConstantName::False => "false",
        ConstantName::IntMax => "the largest int",
        ConstantName::IntMin => "the smallest int",
        ConstantName::EndOfLine => "the end of a line",
        ConstantName::FileAppend => "append to the file",
        ConstantName::PadLeft => "pad at the left",
        ConstantName::PadRight => "pad at the right",
    }
}

pub fn plain(statement: Plain) -> &'static str {
    match statement {
        Plain::Semicolon => ";",
        Plain::Break => "break",
        Plain::Continue => "continue",
        Plain::Echo => "echo",
        Plain::Exit => "exit",
        Plain::Global => "global",
        Plain::Return => "return",
        Plain::Throw => "throw",
        Plain::Unset => "unset",
    }
}

pub fn compound(statement: Compound) -> &'static str {
    match statement {
        Compound::Block => "block",
        Compound::Do => "do",
        Compound::For => "for",
        Compound::Foreach => "foreach",
        Compound::If => "if",
        Compound::Switch => "switch",
        Compound::Try => "try",
        Compound::While => "while",
    }
}

pub fn truth(truth: bool) -> &'static str {
    if truth { "true" } else { "false" }
}
