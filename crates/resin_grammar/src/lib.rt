//! The grammar of the language as data, and what a parser of it stands on.
//!
//! `specs/Operators.antt` has the table of operators with their levels, `specs/Expressions.antt` the forms of
//! expressions, level by level, and `specs/Heights.antt` how high a tree is. The code here has the tests of tokens that
//! the forms make, and trees that know their heights.
#![tactic(auto)]

ghost use Rattle.std.specs.Prelude.{◌≡◌, List, ◌++◌};
ghost use Rattle.resin_form.specs.Meaning.{IsFront, IsTree};
ghost use Rattle.resin_lex.specs.declared.token.Token.{Token};
ghost use Rattle.resin_tree.specs.declared.expression.Expr.{Expr};
ghost use Rattle.resin_grammar.specs.Expressions.{rules, expression};

pub mod operators;
pub mod place;
pub mod sign;
pub mod tall;
pub mod tokens;

pub use operators::{Operator, Prefix, Writing};
pub use place::{Operand, TallPlace};
pub use sign::Sign;
pub use tall::{Pairs, Tall, Trees};

/// A law of the grammar: a list of tokens is one expression at most, and what a front of an expression begins with is
/// a front too.
pub fn expressions_are_read_one_way()
    ensures one_tree { (w : List Token) (x y : Expr) → IsTree rules expression w x → IsTree rules expression w y → x ≡ y }
    ensures fronts { (u more : List Token) → IsFront rules expression (u ++ more) → IsFront rules expression u }
{}
