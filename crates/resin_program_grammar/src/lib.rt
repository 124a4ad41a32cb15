//! The grammar of whole programs as data, over that of expressions, and what a parser of it stands on.
//!
//! `specs/Statements.antt` has the forms of statements, `specs/Declarations.antt` those of functions, classes and
//! constant expressions, and `specs/Programs.antt` what a source text is: a program, or none with its fault place. The
//! code here has the tests of tokens that the forms make, and the statements that they make of their parts.
#![tactic(auto)]

ghost use Rattle.std.specs.Prelude.{◌≡◌, ℕ, List, ◌++◌};
ghost use Rattle.resin_form.specs.Meaning.{IsFront, IsTree};
ghost use Rattle.resin_lex.specs.declared.token.Token.{Token};
ghost use Rattle.resin_tree.specs.declared.declaration.Program.{Program};
ghost use Rattle.resin_program_grammar.specs.Declarations.{rules, program};

pub mod chain;
pub mod lead;
pub mod members;
pub mod tokens;
pub mod word;

pub use chain::{Around, Chain, Left, Parts};
pub use lead::{Compound, Plain};
pub use members::Members;
pub use word::Word;

/// A law of the grammar, whatever the lines of tokens are: a list of tokens is one program at most, and what a front of a
/// program begins with is a front too.
pub fn programs_are_read_one_way()
    ensures one_tree { (line : Token → ℕ) (w : List Token) (p q : Program)
        → IsTree (rules line) (program line) w p → IsTree (rules line) (program line) w q → p ≡ q }
    ensures fronts { (line : Token → ℕ) (u more : List Token)
        → IsFront (rules line) (program line) (u ++ more) → IsFront (rules line) (program line) u }
{}
