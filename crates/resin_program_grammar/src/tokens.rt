//! What the forms of statements and declarations ask of a token.

ghost use Rattle.std.specs.Prelude.{◌≡◌, is_some, IfOk};
ghost use Rattle.resin_program_grammar.specs.Combine as combine;
ghost use Rattle.resin_program_grammar.specs.Constants as constants;
ghost use Rattle.resin_program_grammar.specs.Declarations as declarations;
ghost use Rattle.resin_program_grammar.specs.Leads as leads;
ghost use Rattle.resin_program_grammar.specs.Plain as plain;
ghost use Rattle.resin_program_grammar.specs.Start.{begins};

use crate::lead::{compound_of, is_modifier, plain_of};
use crate::word::{Word, is_word};
use resin_grammar::Sign;
use resin_grammar::operators::{constant_of, import_of, prefix_of};
use resin_grammar::sign::is_sign;
use resin_grammar::tokens::{begins_operand, is_name, is_variable};
use resin_lex::{Keyword, Mark, Token, TokenKind};

/// Whether a token begins an expression.
#[tactic(auto, using(crate::proofs::FirstLaws::begins_expression))]
pub fn begins_expression(token: &Token) -> bool
    ensures { result ≡ begins combine.expression token.now }
{
    let kind = &token.kind;
    import_of(kind).is_some()
        || is_sign(Sign::Not, kind)
        || prefix_of(kind).is_some()
        || begins_operand(kind)
}

/// Whether a token is text outside code.
pub fn is_inline(kind: &TokenKind) -> bool
    ensures { result ≡ is_some (leads.inline_of kind.now) }
{
    match kind {
        TokenKind::Inline(_) => true,
        _ => false,
    }
}

/// Whether a token begins a statement. `break` and `continue` begin one in a loop or a `switch`.
#[tactic(auto, unfolding(crate::specs::Plain::begins_statement))]
pub fn begins_statement(in_loop: bool, token: &Token) -> bool
    ensures { result ≡ plain.begins_statement in_loop token.now }
{
    is_inline(&token.kind)
        || plain_of(in_loop, &token.kind).is_some()
        || compound_of(&token.kind).is_some()
        || begins_expression(token)
}

/// Whether a token begins a constant expression.
pub fn begins_constant(kind: &TokenKind) -> bool
    ensures { result ≡ constants.begins_constant kind.now }
{
    match kind {
        TokenKind::Int(_) => true,
        TokenKind::Text(_) => true,
        TokenKind::Name(name) => constant_of(name.as_slice()).is_some(),
        TokenKind::Mark(Mark::Minus) => true,
        TokenKind::Mark(Mark::LeftSquare) => true,
        TokenKind::Keyword(Keyword::Array) => true,
        _ => false,
    }
}

/// Whether a token begins a type.
pub fn begins_type(kind: &TokenKind) -> bool
    ensures { result ≡ declarations.begins_type kind.now }
{
    is_sign(Sign::Question, kind) || is_name(kind)
}

/// Whether a token begins a parameter.
#[tactic(auto, using(crate::proofs::FirstLaws::begins_parameter))]
pub fn begins_parameter(token: &Token) -> bool
    ensures { result ≡ begins declarations.parameter token.now }
{
    begins_type(&token.kind) || is_variable(&token.kind)
}

/// Whether a token begins a member of a class.
pub fn begins_member(kind: &TokenKind) -> bool
    ensures { result ≡ declarations.begins_member kind.now }
{
    is_word(Word::Var, kind) || is_word(Word::Function, kind) || is_modifier(kind)
}

/// Whether a token begins what may stand at the top level of a file.
pub fn begins_item(token: &Token) -> bool
    ensures { result ≡ declarations.begins_item token.now }
{
    is_word(Word::Function, &token.kind)
        || is_word(Word::Class, &token.kind)
        || is_word(Word::Final, &token.kind)
        || begins_statement(false, token)
}

fn without_sign(n: i64) -> Option<i64>
    ensures { result ≡ constants.without_sign n }
{
    if n < 0 { None } else { Some(n) }
}

/// The integer that a token spells, where it has no sign of its own: each of a source text.
pub fn digits_of(kind: &TokenKind) -> Option<i64>
    ensures { result ≡ constants.digits_of kind.now }
{
    match kind {
        TokenKind::Int(n) => without_sign(*n),
        _ => None,
    }
}
