//! What the forms of expressions ask of a token.

ghost use Rattle.std.specs.Prelude.{◌≡◌, IfOk};
ghost use Rattle.resin_grammar.specs.Expressions as spec;

use crate::sign::{Sign, is_sign};
use resin_items::SharedBytes;
use resin_lex::{Keyword, Mark, TokenKind};
use std::alloc::{AllocError, Global};

/// Whether a token begins an operand.
pub fn begins_operand(kind: &TokenKind) -> bool
    ensures { result ≡ spec.begins_operand kind.now }
{
    match kind {
        TokenKind::Int(_) => true,
        TokenKind::Text(_) => true,
        TokenKind::Variable(_) => true,
        TokenKind::Name(_) => true,
        TokenKind::Mark(Mark::LeftRound) => true,
        TokenKind::Mark(Mark::LeftSquare) => true,
        TokenKind::Keyword(Keyword::Array) => true,
        TokenKind::Keyword(Keyword::New) => true,
        TokenKind::Keyword(Keyword::Parent) => true,
        TokenKind::Keyword(Keyword::Isset) => true,
        TokenKind::Keyword(Keyword::Empty) => true,
        TokenKind::TextOpen => true,
        _ => false,
    }
}

/// Whether a token begins a part of a text with interpolation.
pub fn begins_part(kind: &TokenKind) -> bool
    ensures { result ≡ spec.begins_part kind.now }
{
    match kind {
        TokenKind::Stretch(_) => true,
        TokenKind::Variable(_) => true,
        TokenKind::BraceOpen => true,
        _ => false,
    }
}

/// Whether a token is a key or a property behind a variable in a text.
pub fn is_simple_postfix(kind: &TokenKind) -> bool
    ensures { result ≡ spec.is_simple_postfix kind.now }
{
    match kind {
        TokenKind::IndexText(_) => true,
        TokenKind::IndexVariable(_) => true,
        TokenKind::Property(_) => true,
        _ => false,
    }
}

/// Whether a token begins a postfix that may be part of a target.
pub fn is_postfix(kind: &TokenKind) -> bool
    ensures { result ≡ spec.is_postfix kind.now }
{
    is_sign(Sign::LeftSquare, kind) || is_sign(Sign::Arrow, kind)
}

/// Whether a token is a name.
pub fn is_name(kind: &TokenKind) -> bool
    ensures { result ≡ spec.is_name kind.now }
{
    match kind {
        TokenKind::Name(_) => true,
        _ => false,
    }
}

/// Whether a token is a variable.
pub fn is_variable(kind: &TokenKind) -> bool
    ensures { result ≡ spec.is_variable kind.now }
{
    match kind {
        TokenKind::Variable(_) => true,
        _ => false,
    }
}

/// The name that a token spells, or that of its variable; the empty text for another token.
pub fn name_of(alloc: Global, kind: &TokenKind) -> Result<SharedBytes, AllocError>
    ensures { IfOk result (λ n. n ≡ spec.name_of kind.now) }
{
    match kind {
        TokenKind::Name(name) => name.bytes(),
        TokenKind::Variable(name) => name.clone(),
        _ => SharedBytes::from_slice(alloc, b""),
    }
}
