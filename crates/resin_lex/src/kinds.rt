//! The kind of a token, from its shape and its bytes.

ghost use Rattle.std.specs.Prelude.{◌≡◌, ◌<◌, IfOk};
ghost use Rattle.resin_lex.specs.Kinds as spec;
ghost use Rattle.resin_lex.specs.First.{Spells};
ghost use Rattle.resin_scan.specs.Words.{IsName};
ghost use Rattle.resin_scan.specs.Escapes.{worked as worked_of};

use crate::modes::Shape;
use crate::token::TokenKind;
use resin_items::SharedBytes;
use resin_scan::Keyword;
use resin_scan::bytes::byte;
use resin_scan::escapes::{Quoting, worked};
use resin_scan::keywords::keyword_of;
use resin_tree::Name;
use std::alloc::{AllocError, Global};

/// A text without so many bytes in front and so many behind.
fn inside(before: usize, behind: usize, s: &[u8]) -> &[u8]
    requires before { before < 3 }
    requires behind { behind < 3 }
    ensures { result.now ≡ spec.inside before behind s.now }
{
    let out = before + behind;
    if s.len() < out {
        &s[..0]
    } else {
        &s[before..s.len() - behind]
    }
}

/// What the bytes of a text in such quotes stand for, in shared hands.
fn text(alloc: Global, quoting: Quoting, s: &[u8]) -> Result<SharedBytes, AllocError>
    ensures { IfOk result (λ t. t ≡ worked_of quoting s.now) }
{
    SharedBytes::from_vec(worked(alloc, quoting, s)?)
}

fn word_kind(alloc: Global, s: &[u8]) -> Result<TokenKind, AllocError>
    requires { IsName s.now }
    ensures { IfOk result (λ kind. kind ≡ spec.word_kind s.now) }
{
    match keyword_of(s) {
        Some(keyword) => Ok(TokenKind::Keyword(keyword)),
        None => Ok(TokenKind::Name(Name::new(SharedBytes::from_slice(alloc, s)?))),
    }
}

fn index_kind(alloc: Global, s: &[u8]) -> Result<TokenKind, AllocError>
    ensures { IfOk result (λ kind. kind ≡ spec.kind_of Shape.Index s.now) }
{
    if byte(s, 1) == b'$' {
        Ok(TokenKind::IndexVariable(SharedBytes::from_slice(alloc, inside(2, 1, s))?))
    } else {
        Ok(TokenKind::IndexText(SharedBytes::from_slice(alloc, inside(1, 1, s))?))
    }
}

/// The kind of a token of this shape that these bytes spell. A word is a name.
pub fn kind_of(alloc: Global, shape: Shape, s: &[u8]) -> Result<TokenKind, AllocError>
    requires { Spells shape s.now }
    ensures { IfOk result (λ kind. kind ≡ spec.kind_of shape s.now) }
{
    Ok(match shape {
        Shape::Inline => TokenKind::Inline(SharedBytes::from_slice(alloc, s)?),
        Shape::EchoTag => TokenKind::Keyword(Keyword::Echo),
        Shape::Word => return word_kind(alloc, s),
        Shape::Variable => TokenKind::Variable(SharedBytes::from_slice(alloc, inside(1, 0, s))?),
        Shape::Int(v) => TokenKind::Int(v),
        Shape::Mark(mark) => TokenKind::Mark(mark),
        Shape::Cast(cast) => TokenKind::Cast(cast),
        Shape::Single => TokenKind::Text(text(alloc, Quoting::Single, inside(1, 1, s))?),
        Shape::Double => TokenKind::Text(text(alloc, Quoting::Double, inside(1, 1, s))?),
        Shape::Opening => TokenKind::TextOpen,
        Shape::Stretch => TokenKind::Stretch(text(alloc, Quoting::Double, s)?),
        Shape::Index => return index_kind(alloc, s),
        Shape::Property => TokenKind::Property(SharedBytes::from_slice(alloc, inside(2, 0, s))?),
        Shape::BraceOpen => TokenKind::BraceOpen,
        Shape::Closing => TokenKind::TextClose,
    })
}
