//! The tokens that stand for themselves in the grammar.

ghost use Rattle.std.specs.Prelude.{◌≡◌};
ghost use Rattle.resin_grammar.specs.Signs as spec;

use resin_lex::{Keyword, Mark, TokenKind};

/// A token that stands for itself.
#[derive(Clone, Copy, Debug, PartialEq, Eq)]
pub enum Sign {
    /// `(`
    LeftRound,
    /// `)`
    RightRound,
    /// `[`
    LeftSquare,
    /// `]`
    RightSquare,
    /// `}`
    RightBrace,
    /// `,`
    Comma,
    /// `:`
    Colon,
    /// `::`
    DoubleColon,
    /// `?`
    Question,
    /// `??`
    Coalesce,
    /// `->`
    Arrow,
    /// `=>`
    FatArrow,
    /// `=`
    Assign,
    /// `!`
    Not,
    /// `instanceof`
    InstanceOf,
    /// The closing quote of a text with interpolation.
    TextClose,
}

fn is_left_round(kind: &TokenKind) -> bool
    ensures { result ≡ spec.is_left_round kind.now }
{
    match kind {
        TokenKind::Mark(Mark::LeftRound) => true,
        _ => false,
    }
}

fn is_right_round(kind: &TokenKind) -> bool
    ensures { result ≡ spec.is_right_round kind.now }
{
    match kind {
        TokenKind::Mark(Mark::RightRound) => true,
        _ => false,
    }
}

fn is_left_square(kind: &TokenKind) -> bool
    ensures { result ≡ spec.is_left_square kind.now }
{
    match kind {
        TokenKind::Mark(Mark::LeftSquare) => true,
        _ => false,
    }
}

fn is_right_square(kind: &TokenKind) -> bool
    ensures { result ≡ spec.is_right_square kind.now }
{
    match kind {
        TokenKind::Mark(Mark::RightSquare) => true,
        _ => false,
    }
}

fn is_right_brace(kind: &TokenKind) -> bool
    ensures { result ≡ spec.is_right_brace kind.now }
{
    match kind {
        TokenKind::Mark(Mark::RightBrace) => true,
        _ => false,
    }
}

fn is_comma(kind: &TokenKind) -> bool
    ensures { result ≡ spec.is_comma kind.now }
{
    match kind {
        TokenKind::Mark(Mark::Comma) => true,
        _ => false,
    }
}

fn is_colon(kind: &TokenKind) -> bool
    ensures { result ≡ spec.is_colon kind.now }
{
    match kind {
        TokenKind::Mark(Mark::Colon) => true,
        _ => false,
    }
}

fn is_double_colon(kind: &TokenKind) -> bool
    ensures { result ≡ spec.is_double_colon kind.now }
{
    match kind {
        TokenKind::Mark(Mark::DoubleColon) => true,
        _ => false,
    }
}

fn is_question(kind: &TokenKind) -> bool
    ensures { result ≡ spec.is_question kind.now }
{
    match kind {
        TokenKind::Mark(Mark::Question) => true,
        _ => false,
    }
}

fn is_coalesce(kind: &TokenKind) -> bool
    ensures { result ≡ spec.is_coalesce kind.now }
{
    match kind {
        TokenKind::Mark(Mark::Coalesce) => true,
        _ => false,
    }
}

fn is_arrow(kind: &TokenKind) -> bool
    ensures { result ≡ spec.is_arrow kind.now }
{
    match kind {
        TokenKind::Mark(Mark::Arrow) => true,
        _ => false,
    }
}

fn is_fat_arrow(kind: &TokenKind) -> bool
    ensures { result ≡ spec.is_fat_arrow kind.now }
{
    match kind {
        TokenKind::Mark(Mark::FatArrow) => true,
        _ => false,
    }
}

fn is_assign(kind: &TokenKind) -> bool
    ensures { result ≡ spec.is_assign kind.now }
{
    match kind {
        TokenKind::Mark(Mark::Assign) => true,
        _ => false,
    }
}

fn is_not(kind: &TokenKind) -> bool
    ensures { result ≡ spec.is_not kind.now }
{
    match kind {
        TokenKind::Mark(Mark::Not) => true,
        _ => false,
    }
}

fn is_instance_of(kind: &TokenKind) -> bool
    ensures { result ≡ spec.is_instance_of kind.now }
{
    match kind {
        TokenKind::Keyword(Keyword::InstanceOf) => true,
        _ => false,
    }
}

fn is_text_close(kind: &TokenKind) -> bool
    ensures { result ≡ spec.is_text_close kind.now }
{
    match kind {
        TokenKind::TextClose => true,
        _ => false,
    }
}

/// Whether a token is this one.
pub fn is_sign(sign: Sign, kind: &TokenKind) -> bool
    ensures { result ≡ spec.is_sign sign kind.now }
{
    match sign {
        Sign::LeftRound => is_left_round(kind),
        Sign::RightRound => is_right_round(kind),
        Sign::LeftSquare => is_left_square(kind),
        Sign::RightSquare => is_right_square(kind),
        Sign::RightBrace => is_right_brace(kind),
        Sign::Comma => is_comma(kind),
        Sign::Colon => is_colon(kind),
        Sign::DoubleColon => is_double_colon(kind),
        Sign::Question => is_question(kind),
        Sign::Coalesce => is_coalesce(kind),
        Sign::Arrow => is_arrow(kind),
        Sign::FatArrow => is_fat_arrow(kind),
        Sign::Assign => is_assign(kind),
        Sign::Not => is_not(kind),
        Sign::InstanceOf => is_instance_of(kind),
        Sign::TextClose => is_text_close(kind),
    }
}
