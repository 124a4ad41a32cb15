//! The tokens of statements that stand for themselves.

ghost use Rattle.std.specs.Prelude.{◌≡◌};
ghost use Rattle.resin_program_grammar.specs.Words as spec;

use resin_lex::{Keyword, Mark, TokenKind};

/// A token that stands for itself in statements and declarations, and in no expression.
#[derive(Clone, Copy)]
pub enum Word {
    /// `;` or `?>`
    Semicolon,
    /// `{`
    LeftBrace,
    /// `|`
    Bar,
    As,
    Case,
    Catch,
    Class,
    Default,
    Else,
    ElseIf,
    EndFor,
    EndForeach,
    EndIf,
    EndWhile,
    Extends,
    Final,
    Finally,
    Function,
    If,
    Var,
    While,
}

fn is_semicolon(kind: &TokenKind) -> bool
    ensures { result ≡ spec.is_semicolon kind.now }
{
    match kind {
        TokenKind::Mark(Mark::Semicolon) => true,
        _ => false,
    }
}

fn is_left_brace(kind: &TokenKind) -> bool
    ensures { result ≡ spec.is_left_brace kind.now }
{
    match kind {
        TokenKind::Mark(Mark::LeftBrace) => true,
        _ => false,
    }
}

fn is_bar(kind: &TokenKind) -> bool
    ensures { result ≡ spec.is_bar kind.now }
{
    match kind {
        TokenKind::Mark(Mark::Bar) => true,
        _ => false,
    }
}

fn is_as(kind: &TokenKind) -> bool
    ensures { result ≡ spec.is_as kind.now }
{
    match kind {
        TokenKind::Keyword(Keyword::As) => true,
        _ => false,
    }
}

fn is_case(kind: &TokenKind) -> bool
    ensures { result ≡ spec.is_case kind.now }
{
    match kind {
        TokenKind::Keyword(Keyword::Case) => true,
        _ => false,
    }
}

fn is_catch(kind: &TokenKind) -> bool
    ensures { result ≡ spec.is_catch kind.now }
{
    match kind {
        TokenKind::Keyword(Keyword::Catch) => true,
        _ => false,
    }
}

fn is_class(kind: &TokenKind) -> bool
    ensures { result ≡ spec.is_class kind.now }
{
    match kind {
        TokenKind::Keyword(Keyword::Class) => true,
        _ => false,
    }
}

fn is_default(kind: &TokenKind) -> bool
    ensures { result ≡ spec.is_default kind.now }
{
    match kind {
        TokenKind::Keyword(Keyword::Default) => true,
        _ => false,
    }
}

fn is_else(kind: &TokenKind) -> bool
    ensures { result ≡ spec.is_else kind.now }
{
    match kind {
        TokenKind::Keyword(Keyword::Else) => true,
        _ => false,
    }
}

fn is_else_if(kind: &TokenKind) -> bool
    ensures { result ≡ spec.is_else_if kind.now }
{
    match kind {
        TokenKind::Keyword(Keyword::ElseIf) => true,
        _ => false,
    }
}

fn is_end_for(kind: &TokenKind) -> bool
    ensures { result ≡ spec.is_end_for kind.now }
{
    match kind {
        TokenKind::Keyword(Keyword::EndFor) => true,
        _ => false,
    }
}

fn is_end_foreach(kind: &TokenKind) -> bool
    ensures { result ≡ spec.is_end_foreach kind.now }
{
    match kind {
        TokenKind::Keyword(Keyword::EndForeach) => true,
        _ => false,
    }
}

fn is_end_if(kind: &TokenKind) -> bool
    ensures { result ≡ spec.is_end_if kind.now }
{
    match kind {
        TokenKind::Keyword(Keyword::EndIf) => true,
        _ => false,
    }
}

fn is_end_while(kind: &TokenKind) -> bool
    ensures { result ≡ spec.is_end_while kind.now }
{
    match kind {
        TokenKind::Keyword(Keyword::EndWhile) => true,
        _ => false,
    }
}

fn is_extends(kind: &TokenKind) -> bool
    ensures { result ≡ spec.is_extends kind.now }
{
    match kind {
        TokenKind::Keyword(Keyword::Extends) => true,
        _ => false,
    }
}

fn is_final(kind: &TokenKind) -> bool
    ensures { result ≡ spec.is_final kind.now }
{
    match kind {
        TokenKind::Keyword(Keyword::Final) => true,
        _ => false,
    }
}

fn is_finally(kind: &TokenKind) -> bool
    ensures { result ≡ spec.is_finally kind.now }
{
    match kind {
        TokenKind::Keyword(Keyword::Finally) => true,
        _ => false,
    }
}

fn is_function(kind: &TokenKind) -> bool
    ensures { result ≡ spec.is_function kind.now }
{
    match kind {
        TokenKind::Keyword(Keyword::Function) => true,
        _ => false,
    }
}

fn is_if(kind: &TokenKind) -> bool
    ensures { result ≡ spec.is_if kind.now }
{
    match kind {
        TokenKind::Keyword(Keyword::If) => true,
        _ => false,
    }
}

fn is_var(kind: &TokenKind) -> bool
    ensures { result ≡ spec.is_var kind.now }
{
    match kind {
        TokenKind::Keyword(Keyword::Var) => true,
        _ => false,
    }
}

fn is_while(kind: &TokenKind) -> bool
    ensures { result ≡ spec.is_while kind.now }
{
    match kind {
        TokenKind::Keyword(Keyword::While) => true,
        _ => false,
    }
}

/// Whether a token is this one.
pub fn is_word(word: Word, kind: &TokenKind) -> bool
    ensures { result ≡ spec.is_word word kind.now }
{
    match word {
        Word::Semicolon => is_semicolon(kind),
        Word::LeftBrace => is_left_brace(kind),
        Word::Bar => is_bar(kind),
        Word::As => is_as(kind),
        Word::Case => is_case(kind),
        Word::Catch => is_catch(kind),
        Word::Class => is_class(kind),
        Word::Default => is_default(kind),
        Word::Else => is_else(kind),
        Word::ElseIf => is_else_if(kind),
        Word::EndFor => is_end_for(kind),
        Word::EndForeach => is_end_foreach(kind),
        Word::EndIf => is_end_if(kind),
        Word::EndWhile => is_end_while(kind),
        Word::Extends => is_extends(kind),
        Word::Final => is_final(kind),
        Word::Finally => is_finally(kind),
        Word::Function => is_function(kind),
        Word::If => is_if(kind),
        Word::Var => is_var(kind),
        Word::While => is_while(kind),
    }
}
