//! The tokens by which a statement or a declaration begins.

ghost use Rattle.std.specs.Prelude.{◌≡◌};
ghost use Rattle.resin_program_grammar.specs.Leads as spec;

use resin_lex::{Keyword, Mark, TokenKind};

/// A statement without others in it, by the token that begins it.
#[derive(Clone, Copy)]
pub enum Plain {
    /// `;`
    Semicolon,
    Break,
    Continue,
    /// `echo` or `<?=`
    Echo,
    /// `exit` or `die`
    Exit,
    Global,
    Return,
    Throw,
    Unset,
}

/// A statement with others in it, by the token that begins it.
#[derive(Clone, Copy)]
pub enum Compound {
    /// `{`
    Block,
    Do,
    For,
    Foreach,
    If,
    Switch,
    Try,
    While,
}

fn if_in_loop(in_loop: bool, plain: Plain) -> Option<Plain>
    ensures { result ≡ spec.if_in_loop in_loop plain }
{
    if in_loop { Some(plain) } else { None }
}

/// The statement without others in it that a token begins. `break` and `continue` begin one in a loop or a `switch`.
pub fn plain_of(in_loop: bool, kind: &TokenKind) -> Option<Plain>
    ensures { result ≡ spec.plain_of in_loop kind.now }
{
    match kind {
        TokenKind::Mark(Mark::Semicolon) => Some(Plain::Semicolon),
        TokenKind::Keyword(Keyword::Break) => if_in_loop(in_loop, Plain::Break),
        TokenKind::Keyword(Keyword::Continue) => if_in_loop(in_loop, Plain::Continue),
        TokenKind::Keyword(Keyword::Die) => Some(Plain::Exit),
        TokenKind::Keyword(Keyword::Echo) => Some(Plain::Echo),
        TokenKind::Keyword(Keyword::Exit) => Some(Plain::Exit),
        TokenKind::Keyword(Keyword::Global) => Some(Plain::Global),
        TokenKind::Keyword(Keyword::Return) => Some(Plain::Return),
        TokenKind::Keyword(Keyword::Throw) => Some(Plain::Throw),
        TokenKind::Keyword(Keyword::Unset) => Some(Plain::Unset),
        _ => None,
    }
}

/// The statement with others in it that a token begins.
pub fn compound_of(kind: &TokenKind) -> Option<Compound>
    ensures { result ≡ spec.compound_of kind.now }
{
    match kind {
        TokenKind::Mark(Mark::LeftBrace) => Some(Compound::Block),
        TokenKind::Keyword(Keyword::Do) => Some(Compound::Do),
        TokenKind::Keyword(Keyword::For) => Some(Compound::For),
        TokenKind::Keyword(Keyword::Foreach) => Some(Compound::Foreach),
        TokenKind::Keyword(Keyword::If) => Some(Compound::If),
        TokenKind::Keyword(Keyword::Switch) => Some(Compound::Switch),
        TokenKind::Keyword(Keyword::Try) => Some(Compound::Try),
        TokenKind::Keyword(Keyword::While) => Some(Compound::While),
        _ => None,
    }
}

/// Whether a token is `public`, `protected`, `private` or `final`.
pub fn is_modifier(kind: &TokenKind) -> bool
    ensures { result ≡ spec.is_modifier kind.now }
{
    match kind {
        TokenKind::Keyword(Keyword::Public) => true,
        TokenKind::Keyword(Keyword::Protected) => true,
        TokenKind::Keyword(Keyword::Private) => true,
        TokenKind::Keyword(Keyword::Final) => true,
        _ => false,
    }
}
