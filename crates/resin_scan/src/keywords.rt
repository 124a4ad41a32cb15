//! The words that are keywords.

ghost use Rattle.std.specs.Prelude.{◌≡◌};
ghost use Rattle.resin_scan.specs.Keywords as spec;

use crate::words::spells;

/// A word that is no name, in any case.
#[derive(Clone, Copy, Debug, PartialEq, Eq)]
pub enum Keyword {
    Array,
    As,
    Break,
    Case,
    Catch,
    Class,
    Continue,
    Default,
    Die,
    Do,
    Echo,
    Else,
    ElseIf,
    Empty,
    EndFor,
    EndForeach,
    EndIf,
    EndWhile,
    Exit,
    Extends,
    Final,
    Finally,
    For,
    Foreach,
    Function,
    Global,
    If,
    Include,
    IncludeOnce,
    InstanceOf,
    Isset,
    New,
    Parent,
    Private,
    Protected,
    Public,
    Require,
    RequireOnce,
    Return,
    Switch,
    Throw,
    Try,
    Unset,
    Var,
    While,
}

/// A keyword from `array` to `die`.
#[tactic(auto, unfolding(crate::specs::Keywords::array_to_die))]
fn array_to_die(s: &[u8]) -> Option<Keyword>
    ensures { result ≡ spec.named spec.array_to_die s.now }
{
    if spells(b"array", s) {
        Some(Keyword::Array)
    } else if spells(b"as", s) {
        Some(Keyword::As)
    } else if spells(b"break", s) {
        Some(Keyword::Break)
    } else if spells(b"case", s) {
        Some(Keyword::Case)
    } else if spells(b"catch", s) {
        Some(Keyword::Catch)
    } else if spells(b"class", s) {
        Some(Keyword::Class)
    } else if spells(b"continue", s) {
        Some(Keyword::Continue)
    } else if spells(b"default", s) {
        Some(Keyword::Default)
    } else if spells(b"die", s) {
        Some(Keyword::Die)
    } else {
        None
    }
}

/// A keyword from `do` to `endwhile`.
#[tactic(auto, unfolding(crate::specs::Keywords::do_to_endwhile))]
fn do_to_endwhile(s: &[u8]) -> Option<Keyword>
    ensures { result ≡ spec.named spec.do_to_endwhile s.now }
{
    if spells(b"do", s) {
        Some(Keyword::Do)
    } else if spells(b"echo", s) {
        Some(Keyword::Echo)
    } else if spells(b"else", s) {
        Some(Keyword::Else)
    } else if spells(b"elseif", s) {
        Some(Keyword::ElseIf)
    } else if spells(b"empty", s) {
        Some(Keyword::Empty)
    } else if spells(b"endfor", s) {
        Some(Keyword::EndFor)
    } else if spells(b"endforeach", s) {
        Some(Keyword::EndForeach)
    } else if spells(b"endif", s) {
        Some(Keyword::EndIf)
    } else if spells(b"endwhile", s) {
        Some(Keyword::EndWhile)
    } else {
        None
    }
}

/// A keyword from `exit` to `if`.
#[tactic(auto, unfolding(crate::specs::Keywords::exit_to_if))]
fn exit_to_if(s: &[u8]) -> Option<Keyword>
    ensures { result ≡ spec.named spec.exit_to_if s.now }
{
    if spells(b"exit", s) {
        Some(Keyword::Exit)
    } else if spells(b"extends", s) {
        Some(Keyword::Extends)
    } else if spells(b"final", s) {
        Some(Keyword::Final)
    } else if spells(b"finally", s) {
        Some(Keyword::Finally)
    } else if spells(b"for", s) {
        Some(Keyword::For)
    } else if spells(b"foreach", s) {
        Some(Keyword::Foreach)
    } else if spells(b"function", s) {
        Some(Keyword::Function)
    } else if spells(b"global", s) {
        Some(Keyword::Global)
    } else if spells(b"if", s) {
        Some(Keyword::If)
    } else {
        None
    }
}

/// A keyword from `include` to `public`.
#[tactic(auto, unfolding(crate::specs::Keywords::include_to_public))]
fn include_to_public(s: &[u8]) -> Option<Keyword>
    ensures { result ≡ spec.named spec.include_to_public s.now }
{
    if spells(b"include", s) {
        Some(Keyword::Include)
    } else if spells(b"include_once", s) {
        Some(Keyword::IncludeOnce)
    } else if spells(b"instanceof", s) {
        Some(Keyword::InstanceOf)
    } else if spells(b"isset", s) {
        Some(Keyword::Isset)
    } else if spells(b"new", s) {
        Some(Keyword::New)
    } else if spells(b"parent", s) {
        Some(Keyword::Parent)
    } else if spells(b"private", s) {
        Some(Keyword::Private)
    } else if spells(b"protected", s) {
        Some(Keyword::Protected)
    } else if spells(b"public", s) {
        Some(Keyword::Public)
    } else {
        None
    }
}

/// A keyword from `require` to `while`.
#[tactic(auto, unfolding(crate::specs::Keywords::require_to_while))]
fn require_to_while(s: &[u8]) -> Option<Keyword>
    ensures { result ≡ spec.named spec.require_to_while s.now }
{
    if spells(b"require", s) {
        Some(Keyword::Require)
    } else if spells(b"require_once", s) {
        Some(Keyword::RequireOnce)
    } else if spells(b"return", s) {
        Some(Keyword::Return)
    } else if spells(b"switch", s) {
        Some(Keyword::Switch)
    } else if spells(b"throw", s) {
        Some(Keyword::Throw)
    } else if spells(b"try", s) {
        Some(Keyword::Try)
    } else if spells(b"unset", s) {
        Some(Keyword::Unset)
    } else if spells(b"var", s) {
        Some(Keyword::Var)
    } else if spells(b"while", s) {
        Some(Keyword::While)
    } else {
        None
    }
}

/// The keyword that a text is, in any case, or None.
pub fn keyword_of(s: &[u8]) -> Option<Keyword>
    ensures { result ≡ spec.keyword_of s.now }
{
    if let Some(keyword) = array_to_die(s) {
        return Some(keyword);
    }
    if let Some(keyword) = do_to_endwhile(s) {
        return Some(keyword);
    }
    if let Some(keyword) = exit_to_if(s) {
        return Some(keyword);
    }
    if let Some(keyword) = include_to_public(s) {
        return Some(keyword);
    }
    require_to_while(s)
}
