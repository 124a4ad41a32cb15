//! Operators and the words that begin an expression.

ghost use Rattle.std.specs.Prelude.{◌≡◌, ◌≤◌};
ghost use Rattle.std.specs.Str.{bytes_eq};
ghost use Rattle.resin_grammar.specs.Operators as spec;

use resin_lex::{
    Cast, Combining, Comparison, ConstantName, Import, Keyword, Mark, TokenKind, Unary,
};
use resin_scan::words::spells;

/// An operator between two operands of a level from 5 to 11.
#[derive(Clone, Copy, PartialEq, Eq)]
pub enum Operator {
    Combine(Combining),
    Compare(Comparison),
    /// `&&`
    And,
    /// `||`
    Or,
}

/// An operator of level 2, before its operand.
#[derive(Clone, Copy, PartialEq, Eq)]
pub enum Prefix {
    Unary(Unary),
    /// `++`
    Increment,
    /// `--`
    Decrement,
}

/// What an operator behind a target does to it.
#[derive(Clone, Copy, PartialEq, Eq)]
pub enum Writing {
    /// `=`
    Assign,
    /// `+=` and its kin.
    Compound(Combining),
    /// `??=`
    CoalesceAssign,
    /// `++`
    Increment,
    /// `--`
    Decrement,
}

/// The level of a binary operator, from 5 to 11, and 0 for another token.
pub fn level_of(kind: &TokenKind) -> u8
    ensures value { result ≡ spec.level_of kind.now }
    ensures small { result ≤ 11 }
{
    match kind {
        TokenKind::Mark(Mark::Star) => 5,
        TokenKind::Mark(Mark::Slash) => 5,
        TokenKind::Mark(Mark::Percent) => 5,
        TokenKind::Mark(Mark::Plus) => 6,
        TokenKind::Mark(Mark::Minus) => 6,
        TokenKind::Mark(Mark::Dot) => 7,
        TokenKind::Mark(Mark::Less) => 8,
        TokenKind::Mark(Mark::LessOrEqual) => 8,
        TokenKind::Mark(Mark::Greater) => 8,
        TokenKind::Mark(Mark::GreaterOrEqual) => 8,
        TokenKind::Mark(Mark::Equal) => 9,
        TokenKind::Mark(Mark::NotEqual) => 9,
        TokenKind::Mark(Mark::LessGreater) => 9,
        TokenKind::Mark(Mark::Identical) => 9,
        TokenKind::Mark(Mark::NotIdentical) => 9,
        TokenKind::Mark(Mark::Compare) => 9,
        TokenKind::Mark(Mark::And) => 10,
        TokenKind::Mark(Mark::Or) => 11,
        _ => 0,
    }
}

/// The binary operator that a token stands for; `||` for a token that is none.
pub fn operator_of(kind: &TokenKind) -> Operator
    ensures { result ≡ spec.operator_of kind.now }
{
    match kind {
        TokenKind::Mark(Mark::Star) => Operator::Combine(Combining::Multiply),
        TokenKind::Mark(Mark::Slash) => Operator::Combine(Combining::Divide),
        TokenKind::Mark(Mark::Percent) => Operator::Combine(Combining::Remainder),
        TokenKind::Mark(Mark::Plus) => Operator::Combine(Combining::Add),
        TokenKind::Mark(Mark::Minus) => Operator::Combine(Combining::Subtract),
        TokenKind::Mark(Mark::Dot) => Operator::Combine(Combining::Concat),
        TokenKind::Mark(Mark::Less) => Operator::Compare(Comparison::Less),
        TokenKind::Mark(Mark::LessOrEqual) => Operator::Compare(Comparison::LessOrEqual),
        TokenKind::Mark(Mark::Greater) => Operator::Compare(Comparison::Greater),
        TokenKind::Mark(Mark::GreaterOrEqual) => Operator::Compare(Comparison::GreaterOrEqual),
        TokenKind::Mark(Mark::Equal) => Operator::Compare(Comparison::Equal),
        TokenKind::Mark(Mark::NotEqual) => Operator::Compare(Comparison::NotEqual),
        TokenKind::Mark(Mark::LessGreater) => Operator::Compare(Comparison::NotEqual),
        TokenKind::Mark(Mark::Identical) => Operator::Compare(Comparison::Identical),
        TokenKind::Mark(Mark::NotIdentical) => Operator::Compare(Comparison::NotIdentical),
        TokenKind::Mark(Mark::Compare) => Operator::Compare(Comparison::Compare),
        TokenKind::Mark(Mark::And) => Operator::And,
        _ => Operator::Or,
    }
}

/// The operator of level 2 that a token stands for.
pub fn prefix_of(kind: &TokenKind) -> Option<Prefix>
    ensures { result ≡ spec.prefix_of kind.now }
{
    match kind {
        TokenKind::Mark(Mark::Minus) => Some(Prefix::Unary(Unary::Minus)),
        TokenKind::Mark(Mark::Plus) => Some(Prefix::Unary(Unary::Plus)),
        TokenKind::Mark(Mark::Increment) => Some(Prefix::Increment),
        TokenKind::Mark(Mark::Decrement) => Some(Prefix::Decrement),
        TokenKind::Cast(Cast::Int) => Some(Prefix::Unary(Unary::ToInt)),
        TokenKind::Cast(Cast::Text) => Some(Prefix::Unary(Unary::ToText)),
        TokenKind::Cast(Cast::Bool) => Some(Prefix::Unary(Unary::ToBool)),
        _ => None,
    }
}

/// What an operator behind a target does to it.
pub fn writing_of(kind: &TokenKind) -> Option<Writing>
    ensures { result ≡ spec.writing_of kind.now }
{
    match kind {
        TokenKind::Mark(Mark::Assign) => Some(Writing::Assign),
        TokenKind::Mark(Mark::PlusAssign) => Some(Writing::Compound(Combining::Add)),
        TokenKind::Mark(Mark::MinusAssign) => Some(Writing::Compound(Combining::Subtract)),
        TokenKind::Mark(Mark::StarAssign) => Some(Writing::Compound(Combining::Multiply)),
        TokenKind::Mark(Mark::SlashAssign) => Some(Writing::Compound(Combining::Divide)),
        TokenKind::Mark(Mark::PercentAssign) => Some(Writing::Compound(Combining::Remainder)),
        TokenKind::Mark(Mark::DotAssign) => Some(Writing::Compound(Combining::Concat)),
        TokenKind::Mark(Mark::CoalesceAssign) => Some(Writing::CoalesceAssign),
        TokenKind::Mark(Mark::Increment) => Some(Writing::Increment),
        TokenKind::Mark(Mark::Decrement) => Some(Writing::Decrement),
        _ => None,
    }
}

/// The form of import that a word begins.
pub fn import_of(kind: &TokenKind) -> Option<Import>
    ensures { result ≡ spec.import_of kind.now }
{
    match kind {
        TokenKind::Keyword(Keyword::Include) => Some(Import::Include),
        TokenKind::Keyword(Keyword::IncludeOnce) => Some(Import::IncludeOnce),
        TokenKind::Keyword(Keyword::Require) => Some(Import::Require),
        TokenKind::Keyword(Keyword::RequireOnce) => Some(Import::RequireOnce),
        _ => None,
    }
}

fn is_text(s: &[u8], word: &[u8]) -> bool
    ensures { result ≡ bytes_eq s.now word.now }
{
    s == word
}

/// The constant that a name is: `null`, `true` and `false` in any case, and the others as they are written.
#[tactic(auto, unfolding(crate::specs::Operators::constant_of))]
pub fn constant_of(s: &[u8]) -> Option<ConstantName>
    ensures { result ≡ spec.constant_of s.now }
{
    if spells(b"null", s) {
        Some(ConstantName::Null)
    } else if spells(b"true", s) {
        Some(ConstantName::True)
    } else if spells(b"false", s) {
        Some(ConstantName::False)
    } else if is_text(s, b"PHP_INT_MAX") {
        Some(ConstantName::IntMax)
    } else if is_text(s, b"PHP_INT_MIN") {
        Some(ConstantName::IntMin)
    } else if is_text(s, b"PHP_EOL") {
        Some(ConstantName::EndOfLine)
    } else if is_text(s, b"FILE_APPEND") {
        Some(ConstantName::FileAppend)
    } else if is_text(s, b"STR_PAD_LEFT") {
        Some(ConstantName::PadLeft)
    } else if is_text(s, b"STR_PAD_RIGHT") {
        Some(ConstantName::PadRight)
    } else {
        None
    }
}
