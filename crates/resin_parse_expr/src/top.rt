//! Whole expressions among the tokens of a text.

ghost use Rattle.std.specs.Prelude.{◌≡◌, ◌≤◌, ◌-◌, length, drop};
ghost use Rattle.resin_form.specs.Reads.{Reads};
ghost use Rattle.resin_grammar.specs.Expressions as spec;
ghost use Rattle.resin_grammar.specs.Reading.{Gives, under};
ghost use Rattle.resin_parse_expr.specs.Answers.{IsAnswer, place_of};

use crate::levels::Levels;
use resin_form::{Cursor, Fault};
use resin_grammar::{Tall, TallPlace};
use resin_lex::{Expr, ParseFault, Token, TokenList};
use resin_parse_part::Parser;
use std::alloc::Global;

/// How deep constructs may open in one another.
pub const MAX_NESTING: u32 = 200;

/// An expression of a level, where so many constructs may still open in one another.
fn level_at(
    alloc: Global,
    tokens: &mut Cursor<'_, Token>,
    depth: usize,
    level: u8,
) -> Result<Tall, Fault>
    ensures { Reads (under depth (spec.level level) tokens.old) result tokens.new }
{
    Levels {
        parser: Parser {
            alloc,
            depth,
            level: level_at,
        },
    }
    .any_level(tokens, level)
}

/// The place of a token, or the end of the text.
fn place_at(t: &TokenList, at: usize) -> u32
    ensures { result ≡ place_of t.now.end (drop at t.now.tokens) }
{
    match t.tokens.as_slice().get(at) {
        Some(token) => token.from,
        None => t.end,
    }
}

/// The expression that the tokens begin with, where so many constructs may still open in one another: the tree of the
/// longest run of tokens that is a front of an expression, where that run is one. What is left is behind it, or from
/// the fault on.
pub fn read_expression(
    alloc: Global,
    tokens: &mut Cursor<'_, Token>,
    depth: usize,
) -> Result<Tall, Fault>
    ensures reads { Reads (under depth spec.expression tokens.old) result tokens.new }
    ensures gives { Gives depth tokens.old result tokens.new }
{
    Levels {
        parser: Parser {
            alloc,
            depth,
            level: level_at,
        },
    }
    .expression(tokens)
}

/// The target that the tokens begin with, where so many constructs may still open in one another: a variable with `[e]`
/// and `->p`.
pub fn read_target(
    alloc: Global,
    tokens: &mut Cursor<'_, Token>,
    depth: usize,
) -> Result<TallPlace, Fault>
    ensures { Reads (under depth spec.target tokens.old) result tokens.new }
{
    Parser {
        alloc,
        depth,
        level: level_at,
    }
    .target(tokens)
}

/// The expression that begins with the token of this index, and the index of the token behind it; `around` constructs
/// are open round it.
///
/// # Errors
///
/// `Syntax` where the longest run of tokens that is a front of an expression is none, with the place of the token behind
/// it, or the text's end. `TooDeep` with the place of the token that opens the first construct past 200 in one another,
/// where that comes before.
pub fn expression(
    alloc: Global,
    t: &TokenList,
    at: usize,
    around: u32,
) -> Result<(Expr, usize), ParseFault>
    requires index { at ≤ length t.now.tokens }
    requires limit { around ≤ 200 }
    ensures { IsAnswer t.now at (200 - around) result }
{
    let all = t.tokens.as_slice();
    let mut tokens = Cursor::from_index(all, at);
    let found = read_expression(alloc, &mut tokens, (MAX_NESTING - around) as usize);
    let next = all.len().saturating_sub(tokens.left());
    match found {
        Ok(tree) => Ok((tree.into_tree().into_inner(), next)),
        Err(Fault::Syntax) => Err(ParseFault::Syntax {
            offset: place_at(t, next),
        }),
        Err(Fault::TooDeep) => Err(ParseFault::TooDeep {
            offset: place_at(t, next.saturating_sub(1)),
        }),
        Err(Fault::Memory) => Err(ParseFault::Memory),
    }
}
