//! The tokens of a whole text.

ghost use Rattle.std.specs.Prelude.{◌≡◌, ◌∷◌, ◌++◌, [], nat_lt, ◌<◌, ◌≤◌, ◌+◌, ◌^◌, ℕ, List, length, MatchResult, IfOk, Option, None};
ghost use Rattle.std.specs.List.{prefix_len};
ghost use Rattle.resin_lex.specs.First.{Spells};
ghost use Rattle.resin_lex.specs.Modes.{innermost, after};
ghost use Rattle.resin_lex.specs.Reads.{Reads, token_of};
ghost use Rattle.resin_lex.specs.Lexes.{IsLexed, HasTokens, HasFront, IsRow, before as before_place};
ghost use Rattle.resin_lex.specs.declared.token.Token.{Token};
ghost use Rattle.resin_lex.specs.declared.modes.Open.TheVariants.{Outside};

use crate::front::{blamed, first_of};
use crate::kinds::kind_of;
use crate::modes::{Act, Open, Shape, Step};
use crate::token::{ParseFault, Token, TokenList, Tokens};
use resin_items::Items;
use std::alloc::{AllocError, Global};

/// The tokens of a source text before the place of its first lexical fault, and that place. Without a fault they are all
/// tokens of the text.
#[derive(Drop)]
pub struct Lexing {
    pub list: TokenList,
    pub fault: Option<u32>,
}

/// The place of the innermost open quote.
fn innermost_quote(opened: &[Open]) -> Option<u32>
    ensures { result ≡ innermost opened.now }
{
    let mut found = None;
    for o in opened {
        if let Open::Quote(place) = *o {
            found = Some(place);
        }
    }
    found
}

fn perform(opened: &mut Vec<Open>, act: Act) -> Result<(), AllocError>
    ensures { MatchResult result (λ _. opened.new.items ≡ after act opened.old.items) (λ _. Unit {0}) }
{
    match act {
        Act::Stay => {}
        Act::Enter(o) => opened.push(o)?,
        Act::Leave => {
            let _closed = opened.pop();
        }
    }
    Ok(())
}

/// The token of this shape from a place to another, where these are its bytes.
fn make_token(
    alloc: Global,
    shape: Shape,
    from: usize,
    to: usize,
    s: &[u8],
) -> Result<Token, AllocError>
    requires start { from < 2 ^ 32 }
    requires end { to < 2 ^ 32 }
    requires word { Spells shape s.now }
    ensures { IfOk result (λ token. token ≡ token_of shape from to s.now) }
{
    Ok(Token {
        kind: kind_of(alloc, shape, s)?,
        from: from as u32,
        to: to as u32,
    })
}

fn read_all(alloc: Global, src: &[u8]) -> Result<(Tokens, Option<u32>), AllocError>
    requires { length src.now ≤ 16777216 }
    ensures { IfOk result (λ r. Reads (Outside ∷ []) 0 src.now r.0 r.1) }
{
    let mut opened = Vec::new(alloc);
    opened.push(Open::Outside)?;
    let mut tokens = Items::new(alloc);
    let mut at = 0;
    while at < src.len() {
        let top = opened.last().copied();
        match first_of(top, at as u32, &src[at..]) {
            Step::Fault => return Ok((tokens, Some(blamed(top, at as u32)))),
            Step::Skip(n, act) => {
                perform(&mut opened, act)?;
                at += n;
            }
            Step::Token(shape, n, act) => {
                tokens.push(make_token(alloc, shape, at, at + n, &src[at..at + n])?)?;
                perform(&mut opened, act)?;
                at += n;
            }
        }
    }
    Ok((tokens, innermost_quote(&opened)))
}

/// How many tokens at the front begin before a place.
fn count_before(tokens: &[Token], place: u32) -> usize
    ensures { result ≡ prefix_len (λ token. nat_lt token.from place) tokens.now }
{
    tokens.iter().take_while(|token| token.from < place).count()
}

/// Drops the tokens from a place on, where there is one.
fn keep_before(tokens: &mut Tokens, fault: Option<u32>)
    ensures { tokens.new ≡ before_place fault tokens.old }
{
    if let Some(place) = fault {
        let count = count_before(tokens.as_slice(), place);
        tokens.truncate(count);
    }
}

/// The tokens of a text before the place of its first lexical fault, and that place, where it has one. The text has at
/// most 16,777,216 bytes.
pub fn tokens_and_fault(alloc: Global, src: &[u8]) -> Result<Lexing, AllocError>
    requires { length src.now ≤ 16777216 }
    ensures front { IfOk result (λ lexing. HasFront src.now lexing.list.tokens lexing.fault) }
    ensures row { IfOk result (λ lexing. IsRow 0 (length src.now) lexing.list.tokens) }
    ensures end { IfOk result (λ lexing. lexing.list.end ≡ length src.now) }
{
    let (mut tokens, fault) = read_all(alloc, src)?;
    keep_before(&mut tokens, fault);
    let list = TokenList {
        tokens,
        end: src.len() as u32,
    };
    Ok(Lexing { list, fault })
}

/// The tokens of a text of at most 16,777,216 bytes.
///
/// # Errors
///
/// `Syntax` with the place of the text's first lexical fault, exactly where it has one. `TooDeep` never comes.
pub fn tokens(alloc: Global, src: &[u8]) -> Result<TokenList, ParseFault>
    requires { length src.now ≤ 16777216 }
    ensures is { IsLexed result src.now }
    ensures row { IfOk result (λ list. IsRow 0 (length src.now) list.tokens) }
{
    let lexing = tokens_and_fault(alloc, src)?;
    match lexing.fault {
        Some(offset) => Err(ParseFault::Syntax { offset }),
        None => Ok(lexing.list),
    }
}

/// A text has one list of tokens, and one first fault or none.
pub fn one_reading()
    ensures { (src : List ℕ) (ts us : List Token) (f g : Option ℕ) → HasTokens src ts f → HasTokens src us g → (ts ≡ us) × (f ≡ g) }
{}

/// The tokens of a text are slices of it, one behind the other.
pub fn tokens_in_order()
    ensures { (src : List ℕ) (ts : List Token) (f : Option ℕ) → HasTokens src ts f → IsRow 0 (length src) ts }
{}
