//! What stands first in a text.

ghost use Rattle.std.specs.Prelude.{◌≡◌, ◌<◌, ◌≤◌, ℕ, ◌+◌, length, true, get_or, IfSome, drop};
ghost use Rattle.resin_lex.specs.First as spec;
ghost use Rattle.resin_lex.specs.First.{Moves};
ghost use Rattle.resin_lex.specs.Casts.{cast_behind};
ghost use Rattle.resin_scan.specs.Bytes.{begins_name, is_digit};
ghost use Rattle.resin_lex.specs.Modes as modes;

use crate::marks::{first_mark, first_question, mark_step};
use crate::modes::{Act, Open, Shape, Step};
use crate::token::Mark;
use resin_scan::bytes::{
    begins_name, blanks_len, byte, digits_len, is_blank, is_digit, name_len, spaces_len, word_len,
};
use resin_scan::numbers::{integer, is_prefixed};
use resin_scan::stretches::{Stop, blank_len, is_echo_tag, is_php_tag, newline_len, reach};
use resin_scan::words::{Cast, cast_of};

/// The place of a fault: the quote of a text in its own parts, the place itself elsewhere.
pub fn blamed(top: Option<Open>, at: u32) -> u32
    ensures { result ≡ modes.blamed top at }
{
    match top {
        Some(Open::Quote(place) | Open::Index(place) | Open::Property(place)) => place,
        _ => at,
    }
}

#[tactic(auto, unfolding(crate::specs::First::first_outside))]
fn first_outside(s: &[u8]) -> Step
    requires { 0 < length s.now }
    ensures is { result ≡ spec.first_outside s.now }
    ensures moves { Moves s.now result }
{
    if is_echo_tag(s) {
        Step::Token(Shape::EchoTag, 3, Act::Leave)
    } else if is_php_tag(s) {
        Step::Skip(5 + blank_len(&s[5..]), Act::Leave)
    } else {
        Step::Token(Shape::Inline, reach(Stop::Tag, s), Act::Stay)
    }
}

#[tactic(auto, unfolding(crate::specs::First::first_word), using(crate::proofs::CodeSound::name_there))]
fn first_word(s: &[u8]) -> Step
    requires some { 0 < length s.now }
    requires begins { begins_name (get_or s.now 0 0) ≡ true }
    ensures is { result ≡ spec.first_word s.now }
    ensures moves { Moves s.now result }
{
    Step::Token(Shape::Word, name_len(s), Act::Stay)
}

#[tactic(auto, unfolding(crate::specs::First::first_number))]
fn first_number(s: &[u8]) -> Step
    requires some { 0 < length s.now }
    requires begins { is_digit (get_or s.now 0 0) ≡ true }
    ensures is { result ≡ spec.first_number s.now }
    ensures moves { Moves s.now result }
{
    let n = word_len(s);
    if byte(s, n) == b'.' && !is_prefixed(&s[..n]) {
        return Step::Fault;
    }
    match integer(&s[..n]) {
        Some(v) => Step::Token(Shape::Int(v as i64), n, Act::Stay),
        None => Step::Fault,
    }
}

/// What follows the `(` of a cast: the cast, and the length up to and with its `)`.
#[tactic(auto, unfolding(crate::specs::Casts::cast_behind))]
fn cast_len(s: &[u8]) -> Option<(Cast, usize)>
    ensures is { result ≡ cast_behind s.now }
    ensures within { IfSome result (λ p. p.1 ≤ length s.now) }
{
    let start = spaces_len(s);
    let word = name_len(&s[start..]);
    let cast = cast_of(&s[start..start + word])?;
    let end = start + word + spaces_len(&s[start + word..]);
    if byte(s, end) == b')' {
        Some((cast, end + 1))
    } else {
        None
    }
}

#[tactic(auto, unfolding(crate::specs::First::first_round))]
fn first_round(s: &[u8]) -> Step
    requires { 0 < length s.now }
    ensures is { result ≡ spec.first_round s.now }
    ensures moves { Moves s.now result }
{
    match cast_len(&s[1..]) {
        Some((cast, n)) => Step::Token(Shape::Cast(cast), 1 + n, Act::Stay),
        None => mark_step(Mark::LeftRound, 1),
    }
}

fn comment(s: &[u8]) -> Step
    requires { 0 < length s.now }
    ensures is { result ≡ spec.comment s.now }
    ensures moves { Moves s.now result }
{
    Step::Skip(1 + reach(Stop::Line, &s[1..]), Act::Stay)
}

#[tactic(auto, unfolding(crate::specs::First::first_hash))]
fn first_hash(s: &[u8]) -> Step
    requires { 0 < length s.now }
    ensures is { result ≡ spec.first_hash s.now }
    ensures moves { Moves s.now result }
{
    if byte(s, 1) == b'[' {
        Step::Fault
    } else {
        comment(s)
    }
}

#[tactic(auto, unfolding(crate::specs::First::block_comment))]
fn block_comment(s: &[u8]) -> Step
    requires { 1 < length s.now }
    ensures is { result ≡ spec.block_comment s.now }
    ensures moves { Moves s.now result }
{
    let n = reach(Stop::Comment, &s[2..]);
    if byte(s, 3 + n) == b'/' {
        Step::Skip(4 + n, Act::Stay)
    } else {
        Step::Fault
    }
}

#[tactic(auto, unfolding(crate::specs::First::first_slash))]
fn first_slash(s: &[u8]) -> Step
    requires { 0 < length s.now }
    ensures is { result ≡ spec.first_slash s.now }
    ensures moves { Moves s.now result }
{
    match byte(s, 1) {
        b'/' => comment(s),
        b'*' => block_comment(s),
        b'=' => mark_step(Mark::SlashAssign, 2),
        _ => mark_step(Mark::Slash, 1),
    }
}

#[tactic(auto, unfolding(crate::specs::First::first_tag_or_question))]
fn first_tag_or_question(s: &[u8]) -> Step
    requires { 0 < length s.now }
    ensures is { result ≡ spec.first_tag_or_question s.now }
    ensures moves { Moves s.now result }
{
    if byte(s, 1) == b'>' {
        Step::Token(
            Shape::Mark(Mark::Semicolon),
            2 + newline_len(&s[2..]),
            Act::Enter(Open::Outside),
        )
    } else {
        first_question(s)
    }
}

#[tactic(auto, unfolding(crate::specs::First::first_single))]
fn first_single(s: &[u8]) -> Step
    requires { 0 < length s.now }
    ensures is { result ≡ spec.first_single s.now }
    ensures moves { Moves s.now result }
{
    let n = reach(Stop::Single, &s[1..]);
    if byte(s, 1 + n) == b'\'' {
        Step::Token(Shape::Single, 2 + n, Act::Stay)
    } else {
        Step::Fault
    }
}

#[tactic(auto, unfolding(crate::specs::First::first_double))]
fn first_double(at: u32, s: &[u8]) -> Step
    requires { 0 < length s.now }
    ensures is { result ≡ spec.first_double at s.now }
    ensures moves { Moves s.now result }
{
    let n = reach(Stop::Part, &s[1..]);
    if byte(s, 1 + n) == b'"' {
        Step::Token(Shape::Double, 2 + n, Act::Stay)
    } else {
        Step::Token(Shape::Opening, 1, Act::Enter(Open::Quote(at)))
    }
}

#[tactic(auto, unfolding(crate::specs::First::first_variable))]
fn first_variable(s: &[u8]) -> Step
    requires { 0 < length s.now }
    ensures is { result ≡ spec.first_variable s.now }
    ensures moves { Moves s.now result }
{
    if begins_name(byte(s, 1)) {
        Step::Token(Shape::Variable, 1 + name_len(&s[1..]), Act::Stay)
    } else {
        Step::Fault
    }
}

#[tactic(auto, unfolding(crate::specs::First::first_sign))]
fn first_sign(at: u32, s: &[u8]) -> Step
    requires { 0 < length s.now }
    ensures is { result ≡ spec.first_sign at s.now }
    ensures moves { Moves s.now result }
{
    match byte(s, 0) {
        b'$' => first_variable(s),
        b'\'' => first_single(s),
        b'"' => first_double(at, s),
        b'#' => first_hash(s),
        b'/' => first_slash(s),
        b'?' => first_tag_or_question(s),
        b'(' => first_round(s),
        b'{' => Step::Token(Shape::Mark(Mark::LeftBrace), 1, Act::Enter(Open::Brace)),
        b'}' => Step::Token(Shape::Mark(Mark::RightBrace), 1, Act::Leave),
        _ => first_mark(s),
    }
}

#[tactic(auto, unfolding(crate::specs::First::first_in_code))]
fn first_in_code(at: u32, s: &[u8]) -> Step
    requires { 0 < length s.now }
    ensures is { result ≡ spec.first_in_code at s.now }
    ensures moves { Moves s.now result }
{
    let b = byte(s, 0);
    if begins_name(b) {
        first_word(s)
    } else if is_digit(b) {
        first_number(s)
    } else if is_blank(b) {
        Step::Skip(blanks_len(s), Act::Stay)
    } else {
        first_sign(at, s)
    }
}

/// What a variable in a text opens, where these bytes follow it.
fn opened_behind(place: u32, s: &[u8]) -> Act
    ensures { result ≡ spec.opened_behind place s.now }
{
    if byte(s, 0) == b'[' {
        Act::Enter(Open::Index(place))
    } else if byte(s, 0) == b'-' && byte(s, 1) == b'>' && begins_name(byte(s, 2)) {
        Act::Enter(Open::Property(place))
    } else {
        Act::Stay
    }
}

#[tactic(auto, unfolding(crate::specs::First::quoted_variable))]
fn quoted_variable(place: u32, s: &[u8]) -> Step
    requires { 0 < length s.now }
    ensures is { result ≡ spec.quoted_variable place s.now }
    ensures moves { Moves s.now result }
{
    let n = 1 + name_len(&s[1..]);
    Step::Token(Shape::Variable, n, opened_behind(place, &s[n..]))
}

#[tactic(auto, unfolding(crate::specs::First::quoted_stretch))]
fn quoted_stretch(s: &[u8]) -> Step
    requires { 0 < length s.now }
    ensures is { result ≡ spec.quoted_stretch s.now }
    ensures moves { Moves s.now result }
{
    let n = reach(Stop::Part, s);
    if n == 0 {
        Step::Fault
    } else {
        Step::Token(Shape::Stretch, n, Act::Stay)
    }
}

#[tactic(auto, unfolding(crate::specs::First::first_in_quotes))]
fn first_in_quotes(place: u32, s: &[u8]) -> Step
    requires { 0 < length s.now }
    ensures is { result ≡ spec.first_in_quotes place s.now }
    ensures moves { Moves s.now result }
{
    let a = byte(s, 0);
    let b = byte(s, 1);
    if a == b'"' {
        Step::Token(Shape::Closing, 1, Act::Leave)
    } else if a == b'$' && begins_name(b) {
        quoted_variable(place, s)
    } else if a == b'{' && b == b'$' {
        Step::Token(Shape::BraceOpen, 1, Act::Enter(Open::Brace))
    } else {
        quoted_stretch(s)
    }
}

/// The length of a lawful key in front, or 0.
#[tactic(auto, unfolding(crate::specs::First::key_len))]
fn key_len(s: &[u8]) -> usize
    ensures is { result ≡ spec.key_len s.now }
    ensures within { result ≤ length s.now }
{
    let a = byte(s, 0);
    if begins_name(a) {
        name_len(s)
    } else if is_digit(a) {
        digits_len(s)
    } else if a == b'-' && is_digit(byte(s, 1)) {
        1 + digits_len(&s[1..])
    } else if a == b'$' && begins_name(byte(s, 1)) {
        1 + name_len(&s[1..])
    } else {
        0
    }
}

#[tactic(auto, unfolding(crate::specs::First::first_index))]
fn first_index(s: &[u8]) -> Step
    requires { 0 < length s.now }
    ensures is { result ≡ spec.first_index s.now }
    ensures moves { Moves s.now result }
{
    if byte(s, 0) != b'[' {
        return Step::Fault;
    }
    let n = key_len(&s[1..]);
    if n == 0 {
        Step::Fault
    } else if byte(s, 1 + n) == b']' {
        Step::Token(Shape::Index, 2 + n, Act::Leave)
    } else {
        Step::Fault
    }
}

#[tactic(auto, unfolding(crate::specs::First::first_property))]
fn first_property(s: &[u8]) -> Step
    requires { 0 < length s.now }
    ensures is { result ≡ spec.first_property s.now }
    ensures moves { Moves s.now result }
{
    if byte(s, 0) == b'-' && byte(s, 1) == b'>' && begins_name(byte(s, 2)) {
        Step::Token(Shape::Property, 2 + name_len(&s[2..]), Act::Leave)
    } else {
        Step::Fault
    }
}

/// What stands first, where `top` is the innermost that is open.
pub fn first_of(top: Option<Open>, at: u32, s: &[u8]) -> Step
    requires { 0 < length s.now }
    ensures is { result ≡ spec.first top at s.now }
    ensures moves { Moves s.now result }
{
    match top {
        None | Some(Open::Brace) => first_in_code(at, s),
        Some(Open::Outside) => first_outside(s),
        Some(Open::Quote(place)) => first_in_quotes(place, s),
        Some(Open::Index(_)) => first_index(s),
        Some(Open::Property(_)) => first_property(s),
    }
}
