//! Operators and brackets, the longest first.

ghost use Rattle.std.specs.Prelude.{◌≡◌, ◌<◌, length};
ghost use Rattle.resin_lex.specs.First as spec;
ghost use Rattle.resin_lex.specs.First.{Moves};

use crate::modes::{Act, Shape, Step};
use crate::token::Mark;
use resin_scan::bytes::{byte, is_digit};

/// A mark of this length.
pub fn mark_step(mark: Mark, n: usize) -> Step
    ensures { result ≡ spec.mark_step mark n }
{
    Step::Token(Shape::Mark(mark), n, Act::Stay)
}

/// A mark of two bytes where this byte stands second, and one of one byte elsewhere.
fn pair(s: &[u8], next: u8, long: Mark, short: Mark) -> Step
    requires some { 0 < length s.now }
    requires next { 0 < next }
    ensures is { result ≡ spec.pair s.now next long short }
    ensures moves { Moves s.now result }
{
    if byte(s, 1) == next {
        mark_step(long, 2)
    } else {
        mark_step(short, 1)
    }
}

/// `=`, `==`, `===` or `=>`.
#[tactic(auto, unfolding(crate::specs::First::first_equals))]
fn first_equals(s: &[u8]) -> Step
    requires { 0 < length s.now }
    ensures is { result ≡ spec.first_equals s.now }
    ensures moves { Moves s.now result }
{
    match byte(s, 1) {
        b'=' => {
            if byte(s, 2) == b'=' {
                mark_step(Mark::Identical, 3)
            } else {
                mark_step(Mark::Equal, 2)
            }
        }
        b'>' => mark_step(Mark::FatArrow, 2),
        _ => mark_step(Mark::Assign, 1),
    }
}

/// `!`, `!=` or `!==`.
#[tactic(auto, unfolding(crate::specs::First::first_bang))]
fn first_bang(s: &[u8]) -> Step
    requires { 0 < length s.now }
    ensures is { result ≡ spec.first_bang s.now }
    ensures moves { Moves s.now result }
{
    if byte(s, 1) != b'=' {
        mark_step(Mark::Not, 1)
    } else if byte(s, 2) == b'=' {
        mark_step(Mark::NotIdentical, 3)
    } else {
        mark_step(Mark::NotEqual, 2)
    }
}

/// `<`, `<=`, `<=>` or `<>`.
#[tactic(auto, unfolding(crate::specs::First::first_less))]
fn first_less(s: &[u8]) -> Step
    requires { 0 < length s.now }
    ensures is { result ≡ spec.first_less s.now }
    ensures moves { Moves s.now result }
{
    match byte(s, 1) {
        b'=' => {
            if byte(s, 2) == b'>' {
                mark_step(Mark::Compare, 3)
            } else {
                mark_step(Mark::LessOrEqual, 2)
            }
        }
        b'>' => mark_step(Mark::LessGreater, 2),
        _ => mark_step(Mark::Less, 1),
    }
}

/// `+`, `++` or `+=`.
#[tactic(auto, unfolding(crate::specs::First::first_plus))]
fn first_plus(s: &[u8]) -> Step
    requires { 0 < length s.now }
    ensures is { result ≡ spec.first_plus s.now }
    ensures moves { Moves s.now result }
{
    match byte(s, 1) {
        b'+' => mark_step(Mark::Increment, 2),
        b'=' => mark_step(Mark::PlusAssign, 2),
        _ => mark_step(Mark::Plus, 1),
    }
}

/// `-`, `--`, `-=` or `->`.
#[tactic(auto, unfolding(crate::specs::First::first_minus))]
fn first_minus(s: &[u8]) -> Step
    requires { 0 < length s.now }
    ensures is { result ≡ spec.first_minus s.now }
    ensures moves { Moves s.now result }
{
    match byte(s, 1) {
        b'-' => mark_step(Mark::Decrement, 2),
        b'=' => mark_step(Mark::MinusAssign, 2),
        b'>' => mark_step(Mark::Arrow, 2),
        _ => mark_step(Mark::Minus, 1),
    }
}

/// `.` or `.=`. A digit behind a point makes a float form.
#[tactic(auto, unfolding(crate::specs::First::first_dot))]
fn first_dot(s: &[u8]) -> Step
    requires { 0 < length s.now }
    ensures is { result ≡ spec.first_dot s.now }
    ensures moves { Moves s.now result }
{
    if is_digit(byte(s, 1)) {
        Step::Fault
    } else {
        pair(s, b'=', Mark::DotAssign, Mark::Dot)
    }
}

/// `&&`. A lone `&` begins no token.
#[tactic(auto, unfolding(crate::specs::First::first_and))]
fn first_and(s: &[u8]) -> Step
    requires { 0 < length s.now }
    ensures is { result ≡ spec.first_and s.now }
    ensures moves { Moves s.now result }
{
    if byte(s, 1) == b'&' {
        mark_step(Mark::And, 2)
    } else {
        Step::Fault
    }
}

/// `?`, `??` or `??=`.
#[tactic(auto, unfolding(crate::specs::First::first_question))]
pub fn first_question(s: &[u8]) -> Step
    requires { 0 < length s.now }
    ensures is { result ≡ spec.first_question s.now }
    ensures moves { Moves s.now result }
{
    if byte(s, 1) != b'?' {
        mark_step(Mark::Question, 1)
    } else if byte(s, 2) == b'=' {
        mark_step(Mark::CoalesceAssign, 3)
    } else {
        mark_step(Mark::Coalesce, 2)
    }
}

/// An operator that begins with another byte than `/` and `?`.
#[tactic(auto, unfolding(crate::specs::First::first_operator))]
fn first_operator(s: &[u8]) -> Step
    requires { 0 < length s.now }
    ensures is { result ≡ spec.first_operator s.now }
    ensures moves { Moves s.now result }
{
    match byte(s, 0) {
        b'=' => first_equals(s),
        b'!' => first_bang(s),
        b'<' => first_less(s),
        b'>' => pair(s, b'=', Mark::GreaterOrEqual, Mark::Greater),
        b'+' => first_plus(s),
        b'-' => first_minus(s),
        b'*' => pair(s, b'=', Mark::StarAssign, Mark::Star),
        b'%' => pair(s, b'=', Mark::PercentAssign, Mark::Percent),
        b'.' => first_dot(s),
        b'&' => first_and(s),
        b'|' => pair(s, b'|', Mark::Or, Mark::Bar),
        b':' => pair(s, b':', Mark::DoubleColon, Mark::Colon),
        _ => Step::Fault,
    }
}

/// A mark of one byte that no other begins with, or an operator.
#[tactic(auto, unfolding(crate::specs::First::first_mark))]
pub fn first_mark(s: &[u8]) -> Step
    requires { 0 < length s.now }
    ensures is { result ≡ spec.first_mark s.now }
    ensures moves { Moves s.now result }
{
    match byte(s, 0) {
        b';' => mark_step(Mark::Semicolon, 1),
        b',' => mark_step(Mark::Comma, 1),
        b')' => mark_step(Mark::RightRound, 1),
        b'[' => mark_step(Mark::LeftSquare, 1),
        b']' => mark_step(Mark::RightSquare, 1),
        _ => first_operator(s),
    }
}
