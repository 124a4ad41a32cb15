//! What is open at a place of a source text, and what one step of the lexer finds there.

use crate::token::Mark;
use resin_scan::words::Cast;

/// What is open at a place. Where nothing is, the place is code.
#[derive(Clone, Copy, Debug, PartialEq, Eq)]
pub enum Open {
    /// Text outside code.
    Outside,
    /// A brace in code, or the one of `{$`.
    Brace,
    /// A text with interpolation, by the place of its quote.
    Quote(u32),
    /// An index behind a variable in a text, by the place of the text's quote.
    Index(u32),
    /// A property behind a variable in a text, by the place of the text's quote.
    Property(u32),
}

/// What a step opens or closes.
#[derive(Clone, Copy, Debug, PartialEq, Eq)]
pub enum Act {
    Stay,
    Enter(Open),
    Leave,
}

/// The form of a token, from which and from the token's bytes its kind follows.
#[derive(Clone, Copy, Debug, PartialEq, Eq)]
pub enum Shape {
    Inline,
    /// `<?=`
    EchoTag,
    /// A name or a keyword.
    Word,
    Variable,
    Int(i64),
    Mark(Mark),
    Cast(Cast),
    Single,
    Double,
    Opening,
    Stretch,
    Index,
    Property,
    BraceOpen,
    Closing,
}

/// What stands first: a token or something that is none, with its length and what it opens or closes, or nothing lawful.
#[derive(Clone, Copy, Debug, PartialEq, Eq)]
pub enum Step {
    Token(Shape, usize, Act),
    Skip(usize, Act),
    Fault,
}
