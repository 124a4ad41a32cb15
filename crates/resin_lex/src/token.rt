//! Tokens.

use resin_items::{Items, SharedBytes};
use resin_scan::Keyword;
use resin_scan::words::Cast;
use resin_tree::Name;
use std::alloc::AllocError;

/// An operator or a bracket.
#[derive(Clone, Copy, Debug, PartialEq, Eq)]
pub enum Mark {
    /// `;`
    Semicolon,
    /// `,`
    Comma,
    /// `(`
    LeftRound,
    /// `)`
    RightRound,
    /// `[`
    LeftSquare,
    /// `]`
    RightSquare,
    /// `{`
    LeftBrace,
    /// `}`
    RightBrace,
    /// `:`
    Colon,
    /// `::`
    DoubleColon,
    /// `?`
    Question,
    /// `??`
    Coalesce,
    /// `??=`
    CoalesceAssign,
    /// `->`
    Arrow,
    /// `=>`
    FatArrow,
    /// `=`
    Assign,
    /// `==`
    Equal,
    /// `===`
    Identical,
    /// `!`
    Not,
    /// `!=`
    NotEqual,
    /// `!==`
    NotIdentical,
    /// `<`
    Less,
    /// `<=`
    LessOrEqual,
    /// `<=>`
    Compare,
    /// `<>`
    LessGreater,
    /// `>`
    Greater,
    /// `>=`
    GreaterOrEqual,
    /// `+`
    Plus,
    /// `++`
    Increment,
    /// `+=`
    PlusAssign,
    /// `-`
    Minus,
    /// `--`
    Decrement,
    /// `-=`
    MinusAssign,
    /// `*`
    Star,
    /// `*=`
    StarAssign,
    /// `/`
    Slash,
    /// `/=`
    SlashAssign,
    /// `%`
    Percent,
    /// `%=`
    PercentAssign,
    /// `.`
    Dot,
    /// `.=`
    DotAssign,
    /// `&&`
    And,
    /// `||`
    Or,
    /// `|`
    Bar,
}

/// A kind of token, with the bytes or the number that the token spells.
#[derive(Drop)]
pub enum TokenKind {
    /// Text outside code.
    Inline(SharedBytes),
    /// A name as it is written.
    Name(Name),
    Keyword(Keyword),
    /// `$v`, by its name without the `$`.
    Variable(SharedBytes),
    Int(i64),
    /// A quoted text without interpolation, its escapes worked out.
    Text(SharedBytes),
    /// `(int)`, `(string)` or `(bool)` in any case, as one token.
    Cast(Cast),
    /// An operator or a bracket. `?>` is a semicolon.
    Mark(Mark),
    /// The opening quote of a text with interpolation.
    TextOpen,
    /// A stretch between interpolations, its escapes worked out.
    Stretch(SharedBytes),
    /// `[k]` behind a variable in a text, where k is a name, digits, or `-` and digits: the key's text.
    IndexText(SharedBytes),
    /// `[$v]` behind a variable in a text: the name without the `$`.
    IndexVariable(SharedBytes),
    /// `->p` behind a variable in a text: the property's name.
    Property(SharedBytes),
    /// The `{` of `{$` in a text. Its tokens are those of code, up to a closing brace.
    BraceOpen,
    /// The closing quote of a text with interpolation.
    TextClose,
}

/// A token: the bytes of the source from `from` to `to`, the end not included.
#[derive(Drop)]
pub struct Token {
    pub kind: TokenKind,
    pub from: u32,
    pub to: u32,
}

/// Tokens in the order of the source.
pub type Tokens = Items<Token>;

/// The tokens of a source text, and its length.
#[derive(Drop)]
pub struct TokenList {
    pub tokens: Tokens,
    pub end: u32,
}

/// Why a source text has no tokens or no tree.
#[derive(Clone, Copy, Debug, PartialEq, Eq)]
pub enum ParseFault {
    /// The text is none of the language. The offset is that of the first byte of the place.
    Syntax { offset: u32 },
    /// The text nests too deep. The offset is where the first construct beyond the limit opens.
    TooDeep { offset: u32 },
    /// Memory was wanted.
    Memory,
}

impl From<AllocError> for ParseFault {
    ghost use Rattle.std.specs.Prelude.{◌≡◌};
    ghost use Rattle.resin_lex.specs.declared.token.ParseFault.TheVariants.{Memory};

    ghost from_gives = { λ _ e. e ≡ Memory };

    fn from(_: AllocError) -> ParseFault {
        ParseFault::Memory
    }
}
