use rs_base::{NoMemory, Seq};
use rs_whole::Whole;
use thiserror::Error;

/// What a token is. The bytes of a name or of a text stand at the token's place.
#[derive(Clone, Copy, Debug, PartialEq, Eq)]
pub enum TokenKind {
    And,
    Break,
    Do,
    Else,
    ElseIf,
    End,
    False,
    For,
    Function,
    If,
    In,
    Local,
    Nil,
    Not,
    Or,
    Repeat,
    Return,
    Then,
    True,
    Until,
    While,
    Plus,
    Minus,
    Star,
    Slash,
    Percent,
    Caret,
    Hash,
    Equal,
    NotEqual,
    LessEqual,
    GreaterEqual,
    Less,
    Greater,
    Assign,
    LeftParen,
    RightParen,
    LeftBrace,
    RightBrace,
    LeftBracket,
    RightBracket,
    Semicolon,
    Colon,
    Comma,
    Dot,
    Concat,
    Dots,
    Name,
    Number(Whole),
    Text,
}

/// A token, the places of its first byte and past its last, and the line on which it begins, counted from 1.
#[derive(Clone, Copy, Debug, PartialEq, Eq)]
pub struct Token {
    pub kind: TokenKind,
    pub start: u32,
    pub stop: u32,
    pub line: u32,
}

/// Tokens in order.
pub type TokenList = Seq<Token>;

/// Why a text has no tokens.
#[derive(Clone, Copy, Debug, PartialEq, Eq, Error)]
pub enum LexKind {
    #[error("unexpected byte")]
    BadByte,
    #[error("unfinished string")]
    OpenString,
    #[error("unfinished long string or comment")]
    OpenLong,
    #[error("invalid escape")]
    BadEscape,
    #[error("malformed number")]
    BadNumber,
    #[error("number is not whole or beyond 53 bits")]
    NotWhole,
}

/// Why a text was not read. `line` is the line on which the numeral, string or comment at fault begins, or of the byte.
#[derive(Clone, Copy, Debug, PartialEq, Eq, Error)]
pub enum LexStop {
    #[error("line {line}: {kind}")]
    Bad { line: u32, kind: LexKind },
    #[error("out of memory")]
    NoMemory,
}

impl From<NoMemory> for LexStop {
    ghost use Rattle.std.specs.Prelude.{◌≡◌};
    ghost use Rattle.lua_lex.specs.declared.kinds.LexStop.{LexStop};

    ghost from_gives = { λ _ stop. stop ≡ LexStop.NoMemory };

    fn from(_error: NoMemory) -> LexStop {
        LexStop::NoMemory
    }
}
