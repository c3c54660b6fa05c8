ghost use Rattle.std.specs.Prelude.{◌≡◌};
ghost use Rattle.lua_grammar.specs.Operators as spec;

use lua_lex::TokenKind;

/// An operator of one operand (Lua 5.1 manual, 2.5).
#[derive(Clone, Copy, Debug, PartialEq, Eq)]
pub enum Unary {
    /// `not`
    Not,
    /// `#`
    Length,
    /// `-`
    Minus,
}

/// An operator of two operands (Lua 5.1 manual, 2.5).
#[derive(Clone, Copy, Debug, PartialEq, Eq)]
pub enum Binary {
    Or,
    And,
    Less,
    Greater,
    LessEqual,
    GreaterEqual,
    NotEqual,
    Equal,
    Concat,
    Add,
    Subtract,
    Multiply,
    Divide,
    Modulo,
    Power,
}

/// A binary operator and its precedence: 1 `or`; 2 `and`; 3 comparisons; 4 `..`; 5 `+ -`; 6 `* / %`; 7 `^`.
#[derive(Clone, Copy, Debug, PartialEq, Eq)]
pub struct Operator {
    pub rank: u8,
    pub by: Binary,
}

/// The binary operator that a token of this kind is.
pub fn binary_operator(kind: TokenKind) -> Option<Operator>
    ensures { result ≡ spec.binary_operator kind }
{
    let (rank, by) = match kind {
        TokenKind::Or => (1, Binary::Or),
        TokenKind::And => (2, Binary::And),
        TokenKind::Less => (3, Binary::Less),
        TokenKind::Greater => (3, Binary::Greater),
        TokenKind::LessEqual => (3, Binary::LessEqual),
        TokenKind::GreaterEqual => (3, Binary::GreaterEqual),
        TokenKind::NotEqual => (3, Binary::NotEqual),
        TokenKind::Equal => (3, Binary::Equal),
        TokenKind::Concat => (4, Binary::Concat),
        TokenKind::Plus => (5, Binary::Add),
        TokenKind::Minus => (5, Binary::Subtract),
        TokenKind::Star => (6, Binary::Multiply),
        TokenKind::Slash => (6, Binary::Divide),
        TokenKind::Percent => (6, Binary::Modulo),
        TokenKind::Caret => (7, Binary::Power),
        _ => return None,
    };
    Some(Operator { rank, by })
}

/// The unary operator that a token of this kind is.
pub fn unary_operator(kind: TokenKind) -> Option<Unary>
    ensures { result ≡ spec.unary_operator kind }
{
    match kind {
        TokenKind::Not => Some(Unary::Not),
        TokenKind::Hash => Some(Unary::Length),
        TokenKind::Minus => Some(Unary::Minus),
        _ => None,
    }
}
