ghost use Rattle.std.specs.Prelude.{◌≡◌};
ghost use Rattle.lua_grammar.specs.Words as spec;

use lua_lex::TokenKind;

/// A token as the grammar reads it.
#[derive(Clone, Copy, Debug, PartialEq, Eq)]
pub struct Word {
    pub kind: TokenKind,
    /// For a name or a string, the number of its bytes among the texts of the chunk; else 0.
    pub text: u32,
    /// The line on which it begins, counted from 1.
    pub line: u32,
    /// The place of its first byte in the text.
    pub start: u32,
}

/// Whether a token of this kind goes on with what a name or a parenthesis began: an index, a field, a call or a method.
pub fn begins_suffix(kind: Option<TokenKind>) -> bool
    ensures { result ≡ spec.begins_suffix kind }
{
    match kind {
        Some(
            TokenKind::LeftBracket
            | TokenKind::Dot
            | TokenKind::Colon
            | TokenKind::LeftParen
            | TokenKind::LeftBrace
            | TokenKind::Text,
        ) => true,
        _ => false,
    }
}

/// Whether a block ends before a token of this kind, or at the end of the text.
pub fn ends_block(kind: Option<TokenKind>) -> bool
    ensures { result ≡ spec.ends_block kind }
{
    match kind {
        None | Some(TokenKind::End | TokenKind::Else | TokenKind::ElseIf | TokenKind::Until) =>
            true,
        _ => false,
    }
}

/// Whether a `return` before a token of this kind has no values.
pub fn ends_return(kind: Option<TokenKind>) -> bool
    ensures { result ≡ spec.ends_return kind }
{
    match kind {
        Some(TokenKind::Semicolon) => true,
        _ => ends_block(kind),
    }
}
