//! What the kind of a word tells.

ghost use Rattle.std.specs.Prelude.{◌≡◌};
ghost use Rattle.lua_grammar.specs.Positions as at;
ghost use Rattle.lua_grammar.specs.Productions.{begins_last};
ghost use Rattle.lua_grammar.specs.Stuck.{begins_call};
ghost use Rattle.lua_parse.specs.Nests as spec;
ghost use Rattle.lua_parse.specs.Sought.{sought_of};

use crate::sought::Sought;
use lua_lex::TokenKind;

/// How many suffixes a suffix that begins with this word leaves to come.
pub fn spared_behind(kind: Option<TokenKind>, sought: Sought) -> usize
    ensures { result ≡ spec.spared_behind kind (sought_of sought) }
{
    if begins_call(kind) {
        sought.spares()
    } else {
        0
    }
}

// Whether a suffix that begins with this word is a call.
fn begins_call(kind: Option<TokenKind>) -> bool
    ensures { result ≡ begins_call kind }
{
    match kind {
        Some(TokenKind::LeftParen | TokenKind::LeftBrace | TokenKind::Text | TokenKind::Colon) =>
            true,
        _ => false,
    }
}

/// Whether this word stands between two fields.
pub fn is_separator(kind: Option<TokenKind>) -> bool
    ensures { result ≡ at.is_separator kind }
{
    match kind {
        Some(TokenKind::Comma | TokenKind::Semicolon) => true,
        _ => false,
    }
}

/// Whether a name with `=` behind it comes.
pub fn is_named(first: Option<TokenKind>, second: Option<TokenKind>) -> bool
    ensures { result ≡ at.is_named first second }
{
    match (first, second) {
        (Some(TokenKind::Name), Some(TokenKind::Assign)) => true,
        _ => false,
    }
}

/// Whether the last statement of a block begins with this word.
pub fn begins_last(kind: Option<TokenKind>) -> bool
    ensures { result ≡ begins_last kind }
{
    match kind {
        Some(TokenKind::Break | TokenKind::Return) => true,
        _ => false,
    }
}
