ghost use Rattle.std.specs.Prelude.{◌≡◌, ◌≤◌, ◌<◌, ◌+◌, length, IfSome};
ghost use Rattle.lua_lex.specs.Symbols.{symbol, pair, points, with_equal, single, single_operator, single_mark};

use crate::TokenKind;

/// The longest symbol at the front of `text`, and how many bytes it has.
#[tactic(auto, unfolding(crate::specs::Symbols::symbol))]
pub fn symbol(text: &[u8]) -> Option<(TokenKind, usize)>
    ensures value { result ≡ symbol text.now }
    ensures within { IfSome result (λ s. s.1 ≤ length text.now) }
    ensures some { IfSome result (λ s. 0 < s.1) }
{
    let (first, rest) = text.split_first()?;
    match pair(*first, rest) {
        Some(kind) => Some(kind),
        None => Some((single(*first)?, 1)),
    }
}

// The symbol of two bytes or three that begins with this one.
#[tactic(auto, unfolding(crate::specs::Symbols::pair))]
fn pair(first: u8, rest: &[u8]) -> Option<(TokenKind, usize)>
    ensures value { result ≡ pair first rest.now }
    ensures within { IfSome result (λ s. s.1 ≤ 1 + length rest.now) }
    ensures some { IfSome result (λ s. 0 < s.1) }
{
    let (second, rest) = rest.split_first()?;
    match *second {
        b'=' => Some((with_equal(first)?, 2)),
        b'.' if first == b'.' => Some(points(rest)),
        _ => None,
    }
}

// What two points are, with what follows them.
fn points(rest: &[u8]) -> (TokenKind, usize)
    ensures value { result ≡ points rest.now }
    ensures within { result.1 ≤ 2 + length rest.now }
    ensures some { 0 < result.1 }
{
    match rest.split_first() {
        Some((b'.', _)) => (TokenKind::Dots, 3),
        _ => (TokenKind::Concat, 2),
    }
}

// The symbol of a byte and `=`.
fn with_equal(first: u8) -> Option<TokenKind>
    ensures { result ≡ with_equal first }
{
    match first {
        b'=' => Some(TokenKind::Equal),
        b'~' => Some(TokenKind::NotEqual),
        b'<' => Some(TokenKind::LessEqual),
        b'>' => Some(TokenKind::GreaterEqual),
        _ => None,
    }
}

#[tactic(auto, unfolding(crate::specs::Symbols::single))]
fn single(byte: u8) -> Option<TokenKind>
    ensures { result ≡ single byte }
{
    match single_operator(byte) {
        Some(kind) => Some(kind),
        None => single_mark(byte),
    }
}

fn single_operator(byte: u8) -> Option<TokenKind>
    ensures { result ≡ single_operator byte }
{
    match byte {
        b'+' => Some(TokenKind::Plus),
        b'-' => Some(TokenKind::Minus),
        b'*' => Some(TokenKind::Star),
        b'/' => Some(TokenKind::Slash),
        b'%' => Some(TokenKind::Percent),
        b'^' => Some(TokenKind::Caret),
        b'#' => Some(TokenKind::Hash),
        b'<' => Some(TokenKind::Less),
        b'>' => Some(TokenKind::Greater),
        b'=' => Some(TokenKind::Assign),
        _ => None,
    }
}

fn single_mark(byte: u8) -> Option<TokenKind>
    ensures { result ≡ single_mark byte }
{
    match byte {
        b'(' => Some(TokenKind::LeftParen),
        b')' => Some(TokenKind::RightParen),
        b'{' => Some(TokenKind::LeftBrace),
        b'}' => Some(TokenKind::RightBrace),
        b'[' => Some(TokenKind::LeftBracket),
        b']' => Some(TokenKind::RightBracket),
        b';' => Some(TokenKind::Semicolon),
        b':' => Some(TokenKind::Colon),
        b',' => Some(TokenKind::Comma),
        b'.' => Some(TokenKind::Dot),
        _ => None,
    }
}
