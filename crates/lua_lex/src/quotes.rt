ghost use Rattle.std.specs.Prelude.{◌≡◌, ◌≤◌, ◌≢◌, ◌<◌, ◌++◌, ◌∷◌, ℕ, List, MatchResult, Ok, Err};
ghost use Rattle.lua_lex.specs.Pieces.{Piece, pieces_text, ArePieces, IsBroken};
ghost use Rattle.lua_lex.specs.Strings.{after_break, after_digits, after_escape, after_piece};

use crate::LexKind;
use crate::lines::{is_break, is_pair};

/// What follows the closing quote of the string that goes on with `text` behind its opening one.
pub fn after_string(quote: u8, text: &[u8]) -> Result<&[u8], LexKind>
    ensures { MatchResult result
        (λ rest. (pieces : List Piece) × ArePieces quote pieces (quote ∷ rest.now)
        × (text.now ≡ pieces_text pieces ++ quote ∷ rest.now))
        (λ k. (pieces : List Piece) × (bad : List ℕ) × ArePieces quote pieces bad
        × (text.now ≡ pieces_text pieces ++ bad) × IsBroken k bad) }
{
    let mut rest = text;
    while let Some((first, more)) = rest.split_first() {
        if *first == quote {
            return Ok(more);
        }
        match after_piece(*first, more) {
            Ok(next) => rest = next,
            Err(kind) => return Err(kind),
        }
    }
    Err(LexKind::OpenString)
}

// What follows the piece of a string that begins with this byte.
#[tactic(auto, unfolding(crate::specs::Strings::after_piece))]
pub fn after_piece(first: u8, rest: &[u8]) -> Result<&[u8], LexKind>
    ensures { MatchResult result
        (λ more. after_piece first rest.now ≡ Ok more.now)
        (λ k. after_piece first rest.now ≡ Err k) }
{
    if is_break(first) {
        return Err(LexKind::OpenString);
    }
    if first == b'\\' {
        return after_escape(rest);
    }
    Ok(rest)
}

// What follows an escape behind its backslash.
#[tactic(auto, unfolding(crate::specs::Strings::after_escape))]
fn after_escape(text: &[u8]) -> Result<&[u8], LexKind>
    ensures { MatchResult result
        (λ more. after_escape text.now ≡ Ok more.now)
        (λ k. after_escape text.now ≡ Err k) }
{
    let Some((first, rest)) = text.split_first() else {
        return Err(LexKind::OpenString);
    };
    if is_break(*first) {
        return Ok(after_break(*first, rest));
    }
    if first.is_ascii_digit() {
        return after_digits(2, *first - b'0', rest);
    }
    Ok(rest)
}

// What follows a line break that begins with this byte.
pub fn after_break(first: u8, rest: &[u8]) -> &[u8]
    ensures { result.now ≡ after_break first rest.now }
{
    match rest.split_first() {
        Some((second, more)) if is_pair(first, *second) => more,
        _ => rest,
    }
}

// What follows the digits of an escape, of which `left` may still come, behind those that stand for `value`.
fn after_digits(left: u8, value: u8, text: &[u8]) -> Result<&[u8], LexKind>
    ensures { MatchResult result
        (λ more. after_digits left value text.now ≡ Ok more.now)
        (λ k. after_digits left value text.now ≡ Err k) }
{
    if left == 0 {
        return Ok(text);
    }
    let Some((first, rest)) = text.split_first() else {
        return Ok(text);
    };
    if !first.is_ascii_digit() {
        return Ok(text);
    }
    let value = u32::from(value) * 10 + u32::from(*first - b'0');
    if value > 255 {
        return Err(LexKind::BadEscape);
    }
    after_digits(left - 1, value as u8, rest)
}
