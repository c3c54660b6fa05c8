ghost use Rattle.std.specs.Prelude.{◌≡◌, ◌≤◌, ◌<◌, ◌⊎◌, ◌∷◌, ◌++◌, [], ℕ, List, Some, map, IfOk, IfSome};
ghost use Rattle.lua_lex.specs.Pieces.{Piece, pieces_text, ArePieces};
ghost use Rattle.lua_lex.specs.Values.{IsString, IsLong, piece_byte, line_feeds, without_break, letter_byte};
ghost use Rattle.lua_lex.specs.ValueReading.{digits_byte, escape_byte, first_byte};

use crate::lines::is_break;
use crate::long::{level, long_len};
use crate::quotes::{after_break, after_piece};
use rs_base::{Bytes, NoMemory};
use std::alloc::Global;

/// The bytes that the string `text` stands for, as a token `Text` has it (Lua 5.1 manual, 2.1). `Ok(None)` exactly
/// where
/// `text` is no string.
pub fn string_bytes(alloc: Global, text: &[u8]) -> Result<Option<Bytes>, NoMemory>
    ensures found { IfOk result (λ found. IfSome found (IsString text.now)) }
    ensures only { (bytes : List ℕ) → IsString text.now bytes → IfOk result (λ found. found ≡ Some bytes) }
{
    match text.split_first() {
        Some((b'[', bracket)) => long_bytes(alloc, bracket),
        Some((b'"', string)) => quoted_bytes(alloc, b'"', string),
        Some((b'\'', string)) => quoted_bytes(alloc, b'\'', string),
        _ => Ok(None),
    }
}

// The bytes of the string that goes on with `text` behind its opening quote, to the end of `text`.
fn quoted_bytes(alloc: Global, quote: u8, text: &[u8]) -> Result<Option<Bytes>, NoMemory>
    requires { (quote ≡ 34) ⊎ (quote ≡ 39) }
    ensures found { IfOk result (λ found. IfSome found (λ bytes. (pieces : List Piece)
        × ArePieces quote pieces (quote ∷ []) × (text.now ≡ pieces_text pieces ++ quote ∷ [])
        × (bytes ≡ map piece_byte pieces))) }
    ensures only { (pieces : List Piece) → ArePieces quote pieces (quote ∷ []) → text.now ≡ pieces_text pieces ++ quote
        ∷ []
        → IfOk result (λ found. found ≡ Some (map piece_byte pieces)) }
{
    let mut bytes = Bytes::new(alloc);
    let mut rest = text;
    while let Some((first, more)) = rest.split_first() {
        if *first == quote {
            if more.is_empty() {
                return Ok(Some(bytes));
            }
            return Ok(None);
        }
        let next = match after_piece(*first, more) {
            Ok(next) => next,
            Err(_) => return Ok(None),
        };
        bytes.push(first_byte(*first, more))?;
        rest = next;
    }
    Ok(None)
}

// The byte of the piece that begins with this byte.
#[tactic(auto, unfolding(crate::specs::ValueReading::first_byte))]
fn first_byte(first: u8, rest: &[u8]) -> u8
    ensures { result ≡ first_byte first rest.now }
{
    if first == b'\\' {
        escape_byte(rest)
    } else {
        first
    }
}

// The byte of an escape behind its backslash.
#[tactic(auto, unfolding(crate::specs::ValueReading::escape_byte))]
fn escape_byte(text: &[u8]) -> u8
    ensures { result ≡ escape_byte text.now }
{
    let Some((first, rest)) = text.split_first() else {
        return b'\\';
    };
    if is_break(*first) {
        return b'\n';
    }
    if first.is_ascii_digit() {
        return digits_byte(2, *first - b'0', rest);
    }
    letter_byte(*first)
}

fn letter_byte(letter: u8) -> u8
    ensures { result ≡ letter_byte letter }
{
    match letter {
        b'a' => 7,
        b'b' => 8,
        b'f' => 12,
        b'n' => 10,
        b'r' => 13,
        b't' => 9,
        b'v' => 11,
        _ => letter,
    }
}

// The number of the digits of an escape, of which `left` may still come, behind those that stand for `value`.
fn digits_byte(left: u8, value: u8, text: &[u8]) -> u8
    ensures { result ≡ digits_byte left value text.now }
{
    if left == 0 {
        return value;
    }
    let Some((first, rest)) = text.split_first() else {
        return value;
    };
    if !first.is_ascii_digit() {
        return value;
    }
    let more = u32::from(value) * 10 + u32::from(*first - b'0');
    if more > 255 {
        return value;
    }
    digits_byte(left - 1, more as u8, rest)
}

// The bytes of the long string that goes on with `bracket` behind its first `[`, to the end of `bracket`.
fn long_bytes(alloc: Global, bracket: &[u8]) -> Result<Option<Bytes>, NoMemory>
    ensures found { IfOk result (λ found. IfSome found (IsLong (91 ∷ bracket.now))) }
    ensures only { (bytes : List ℕ) → IsLong (91 ∷ bracket.now) bytes → IfOk result (λ found. found ≡ Some bytes) }
{
    let Some(len) = long_len(bracket) else {
        return Ok(None);
    };
    if len != bracket.len() {
        return Ok(None);
    }
    let Some(level) = level(bracket) else {
        return Ok(None);
    };
    let (_, body) = bracket.split_at(level + 1);
    let (body, _) = body.split_at(bracket.len() - (level + 2 + (level + 1)));
    let bytes = line_feeds(alloc, without_break(body))?;
    Ok(Some(bytes))
}

// The text without a line break at its front.
fn without_break(text: &[u8]) -> &[u8]
    ensures { result.now ≡ without_break text.now }
{
    match text.split_first() {
        Some((first, rest)) if is_break(*first) => after_break(*first, rest),
        _ => text,
    }
}

// The text with each line break as one LF.
fn line_feeds(alloc: Global, text: &[u8]) -> Result<Bytes, NoMemory>
    ensures { IfOk result (λ bytes. bytes ≡ line_feeds text.now) }
{
    let mut bytes = Bytes::new(alloc);
    let mut rest = text;
    while let Some((first, more)) = rest.split_first() {
        if is_break(*first) {
            bytes.push(b'\n')?;
            rest = after_break(*first, more);
        } else {
            bytes.push(*first)?;
            rest = more;
        }
    }
    Ok(bytes)
}
