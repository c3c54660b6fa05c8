ghost use Rattle.std.specs.Prelude.{◌≡◌, ◌≤◌, ◌+◌, ◌<◌, length, true, not, position, ◌==◌, IfSome};
ghost use Rattle.lua_lex.specs.Long.{begins, equals, level, closes, close, long_len};

use memchr::memchr;

/// How many bytes the long bracket has that `text` opens behind a first `[` and closes. `None` exactly where it opens
/// none, or does not close it.
#[tactic(auto, unfolding(crate::specs::Long::long_len))]
pub fn long_len(text: &[u8]) -> Option<usize>
    ensures value { result ≡ long_len text.now }
    ensures within { IfSome result (λ n. n ≤ length text.now) }
{
    let level = level(text)?;
    let (_, body) = text.split_at(level + 1);
    let at = close(level, body)?;
    Some(level + 1 + at + level + 2)
}

/// The level of the long bracket that `text` opens behind a first `[`. `None` exactly where it opens none.
pub fn level(text: &[u8]) -> Option<usize>
    ensures value { result ≡ level text.now }
    ensures within { IfSome result (λ n. n < length text.now) }
{
    let equals = equals(text);
    let (_, rest) = text.split_at(equals);
    if begins(b'[', rest) {
        Some(equals)
    } else {
        None
    }
}

/// The place of the first close of a long bracket of this level in `text`. `None` exactly where there is none.
fn close(level: usize, text: &[u8]) -> Option<usize>
    ensures value { result ≡ close level text.now }
    ensures within { IfSome result (λ at. at + level + 2 ≤ length text.now) }
{
    let mut rest = text;
    while let Some(at) = memchr(b']', rest) {
        let (_, more) = rest.split_at(at + 1);
        if closes(level, more) {
            return Some(text.len() - more.len() - 1);
        }
        rest = more;
    }
    None
}

// Whether `text` goes on with this many `=` and `]`.
fn closes(level: usize, text: &[u8]) -> bool
    ensures value { result ≡ closes level text.now }
    ensures within { result ≡ true → level + 1 ≤ length text.now }
{
    let equals = equals(text);
    let (_, rest) = text.split_at(equals);
    equals == level && begins(b']', rest)
}

fn equals(text: &[u8]) -> usize
    ensures value { result ≡ equals text.now }
    ensures within { result ≤ length text.now }
{
    first_no_equal(text).unwrap_or(text.len())
}

fn first_no_equal(text: &[u8]) -> Option<usize>
    ensures value { result ≡ position (λ b. not (b == 61)) text.now }
    ensures within { IfSome result (λ i. i < length text.now) }
{
    text.iter().position(|byte| *byte != b'=')
}

pub fn begins(byte: u8, text: &[u8]) -> bool
    ensures value { result ≡ begins byte text.now }
    ensures some { result ≡ true → 0 < length text.now }
{
    match text.split_first() {
        Some((first, _)) => *first == byte,
        None => false,
    }
}
