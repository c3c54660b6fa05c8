ghost use Rattle.std.specs.Prelude.{◌≡◌, ◌≢◌, ◌⊎◌, ℕ, ◌+◌, ◌^◌, ◌<◌, ◌≤◌, List, ◌∷◌, ◌++◌, Some, length, IfOk};
ghost use Rattle.std.specs.Prelude.{IfSome, IsSomeAnd, IfErr, IsErrAnd, decimal};
ghost use Rattle.std.specs.List.{AllByRecursion};
ghost use Rattle.rs_base.specs.Bytes.{AreBytes};
ghost use Rattle.rs_base.specs.Escape.{spelling};
ghost use Rattle.rs_outside.specs.declared.turn.What.{What};
ghost use Rattle.rs_outside.specs.declared.turn.Turn.{Turn};
ghost use Rattle.srv_loop.specs.Session.{IsTurn, IsWhat, IsSession, IsBadLine, IsJudged, IsPlain, SaysPiece};
ghost use Rattle.srv_loop.specs.Session.{turn_line, what_text, head_text};

use memchr::memchr;
use rs_base::{Bytes, NoMemory, decimal_prefix, unescape};
use rs_outside::{Status, Turn, Turns, What};
use std::alloc::Global;

/// The most bytes that a piece of a session may have.
pub const MAX_PIECE_BYTES: u64 = 1_048_576;

/// The turn of a session line, its LF included. `Ok(None)` exactly where `line` is no session line: `NOW WORD CLIENT`
/// and then `opened`, `piece TEXT`, `closed` or, where CLIENT is 0, `idle`, with one space between and LF at the end.
/// NOW and WORD are decimals of 64 bits and CLIENT one of 32 bits, without leading zeros; TEXT is the escape of at
/// most [`MAX_PIECE_BYTES`] bytes.
pub fn session_line(alloc: Global, line: &[u8]) -> Result<Option<Turn>, NoMemory>
    ensures found { IfOk result (λ found. IfSome found (λ turn. IsTurn turn × (line.now ≡ turn_line turn))) }
    ensures only { (turn : Turn) → IsTurn turn → line.now ≡ turn_line turn → IfOk result (λ found. found ≡ Some turn) }
{
    let Some((turn, rest)) = first_turn(alloc, line)? else {
        return Ok(None);
    };
    if !rest.is_empty() {
        return Ok(None);
    }
    Ok(Some(turn))
}

/// The turn whose line `text` begins with, and what follows that line. `Ok(None)` exactly where it begins with none.
pub fn first_turn(alloc: Global, text: &[u8]) -> Result<Option<(Turn, &[u8])>, NoMemory>
    ensures found { IfOk result (λ found. IfSome found (λ x. IsTurn x.0 × (text.now ≡ turn_line x.0 ++ x.1.now))) }
    ensures only { (turn : Turn) (more : List ℕ) → IsTurn turn → text.now ≡ turn_line turn ++ more
        → IfOk result (λ found. IsSomeAnd found (λ x. (x.0 ≡ turn) × (x.1.now ≡ more))) }
{
    let Some((head, rest)) = turn_head(text) else {
        return Ok(None);
    };
    let Some((what, rest)) = first_what(alloc, head.client, rest)? else {
        return Ok(None);
    };
    let turn = Turn {
        clock: head.clock,
        word: head.word,
        client: head.client,
        what,
    };
    Ok(Some((turn, rest)))
}

// The numbers at the front of a session line.
#[derive(Clone, Copy, Debug)]
struct Head {
    clock: u64,
    word: u64,
    client: u32,
}

// `NOW WORD CLIENT `
fn turn_head(text: &[u8]) -> Option<(Head, &[u8])>
    ensures found { IfSome result (λ x. text.now ≡ head_text x.0.clock x.0.word x.0.client ++ x.1.now) }
    ensures only { (clock word client : ℕ) (rest : List ℕ) → clock < 2 ^ 64 → word < 2 ^ 64 → client < 2 ^ 32
        → text.now ≡ head_text clock word client ++ rest
        → IsSomeAnd result (λ x. (x.0 ≡ record { clock = clock; word = word; client = client }) × (x.1.now ≡ rest)) }
{
    let (clock, rest) = first_number(text)?;
    let (word, rest) = first_number(rest)?;
    let (client, rest) = first_number(rest)?;
    let client = u32::try_from(client).ok()?;
    Some((
        Head {
            clock,
            word,
            client,
        },
        rest,
    ))
}

// The number at the front of a text, and what follows the space behind it.
fn first_number(text: &[u8]) -> Option<(u64, &[u8])>
    ensures found { IfSome result (λ x. text.now ≡ decimal x.0 ++ 32 ∷ x.1.now) }
    ensures only { (n : ℕ) (rest : List ℕ) → n < 2 ^ 64 → text.now ≡ decimal n ++ 32 ∷ rest
        → IsSomeAnd result (λ x. (x.0 ≡ n) × (x.1.now ≡ rest)) }
{
    let (n, rest) = decimal_prefix(text)?;
    let rest = after_prefix(rest, b" ")?;
    Some((n, rest))
}

// What a client did, in the last place of a line, and what follows the line.
fn first_what(alloc: Global, client: u32, text: &[u8]) -> Result<Option<(What, &[u8])>, NoMemory>
    ensures found { IfOk result (λ found.
        IfSome found (λ x. IsWhat client x.0 × (text.now ≡ what_text x.0 ++ 10 ∷ x.1.now))) }
    ensures only { (what : What) (rest : List ℕ) → IsWhat client what → text.now ≡ what_text what ++ 10 ∷ rest
        → IfOk result (λ found. IsSomeAnd found (λ x. (x.0 ≡ what) × (x.1.now ≡ rest))) }
{
    if let Some(rest) = after_prefix(text, b"piece ") {
        return first_piece(alloc, rest);
    }
    Ok(plain_what(client, text))
}

// `opened`, `closed` or, of client 0, `idle`, and LF
fn plain_what(client: u32, text: &[u8]) -> Option<(What, &[u8])>
    ensures found { IfSome result (λ x. IsWhat client x.0 × IsPlain x.0 × (text.now ≡ what_text x.0 ++ 10 ∷ x.1.now)) }
    ensures only { (what : What) (rest : List ℕ) → IsWhat client what → IsPlain what
        → text.now ≡ what_text what ++ 10 ∷ rest
        → IsSomeAnd result (λ x. (x.0 ≡ what) × (x.1.now ≡ rest)) }
{
    if let Some(rest) = after_prefix(text, b"opened\n") {
        return Some((What::Opened, rest));
    }
    if let Some(rest) = after_prefix(text, b"closed\n") {
        return Some((What::Closed, rest));
    }
    if client != 0 {
        return None;
    }
    let rest = after_prefix(text, b"idle\n")?;
    Some((What::Idle, rest))
}

// A piece, whose escape stands at the front of a text up to LF.
fn first_piece(alloc: Global, text: &[u8]) -> Result<Option<(What, &[u8])>, NoMemory>
    ensures found { IfOk result (λ found. IfSome found (λ x. SaysPiece x.0 text.now x.1.now)) }
    ensures only { (bytes rest : List ℕ) → AreBytes bytes → length bytes ≤ 1048576
        → text.now ≡ spelling bytes ++ 10 ∷ rest
        → IfOk result (λ found. IsSomeAnd found (λ x. (x.0 ≡ What.Piece bytes) × (x.1.now ≡ rest))) }
{
    let Some((escaped, rest)) = first_line(text) else {
        return Ok(None);
    };
    let Some(bytes) = unescape(alloc, escaped)? else {
        return Ok(None);
    };
    if bytes.len() as u64 > MAX_PIECE_BYTES {
        return Ok(None);
    }
    Ok(Some((What::Piece(bytes), rest)))
}

// What stands before the first LF, and what follows it.
fn first_line(text: &[u8]) -> Option<(&[u8], &[u8])>
    ensures found { IfSome result (λ x. text.now ≡ x.0.now ++ 10 ∷ x.1.now) }
    ensures only { (line rest : List ℕ) → AllByRecursion (λ b. b ≢ 10) line → text.now ≡ line ++ 10 ∷ rest
        → IsSomeAnd result (λ x. (x.0.now ≡ line) × (x.1.now ≡ rest)) }
{
    let end = memchr(b'\n', text)?;
    let (line, rest) = text.split_at(end);
    let (_, rest) = rest.split_first()?;
    Some((line, rest))
}

// What follows `prefix` in a text that begins with it.
fn after_prefix<'t>(text: &'t [u8], prefix: &[u8]) -> Option<&'t [u8]>
    ensures found { IfSome result (λ rest. text.now ≡ prefix.now ++ rest.now) }
    ensures only { (rest : List ℕ) → text.now ≡ prefix.now ++ rest → IsSomeAnd result (λ x. x.now ≡ rest) }
{
    text.strip_prefix(prefix)
}

/// The turns of a session, or its first bad line.
pub fn read_session(alloc: Global, session: &[u8]) -> Result<Turns, Status>
    ensures good { IfOk result (λ turns. IsSession session.now turns) }
    ensures only { (turns : List Turn) → IsSession session.now turns → IfOk result (λ read. read ≡ turns) }
    ensures bad { IfErr result (λ status. IsJudged session.now status) }
    ensures good_only { (turns : List Turn) → IsSession session.now turns
        → IfErr result (λ status. status ≡ Status.NoMemory) }
    ensures bad_only { (line : ℕ) → IsBadLine session.now line
        → IsErrAnd result (λ status. (status ≡ Status.BadInput line) ⊎ (status ≡ Status.NoMemory)) }
{
    let mut turns = Turns::new(alloc);
    let mut line = 1u64;
    let mut rest = session;
    while !rest.is_empty() {
        let Some((turn, more)) = first_turn(alloc, rest)? else {
            return Err(Status::BadInput { line });
        };
        turns.push(turn)?;
        rest = more;
        line += 1;
    }
    Ok(turns)
}
