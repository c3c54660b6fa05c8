ghost use Rattle.std.specs.Prelude.{◌≡◌, ◌==◌, if◌then◌else◌, is_some};
ghost use Rattle.resp_read.specs.declared.parser.Parser.{Parser};
ghost use Rattle.resp_read.specs.Automaton.{limit, with_digit, first_in_line, more_in_line, line_ended, line_kind};
ghost use Rattle.resp_read.specs.Automaton.{word_ended, phase_after, out_in, kind_in, is_dead};

use crate::{BadFrame, MAX_WORD_BYTES, MAX_WORDS};

/// What the number of a line counts.
#[derive(Clone, Copy, Debug)]
pub enum Line {
    /// The words of a command.
    ForCount,
    /// Nothing: the array is negative.
    ForNegative,
    /// The bytes of a word, behind which so many more words come.
    ForWord(u64),
}

impl Line {
    // The greatest number that the line may have, where the word that it begins may have `room` bytes.
    fn limit(self, room: u64) -> u64
        ensures { result ≡ limit room self }
    {
        match self {
            Line::ForCount => MAX_WORDS,
            Line::ForNegative => MAX_WORDS,
            Line::ForWord(_) => room.min(MAX_WORD_BYTES),
        }
    }

    // What comes behind the line, if its number is `n`.
    fn ended(self, n: u64) -> Phase
        ensures { result ≡ line_ended self n }
    {
        match self {
            Line::ForCount => word_or_end(n),
            Line::ForNegative => Phase::AtStar,
            Line::ForWord(behind) => {
                if n == 0 {
                    Phase::WordCr(behind)
                } else {
                    Phase::InWord(behind, n - 1)
                }
            }
        }
    }

    fn kind(self) -> BadFrame
        ensures { result ≡ line_kind self }
    {
        match self {
            Line::ForCount => BadFrame::Count,
            Line::ForNegative => BadFrame::Count,
            Line::ForWord(_) => BadFrame::Length,
        }
    }
}

/// What may come next.
#[derive(Clone, Copy, Debug)]
pub enum Phase {
    /// A request.
    AtStar,
    /// The rest of a number, of which so much is read, or the end of its line.
    InLine(Line, Option<u64>),
    /// The LF of a line with that number.
    LineEnd(Line, u64),
    /// A word, behind which so many more come.
    AtDollar(u64),
    /// A byte of a word: how many words come behind the word, and how many of its bytes behind that one.
    InWord(u64, u64),
    /// The CR behind a word, behind which so many more come.
    WordCr(u64),
    /// The LF behind a word, behind which so many more come.
    WordLf(u64),
    /// Nothing: the bytes begin no sequence of requests.
    Dead,
}

impl Phase {
    /// What may come behind `byte`, where the next word may have `room` bytes.
    pub fn after(self, room: u64, byte: u8) -> Phase
        ensures { result ≡ phase_after room self byte }
    {
        match self {
            Phase::AtStar => if_byte(byte, b'*', Phase::InLine(Line::ForCount, None)),
            Phase::InLine(line, None) => first_in_line(room, line, byte),
            Phase::InLine(line, Some(n)) => more_in_line(room, line, n, byte),
            Phase::LineEnd(line, n) => if_byte(byte, b'\n', line.ended(n)),
            Phase::AtDollar(behind) => {
                if_byte(byte, b'$', Phase::InLine(Line::ForWord(behind), None))
            }
            Phase::InWord(behind, more) => {
                if more == 0 {
                    Phase::WordCr(behind)
                } else {
                    Phase::InWord(behind, more - 1)
                }
            }
            Phase::WordCr(behind) => if_byte(byte, b'\r', Phase::WordLf(behind)),
            Phase::WordLf(behind) => if_byte(byte, b'\n', word_or_end(behind)),
            Phase::Dead => Phase::Dead,
        }
    }

    /// Whether `byte` ends a request here.
    pub fn ends_with(self, byte: u8) -> bool
        ensures { (s : Parser) → result ≡ is_some (out_in self s byte) }
    {
        match self {
            Phase::LineEnd(Line::ForCount, n) => byte == b'\n' && n == 0,
            Phase::LineEnd(Line::ForNegative, _) => byte == b'\n',
            Phase::WordLf(behind) => byte == b'\n' && behind == 0,
            _ => false,
        }
    }

    pub fn is_dead(self) -> bool
        ensures { result ≡ is_dead self }
    {
        matches!(self, Phase::Dead)
    }

    /// The kind of a byte that cannot stand here.
    pub fn kind(self) -> BadFrame
        ensures { result ≡ kind_in self }
    {
        match self {
            Phase::AtStar => BadFrame::NoStar,
            Phase::InLine(line, _) => line.kind(),
            Phase::LineEnd(line, _) => line.kind(),
            Phase::AtDollar(_) => BadFrame::NoDollar,
            Phase::InWord(_, _) => BadFrame::NoEnd,
            Phase::WordCr(_) => BadFrame::NoEnd,
            Phase::WordLf(_) => BadFrame::NoEnd,
            Phase::Dead => BadFrame::NoStar,
        }
    }
}

// `phase` behind the one byte that may come.
fn if_byte(byte: u8, want: u8, phase: Phase) -> Phase
    ensures { result ≡ (if byte == want then phase else Phase.Dead) }
{
    if byte == want { phase } else { Phase::Dead }
}

// The next of `coming` words, or a request where none comes.
fn word_or_end(coming: u64) -> Phase
    ensures { result ≡ word_ended coming }
{
    if coming == 0 {
        Phase::AtStar
    } else {
        Phase::AtDollar(coming - 1)
    }
}

// Behind the first byte of a number.
fn first_in_line(room: u64, line: Line, byte: u8) -> Phase
    ensures { result ≡ first_in_line room line byte }
{
    match (line, byte) {
        (Line::ForCount, b'-') => Phase::InLine(Line::ForNegative, None),
        (Line::ForNegative, b'0') => Phase::Dead,
        _ => with_digit(room, line, 0, byte),
    }
}

// Behind a byte more of the number `n`.
fn more_in_line(room: u64, line: Line, n: u64, byte: u8) -> Phase
    ensures { result ≡ more_in_line room line n byte }
{
    if byte == b'\r' {
        Phase::LineEnd(line, n)
    } else if n == 0 {
        Phase::Dead
    } else {
        with_digit(room, line, n, byte)
    }
}

// Behind a digit more of the number `n`, if it makes the number no greater than the line may have.
fn with_digit(room: u64, line: Line, n: u64, byte: u8) -> Phase
    ensures { result ≡ with_digit room line n byte }
{
    if !byte.is_ascii_digit() {
        return Phase::Dead;
    }
    let number = n.saturating_mul(10).saturating_add(u64::from(byte - b'0'));
    if number <= line.limit(room) {
        Phase::InLine(line, Some(number))
    } else {
        Phase::Dead
    }
}
