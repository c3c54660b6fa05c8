ghost use Rattle.std.specs.Prelude.{◌≡◌, ◌↔◌, IsTrue};

use cmd_args::Mode;
use rs_base::{Bytes, NoMemory, Words, parse_decimal, unescape};
use std::alloc::Global;

/// When a turn takes place, and where its draws begin.
#[derive(Clone, Copy)]
pub struct Turn {
    /// Milliseconds.
    pub time: u64,
    pub word: u64,
}

/// How a case begins.
#[derive(Clone, Copy)]
pub struct Opening {
    pub turn: Turn,
    /// Who calls.
    pub mode: Mode,
    /// Whether the key `list` holds a list; the store is empty otherwise.
    pub has_list: bool,
}

/// What a line of the input asks for.
#[derive(Drop)]
pub enum Line {
    /// The end of a case.
    Empty,
    /// A text for the reader.
    Note,
    /// A case begins.
    Case(Opening),
    /// A further turn.
    Turn(Turn),
    Command(Words),
}

impl Line {
    /// Reads a line. `Ok(None)` where one of its words is spelled wrong.
    pub fn read(alloc: Global, text: &str) -> Result<Option<Line>, NoMemory> {
        if text.is_empty() {
            return Ok(Some(Line::Empty));
        }
        if text.starts_with('#') {
            return Ok(Some(Line::Note));
        }
        if text == "no words" {
            return Ok(Some(Line::Command(Words::new(alloc))));
        }
        Ok(words_of(alloc, text)?.map(Line::of_words))
    }

    fn of_words(words: Words) -> Line {
        if let Some(opening) = opening_of(words.as_slice()) {
            Line::Case(opening)
        } else if let Some(turn) = turn_of(words.as_slice(), b"at") {
            Line::Turn(turn)
        } else {
            Line::Command(words)
        }
    }
}

// The words that the text spells, if it spells any.
fn words_of(alloc: Global, text: &str) -> Result<Option<Words>, NoMemory> {
    let mut words = Words::new(alloc);
    for spelled in text.split(' ') {
        let Some(word) = unescape(alloc, spelled.as_bytes())? else {
            return Ok(None);
        };
        words.push(word)?;
    }
    Ok(Some(words))
}

// The opening that the words `time T word W` stand for, or `time T word W WHO`.
fn opening_of(words: &[Bytes]) -> Option<Opening> {
    let (turn, who) = words.split_at_checked(4)?;
    let (mode, has_list) = match who {
        [] => (Mode::Client, false),
        [who] => caller(who.as_slice())?,
        _ => return None,
    };
    Some(Opening {
        turn: turn_of(turn, b"time")?,
        mode,
        has_list,
    })
}

// Who calls, and whether there is a list.
fn caller(who: &[u8]) -> Option<(Mode, bool)> {
    match who {
        b"list" => Some((Mode::Client, true)),
        b"script" => Some((Mode::Script, false)),
        b"reader" => Some((Mode::ScriptRo, false)),
        _ => None,
    }
}

// The turn that the words `NAME T word W` stand for.
fn turn_of(words: &[Bytes], name: &[u8]) -> Option<Turn> {
    let [first, time, middle, word] = words else {
        return None;
    };
    if !is(first, name) || !is(middle, b"word") {
        return None;
    }
    Some(Turn {
        time: parse_decimal(time.as_slice())?,
        word: parse_decimal(word.as_slice())?,
    })
}

fn is(word: &Bytes, text: &[u8]) -> bool
    ensures { IsTrue result ↔ (word.now ≡ text.now) }
{
    word.as_slice() == text
}
