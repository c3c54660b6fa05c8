//! What is noted of an input as it is read, to tell more on standard error than a status does. No output and no status
//! rests on it.
use crate::forms::{Form, form_of};
use crate::tail::Tail;
use rs_base::Words;

/// What is noted of an input.
#[derive(Clone, Copy)]
pub enum Notes {
    /// Of the session that `play` reads.
    Session(Lines),
    /// Of the log that `replay` reads.
    Log(Tail),
    /// Of no input.
    Nothing,
}

impl Notes {
    /// The notes for a run on these words, before the first byte.
    pub fn of(words: &Words) -> Notes {
        match form_of(words) {
            Some(Form::Play(_)) => Notes::Session(Lines::new()),
            Some(Form::Replay) => Notes::Log(Tail::new()),
            None => Notes::Nothing,
        }
    }

    /// Takes the next bytes of the input.
    pub fn take(&mut self, piece: &[u8]) {
        match self {
            Notes::Session(lines) => lines.take(piece),
            Notes::Log(tail) => tail.take(piece),
            Notes::Nothing => {}
        }
    }
}

/// How many lines a text has, and what no line of a session has.
#[derive(Clone, Copy)]
pub struct Lines {
    ended: u64,
    // Whether bytes stand behind the last LF.
    is_open: bool,
    // The first line with a CR.
    return_at: Option<u64>,
}

impl Lines {
    /// A text of which nothing was read.
    pub fn new() -> Lines {
        Lines {
            ended: 0,
            is_open: false,
            return_at: None,
        }
    }

    /// Whether this line, counted from 1, is the first with a CR.
    pub fn returns_first_at(&self, line: u64) -> bool {
        self.return_at == Some(line)
    }

    /// Whether this line, counted from 1, is the last and has no LF.
    pub fn is_open_at(&self, line: u64) -> bool {
        self.is_open && line == self.ended.saturating_add(1)
    }

    fn take(&mut self, piece: &[u8]) {
        for byte in piece {
            self.is_open = *byte != b'\n';
            if *byte == b'\n' {
                self.ended = self.ended.saturating_add(1);
            } else if *byte == b'\r' {
                self.return_at = self.return_at.or(Some(self.ended.saturating_add(1)));
            }
        }
    }
}
