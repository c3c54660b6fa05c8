ghost use Rattle.std.specs.Prelude.{◌≡◌, is_some};
ghost use Rattle.fx_log.specs.LogCommands.{command_of, is_single, fits, kind_of};

use crate::{LogKind, Record};
use rs_base::Words;

/// What a command is in a log.
#[derive(Debug, Drop)]
pub enum LogCommand {
    /// `MULTI`: a group is opened.
    Multi,
    /// `EXEC`: the open group is at its end.
    Exec,
    /// A record.
    Record(Record),
    /// Anything else.
    Other,
}

impl LogCommand {
    /// What a command with these words is.
    pub fn from_words(words: Words) -> LogCommand
        ensures { result ≡ command_of words }
    {
        if is_single(&words, b"MULTI") {
            return LogCommand::Multi;
        }
        if is_single(&words, b"EXEC") {
            return LogCommand::Exec;
        }
        match Record::from_words(words) {
            Some(record) => LogCommand::Record(record),
            None => LogCommand::Other,
        }
    }

    /// Whether it may stand where a group is open, or none is.
    pub fn fits(&self, is_open: bool) -> bool
        ensures { result ≡ fits is_open self.now }
    {
        match self {
            LogCommand::Multi => !is_open,
            LogCommand::Exec => is_open,
            LogCommand::Record(_) => true,
            LogCommand::Other => false,
        }
    }

    /// The kind of a place where it may not stand.
    pub fn kind(&self) -> LogKind
        ensures { result ≡ kind_of self.now }
    {
        match self {
            LogCommand::Multi | LogCommand::Exec => LogKind::Nest,
            LogCommand::Record(_) | LogCommand::Other => LogKind::Row,
        }
    }
}

// Whether a command has one word, and it is this one.
fn is_single(words: &Words, word: &[u8]) -> bool
    ensures { result ≡ is_single word.now words.now }
{
    match words.as_slice() {
        [only] => only.as_slice() == word,
        _ => false,
    }
}
