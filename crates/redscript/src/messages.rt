//! What is told on standard error before the line of a status.
use crate::notes::Notes;
use crate::outside::Outside;
use rs_base::Words;
use rs_outside::Status;
use std::{fmt, io};

/// Why a run ended as it did, as far as its status does not tell.
#[derive(Clone, Copy)]
pub enum Message<'a> {
    /// The forms of a command line.
    Forms,
    /// The system's reason for a fault of the object of this name.
    Reason(&'a str, io::Error),
    /// This line has a CR.
    CarriageReturn { line: u64 },
    /// This line is the last, and has no LF.
    NoLineEnd { line: u64 },
    /// The forms of a session line.
    LineForms,
    /// So many bytes at the end of a log belong to no whole group.
    LeftOut { bytes: u64 },
}

impl<'a> Message<'a> {
    /// What is told of a run on these words that ended with this status.
    pub fn of(status: Status, words: &'a Words, outside: &Outside<'_>) -> Option<Message<'a>> {
        let Outside { input, out, log } = outside;
        match status {
            Status::Usage => Some(Message::Forms),
            Status::SourceFault => Message::reason("standard input", input.reason()),
            Status::SinkFault => Message::reason("standard output", out.reason()),
            Status::LogFault => Message::reason(log_name(words), log.reason()),
            _ => Message::note(status, input.notes()),
        }
    }

    fn reason(name: &'a str, reason: Option<io::Error>) -> Option<Message<'a>> {
        Some(Message::Reason(name, reason?))
    }

    // What the notes of an input tell.
    fn note(status: Status, notes: &Notes) -> Option<Message<'a>> {
        match (status, notes) {
            (Status::BadInput { line }, Notes::Session(lines)) => {
                if lines.returns_first_at(line) {
                    Some(Message::CarriageReturn { line })
                } else if lines.is_open_at(line) {
                    Some(Message::NoLineEnd { line })
                } else {
                    Some(Message::LineForms)
                }
            }
            (Status::Done, Notes::Log(tail)) if tail.bytes() > 0 => Some(Message::LeftOut {
                bytes: tail.bytes(),
            }),
            _ => None,
        }
    }
}

// The log's name on the command line.
fn log_name(words: &Words) -> &str {
    let Some(name) = words.get(1) else {
        return "the log";
    };
    match str::from_utf8(name.as_slice()) {
        Ok(name) => name,
        Err(_) => "the log",
    }
}

const FORMS: &str = "\
the forms are
  redscript play LOG < SESSION > TRANSCRIPT
  redscript replay < LOG
  redscript --help
  redscript --version";

const LINE_FORMS: &str = "\
a line is `NOW WORD CLIENT` and then `opened`, `piece TEXT` or `closed`, or it is `NOW WORD 0 idle`";

impl fmt::Display for Message<'_> {
    fn fmt<W: fmt::Write>(&self, f: &mut fmt::Formatter<W>) -> fmt::Result {
        match self {
            Message::Forms => write!(f, "{FORMS}"),
            Message::Reason(name, reason) => write!(f, "{name}: {reason}"),
            Message::CarriageReturn { line } => {
                write!(
                    f,
                    "line {line} has a CR: a line ends in LF alone, and a text has a CR as \\r"
                )
            }
            Message::NoLineEnd { line } => write!(f, "line {line} is the last, and has no LF"),
            Message::LineForms => write!(f, "{LINE_FORMS}"),
            Message::LeftOut { bytes } => {
                write!(f, "bytes at the end that belong to no whole group: {bytes}")
            }
        }
    }
}
