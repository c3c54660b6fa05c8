use rs_base::NoMemory;
use std::fmt;

/// How a run of the program ended.
#[derive(Clone, Copy, Debug, PartialEq, Eq)]
pub enum Status {
    /// All of the input was read and all output written, or the wire gave no more turn.
    Done,
    /// The words are no command line of the program. Nothing was read or written.
    Usage,
    /// This line of a session, counted from 1, is the first that is no session line. Nothing was written.
    BadInput { line: u64 },
    /// At this byte, counted from 0, the input of `replay` is no log any longer. Nothing was written.
    BadLog { place: u64 },
    /// The input failed.
    SourceFault,
    /// The output failed.
    SinkFault,
    /// The log failed.
    LogFault,
    /// The wire failed.
    WireFault,
    /// This number of turns, the most that the server was to take, was taken.
    TurnsSpent { turns: u64 },
    /// Memory ran out.
    NoMemory,
    /// The input has more than this number of bytes, the limit. Nothing was written.
    InputTooLong { bytes: u64 },
}

impl From<NoMemory> for Status {
    ghost use Rattle.rs_outside.specs.declared.status.Status.{Status};
    ghost use Rattle.std.specs.Prelude.{◌≡◌};

    ghost from_gives = { λ _ status. status ≡ Status.NoMemory };

    fn from(_error: NoMemory) -> Status {
        Status::NoMemory
    }
}

impl Status {
    ghost use Rattle.rs_outside.specs.Codes.{code_of};
    ghost use Rattle.std.specs.Prelude.{◌≡◌};

    /// The status that the process ends with.
    pub fn code(self) -> u8
        ensures { result ≡ code_of self }
    {
        match self {
            Status::Done => 0,
            Status::Usage => 2,
            Status::BadInput { .. } => 3,
            Status::BadLog { .. } => 4,
            Status::SourceFault => 5,
            Status::SinkFault => 6,
            Status::LogFault => 7,
            Status::WireFault => 8,
            Status::TurnsSpent { .. } => 9,
            Status::NoMemory => 10,
            Status::InputTooLong { .. } => 12,
        }
    }
}

impl fmt::Display for Status {
    fn fmt<W: fmt::Write>(&self, f: &mut fmt::Formatter<W>) -> fmt::Result {
        match self {
            Status::Done => write!(f, "done"),
            Status::Usage => write!(f, "usage"),
            Status::BadInput { line } => write!(f, "bad input: line {line}"),
            Status::BadLog { place } => write!(f, "bad log: byte {place}"),
            Status::SourceFault => write!(f, "source fault"),
            Status::SinkFault => write!(f, "sink fault"),
            Status::LogFault => write!(f, "log fault"),
            Status::WireFault => write!(f, "wire fault"),
            Status::TurnsSpent { turns } => write!(f, "turns spent: {turns}"),
            Status::NoMemory => write!(f, "out of memory"),
            Status::InputTooLong { bytes } => write!(f, "input too long: {bytes}"),
        }
    }
}
