use crate::Groups;
use rs_base::NoMemory;

/// What a log has at a bad place.
#[derive(Clone, Copy, Debug, PartialEq, Eq)]
pub enum LogKind {
    /// A byte at which the log begins no sequence of frames any longer.
    Frame,
    /// A command that is no record, nor `MULTI` or `EXEC`.
    Row,
    /// `EXEC` where no group is open, or `MULTI` where one is.
    Nest,
}

/// Why a reader of a log gives no groups, or none any more.
#[derive(Debug, Drop)]
pub enum LogStop {
    /// The bytes are no log any longer. `place` is that of the bad byte, or of the first byte of the command that may
    /// not stand where it stands, whichever comes first among all bytes of the log, counted from 0; a place past the
    /// last `u64` is given as that one. `before` are the groups that were whole before it and that no earlier call
    /// gave.
    Bad {
        before: Groups,
        place: u64,
        kind: LogKind,
    },
    /// An earlier call answered `Bad`.
    Failed,
    /// Memory ran out, in this call or an earlier one.
    NoMemory,
}

impl From<NoMemory> for LogStop {
    ghost use Rattle.std.specs.Prelude.{◌≡◌};
    ghost use Rattle.fx_log.specs.declared.stops.LogStop.{LogStop};

    ghost from_gives = { λ _ stop. stop ≡ LogStop.NoMemory };

    fn from(_error: NoMemory) -> LogStop {
        LogStop::NoMemory
    }
}
