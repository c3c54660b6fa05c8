use crate::Commands;
use rs_base::NoMemory;

/// Which part of a request a bad byte stands in: it is none that can stand there.
#[derive(Clone, Copy, Debug, PartialEq, Eq)]
pub enum BadFrame {
    /// Where a command begins: the byte is not `*`.
    NoStar,
    /// In the rest of the line that `*` begins: the number of words.
    Count,
    /// Where a word begins: the byte is not `$`.
    NoDollar,
    /// In the rest of the line that `$` begins: the length of a word.
    Length,
    /// In the CR LF behind the bytes of a word.
    NoEnd,
}

/// Why a reader gives no commands, or none any more.
#[derive(Debug, Drop)]
pub enum FeedStop {
    /// The bytes begin no sequence of requests any longer. `place` is that of the first byte at which that is so, among
    /// all bytes of the client, counted from 0; a place past the last `u64` is given as that one. `before` are the
    /// commands that were whole before it and that no earlier call gave.
    Bad {
        before: Commands,
        place: u64,
        kind: BadFrame,
    },
    /// An earlier call answered `Bad`.
    Failed,
    /// Memory ran out, in this call or an earlier one.
    NoMemory,
}

impl From<NoMemory> for FeedStop {
    ghost use Rattle.std.specs.Prelude.{◌≡◌};
    ghost use Rattle.resp_read.specs.declared.stops.FeedStop.{FeedStop};

    ghost from_gives = { λ _ stop. stop ≡ FeedStop.NoMemory };

    fn from(_error: NoMemory) -> FeedStop {
        FeedStop::NoMemory
    }
}
