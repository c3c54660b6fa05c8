ghost use Rattle.std.specs.Prelude.{◌≡◌, ℕ, ◌≤◌, List, [], ◌∷◌, Option};
ghost use Rattle.rs_outside.specs.declared.turn.Turn.{Turn};
ghost use Rattle.rs_outside.specs.declared.turn.OutRow.{OutRow};
ghost use Rattle.rs_outside.specs.declared.wire.Start.{Start};
ghost use Rattle.rs_outside.specs.Faults.{StopsByFault};
ghost use Rattle.rs_outside.specs.Known.{AddsOnOk};
ghost use Rattle.rs_outside.specs.Steps.{GivesNext};

use crate::{IoStop, OutRow, Turn};
use rs_base::{NoMemory, Seq};

/// That a wire was started: at a port, with a word from which its turns' random words are drawn.
#[derive(Clone, Copy, Debug, PartialEq, Eq)]
pub struct Start {
    pub port: u16,
    pub word: u64,
}

/// Starts in order.
pub type Starts = Seq<Start>;

/// What a wire gives when it is asked for the next turn.
#[derive(Debug, Drop, PartialEq, Eq)]
pub enum Step {
    Given(Turn),
    /// No turn is left.
    End,
}

/// The clients. A wire means the turns to come, the rows sent and its starts, where it tells them, and counts its
/// faults.
pub trait Wire {
    /// The turns to come, or `None` where the wire does not tell.
    ghost coming: { Self → Option (List Turn) };

    /// The rows sent, or `None` where the wire does not tell.
    ghost sent: { Self → Option (List OutRow) };

    /// The starts, or `None` where the wire does not tell.
    ghost started: { Self → Option (List Start) };

    /// How many faults it has met.
    ghost faults: { Self → ℕ };

    /// Starts the wire. After an error it has not started.
    fn start(&mut self, port: u16, word: u64) -> Result<(), IoStop>
        ensures starts { AddsOnOk started self.old self.new (record { port = port; word = word } ∷ []) result }
        ensures turns { coming self.new ≡ coming self.old }
        ensures rows { sent self.new ≡ sent self.old }
        ensures later { faults self.old ≤ faults self.new }
        ensures cause { StopsByFault (faults self.old) (faults self.new) result };

    /// The first turn to come, or `End` exactly where none is left. After an error all turns are still to come.
    fn next(&mut self) -> Result<Step, IoStop>
        ensures turns { GivesNext coming self.old self.new result }
        ensures rows { sent self.new ≡ sent self.old }
        ensures starts { started self.new ≡ started self.old }
        ensures later { faults self.old ≤ faults self.new }
        ensures cause { StopsByFault (faults self.old) (faults self.new) result };

    /// Sends bytes to a client. It counts no fault: a connection that is lost comes as a turn of its own.
    fn send(&mut self, client: u32, bytes: &[u8]) -> Result<(), NoMemory>
        ensures rows { AddsOnOk sent self.old self.new (OutRow.Sent client bytes.now ∷ []) result }
        ensures turns { coming self.new ≡ coming self.old }
        ensures starts { started self.new ≡ started self.old }
        ensures faultless { faults self.new ≡ faults self.old };

    /// Shuts a client's connection. It counts no fault.
    fn shut(&mut self, client: u32) -> Result<(), NoMemory>
        ensures rows { AddsOnOk sent self.old self.new (OutRow.Shut client ∷ []) result }
        ensures turns { coming self.new ≡ coming self.old }
        ensures starts { started self.new ≡ started self.old }
        ensures faultless { faults self.new ≡ faults self.old };
}
