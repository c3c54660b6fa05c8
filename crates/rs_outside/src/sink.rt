ghost use Rattle.std.specs.Prelude.{◌≡◌, ℕ, ◌<◌, ◌≤◌, List, Option, None, length, IfOk};
ghost use Rattle.rs_outside.specs.Faults.{StopsByFault};
ghost use Rattle.rs_outside.specs.Known.{TakesFirst};

use crate::IoStop;

/// Where bytes go to. It means the bytes that it took, where it tells them, and counts its faults.
pub trait Sink {
    /// The bytes taken, or `None` where the sink does not tell.
    ghost taken: { Self → Option (List ℕ) };

    /// The names under which a log was begun, where it is a log and tells them (see [`Log`](crate::Log)).
    ghost begun: { Self → Option (List (List ℕ)) } = { λ _. None };

    /// How many faults it has met.
    ghost faults: { Self → ℕ };

    /// Takes the first bytes of `piece`, as many as it answers; of a piece that is not empty at least one. After an
    /// error it has taken none.
    fn write(&mut self, piece: &[u8]) -> Result<usize, IoStop>
        ensures count { IfOk result (λ n. n ≤ length piece.now) }
        ensures some { IfOk result (λ n. 0 < length piece.now → 0 < n) }
        ensures bytes { TakesFirst taken self.old self.new piece.now result }
        ensures names { begun self.new ≡ begun self.old }
        ensures later { faults self.old ≤ faults self.new }
        ensures cause { StopsByFault (faults self.old) (faults self.new) result };
}
