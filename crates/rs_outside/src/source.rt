ghost use Rattle.std.specs.Prelude.{◌≡◌, ℕ, ◌<◌, ◌≤◌, List, Option, length, IfOk, OnErr};
ghost use Rattle.rs_outside.specs.Faults.{Rose};
ghost use Rattle.rs_outside.specs.Known.{GivesFirst, NoneLeft};

use crate::Failed;

/// Where bytes come from. It means the bytes that are left, where it tells them, and counts its faults.
pub trait Source {
    /// The bytes left, or `None` where the source does not tell.
    ghost left: { Self → Option (List ℕ) };

    /// How many faults it has met.
    ghost faults: { Self → ℕ };

    /// Takes the first bytes that are left, as many as it answers, to the front of `into`. For a buffer that is not
    /// empty the answer is 0 exactly where none is left. After `Failed` all bytes are still left.
    fn read(&mut self, into: &mut [u8]) -> Result<usize, Failed>
        ensures count { IfOk result (λ n. n ≤ length into.new) }
        ensures bytes { GivesFirst left self.old self.new into.new result }
        ensures end { IfOk result (λ n. 0 < length into.new → n ≡ 0 → NoneLeft (left self.new)) }
        ensures later { faults self.old ≤ faults self.new }
        ensures cause { OnErr result (Rose (faults self.old) (faults self.new)) };
}
