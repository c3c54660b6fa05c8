ghost use Rattle.std.specs.Prelude.{◌≡◌, ◌≤◌, [], ◌∷◌};
ghost use Rattle.rs_outside.specs.Faults.{StopsByFault};
ghost use Rattle.rs_outside.specs.Known.{AddsOnOk};

use crate::{IoStop, Sink};

/// The effect log: a sink that is begun under a name. It means the bytes that it took and the names, where it tells
/// them.
pub trait Log: Sink {
    /// Begins the log of this name, before its first byte. After an error it has not begun.
    fn begin(&mut self, name: &[u8]) -> Result<(), IoStop>
        ensures names { AddsOnOk Self.begun self.old self.new (name.now ∷ []) result }
        ensures bytes { Self.taken self.new ≡ Self.taken self.old }
        ensures later { Self.faults self.old ≤ Self.faults self.new }
        ensures cause { StopsByFault (Self.faults self.old) (Self.faults self.new) result };
}
