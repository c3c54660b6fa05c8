ghost use Rattle.std.specs.Prelude.{◌≤◌};
ghost use Rattle.rs_outside.specs.Faults.{Rose};

use std::io;

/// How often an object of the outside failed, and why it did so first.
#[derive(Clone, Copy)]
pub struct Faults {
    pub count: u64,
    reason: Option<io::Error>,
}

impl Faults {
    pub fn new() -> Faults {
        Faults {
            count: 0,
            reason: None,
        }
    }

    /// Counts a fault. The count stands still at its last value.
    pub fn add(&mut self, reason: io::Error)
        ensures later { self.old.count ≤ self.new.count }
        ensures rose { Rose self.old.count self.new.count }
    {
        self.count = self.count.saturating_add(1);
        self.reason = self.reason.or(Some(reason));
    }

    /// Why the object failed first, if it did.
    pub fn reason(&self) -> Option<io::Error> {
        self.reason
    }
}
