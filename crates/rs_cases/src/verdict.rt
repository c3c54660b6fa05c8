ghost use Rattle.std.specs.Prelude.{◌≡◌, ◌<◌, ℕ, IsTrue, IsFalse};

use rs_base::{Bytes, NoMemory, write_decimal};

/// How many cases were judged, and how many of them have another answer. Each count stands still at its last value.
#[derive(Clone, Copy)]
pub struct Verdict {
    pub cases: u64,
    pub wrong: u64,
}

impl Verdict {
    /// Before any case.
    pub fn new() -> Verdict
        ensures { result ≡ record { cases = 0; wrong = 0 } }
    {
        Verdict { cases: 0, wrong: 0 }
    }

    /// Counts a case.
    pub fn count(&mut self, is_right: bool)
        ensures right { IsTrue is_right → self.new.wrong ≡ self.old.wrong }
        ensures wrong { IsFalse is_right → 0 < self.new.wrong }
    {
        self.cases = self.cases.saturating_add(1);
        if !is_right {
            self.wrong = self.wrong.saturating_add(1);
        }
    }

    /// Adds the line `C cases, W wrong`.
    pub fn put(self, out: &mut Bytes) -> Result<(), NoMemory> {
        write_decimal(self.cases, out)?;
        out.append(b" cases, ")?;
        write_decimal(self.wrong, out)?;
        out.append(b" wrong\n")
    }
}
