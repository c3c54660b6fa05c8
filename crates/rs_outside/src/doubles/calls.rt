ghost use Rattle.std.specs.Prelude.{◌≡◌, ◌≤◌};
ghost use Rattle.rs_outside.specs.Calls.{IsNumberedCall};

use rs_base::Seq;

/// The numbers of calls, counted from 0.
pub type Calls = Seq<u64>;

/// The numbered calls of an object in memory: those that are to fail, how many there were, and how many failed. Both
/// counts stay at 2^64-1 once they are there, and a call does not fail once the number of calls is there.
#[derive(Debug, Drop)]
pub struct NumberedCalls {
    failing: Calls,
    count: u64,
    faults: u64,
}

impl NumberedCalls {
    /// No call so far, of which these are to fail.
    pub fn new(failing: Calls) -> NumberedCalls
        ensures { result ≡ record { failing = failing; count = 0; faults = 0 } }
    {
        NumberedCalls {
            failing,
            count: 0,
            faults: 0,
        }
    }

    /// The number of calls so far.
    pub fn count(&self) -> u64
        ensures { result ≡ self.now.count }
    {
        self.count
    }

    /// Numbers a call, and says whether it is to fail; then it counts a fault.
    pub fn is_failing_call(&mut self) -> bool
        ensures call { IsNumberedCall result self.old self.new }
        ensures later { self.old.faults ≤ self.new.faults }
    {
        let number = self.count;
        self.count = number.saturating_add(1);
        let fails = number < u64::MAX && self.failing.as_slice().contains(&number);
        if fails {
            self.faults = self.faults.saturating_add(1);
        }
        fails
    }
}
