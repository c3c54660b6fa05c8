ghost use Rattle.std.specs.Prelude.{◌≡◌, ℕ, ◌<◌, ◌≤◌, [], Some, length, IfOk};
ghost use Rattle.rs_outside.specs.Calls.{IsNumberedCall, gave_fault};
ghost use Rattle.rs_outside.specs.Faults.{StopsByFault};
ghost use Rattle.rs_outside.specs.Known.{TakesFirst};

use crate::doubles::calls::{Calls, NumberedCalls};
use crate::{IoStop, Sink};
use rs_base::Bytes;
use std::alloc::Global;

/// A sink in memory that never fails.
#[derive(Debug, Drop)]
pub struct SureSink {
    bytes: Bytes,
}

impl SureSink {
    /// A sink that has taken nothing.
    pub fn new(alloc: Global) -> SureSink
        ensures told { ⟦<SureSink as Sink>⟧.taken result ≡ Some [] }
        ensures sure { ⟦<SureSink as Sink>⟧.faults result ≡ 0 }
    {
        SureSink {
            bytes: Bytes::new(alloc),
        }
    }

    /// The bytes taken.
    pub fn taken(&self) -> &Bytes
        ensures { ⟦<SureSink as Sink>⟧.taken self.now ≡ Some result.now }
    {
        &self.bytes
    }
}

impl Sink for SureSink {
    ghost taken = { λ s. Some s.bytes };

    ghost faults = { λ _. 0 };

    fn write(&mut self, piece: &[u8]) -> Result<usize, IoStop> {
        self.bytes.append(piece)?;
        Ok(piece.len())
    }
}

/// A sink in memory that fails at the calls of `write` that it is told to.
#[derive(Debug, Drop)]
pub struct MemSink {
    sink: SureSink,
    calls: NumberedCalls,
}

impl MemSink {
    /// A sink that has taken nothing, and fails at the calls of these numbers.
    pub fn new(alloc: Global, failing: Calls) -> MemSink
        ensures told { ⟦<MemSink as Sink>⟧.taken result ≡ Some [] }
        ensures calls { result.calls ≡ record { failing = failing; count = 0; faults = 0 } }
    {
        MemSink {
            sink: SureSink::new(alloc),
            calls: NumberedCalls::new(failing),
        }
    }

    /// The bytes taken.
    pub fn taken(&self) -> &Bytes
        ensures { ⟦<MemSink as Sink>⟧.taken self.now ≡ Some result.now }
    {
        self.sink.taken()
    }

    /// The number of calls of `write` so far, which stays at 2^64-1 once it is there.
    pub fn calls(&self) -> u64
        ensures { result ≡ self.now.calls.count }
    {
        self.calls.count()
    }
}

impl Sink for MemSink {
    ghost taken = { λ s. ⟦<SureSink as Sink>⟧.taken s.sink };

    ghost faults = { λ s. s.calls.faults };

    fn write(&mut self, piece: &[u8]) -> Result<usize, IoStop>
        ensures count { IfOk result (λ n. n ≤ length piece.now) }
        ensures some { IfOk result (λ n. 0 < length piece.now → 0 < n) }
        ensures bytes { TakesFirst ⟦<MemSink as Sink>⟧.taken self.old self.new piece.now result }
        ensures names { ⟦<MemSink as Sink>⟧.begun self.new ≡ ⟦<MemSink as Sink>⟧.begun self.old }
        ensures later { self.old.calls.faults ≤ self.new.calls.faults }
        ensures cause { StopsByFault self.old.calls.faults self.new.calls.faults result }
        ensures numbered { IsNumberedCall (gave_fault result) self.old.calls self.new.calls }
    {
        if self.calls.is_failing_call() {
            return Err(IoStop::Failed);
        }
        self.sink.write(piece)
    }
}
