ghost use Rattle.std.specs.Prelude.{◌≡◌, ℕ, ◌<◌, ◌≤◌, [], ◌∷◌, Some, length, IfOk};
ghost use Rattle.rs_outside.specs.Calls.{IsNumberedCall, gave_fault};
ghost use Rattle.rs_outside.specs.Faults.{StopsByFault};
ghost use Rattle.rs_outside.specs.Known.{TakesFirst, AddsOnOk};

use crate::doubles::calls::{Calls, NumberedCalls};
use crate::{IoStop, Log, Sink};
use rs_base::{Bytes, Words};
use std::alloc::Global;

/// A log in memory that never fails.
#[derive(Debug, Drop)]
pub struct SureLog {
    alloc: Global,
    bytes: Bytes,
    names: Words,
}

impl SureLog {
    /// A log that has taken nothing and was not begun.
    pub fn new(alloc: Global) -> SureLog
        ensures told { ⟦<SureLog as Sink>⟧.taken result ≡ Some [] }
        ensures names { ⟦<SureLog as Sink>⟧.begun result ≡ Some [] }
        ensures sure { ⟦<SureLog as Sink>⟧.faults result ≡ 0 }
    {
        SureLog {
            alloc,
            bytes: Bytes::new(alloc),
            names: Words::new(alloc),
        }
    }

    /// The bytes taken.
    pub fn taken(&self) -> &Bytes
        ensures { ⟦<SureLog as Sink>⟧.taken self.now ≡ Some result.now }
    {
        &self.bytes
    }

    /// The names begun, in order.
    pub fn begun(&self) -> &Words
        ensures { ⟦<SureLog as Sink>⟧.begun self.now ≡ Some result.now }
    {
        &self.names
    }
}

impl Sink for SureLog {
    ghost taken = { λ s. Some s.bytes };

    ghost begun = { λ s. Some s.names };

    ghost faults = { λ _. 0 };

    fn write(&mut self, piece: &[u8]) -> Result<usize, IoStop> {
        self.bytes.append(piece)?;
        Ok(piece.len())
    }
}

impl Log for SureLog {
    fn begin(&mut self, name: &[u8]) -> Result<(), IoStop> {
        let name = Bytes::from_slice(self.alloc, name)?;
        self.names.push(name)?;
        Ok(())
    }
}

/// A log in memory that fails at the calls of `write` and `begin` that it is told to; the two share one numbering.
#[derive(Debug, Drop)]
pub struct MemLog {
    log: SureLog,
    calls: NumberedCalls,
}

impl MemLog {
    /// A log that has taken nothing and was not begun, and fails at the calls of these numbers.
    pub fn new(alloc: Global, failing: Calls) -> MemLog
        ensures told { ⟦<MemLog as Sink>⟧.taken result ≡ Some [] }
        ensures names { ⟦<MemLog as Sink>⟧.begun result ≡ Some [] }
        ensures calls { result.calls ≡ record { failing = failing; count = 0; faults = 0 } }
    {
        MemLog {
            log: SureLog::new(alloc),
            calls: NumberedCalls::new(failing),
        }
    }

    /// The bytes taken.
    pub fn taken(&self) -> &Bytes
        ensures { ⟦<MemLog as Sink>⟧.taken self.now ≡ Some result.now }
    {
        self.log.taken()
    }

    /// The names begun, in order.
    pub fn begun(&self) -> &Words
        ensures { ⟦<MemLog as Sink>⟧.begun self.now ≡ Some result.now }
    {
        self.log.begun()
    }

    /// The number of calls of `write` and `begin` so far, which stays at 2^64-1 once it is there.
    pub fn calls(&self) -> u64
        ensures { result ≡ self.now.calls.count }
    {
        self.calls.count()
    }
}

impl Sink for MemLog {
    ghost taken = { λ l. ⟦<SureLog as Sink>⟧.taken l.log };

    ghost begun = { λ l. ⟦<SureLog as Sink>⟧.begun l.log };

    ghost faults = { λ l. l.calls.faults };

    fn write(&mut self, piece: &[u8]) -> Result<usize, IoStop>
        ensures count { IfOk result (λ n. n ≤ length piece.now) }
        ensures some { IfOk result (λ n. 0 < length piece.now → 0 < n) }
        ensures bytes { TakesFirst ⟦<MemLog as Sink>⟧.taken self.old self.new piece.now result }
        ensures names { ⟦<MemLog as Sink>⟧.begun self.new ≡ ⟦<MemLog as Sink>⟧.begun self.old }
        ensures later { self.old.calls.faults ≤ self.new.calls.faults }
        ensures cause { StopsByFault self.old.calls.faults self.new.calls.faults result }
        ensures numbered { IsNumberedCall (gave_fault result) self.old.calls self.new.calls }
    {
        if self.calls.is_failing_call() {
            return Err(IoStop::Failed);
        }
        self.log.write(piece)
    }
}

impl Log for MemLog {
    fn begin(&mut self, name: &[u8]) -> Result<(), IoStop>
        ensures names { AddsOnOk ⟦<MemLog as Sink>⟧.begun self.old self.new (name.now ∷ []) result }
        ensures bytes { ⟦<MemLog as Sink>⟧.taken self.new ≡ ⟦<MemLog as Sink>⟧.taken self.old }
        ensures later { self.old.calls.faults ≤ self.new.calls.faults }
        ensures cause { StopsByFault self.old.calls.faults self.new.calls.faults result }
        ensures numbered { IsNumberedCall (gave_fault result) self.old.calls self.new.calls }
    {
        if self.calls.is_failing_call() {
            return Err(IoStop::Failed);
        }
        self.log.begin(name)
    }
}
