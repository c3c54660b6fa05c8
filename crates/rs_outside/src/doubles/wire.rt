ghost use Rattle.std.specs.Prelude.{◌≡◌, ℕ, ◌≤◌, [], ◌∷◌, Some};
ghost use Rattle.rs_outside.specs.declared.turn.OutRow.{OutRow};
ghost use Rattle.rs_outside.specs.Calls.{IsNumberedCall, gave_fault};
ghost use Rattle.rs_outside.specs.Faults.{StopsByFault};
ghost use Rattle.rs_outside.specs.Known.{AddsOnOk};
ghost use Rattle.rs_outside.specs.Steps.{GivesNext};

use crate::doubles::calls::{Calls, NumberedCalls};
use crate::{IoStop, OutRow, Outs, Start, Starts, Step, Turn, Turns, Wire};
use rs_base::{Bytes, NoMemory};
use std::alloc::Global;
use std::collections::VecDeque;

/// A wire in memory that never fails: its turns are given, and it keeps the rows sent.
#[derive(Debug, Drop)]
pub struct SureWire {
    alloc: Global,
    turns: VecDeque<Turn>,
    rows: Outs,
    starts: Starts,
}

impl SureWire {
    /// A wire that will give these turns.
    pub fn new(alloc: Global, turns: Turns) -> SureWire
        ensures told { ⟦<SureWire as Wire>⟧.coming result ≡ Some turns }
        ensures rows { ⟦<SureWire as Wire>⟧.sent result ≡ Some [] }
        ensures starts { ⟦<SureWire as Wire>⟧.started result ≡ Some [] }
        ensures sure { ⟦<SureWire as Wire>⟧.faults result ≡ 0 }
    {
        SureWire {
            alloc,
            turns: VecDeque::from(turns.into_vec()),
            rows: Outs::new(alloc),
            starts: Starts::new(alloc),
        }
    }

    /// The rows sent, in order.
    pub fn sent(&self) -> &Outs
        ensures { ⟦<SureWire as Wire>⟧.sent self.now ≡ Some result.now }
    {
        &self.rows
    }

    /// The starts, in order.
    pub fn started(&self) -> &Starts
        ensures { ⟦<SureWire as Wire>⟧.started self.now ≡ Some result.now }
    {
        &self.starts
    }
}

impl Wire for SureWire {
    ghost coming = { λ w. Some w.turns.items };

    ghost sent = { λ w. Some w.rows };

    ghost started = { λ w. Some w.starts };

    ghost faults = { λ _. 0 };

    fn start(&mut self, port: u16, word: u64) -> Result<(), IoStop> {
        self.starts.push(Start { port, word })?;
        Ok(())
    }

    fn next(&mut self) -> Result<Step, IoStop> {
        match self.turns.pop_front() {
            Some(turn) => Ok(Step::Given(turn)),
            None => Ok(Step::End),
        }
    }

    fn send(&mut self, client: u32, bytes: &[u8]) -> Result<(), NoMemory> {
        let bytes = Bytes::from_slice(self.alloc, bytes)?;
        self.rows.push(OutRow::Sent(client, bytes))?;
        Ok(())
    }

    fn shut(&mut self, client: u32) -> Result<(), NoMemory> {
        self.rows.push(OutRow::Shut(client))?;
        Ok(())
    }
}

/// A wire in memory that fails at the calls of `start` and `next` that it is told to; the two share one numbering.
#[derive(Debug, Drop)]
pub struct MemWire {
    wire: SureWire,
    calls: NumberedCalls,
}

impl MemWire {
    /// A wire that will give these turns, and fails at the calls of these numbers.
    pub fn new(alloc: Global, turns: Turns, failing: Calls) -> MemWire
        ensures told { ⟦<MemWire as Wire>⟧.coming result ≡ Some turns }
        ensures rows { ⟦<MemWire as Wire>⟧.sent result ≡ Some [] }
        ensures starts { ⟦<MemWire as Wire>⟧.started result ≡ Some [] }
        ensures calls { result.calls ≡ record { failing = failing; count = 0; faults = 0 } }
    {
        MemWire {
            wire: SureWire::new(alloc, turns),
            calls: NumberedCalls::new(failing),
        }
    }

    /// The rows sent, in order.
    pub fn sent(&self) -> &Outs
        ensures { ⟦<MemWire as Wire>⟧.sent self.now ≡ Some result.now }
    {
        self.wire.sent()
    }

    /// The starts, in order.
    pub fn started(&self) -> &Starts
        ensures { ⟦<MemWire as Wire>⟧.started self.now ≡ Some result.now }
    {
        self.wire.started()
    }

    /// The number of calls of `start` and `next` so far, which stays at 2^64-1 once it is there.
    pub fn calls(&self) -> u64
        ensures { result ≡ self.now.calls.count }
    {
        self.calls.count()
    }
}

impl Wire for MemWire {
    ghost coming = { λ w. ⟦<SureWire as Wire>⟧.coming w.wire };

    ghost sent = { λ w. ⟦<SureWire as Wire>⟧.sent w.wire };

    ghost started = { λ w. ⟦<SureWire as Wire>⟧.started w.wire };

    ghost faults = { λ w. w.calls.faults };

    fn start(&mut self, port: u16, word: u64) -> Result<(), IoStop>
        ensures starts { AddsOnOk ⟦<MemWire as Wire>⟧.started self.old self.new
            (record { port = port; word = word } ∷ []) result }
        ensures turns { ⟦<MemWire as Wire>⟧.coming self.new ≡ ⟦<MemWire as Wire>⟧.coming self.old }
        ensures rows { ⟦<MemWire as Wire>⟧.sent self.new ≡ ⟦<MemWire as Wire>⟧.sent self.old }
        ensures later { self.old.calls.faults ≤ self.new.calls.faults }
        ensures cause { StopsByFault self.old.calls.faults self.new.calls.faults result }
        ensures numbered { IsNumberedCall (gave_fault result) self.old.calls self.new.calls }
    {
        if self.calls.is_failing_call() {
            return Err(IoStop::Failed);
        }
        self.wire.start(port, word)
    }

    fn next(&mut self) -> Result<Step, IoStop>
        ensures turns { GivesNext ⟦<MemWire as Wire>⟧.coming self.old self.new result }
        ensures rows { ⟦<MemWire as Wire>⟧.sent self.new ≡ ⟦<MemWire as Wire>⟧.sent self.old }
        ensures starts { ⟦<MemWire as Wire>⟧.started self.new ≡ ⟦<MemWire as Wire>⟧.started self.old }
        ensures later { self.old.calls.faults ≤ self.new.calls.faults }
        ensures cause { StopsByFault self.old.calls.faults self.new.calls.faults result }
        ensures numbered { IsNumberedCall (gave_fault result) self.old.calls self.new.calls }
    {
        if self.calls.is_failing_call() {
            return Err(IoStop::Failed);
        }
        self.wire.next()
    }

    fn send(&mut self, client: u32, bytes: &[u8]) -> Result<(), NoMemory>
        ensures rows { AddsOnOk ⟦<MemWire as Wire>⟧.sent self.old self.new (OutRow.Sent client bytes.now ∷ []) result }
        ensures turns { ⟦<MemWire as Wire>⟧.coming self.new ≡ ⟦<MemWire as Wire>⟧.coming self.old }
        ensures starts { ⟦<MemWire as Wire>⟧.started self.new ≡ ⟦<MemWire as Wire>⟧.started self.old }
        ensures faultless { self.new.calls.faults ≡ self.old.calls.faults }
        ensures unnumbered { self.new.calls ≡ self.old.calls }
    {
        self.wire.send(client, bytes)
    }

    fn shut(&mut self, client: u32) -> Result<(), NoMemory>
        ensures rows { AddsOnOk ⟦<MemWire as Wire>⟧.sent self.old self.new (OutRow.Shut client ∷ []) result }
        ensures turns { ⟦<MemWire as Wire>⟧.coming self.new ≡ ⟦<MemWire as Wire>⟧.coming self.old }
        ensures starts { ⟦<MemWire as Wire>⟧.started self.new ≡ ⟦<MemWire as Wire>⟧.started self.old }
        ensures faultless { self.new.calls.faults ≡ self.old.calls.faults }
        ensures unnumbered { self.new.calls ≡ self.old.calls }
    {
        self.wire.shut(client)
    }
}
