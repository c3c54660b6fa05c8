ghost use Rattle.std.specs.Prelude.{◌≡◌, Some, is_err, ℕ, ◌<◌, ◌≤◌, length, drop, IfOk, OnErr};
ghost use Rattle.rs_outside.specs.Calls.{IsNumberedCall};
ghost use Rattle.rs_outside.specs.Faults.{Rose};
ghost use Rattle.rs_outside.specs.Known.{GivesFirst, NoneLeft};

use crate::doubles::calls::{Calls, NumberedCalls};
use crate::{Failed, Source};
use rs_base::Bytes;

/// A source in memory that never fails.
#[derive(Debug, Drop)]
pub struct SureSource {
    bytes: Bytes,
    at: usize,
    ghost within: { at ≤ length bytes },
}

impl SureSource {
    /// A source of these bytes.
    pub fn new(bytes: Bytes) -> SureSource
        ensures told { ⟦<SureSource as Source>⟧.left result ≡ Some bytes }
        ensures sure { ⟦<SureSource as Source>⟧.faults result ≡ 0 }
    {
        SureSource { bytes, at: 0 }
    }
}

impl Source for SureSource {
    ghost left = { λ s. Some (drop s.at s.bytes) };

    ghost faults = { λ _. 0 };

    fn read(&mut self, into: &mut [u8]) -> Result<usize, Failed> {
        let (_, left) = self.bytes.as_slice().split_at(self.at);
        let n = left.len().min(into.len());
        into[..n].copy_from_slice(&left[..n]);
        self.at += n;
        Ok(n)
    }
}

/// A source in memory that fails at the calls of `read` that it is told to.
#[derive(Debug, Drop)]
pub struct MemSource {
    source: SureSource,
    calls: NumberedCalls,
}

impl MemSource {
    /// A source of these bytes, that fails at the calls of these numbers.
    pub fn new(bytes: Bytes, failing: Calls) -> MemSource
        ensures told { ⟦<MemSource as Source>⟧.left result ≡ Some bytes }
        ensures calls { result.calls ≡ record { failing = failing; count = 0; faults = 0 } }
    {
        MemSource {
            source: SureSource::new(bytes),
            calls: NumberedCalls::new(failing),
        }
    }

    /// The number of calls of `read` so far, which stays at 2^64-1 once it is there.
    pub fn calls(&self) -> u64
        ensures { result ≡ self.now.calls.count }
    {
        self.calls.count()
    }
}

impl Source for MemSource {
    ghost left = { λ s. ⟦<SureSource as Source>⟧.left s.source };

    ghost faults = { λ s. s.calls.faults };

    fn read(&mut self, into: &mut [u8]) -> Result<usize, Failed>
        ensures count { IfOk result (λ n. n ≤ length into.new) }
        ensures bytes { GivesFirst ⟦<MemSource as Source>⟧.left self.old self.new into.new result }
        ensures end { IfOk result (λ n. 0 < length into.new → n ≡ 0
            → NoneLeft (⟦<MemSource as Source>⟧.left self.new)) }
        ensures later { self.old.calls.faults ≤ self.new.calls.faults }
        ensures cause { OnErr result (Rose self.old.calls.faults self.new.calls.faults) }
        ensures numbered { IsNumberedCall (is_err result) self.old.calls self.new.calls }
    {
        if self.calls.is_failing_call() {
            return Err(Failed);
        }
        self.source.read(into)
    }
}
