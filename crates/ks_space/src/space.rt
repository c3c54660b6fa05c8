ghost use Rattle.std.specs.Prelude.{◌≡◌, ◌↔◌, IsTrue, OnOk, IfOk, IfSome, IfNone, is_some, slice_get, [], ◌∷◌};
ghost use Rattle.std.specs.Option.{option_copied, option_map};
ghost use Rattle.std.specs.FinMap as finite;
ghost use Rattle.ks_space.specs.Store.{IsKey, IsValue, IsKept, IsStore, IsDeadline, with_deadline, with_value};
ghost use Rattle.ks_space.specs.Purge.{gone, purged};

use crate::deadlines::{Deadlines, Due};
use crate::table::Table;
use crate::{Entry, Value};
use rs_base::{Bytes, NoMemory, Words};
use std::alloc::Global;
use std::marker::Model;

/// Keys with their entries. Contracts see it as a finite map in the order of the keys' bytes.
///
/// After a call that changes it has answered `NoMemory`, a store is only good for dropping.
#[derive(Drop)]
pub struct Space {
    alloc: Global,
    table: Table,
    // What the purge reads: the deadlines of the table, the soonest first.
    deadlines: Deadlines,
}

impl Model for Space {
    ghost use Rattle.std.specs.Prelude.{◌≡◌};
    ghost use Rattle.std.specs.Coded.{coded_list, coded_ℕ};
    ghost use Rattle.std.specs.FinMap as finite;
    ghost use Rattle.ks_space.specs.Store.{Store, IsStore};
    ghost use Rattle.ks_space.specs.Purge.{dues};
    ghost use Rattle.ks_space.specs.contracts.entry.Entry as entry;

    ghost Value = { Store };

    ghost coded = { finite.code (coded_list coded_ℕ) entry.the_row.coded };

    ghost view = { λ s. s.table };

    ghost invariant = { λ s. IsStore s.table × (s.deadlines ≡ dues s.table) };
}

impl Space {
    /// No keys.
    pub fn new(alloc: Global) -> Space
        ensures { result ≡ finite.empty }
    {
        Space {
            alloc,
            table: Table::new(alloc),
            deadlines: Deadlines::new(alloc),
        }
    }

    /// The allocator that the store takes its memory from.
    pub fn alloc(&self) -> Global {
        self.alloc
    }

    /// The entry of a key. `None` exactly where the key is absent.
    pub fn get(&self, key: &[u8]) -> Option<&Entry>
        ensures entry { option_copied result ≡ finite.get self.now key.now }
        ensures kept { IfSome result (λ entry. IsKey key.now × IsKept entry.now) }
        ensures store { IsStore self.now }
    {
        self.table.get(key)
    }

    /// Gives a key an entry in place of any other, and answers that other one.
    pub fn put(&mut self, key: Bytes, entry: Entry) -> Result<Option<Entry>, NoMemory>
        requires key { IsKey key }
        requires entry { IsKept entry }
        ensures old { IfOk result (λ old. old ≡ finite.get self.old key) }
        ensures kept { IfOk result (λ old. IfSome old IsKept) }
        ensures ok { OnOk result (self.new ≡ finite.insert self.old key entry) }
    {
        let before = self.table.deadline(key.as_slice());
        if are_same(before, entry.deadline) {
            let old = self.table.put(key, entry)?;
            return Ok(old);
        }
        let leaving = Due::of(key.clone()?, before);
        let coming = Due::of(key.clone()?, entry.deadline);
        self.deadlines.enter(&coming)?;
        match self.table.put(key, entry) {
            Ok(old) => {
                self.deadlines.leave(&leaving);
                Ok(old)
            }
            Err(NoMemory) => {
                self.deadlines.leave(&coming);
                Err(NoMemory)
            }
        }
    }

    /// Removes a key, and answers the entry that left: `None` exactly where the key is absent.
    pub fn take(&mut self, key: &[u8]) -> Result<Option<Entry>, NoMemory>
        ensures old { IfOk result (λ old. old ≡ finite.get self.old key.now) }
        ensures kept { IfOk result (λ old. IfSome old (λ entry. IsKey key.now × IsKept entry)) }
        ensures left { OnOk result (self.new ≡ finite.remove self.old key.now) }
    {
        let Some((key, entry)) = self.table.cut(key) else {
            return Ok(None);
        };
        let leaving = Due::of(key, entry.deadline);
        self.deadlines.leave(&leaving);
        Ok(Some(entry))
    }

    /// Gives a key this value in place of the one that it had, and answers that other one; its deadline stays. `None`
    /// exactly where the key is absent, which changes nothing.
    pub fn replace_value(&mut self, key: &[u8], value: Value) -> Result<Option<Value>, NoMemory>
        requires { IsValue value }
        ensures old { IfOk result (λ old. old ≡ option_map (λ entry. entry.value) (finite.get self.old key.now)) }
        ensures kept { IfOk result (λ old. IfSome old IsValue) }
        ensures ok { OnOk result (self.new ≡ with_value self.old key.now value) }
    {
        Ok(self.table.replace_value(key, value))
    }

    /// Gives a key this deadline, or none, in place of the one that it had; its value stays. `false` exactly where
    /// the key is absent, which changes nothing.
    pub fn set_deadline(&mut self, key: &[u8], deadline: Option<u64>) -> Result<bool, NoMemory>
        requires { IfSome deadline IsDeadline }
        ensures found { IfOk result (λ found. found ≡ is_some (finite.get self.old key.now)) }
        ensures ok { OnOk result (self.new ≡ with_deadline self.old key.now deadline) }
    {
        let Some(entry) = self.table.get(key) else {
            return Ok(false);
        };
        let before = entry.deadline;
        if are_same(before, deadline) {
            return Ok(true);
        }
        let leaving = Due::of(Bytes::from_slice(self.alloc, key)?, before);
        let coming = Due::of(Bytes::from_slice(self.alloc, key)?, deadline);
        self.deadlines.enter(&coming)?;
        self.deadlines.leave(&leaving);
        self.table.set_deadline(key, deadline);
        Ok(true)
    }

    /// Removes the keys whose deadline is below `now`, and answers them in the order of their deadlines and then of
    /// their bytes.
    pub fn purge(&mut self, now: u64) -> Result<Words, NoMemory>
        ensures keys { IfOk result (λ keys. keys ≡ gone self.old now) }
        ensures ok { OnOk result (self.new ≡ purged self.old now) }
    {
        let mut keys = Words::new(self.alloc);
        while let Some(key) = self.pop_gone(now) {
            keys.push(key)?;
        }
        Ok(keys)
    }

    // Takes off the first key of those whose deadline is below `now`.
    fn pop_gone(&mut self, now: u64) -> Option<Bytes>
        ensures none { IfNone result (self.new ≡ self.old) }
        ensures all { IfNone result (gone self.old now ≡ []) }
        ensures first { IfSome result (λ key. gone self.old now ≡ key ∷ gone self.new now) }
        ensures left { IfSome result (λ key. self.new ≡ finite.remove self.old key) }
    {
        let due = self.deadlines.pop_before(now)?;
        self.table.cut(due.key.as_slice());
        Some(due.key)
    }

    /// An equal store, which later changes of this one leave as it is.
    pub fn snapshot(&self) -> Result<Space, NoMemory>
        ensures { IfOk result (λ copy. copy ≡ self.now) }
    {
        let table = self.table.clone()?;
        let deadlines = self.deadlines.clone()?;
        Ok(Space {
            alloc: self.alloc,
            table,
            deadlines,
        })
    }

    /// Removes every key.
    pub fn clear(&mut self)
        ensures { self.new ≡ finite.empty }
    {
        self.table.clear();
        self.deadlines.clear();
    }

    /// The key at `place` in byte order, counted from 0. `None` exactly where `place` is not below the number of
    /// keys. It puts all of the keys in order.
    pub fn key_at(&self, place: usize) -> Result<Option<Bytes>, NoMemory>
        ensures { IfOk result (λ key. key ≡ slice_get (finite.keys self.now) place) }
    {
        self.table.key_at(place)
    }

    /// How many keys there are.
    pub fn len(&self) -> usize
        ensures { result ≡ finite.len self.now }
    {
        self.table.len()
    }

    pub fn is_empty(&self) -> bool
        ensures { IsTrue result ↔ (finite.len self.now ≡ 0) }
    {
        self.len() == 0
    }

    /// The keys in byte order.
    pub fn keys(&self) -> Result<Words, NoMemory>
        ensures { IfOk result (λ keys. keys ≡ finite.keys self.now) }
    {
        self.table.keys()
    }
}

// In a function of its own, since proofs then read off it that the deadlines are one.
fn are_same(one: Option<u64>, other: Option<u64>) -> bool
    ensures { IsTrue result ↔ (one ≡ other) }
{
    one == other
}
