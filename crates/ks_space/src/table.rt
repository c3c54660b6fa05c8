ghost use Rattle.std.specs.Prelude.{◌≡◌, OnOk, OnErr, IfOk, IfSome, None, slice_get};
ghost use Rattle.std.specs.Option.{option_copied, option_map};
ghost use Rattle.std.specs.FinMap as finite;
ghost use Rattle.ks_space.specs.Store.{deadline_at, with_deadline, with_value};

use crate::{Entry, Value};
use indexmap::IndexMap;
use rs_base::{Bytes, NoMemory, Words};
use std::alloc::{AllocError, Global};
use std::marker::Model;
use std::mem;

/// Keys with their entries, without an index of the deadlines. A key is found by its hash. Contracts see it as a
/// finite map in the order of the keys' bytes, which is made where it is asked for.
#[derive(Drop)]
pub struct Table {
    alloc: Global,
    entries: IndexMap<Vec<u8>, Entry>,
}

impl Model for Table {
    ghost use Rattle.std.specs.Coded.{coded_list, coded_ℕ};
    ghost use Rattle.std.specs.FinMap as finite;
    ghost use Rattle.std.proofs.lemmas.Map.Lookups.{map_keys};
    ghost use Rattle.ks_space.specs.Store.{Store};
    ghost use Rattle.ks_space.specs.contracts.entry.Entry as entry;

    ghost Value = { Store };

    ghost coded = { finite.code (coded_list coded_ℕ) entry.the_row.coded };

    ghost view = { λ t. finite.from_entries (map_keys (λ k. k.items) t.entries.entries) };
}

impl Table {
    pub fn new(alloc: Global) -> Table
        ensures { result ≡ finite.empty }
    {
        Table {
            alloc,
            entries: IndexMap::new(alloc),
        }
    }

    pub fn get(&self, key: &[u8]) -> Option<&Entry>
        ensures { option_copied result ≡ finite.get self.now key.now }
    {
        self.entries.get(key)
    }

    /// Only a new key can want memory.
    pub fn put(&mut self, key: Bytes, entry: Entry) -> Result<Option<Entry>, NoMemory>
        ensures old { IfOk result (λ old. old ≡ finite.get self.old key) }
        ensures ok { OnOk result (self.new ≡ finite.insert self.old key entry) }
        ensures absent { OnErr result (finite.get self.old key ≡ None) }
        ensures err { OnErr result (self.new ≡ self.old) }
    {
        let old = self.entries.insert(key.into_vec(), entry)?;
        Ok(old)
    }

    /// Removes a key, and answers it with its entry: `None` exactly where the key is absent.
    pub fn cut(&mut self, key: &[u8]) -> Option<(Bytes, Entry)>
        ensures old { option_map (λ p. p.1) result ≡ finite.get self.old key.now }
        ensures same { IfSome result (λ p. p.0 ≡ key.now) }
        ensures left { self.new ≡ finite.remove self.old key.now }
    {
        match self.entries.swap_remove_entry(key) {
            Some((key, entry)) => Some((Bytes::from_vec(key), entry)),
            None => None,
        }
    }

    /// The key's deadline: `None` where the key is absent, too.
    pub fn deadline(&self, key: &[u8]) -> Option<u64>
        ensures { result ≡ deadline_at self.now key.now }
    {
        self.get(key)?.deadline
    }

    /// Changes the deadline of a key that is there.
    pub fn set_deadline(&mut self, key: &[u8], deadline: Option<u64>)
        ensures { self.new ≡ with_deadline self.old key.now deadline }
    {
        if let Some(entry) = self.entries.get_mut(key) {
            entry.deadline = deadline;
        }
    }

    /// Changes the value of a key that is there, and answers the old one: `None` exactly where the key is absent.
    pub fn replace_value(&mut self, key: &[u8], value: Value) -> Option<Value>
        ensures old { result ≡ option_map (λ old. old.value) (finite.get self.old key.now) }
        ensures changed { self.new ≡ with_value self.old key.now value }
    {
        let entry = self.entries.get_mut(key)?;
        Some(mem::replace(&mut entry.value, value))
    }

    pub fn clear(&mut self)
        ensures { self.new ≡ finite.empty }
    {
        self.entries.clear();
    }

    pub fn len(&self) -> usize
        ensures { result ≡ finite.len self.now }
    {
        self.entries.len()
    }

    pub fn keys(&self) -> Result<Words, NoMemory>
        ensures { IfOk result (λ keys. keys ≡ finite.keys self.now) }
    {
        let mut keys = Vec::new(self.alloc);
        for key in self.entries.keys() {
            keys.push(Bytes::from_slice(self.alloc, key.as_slice())?)?;
        }
        keys.sort_unstable();
        Ok(Words::from_vec(keys))
    }

    /// The key at `place` in byte order, counted from 0. It puts all of the keys in order.
    pub fn key_at(&self, place: usize) -> Result<Option<Bytes>, NoMemory>
        ensures { IfOk result (λ key. key ≡ slice_get (finite.keys self.now) place) }
    {
        let keys = self.keys()?;
        match keys.get(place) {
            Some(key) => Ok(Some(key.clone()?)),
            None => Ok(None),
        }
    }
}

impl Clone for Table {
    ghost use Rattle.std.specs.Prelude.{◌≡◌};

    ghost is_clone = { λ old new. new ≡ old };

    fn clone(&self) -> Result<Table, AllocError> {
        Ok(Table {
            alloc: self.alloc,
            entries: self.entries.clone()?,
        })
    }
}
