ghost use Rattle.std.specs.Prelude.{◌≡◌, ◌<◌, ◌↔◌, [], length, is_none, slice_get, IsTrue, IfOk, OnOk, OnErr, OnSome};
ghost use Rattle.std.specs.Option.{option_copied, option_map};
ghost use Rattle.ks_value.specs.Fields.{HasDistinctFields, value_of, set_field, remove_field};

use crate::HashIter;
use indexmap::IndexMap;
use rs_base::{Bytes, NoMemory};
use std::alloc::{AllocError, Global};
use std::marker::Model;

/// Fields with their values (Redis manual, hashes), in order of first insertion: a field that is set again keeps its
/// place, one that was removed and is set again stands last. Contracts see it as the list of the pairs.
#[derive(Debug, Drop)]
pub struct HashValue {
    pairs: IndexMap<Vec<u8>, Bytes>,
}

impl Model for HashValue {
    ghost use Rattle.std.specs.Coded.{coded_list, coded_ℕ, coded×};
    ghost use Rattle.std.proofs.lemmas.Map.Lookups.{map_keys};
    ghost use Rattle.ks_value.specs.Fields.{Pairs};

    ghost Value = { Pairs };

    ghost coded = { coded_list (coded× (coded_list coded_ℕ) (coded_list coded_ℕ)) };

    ghost view = { λ h. map_keys (λ k. k.items) h.pairs.entries };
}

impl HashValue {
    /// No fields. It takes no memory.
    pub fn new(alloc: Global) -> HashValue
        ensures { result ≡ [] }
    {
        HashValue {
            pairs: IndexMap::new(alloc),
        }
    }

    /// The number of fields.
    pub fn len(&self) -> usize
        ensures value { result ≡ length self.now }
        ensures distinct { HasDistinctFields self.now }
    {
        self.pairs.len()
    }

    pub fn is_empty(&self) -> bool
        ensures { IsTrue result ↔ (self.now ≡ []) }
    {
        self.pairs.is_empty()
    }

    /// The value of a field. `None` exactly where the field is absent.
    pub fn get(&self, field: &[u8]) -> Option<&Bytes>
        ensures { option_copied result ≡ value_of self.now field.now }
    {
        self.pairs.get(field)
    }

    /// Gives a field a value in place of any other, and answers whether the field is new. After `NoMemory` the hash is
    /// as it was.
    pub fn set(&mut self, field: Bytes, value: Bytes) -> Result<bool, NoMemory>
        ensures new { IfOk result (λ new. new ≡ is_none (value_of self.old field)) }
        ensures ok { OnOk result (self.new ≡ set_field self.old field value) }
        ensures err { OnErr result (self.new ≡ self.old) }
        ensures distinct { HasDistinctFields self.new }
    {
        let old = self.pairs.insert(field.into_vec(), value)?;
        Ok(old.is_none())
    }

    /// Removes a field, and answers its value. `None` exactly where the field is absent.
    pub fn remove(&mut self, field: &[u8]) -> Option<Bytes>
        ensures value { result ≡ value_of self.old field.now }
        ensures pairs { self.new ≡ remove_field self.old field.now }
        ensures distinct { HasDistinctFields self.new }
    {
        self.pairs.shift_remove(field)
    }

    /// The field at `at`, counted from 0 in order of first insertion. `None` exactly where `at` is not below the
    /// length.
    pub fn field(&self, at: usize) -> Option<&[u8]>
        ensures value { option_copied result ≡ option_map (λ p. p.0) (slice_get self.now at) }
        ensures within { OnSome result (at < length self.now) }
    {
        let (field, _) = self.pairs.get_index(at)?;
        Some(field.as_slice())
    }

    /// The value of the field at `at`, counted from 0 in order of first insertion. `None` exactly where `at` is not
    /// below the length.
    pub fn value(&self, at: usize) -> Option<&Bytes>
        ensures value { option_copied result ≡ option_map (λ p. p.1) (slice_get self.now at) }
        ensures within { OnSome result (at < length self.now) }
    {
        let (_, value) = self.pairs.get_index(at)?;
        Some(value)
    }

    /// The fields with their values, in order of first insertion.
    pub fn iter(&self) -> HashIter<'_>
        ensures value { result ≡ self.now }
        ensures distinct { HasDistinctFields self.now }
    {
        HashIter::new(self.pairs.iter())
    }

    /// A hash of the same fields with the same values, in the same order.
    pub fn copy(&self) -> Result<HashValue, NoMemory>
        ensures { IfOk result (λ copy. copy ≡ self.now) }
    {
        Ok(self.clone()?)
    }
}

impl PartialEq for HashValue {
    ghost use Rattle.ks_value.specs.Fields.{are_same_pairs, same_pairs_per};

    ghost eq = { are_same_pairs };

    ghost laws = { same_pairs_per };

    fn eq(&self, other: &HashValue) -> bool {
        self.pairs.as_slice() == other.pairs.as_slice()
    }
}

impl Eq for HashValue {
    ghost use Rattle.ks_value.specs.Fields.{same_pairs_equiv};

    ghost laws = { same_pairs_equiv };
}

impl Clone for HashValue {
    ghost use Rattle.std.specs.Prelude.{◌≡◌};

    ghost is_clone = { λ old new. new ≡ old };

    fn clone(&self) -> Result<HashValue, AllocError> {
        Ok(HashValue {
            pairs: self.pairs.clone()?,
        })
    }
}
