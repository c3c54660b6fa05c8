ghost use Rattle.std.specs.Prelude.{◌≡◌, ◌-◌, ◌<◌, ◌↔◌, [], ◌∷◌, ◌++◌, length, slice_get, slice_set, remove, take};
ghost use Rattle.std.specs.Prelude.{drop, IsTrue, IfOk, OnOk, OnErr, OnSome};
ghost use Rattle.std.specs.Option.{option_copied, option_to_list};

use crate::ListIter;
use rs_base::{Bytes, NoMemory};
use std::alloc::{AllocError, Global};
use std::collections::VecDeque;
use std::marker::Model;
use std::mem;

/// A list of strings (Redis manual, lists): items in order, taken and given at either end in constant time. Contracts
/// see it as the list of its items, the head first.
#[derive(Debug, Drop)]
pub struct ListValue {
    items: VecDeque<Bytes>,
}

impl Model for ListValue {
    ghost use Rattle.std.specs.Prelude.{List, ℕ};
    ghost use Rattle.std.specs.Coded.{coded_list, coded_ℕ};

    ghost Value = { List (List ℕ) };

    ghost coded = { coded_list (coded_list coded_ℕ) };

    ghost view = { λ l. l.items.items };
}

impl ListValue {
    /// The empty list. It takes no memory.
    pub fn new(alloc: Global) -> ListValue
        ensures { result ≡ [] }
    {
        ListValue {
            items: VecDeque::new(alloc),
        }
    }

    /// The number of items.
    pub fn len(&self) -> usize
        ensures { result ≡ length self.now }
    {
        self.items.len()
    }

    pub fn is_empty(&self) -> bool
        ensures { IsTrue result ↔ (self.now ≡ []) }
    {
        self.items.is_empty()
    }

    /// The item at `at`, counted from 0 at the head. `None` exactly where `at` is not below the length.
    pub fn get(&self, at: usize) -> Option<&Bytes>
        ensures value { option_copied result ≡ slice_get self.now at }
        ensures within { OnSome result (at < length self.now) }
    {
        self.items.get(at)
    }

    /// Adds an item at the head. After `NoMemory` the list is as it was.
    pub fn push_front(&mut self, item: Bytes) -> Result<(), NoMemory>
        ensures ok { OnOk result (self.new ≡ item ∷ self.old) }
        ensures err { OnErr result (self.new ≡ self.old) }
    {
        self.items.push_front(item)?;
        Ok(())
    }

    /// Adds an item at the tail. After `NoMemory` the list is as it was.
    pub fn push_back(&mut self, item: Bytes) -> Result<(), NoMemory>
        ensures ok { OnOk result (self.new ≡ self.old ++ item ∷ []) }
        ensures err { OnErr result (self.new ≡ self.old) }
    {
        self.items.push_back(item)?;
        Ok(())
    }

    /// Takes the item at the head off. `None` exactly where the list is empty.
    pub fn pop_front(&mut self) -> Option<Bytes>
        ensures value { result ≡ slice_get self.old 0 }
        ensures rest { self.new ≡ drop 1 self.old }
        ensures items { self.old ≡ option_to_list result ++ self.new }
    {
        self.items.pop_front()
    }

    /// Takes the item at the tail off. `None` exactly where the list is empty.
    pub fn pop_back(&mut self) -> Option<Bytes>
        ensures value { result ≡ slice_get self.old (length self.old - 1) }
        ensures rest { self.new ≡ take (length self.old - 1) self.old }
        ensures items { self.old ≡ self.new ++ option_to_list result }
    {
        self.items.pop_back()
    }

    /// Puts an item in the place of the one at `at`, and answers that other one. `None` exactly where `at` is not below
    /// the length; the list is then as it was.
    pub fn set(&mut self, at: usize, item: Bytes) -> Option<Bytes>
        ensures value { result ≡ slice_get self.old at }
        ensures items { self.new ≡ slice_set self.old at item }
    {
        let place = self.items.get_mut(at)?;
        Some(mem::replace(place, item))
    }

    /// Removes the item at `at`, and answers it: those behind it move up. `None` exactly where `at` is not below the
    /// length; the list is then as it was.
    pub fn remove(&mut self, at: usize) -> Option<Bytes>
        ensures value { result ≡ slice_get self.old at }
        ensures items { self.new ≡ remove self.old at }
    {
        self.items.remove(at)
    }

    /// The items, from the head on.
    pub fn iter(&self) -> ListIter<'_>
        ensures { result ≡ self.now }
    {
        ListIter::new(self.items.iter())
    }

    /// A list of the same items.
    pub fn copy(&self) -> Result<ListValue, NoMemory>
        ensures { IfOk result (λ copy. copy ≡ self.now) }
    {
        Ok(self.clone()?)
    }
}

impl PartialEq for ListValue {
    ghost use Rattle.ks_value.specs.Texts.{are_same_texts, same_texts_per};

    ghost eq = { are_same_texts };

    ghost laws = { same_texts_per };

    fn eq(&self, other: &ListValue) -> bool {
        self.items == other.items
    }
}

impl Eq for ListValue {
    ghost use Rattle.ks_value.specs.Texts.{same_texts_equiv};

    ghost laws = { same_texts_equiv };
}

impl Clone for ListValue {
    ghost use Rattle.std.specs.Prelude.{◌≡◌};

    ghost is_clone = { λ old new. new ≡ old };

    fn clone(&self) -> Result<ListValue, AllocError> {
        Ok(ListValue {
            items: self.items.clone()?,
        })
    }
}
