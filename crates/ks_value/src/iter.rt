ghost use Rattle.std.specs.Prelude.{◌≡◌};
ghost use Rattle.std.specs.Iterator.{YieldsFirstBy, item_count};
ghost use Rattle.std.specs.VecDeque.Iter.{deque_iter_rest};
ghost use Rattle.std.proofs.lemmas.Map.Lookups.{map_keys};

use crate::member::Member;
use indexmap::map;
use ks_tree::TreeList;
use rs_base::Bytes;
use std::collections::vec_deque;
use std::marker::Model;

/// The items of a list, from the head on. Contracts see it as the list of those that are left.
#[derive(Drop)]
pub struct ListIter<'a> {
    items: vec_deque::Iter<'a, Bytes>,
}

impl<'a> Model for ListIter<'a> {
    ghost use Rattle.std.specs.Prelude.{List, ℕ};
    ghost use Rattle.std.specs.VecDeque.Iter.{deque_iter_rest};

    ghost Value = { List (List ℕ) };

    ghost view = { λ it. deque_iter_rest it.items };
}

impl<'a> ListIter<'a> {
    pub(crate) fn new(items: vec_deque::Iter<'a, Bytes>) -> ListIter<'a>
        ensures { result ≡ deque_iter_rest items.entry }
    {
        ListIter { items }
    }
}

impl<'a> Iterator for ListIter<'a> {
    type Item = &'a Bytes;

    ghost next_gives = { YieldsFirstBy (λ item. item.now) (λ rest. rest) };

    ghost remaining = { item_count (λ rest. rest) };

    fn next(&mut self) -> Option<&'a Bytes> {
        self.items.next()
    }
}

/// The fields of a hash with their values, in order of first insertion. Contracts see it as the list of those that are
/// left.
#[derive(Drop)]
pub struct HashIter<'a> {
    pairs: map::Iter<'a, Vec<u8>, Bytes>,
}

impl<'a> Model for HashIter<'a> {
    ghost use Rattle.std.proofs.lemmas.Map.Lookups.{map_keys};
    ghost use Rattle.ks_value.specs.Fields.{Pairs};

    ghost Value = { Pairs };

    ghost view = { λ it. map_keys (λ k. k.items) it.pairs };
}

impl<'a> HashIter<'a> {
    pub(crate) fn new(pairs: map::Iter<'a, Vec<u8>, Bytes>) -> HashIter<'a>
        ensures { result ≡ map_keys (λ k. k.items) pairs.entry }
    {
        HashIter { pairs }
    }
}

impl<'a> Iterator for HashIter<'a> {
    type Item = (&'a [u8], &'a Bytes);

    ghost next_gives = { YieldsFirstBy (λ item. (item.0.now, item.1.now)) (λ rest. rest) };

    ghost remaining = { item_count (λ rest. rest) };

    fn next(&mut self) -> Option<(&'a [u8], &'a Bytes)> {
        let (field, value) = self.pairs.next()?;
        Some((field.as_slice(), value))
    }
}

/// The members of a set in byte order, each in time of the number's logarithm. Contracts see it as the list of those
/// that are left.
#[derive(Drop)]
pub struct SetIter<'a> {
    members: &'a TreeList<Member>,
    /// How many were given.
    given: usize,
}

impl<'a> Model for SetIter<'a> {
    ghost use Rattle.std.specs.Prelude.{List, ℕ, drop};

    ghost Value = { List (List ℕ) };

    ghost view = { λ it. drop it.given it.members.now };
}

impl<'a> SetIter<'a> {
    pub(crate) fn new(members: &'a TreeList<Member>) -> SetIter<'a>
        ensures { result ≡ members.now }
    {
        SetIter { members, given: 0 }
    }
}

impl<'a> Iterator for SetIter<'a> {
    type Item = &'a [u8];

    ghost next_gives = { YieldsFirstBy (λ item. item.now) (λ rest. rest) };

    ghost remaining = { item_count (λ rest. rest) };

    fn next(&mut self) -> Option<&'a [u8]> {
        if self.given >= self.members.len() {
            return None;
        }
        let member = self.members.get(self.given)?;
        self.given += 1;
        Some(member.as_slice())
    }
}
