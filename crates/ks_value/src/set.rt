ghost use Rattle.std.specs.Prelude.{◌≡◌, ◌<◌, ◌↔◌, [], false, length, not, slice_get, count_by, IsTrue, IfOk, OnOk};
ghost use Rattle.std.specs.Prelude.{OnErr, OnSome};
ghost use Rattle.std.specs.Option.{option_copied, option_map_or};
ghost use Rattle.std.specs.Ordering.{is_lt};
ghost use Rattle.std.specs.Str.{bytes_eq};
ghost use Rattle.ks_tree.specs.Order.{bytes_cmp};
ghost use Rattle.ks_value.specs.Members.{IsAscending, is_member, insert_member, remove_member};

use crate::SetIter;
use crate::member::Member;
use ks_tree::TreeList;
use rs_base::{Bytes, NoMemory};
use std::alloc::{AllocError, Global};
use std::marker::Model;

/// Members, each once (Redis manual, sets). Contracts see it as the list of the members in byte order. A member is
/// found, inserted, removed or reached by its place in time of the number's logarithm.
#[derive(Debug, Drop)]
pub struct SetValue {
    alloc: Global,
    members: TreeList<Member>,
}

impl Model for SetValue {
    ghost use Rattle.std.specs.Prelude.{List, ℕ};
    ghost use Rattle.std.specs.Coded.{coded_list, coded_ℕ};
    ghost use Rattle.ks_value.specs.Members.{IsAscending};

    ghost Value = { List (List ℕ) };

    ghost coded = { coded_list (coded_list coded_ℕ) };

    ghost view = { λ s. s.members };

    ghost invariant = { λ s. IsAscending s.members };
}

/// Whether a member stands before another string in byte order.
fn is_below(member: &Member, other: &[u8]) -> bool
    ensures { result ≡ is_lt (bytes_cmp member.now other.now) }
{
    member.as_slice() < other
}

impl SetValue {
    /// No members. It takes no memory.
    pub fn new(alloc: Global) -> SetValue
        ensures { result ≡ [] }
    {
        SetValue {
            alloc,
            members: TreeList::new(alloc),
        }
    }

    /// The number of members.
    pub fn len(&self) -> usize
        ensures value { result ≡ length self.now }
        ensures ascending { IsAscending self.now }
    {
        self.members.len()
    }

    pub fn is_empty(&self) -> bool
        ensures { IsTrue result ↔ (self.now ≡ []) }
    {
        self.members.is_empty()
    }

    /// How many members are below this one.
    fn place_of(&self, member: &[u8]) -> usize
        ensures value { result ≡ count_by (λ known. is_lt (bytes_cmp known member.now)) self.now }
        ensures ascending { IsAscending self.now }
    {
        self.members
            .partition_point(|known| is_below(known, member))
    }

    /// Whether this member stands at this place.
    fn stands_at(&self, place: usize, member: &[u8]) -> bool
        ensures { result ≡ option_map_or (λ known. bytes_eq known member.now) (slice_get self.now place) false }
    {
        match self.members.get(place) {
            Some(known) => known.as_slice() == member,
            None => false,
        }
    }

    /// Whether the member is there.
    pub fn contains(&self, member: &[u8]) -> bool
        ensures { result ≡ is_member self.now member.now }
    {
        self.stands_at(self.place_of(member), member)
    }

    /// Inserts a member, and answers whether it is new. After `NoMemory` the set is as it was.
    pub fn insert(&mut self, member: Bytes) -> Result<bool, NoMemory>
        ensures new { IfOk result (λ new. new ≡ not (is_member self.old member)) }
        ensures ok { OnOk result (self.new ≡ insert_member self.old member) }
        ensures err { OnErr result (self.new ≡ self.old) }
        ensures ascending { IsAscending self.new }
    {
        let text = member.as_slice();
        let place = self.place_of(text);
        if self.stands_at(place, text) {
            return Ok(false);
        }
        let kept = Member::from_bytes(self.alloc, member);
        self.members.insert(place, kept)?;
        Ok(true)
    }

    /// Removes a member, and answers whether it was there. It takes no memory.
    pub fn remove(&mut self, member: &[u8]) -> bool
        ensures value { result ≡ is_member self.old member.now }
        ensures members { self.new ≡ remove_member self.old member.now }
        ensures ascending { IsAscending self.new }
    {
        let place = self.place_of(member);
        if !self.stands_at(place, member) {
            return false;
        }
        let _ = self.members.remove(place);
        true
    }

    /// The member at `at`, counted from 0 in byte order. `None` exactly where `at` is not below the number of members.
    pub fn at(&self, at: usize) -> Option<&[u8]>
        ensures value { option_copied result ≡ slice_get self.now at }
        ensures within { OnSome result (at < length self.now) }
    {
        let member = self.members.get(at)?;
        Some(member.as_slice())
    }

    /// The members in byte order, each in time of the number's logarithm.
    pub fn iter(&self) -> SetIter<'_>
        ensures value { result ≡ self.now }
        ensures ascending { IsAscending self.now }
    {
        SetIter::new(&self.members)
    }

    /// A set of the same members.
    pub fn copy(&self) -> Result<SetValue, NoMemory>
        ensures { IfOk result (λ copy. copy ≡ self.now) }
    {
        Ok(self.clone()?)
    }
}

impl PartialEq for SetValue {
    ghost use Rattle.ks_value.specs.Texts.{are_same_texts, same_texts_per};

    ghost eq = { are_same_texts };

    ghost laws = { same_texts_per };

    fn eq(&self, other: &SetValue) -> bool {
        if self.len() != other.len() {
            return false;
        }
        for at in 0..self.len() {
            if self.at(at) != other.at(at) {
                return false;
            }
        }
        true
    }
}

impl Eq for SetValue {
    ghost use Rattle.ks_value.specs.Texts.{same_texts_equiv};

    ghost laws = { same_texts_equiv };
}

impl Clone for SetValue {
    ghost use Rattle.std.specs.Prelude.{◌≡◌};

    ghost is_clone = { λ old new. new ≡ old };

    fn clone(&self) -> Result<SetValue, AllocError> {
        Ok(SetValue {
            alloc: self.alloc,
            members: self.members.clone()?,
        })
    }
}
