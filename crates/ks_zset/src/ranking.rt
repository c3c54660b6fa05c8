ghost use Rattle.std.specs.Prelude.{◌≡◌, ◌<◌, [], true, false, length, remove, count_by, slice_range, IfOk, OnOk};
ghost use Rattle.std.specs.Prelude.{OnErr};
ghost use Rattle.std.specs.List.{list_any};
ghost use Rattle.std.specs.Ordering.{eq_by_cmp, is_lt};
ghost use Rattle.std.specs.BTreeSet.{insert_key};
ghost use Rattle.std.specs.Set.{remove_key};
ghost use Rattle.ks_zset.specs.Zset.{by_score, is_below};

use crate::Scored;
use ks_tree::TreeList;
use rs_base::{Bytes, NoMemory};
use rs_whole::Whole;
use std::alloc::{AllocError, Global};
use std::cmp::Ordering;
use std::marker::Model;

/// Members with their scores, in order of score and then member.
#[derive(Debug, Drop)]
pub struct Ranking {
    members: TreeList<(Bytes, Whole)>,
}

impl Model for Ranking {
    ghost use Rattle.std.specs.Prelude.{List};
    ghost use Rattle.std.specs.Coded.{coded_list, coded_ℕ, coded_ℤ, coded×};
    ghost use Rattle.std.specs.List.Sorted.{IsStrictlySortedBy};
    ghost use Rattle.ks_zset.specs.Zset.{ScoredMember, by_score};

    ghost Value = { List ScoredMember };

    ghost coded = { coded_list (coded× (coded_list coded_ℕ) coded_ℤ) };

    ghost view = { λ r. r.members };

    ghost invariant = { λ r. IsStrictlySortedBy by_score r.members };
}

fn compared(scored: &(Bytes, Whole), member: &[u8], score: Whole) -> Ordering
    ensures { result ≡ by_score scored.now (member.now, score) }
{
    match scored.1.get().cmp(&score.get()) {
        Ordering::Equal => scored.0.as_slice().cmp(member),
        apart => apart,
    }
}

fn is_before(scored: &(Bytes, Whole), member: &[u8], score: Whole) -> bool
    ensures { result ≡ is_lt (by_score scored.now (member.now, score)) }
{
    compared(scored, member, score).is_lt()
}

fn is_below(scored: &(Bytes, Whole), score: Whole, or_equal: bool) -> bool
    ensures { result ≡ is_below or_equal score scored.now.1 }
{
    if or_equal {
        scored.1.get() <= score.get()
    } else {
        scored.1.get() < score.get()
    }
}

impl Ranking {
    pub fn new(alloc: Global) -> Ranking
        ensures { result ≡ [] }
    {
        Ranking {
            members: TreeList::new(alloc),
        }
    }

    /// How many members come before this one.
    pub fn place(&self, member: &[u8], score: Whole) -> usize
        ensures { result ≡ count_by (λ scored. is_lt (by_score scored (member.now, score))) self.now }
    {
        self.members
            .partition_point(|scored| is_before(scored, member, score))
    }

    /// How many members have a score below this one, or with `or_equal` a score at most this one.
    pub fn below(&self, score: Whole, or_equal: bool) -> usize
        ensures { result ≡ count_by (λ scored. is_below or_equal score scored.1) self.now }
    {
        self.members
            .partition_point(|scored| is_below(scored, score, or_equal))
    }

    /// Puts a member that is not there at its place, and answers the place. After `NoMemory` the ranking is as it was.
    pub fn insert(&mut self, member: Bytes, score: Whole) -> Result<usize, NoMemory>
        requires { list_any (eq_by_cmp by_score (member, score)) self.old ≡ false }
        ensures ok { OnOk result (self.new ≡ insert_key by_score self.old (member, score)) }
        ensures within { IfOk result (λ place. place < length self.new) }
        ensures undone { IfOk result (λ place. remove self.new place ≡ self.old) }
        ensures err { OnErr result (self.new ≡ self.old) }
    {
        let place = self.place(member.as_slice(), score);
        self.members.insert(place, (member, score))?;
        Ok(place)
    }

    /// Takes the member at a place away.
    pub fn remove_at(&mut self, place: usize)
        requires { place < length self.old }
        ensures { self.new ≡ remove self.old place }
    {
        let _ = self.members.remove(place);
    }

    /// Takes a member that is there away.
    pub fn remove(&mut self, member: &[u8], score: Whole)
        requires { list_any (eq_by_cmp by_score (member.now, score)) self.old ≡ true }
        ensures { self.new ≡ remove_key (eq_by_cmp by_score (member.now, score)) self.old }
    {
        let place = self.place(member, score);
        let _ = self.members.remove(place);
    }

    /// The members from `from` up to and without `to`, of those that there are.
    pub fn range(&self, from: usize, to: usize) -> Result<Scored, NoMemory>
        ensures { IfOk result (λ members. members ≡ slice_range self.now from to) }
    {
        self.members.copy_range(from, to)
    }
}

impl Clone for Ranking {
    ghost use Rattle.std.specs.Prelude.{◌≡◌};

    ghost is_clone = { λ old new. new ≡ old };

    fn clone(&self) -> Result<Ranking, AllocError> {
        Ok(Ranking {
            members: self.members.clone()?,
        })
    }
}
