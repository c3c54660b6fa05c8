ghost use Rattle.std.specs.Prelude.{◌≡◌, ◌≢◌, ◌↔◌, Some, None, position, count_by, slice_range, IsTrue, IfOk, OnOk};
ghost use Rattle.std.specs.Prelude.{OnErr};
ghost use Rattle.std.specs.FinMap as finite;
ghost use Rattle.std.specs.Str.{bytes_eq};
ghost use Rattle.rs_whole.specs.Wholes.{IsWhole};
ghost use Rattle.ks_zset.specs.Zset.{HasWholeScores, ranking_of, is_below};

use crate::Scored;
use crate::ranking::Ranking;
use crate::scores::Scores;
use rs_base::{Bytes, NoMemory};
use rs_whole::Whole;
use std::alloc::{AllocError, Global};
use std::marker::Model;

/// Members with a score each. Contracts see it as the finite map from member to score, in the order of the members'
/// bytes; `ranking_of` is their list in the order of score and then member.
#[derive(Debug, Drop)]
pub struct Zset {
    scores: Scores,
    ranking: Ranking,
}

impl Model for Zset {
    ghost use Rattle.std.specs.Prelude.{◌≡◌};
    ghost use Rattle.std.specs.Coded.{coded_list, coded_ℕ, coded_ℤ};
    ghost use Rattle.std.specs.FinMap as finite;
    ghost use Rattle.ks_zset.specs.Zset.{ScoreMap, HasWholeScores, ranking_of};

    ghost Value = { ScoreMap };

    ghost coded = { finite.code (coded_list coded_ℕ) coded_ℤ };

    ghost view = { λ z. z.scores };

    ghost invariant = { λ z. (z.ranking ≡ ranking_of z.scores) × HasWholeScores z.scores };
}

impl Zset {
    /// No members. It takes no memory.
    pub fn new(alloc: Global) -> Zset
        ensures { result ≡ finite.empty }
    {
        Zset {
            scores: Scores::new(alloc),
            ranking: Ranking::new(alloc),
        }
    }

    /// An equal set.
    pub fn copy(&self) -> Result<Zset, NoMemory>
        ensures { IfOk result (λ copy. copy ≡ self.now) }
    {
        Ok(self.clone()?)
    }

    /// The number of members.
    pub fn len(&self) -> usize
        ensures value { result ≡ finite.len self.now }
        ensures whole { HasWholeScores self.now }
    {
        self.scores.len()
    }

    pub fn is_empty(&self) -> bool
        ensures value { IsTrue result ↔ (finite.len self.now ≡ 0) }
        ensures whole { HasWholeScores self.now }
    {
        self.len() == 0
    }

    /// The score of a member. `None` exactly where the member is absent.
    pub fn score(&self, member: &[u8]) -> Option<Whole>
        ensures { result ≡ finite.get self.now member.now }
    {
        self.scores.get(member)
    }

    /// The place of a member in the order of score and then member, counted from 0. `None` exactly where the member is
    /// absent.
    pub fn rank(&self, member: &[u8]) -> Option<usize>
        ensures { result ≡ position (λ scored. bytes_eq scored.0 member.now) (ranking_of self.now) }
    {
        match self.scores.get(member) {
            None => None,
            Some(score) => Some(self.ranking.place(member, score)),
        }
    }

    /// The number of members with a lower score, or with `or_equal` with a lower or equal one.
    pub fn below(&self, score: Whole, or_equal: bool) -> usize
        ensures { result ≡ count_by (λ scored. is_below or_equal score scored.1) (ranking_of self.now) }
    {
        self.ranking.below(score, or_equal)
    }

    /// The members with their scores at the ranks from `from` up to and without `to`, of those that there are.
    pub fn ranks(&self, from: usize, to: usize) -> Result<Scored, NoMemory>
        ensures { IfOk result (λ members. members ≡ slice_range (ranking_of self.now) from to) }
    {
        self.ranking.range(from, to)
    }

    /// Gives a member a score, and answers its old one: `None` exactly where the member was absent. After `NoMemory`
    /// the set is as it was.
    pub fn insert(&mut self, member: Bytes, score: Whole) -> Result<Option<Whole>, NoMemory>
        ensures old { IfOk result (λ old. old ≡ finite.get self.old member) }
        ensures ok { OnOk result (self.new ≡ finite.insert self.old member score) }
        ensures err { OnErr result (self.new ≡ self.old) }
        ensures whole { HasWholeScores self.new }
    {
        let number = score.get();
        match self.scores.get(member.as_slice()) {
            None => {
                self.add(member, score)?;
                Ok(None)
            }
            Some(old) => {
                if old.get() == number {
                    return Ok(Some(old));
                }
                self.replace(member, old, score)?;
                Ok(Some(old))
            }
        }
    }

    fn add(&mut self, member: Bytes, score: Whole) -> Result<(), NoMemory>
        requires absent { finite.get self.old member ≡ None }
        requires whole { IsWhole score }
        ensures ok { OnOk result (self.new ≡ finite.insert self.old member score) }
        ensures err { OnErr result (self.new ≡ self.old) }
        ensures whole { HasWholeScores self.new }
    {
        let place = self.ranking.insert(member.clone()?, score)?;
        match self.scores.insert(member, score) {
            Ok(_) => Ok(()),
            Err(refused) => {
                self.ranking.remove_at(place);
                Err(refused)
            }
        }
    }

    fn replace(&mut self, member: Bytes, old: Whole, score: Whole) -> Result<(), NoMemory>
        requires old { finite.get self.old member ≡ Some old }
        requires apart { old ≢ score }
        requires whole { IsWhole score }
        ensures ok { OnOk result (self.new ≡ finite.insert self.old member score) }
        ensures err { OnErr result (self.new ≡ self.old) }
        ensures whole { HasWholeScores self.new }
    {
        self.ranking.insert(member.clone()?, score)?;
        self.ranking.remove(member.as_slice(), old);
        // It is not refused, since the member is there.
        self.scores.insert(member, score)?;
        Ok(())
    }

    /// Takes a member away, and answers its score: `None` exactly where the member was absent. It takes no memory.
    pub fn remove(&mut self, member: &[u8]) -> Option<Whole>
        ensures old { result ≡ finite.get self.old member.now }
        ensures rest { self.new ≡ finite.remove self.old member.now }
        ensures whole { HasWholeScores self.new }
    {
        let old = self.scores.remove(member);
        if let Some(score) = old {
            self.ranking.remove(member, score);
        }
        old
    }
}

/// Sets are equal where they have the same members with the same scores.
impl PartialEq for Zset {
    ghost use Rattle.ks_zset.specs.Zset.{is_same, is_same_per};

    ghost eq = { is_same };

    ghost laws = { is_same_per };

    fn eq(&self, other: &Zset) -> bool {
        self.scores == other.scores
    }
}

impl Eq for Zset {
    ghost use Rattle.ks_zset.specs.Zset.{is_same_equiv};

    ghost laws = { is_same_equiv };
}

impl Clone for Zset {
    ghost use Rattle.std.specs.Prelude.{◌≡◌};

    ghost is_clone = { λ old new. new ≡ old };

    fn clone(&self) -> Result<Zset, AllocError> {
        Ok(Zset {
            scores: self.scores.clone()?,
            ranking: self.ranking.clone()?,
        })
    }
}
