ghost use Rattle.std.specs.Prelude.{◌≡◌, None, IfOk, OnOk, OnErr};
ghost use Rattle.std.specs.FinMap as finite;

use rs_base::{Bytes, NoMemory};
use rs_whole::Whole;
use std::alloc::{AllocError, Global};
use std::collections::BTreeMap;
use std::marker::Model;

/// Members with their scores, by member.
#[derive(Debug, Drop)]
pub struct Scores {
    scores: BTreeMap<Vec<u8>, Whole>,
}

impl Model for Scores {
    ghost use Rattle.std.specs.Coded.{coded_list, coded_ℕ, coded_ℤ};
    ghost use Rattle.std.specs.FinMap as finite;
    ghost use Rattle.std.proofs.lemmas.Map.Lookups.{map_keys};
    ghost use Rattle.ks_zset.specs.Zset.{ScoreMap};

    ghost Value = { ScoreMap };

    ghost coded = { finite.code (coded_list coded_ℕ) coded_ℤ };

    ghost view = { λ s. finite.from_entries (map_keys (λ k. k.items) s.scores.entries) };
}

impl Scores {
    pub fn new(alloc: Global) -> Scores
        ensures { result ≡ finite.empty }
    {
        Scores {
            scores: BTreeMap::new(alloc),
        }
    }

    pub fn len(&self) -> usize
        ensures { result ≡ finite.len self.now }
    {
        self.scores.len()
    }

    pub fn get(&self, member: &[u8]) -> Option<Whole>
        ensures { result ≡ finite.get self.now member.now }
    {
        self.scores.get(member).copied()
    }

    /// Only a new member may be refused for want of memory.
    pub fn insert(&mut self, member: Bytes, score: Whole) -> Result<Option<Whole>, NoMemory>
        ensures old { IfOk result (λ old. old ≡ finite.get self.old member) }
        ensures ok { OnOk result (self.new ≡ finite.insert self.old member score) }
        ensures err { OnErr result (self.new ≡ self.old) }
        ensures absent { OnErr result (finite.get self.old member ≡ None) }
    {
        let old = self.scores.insert(member.into_vec(), score)?;
        Ok(old)
    }

    pub fn remove(&mut self, member: &[u8]) -> Option<Whole>
        ensures old { result ≡ finite.get self.old member.now }
        ensures rest { self.new ≡ finite.remove self.old member.now }
    {
        self.scores.remove(member)
    }
}

impl PartialEq for Scores {
    ghost use Rattle.ks_zset.specs.Zset.{is_same, is_same_per};

    ghost eq = { is_same };

    ghost laws = { is_same_per };

    fn eq(&self, other: &Scores) -> bool {
        if self.scores.len() != other.scores.len() {
            return false;
        }
        self.scores == other.scores
    }
}

impl Eq for Scores {
    ghost use Rattle.ks_zset.specs.Zset.{is_same_equiv};

    ghost laws = { is_same_equiv };
}

impl Clone for Scores {
    ghost use Rattle.std.specs.Prelude.{◌≡◌};

    ghost is_clone = { λ old new. new ≡ old };

    fn clone(&self) -> Result<Scores, AllocError> {
        Ok(Scores {
            scores: self.scores.clone()?,
        })
    }
}
