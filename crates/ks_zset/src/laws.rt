ghost use Rattle.std.specs.Prelude.{◌≡◌, ◌↔◌, ℕ, ℤ, List, Some, Contains};
ghost use Rattle.std.specs.List.Sorted.{IsStrictlySortedBy};
ghost use Rattle.std.specs.FinMap as finite;
ghost use Rattle.ks_zset.specs.Zset.{ScoreMap, by_score, ranking_of};

/// The law of the ranking: it has just the members with their scores, each below the next by score and then member.
pub fn the_ranking_is_the_members_in_order()
    ensures members { (z : ScoreMap) (member : List ℕ) (score : ℤ)
        → Contains (ranking_of z) (member, score) ↔ (finite.get z member ≡ Some score) }
    ensures order { (z : ScoreMap) → IsStrictlySortedBy by_score (ranking_of z) }
{}
