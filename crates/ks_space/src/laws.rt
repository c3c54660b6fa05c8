ghost use Rattle.std.specs.Prelude.{◌≡◌, ◌<◌, ◌≤◌, ◌↔◌, ℕ, List, Some, None, Contains, IfSome, IsSomeAnd};
ghost use Rattle.std.specs.List.Sorted.{IsStrictlySortedBy};
ghost use Rattle.std.specs.FinMap as finite;
ghost use Rattle.ks_space.specs.Store.{Store, deadline_at};
ghost use Rattle.ks_space.specs.Purge.{gone, purged, by_deadline, IsTimely};

/// The law of the purge (Redis manual, EXPIRE, how keys expire), for every store and time. A key whose deadline is
/// below the time is absent afterwards; a key without a deadline, or whose deadline is not below the time, has the
/// entry that it had. So no deadline below the time is left. The keys that are answered are just those that left,
/// each one once, in the order of their deadlines and, at one deadline, of their bytes.
pub fn purge_removes_the_keys_past_their_deadline()
    ensures past { (store : Store) (time : ℕ) (key : List ℕ) (at : ℕ) → deadline_at store key ≡ Some at → at < time
        → finite.get (purged store time) key ≡ None }
    ensures others { (store : Store) (time : ℕ) (key : List ℕ) → IfSome (deadline_at store key) (λ at. time ≤ at)
        → finite.get (purged store time) key ≡ finite.get store key }
    ensures timely { (store : Store) (time : ℕ) → IsTimely (purged store time) time }
    ensures listed { (store : Store) (time : ℕ) (key : List ℕ)
        → Contains (gone store time) key ↔ IsSomeAnd (deadline_at store key) (λ at. at < time) }
    ensures ordered { (store : Store) (time : ℕ) → IsStrictlySortedBy (by_deadline store) (gone store time) }
{}

/// Two stores are equal exactly where each key has the same value, the order in it included, and the same deadline,
/// or is absent in both.
pub fn stores_with_equal_entries_are_equal()
    ensures { (one other : Store) → (one ≡ other) ↔ ((key : List ℕ) → finite.get one key ≡ finite.get other key) }
{}
