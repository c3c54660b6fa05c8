ghost use Rattle.std.specs.Prelude.{◌≡◌, ◌≢◌, ◌↔◌, ℕ, List, [], ◌∷◌, Some, None};
ghost use Rattle.std.specs.List.{AllByRecursion};
ghost use Rattle.std.specs.FinMap as finite;
ghost use Rattle.ks_space.specs.declared.entry.Entry.{Entry};
ghost use Rattle.ks_space.specs.Store.{Store, IsStore, deadline_at};
ghost use Rattle.ks_space.specs.Purge.{IsTimely};
ghost use Rattle.fx_record.specs.declared.record.Record.{Record};
ghost use Rattle.fx_record.specs.Records.{string_entry, apply, applied, ChangesOnly, Moves};
ghost use Rattle.fx_record.specs.RecordWords.{words_of, record_of, IsRecord, AreWithinLimits};
ghost use Rattle.fx_record.specs.Settled.{settled};
ghost use Rattle.fx_record.specs.Timely.{IsTimelyRecord};

/// The law of `apply` in the words of the Redis manual. After SET the key holds the string, without a deadline, with
/// PXAT until that deadline, with KEEPTTL until the deadline that the key had. After DEL the key does not exist.
/// PEXPIREAT and PERSIST leave the key its value. After RENAME the new name has the value and the deadline of the old
/// one, which does not exist any longer. After FLUSHALL no key exists. Every other key keeps its value and its
/// deadline. PEXPIREAT, PERSIST and RENAME of a key that does not exist change nothing, nor does RENAME of a key to
/// its own name.
pub fn records_change_their_key_alone()
    ensures set { (store : Store) (key value : List ℕ)
        → ChangesOnly store (apply store (Record.Set key value)) key (Some (string_entry value None)) }
    ensures set_until { (store : Store) (key value : List ℕ) (deadline : ℕ)
        → ChangesOnly store (apply store (Record.SetUntil key value deadline)) key
        (Some (string_entry value (Some deadline))) }
    ensures set_keeping { (store : Store) (key value : List ℕ)
        → ChangesOnly store (apply store (Record.SetKeeping key value)) key
        (Some (string_entry value (deadline_at store key))) }
    ensures del { (store : Store) (key : List ℕ) → ChangesOnly store (apply store (Record.Del key)) key None }
    ensures expire_at { (store : Store) (key : List ℕ) (deadline : ℕ) (entry : Entry)
        → finite.get store key ≡ Some entry
        → ChangesOnly store (apply store (Record.ExpireAt key deadline)) key
        (Some (record entry { deadline = Some deadline })) }
    ensures persist { (store : Store) (key : List ℕ) (entry : Entry) → finite.get store key ≡ Some entry
        → ChangesOnly store (apply store (Record.Persist key)) key (Some (record entry { deadline = None })) }
    ensures rename { (store : Store) (from to : List ℕ) (entry : Entry)
        → from ≢ to → finite.get store from ≡ Some entry
        → Moves store (apply store (Record.Rename from to)) from to entry }
    ensures rename_itself { (store : Store) (key : List ℕ) → apply store (Record.Rename key key) ≡ store }
    ensures flush_all { (store : Store) (key : List ℕ) → finite.get (apply store Record.FlushAll) key ≡ None }
    ensures absent { (store : Store) (key : List ℕ) → finite.get store key ≡ None
        → ((deadline : ℕ) → apply store (Record.ExpireAt key deadline) ≡ store)
        × (apply store (Record.Persist key) ≡ store)
        × ((to : List ℕ) → apply store (Record.Rename key to) ≡ store) }
{}

/// The law of words: those of a record within the limits are read as that record, and no other words are. They are
/// within the limits of a command.
pub fn each_record_has_its_own_words()
    ensures back { (r : Record) → IsRecord r → record_of (words_of r) ≡ Some r }
    ensures only { (words : List (List ℕ)) (r : Record) → record_of words ≡ Some r → words ≡ words_of r }
    ensures within { (words : List (List ℕ)) (r : Record) → record_of words ≡ Some r → IsRecord r }
    ensures limited { (r : Record) → IsRecord r → AreWithinLimits (words_of r) }
{}

/// Records within the limits keep a store within them.
pub fn records_keep_to_the_limits()
    ensures one { (store : Store) (r : Record) → IsStore store → IsRecord r → IsStore (apply store r) }
    ensures each { (store : Store) (records : List Record)
        → IsStore store → AllByRecursion IsRecord records → IsStore (applied store records) }
{}

/// Where no deadline of a store is past, and none is that the records give, none is past afterwards.
pub fn records_keep_to_the_time()
    ensures one { (time : ℕ) (store : Store) (r : Record)
        → IsTimely store time → IsTimelyRecord time r → IsTimely (apply store r) time }
    ensures each { (time : ℕ) (store : Store) (records : List Record)
        → IsTimely store time → AllByRecursion (IsTimelyRecord time) records
        → IsTimely (applied store records) time }
{}

/// The records that are kept lead to the same store as all of them; none is kept exactly where they lead back to the
/// store that they began with, or there was none.
pub fn settled_records_lead_to_the_same_store()
    ensures same { (store : Store) (records : List Record)
        → applied store (settled store records) ≡ applied store records }
    ensures none { (store : Store) (records : List Record)
        → (settled store records ≡ []) ↔ (applied store records ≡ store) }
    ensures all { (store : Store) (records : List Record)
        → applied store records ≢ store → settled store records ≡ records }
{}
