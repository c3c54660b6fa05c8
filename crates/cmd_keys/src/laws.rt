ghost use Rattle.std.specs.Prelude.{◌≡◌, ◌≢◌, ◌↔◌, ◌+◌, ◌*◌, ◌<◌, ◌≤◌, ◌^◌, ℕ, ℤ, pos, negsuc, true, false, decimal};
ghost use Rattle.std.specs.Prelude.{List, [], ◌∷◌, Some, None, Ok, Err, IsSome, Contains, codes, length, map};
ghost use Rattle.std.specs.List.{AllByRecursion};
ghost use Rattle.std.specs.List.Sorted.{IsStrictlySortedBy};
ghost use Rattle.std.specs.FinMap as finite;
ghost use Rattle.resp_reply.specs.declared.reply.Reply.{Reply};
ghost use Rattle.ks_space.specs.declared.entry.Entry.{Entry};
ghost use Rattle.ks_space.specs.declared.entry.Value.{Value};
ghost use Rattle.ks_space.specs.Store.{IsShort, bytes_cmp, deadline_at};
ghost use Rattle.fx_record.specs.Records.{Moves};
ghost use Rattle.cmd_args.specs.declared.commands.CmdId.{CmdId};
ghost use Rattle.cmd_args.specs.declared.commands.ServerCmd.{ServerCmd};
ghost use Rattle.cmd_args.specs.declared.commands.KeyCmd.{KeyCmd};
ghost use Rattle.cmd_args.specs.declared.refusal.Refusal.{Refusal};
ghost use Rattle.cmd_args.specs.Keys.{keys_named};
ghost use Rattle.cmd_args.specs.Refusals.{refusal_text};
ghost use Rattle.cmd_args.specs.Table.{command};
ghost use Rattle.cmd_glob.specs.Patterns.{parts_of};
ghost use Rattle.cmd_glob.specs.Matching.{Matches};
ghost use Rattle.cmd_rows.specs.Worlds.{World};
ghost use Rattle.cmd_rows.specs.Numbers.{number, is_within_64};
ghost use Rattle.cmd_rows.specs.Outcomes.{ok, array, answers, refused, left_by};
ghost use Rattle.cmd_rows.specs.Bounds.{AreTimelyWithin};
ghost use Rattle.cmd_keys.specs.ServerRows.{is_flush_mode};
ghost use Rattle.cmd_keys.specs.ServerRows.{server_row};
ghost use Rattle.cmd_keys.specs.KeyRows.{key_row};
ghost use Rattle.cmd_keys.specs.Laws.{IsFlush, IsRemoval, TellsDeadline, Means, Empties, ChangesKey};

/// PING: the status PONG, or the word that comes with it.
#[tactic(auto, unfolding(crate::specs::ServerRows::server_row))]
pub fn ping_answers_pong_or_its_word()
    ensures alone { (world : World) (name : List ℕ)
        → server_row world ServerCmd.Ping (name ∷ []) ≡ answers (Reply.Status (codes "PONG")) }
    ensures with_word { (world : World) (name word : List ℕ)
        → server_row world ServerCmd.Ping (name ∷ word ∷ []) ≡ answers (Reply.Bulk word) }
{}

/// ECHO: the word.
#[tactic(auto, unfolding(crate::specs::ServerRows::server_row))]
pub fn echo_answers_its_word()
    ensures { (world : World) (name word : List ℕ)
        → server_row world ServerCmd.Echo (name ∷ word ∷ []) ≡ answers (Reply.Bulk word) }
{}

/// SELECT: OK for the database 0. Another integer is out of range, and a word that spells none is refused.
pub fn select_takes_the_database_0_alone()
    ensures zero { (world : World) (name word : List ℕ) → number word ≡ Ok (pos 0)
        → server_row world ServerCmd.Select (name ∷ word ∷ []) ≡ answers ok }
    ensures others { (world : World) (name word : List ℕ) (n : ℤ) → number word ≡ Ok n → n ≢ pos 0
        → server_row world ServerCmd.Select (name ∷ word ∷ []) ≡ refused Refusal.DbIndex }
    ensures no_integer { (world : World) (name word : List ℕ) (why : Refusal) → number word ≡ Err why
        → server_row world ServerCmd.Select (name ∷ word ∷ []) ≡ refused why }
    ensures written { number (codes "0") ≡ Ok (pos 0) }
{}

/// TIME: the seconds since the Unix epoch, and the microseconds behind them.
pub fn time_is_in_seconds_and_microseconds()
    ensures { (world : World) (name : List ℕ) (seconds millis : ℕ) → world.time ≡ seconds * 1000 + millis
        → millis < 1000
        → server_row world ServerCmd.Time (name ∷ []) ≡ answers (array
        (Reply.Bulk (decimal seconds) ∷ Reply.Bulk (decimal (millis * 1000)) ∷ [])) }
{}

/// DBSIZE: how many keys there are.
pub fn dbsize_counts_the_keys()
    ensures { (world : World) (name : List ℕ)
        → server_row world ServerCmd.DbSize (name ∷ []) ≡ answers (Reply.Int (pos (length (finite.keys world.store)))) }
{}

/// FLUSHALL and FLUSHDB, alone or with ASYNC or SYNC in letters of either case: they answer OK, and no key exists any
/// longer. One record of it is kept where a key existed, and none where the store was empty. Another word is a syntax
/// error.
pub fn flush_removes_every_key()
    ensures alone { (world : World) (id : ServerCmd) (name : List ℕ) → IsFlush id
        → Empties world.store (server_row world id (name ∷ [])) }
    ensures with_mode { (world : World) (id : ServerCmd) (name mode : List ℕ) → IsFlush id
        → is_flush_mode mode ≡ true
        → Empties world.store (server_row world id (name ∷ mode ∷ [])) }
    ensures modes { (is_flush_mode (codes "ASYNC") ≡ true) × (is_flush_mode (codes "SYNC") ≡ true)
        × (is_flush_mode (codes "async") ≡ true) × (is_flush_mode (codes "sync") ≡ true) }
    ensures another_word { (world : World) (id : ServerCmd) (name mode : List ℕ) → IsFlush id
        → is_flush_mode mode ≡ false
        → server_row world id (name ∷ mode ∷ []) ≡ refused Refusal.Syntax }
{}

/// DEL and UNLINK: none of the keys exists any longer, and every other key is as it was. The answer is by how many
/// keys there are fewer, so that it counts each key that existed once.
pub fn del_removes_the_keys()
    ensures gone { (world : World) (id : KeyCmd) (name key : List ℕ) (keys : List (List ℕ)) → IsRemoval id
        → Contains keys key
        → finite.get (left_by world.store (key_row world id (name ∷ keys))) key ≡ None }
    ensures others { (world : World) (id : KeyCmd) (name key : List ℕ) (keys : List (List ℕ)) → IsRemoval id
        → ¬ (Contains keys key)
        → finite.get (left_by world.store (key_row world id (name ∷ keys))) key ≡ finite.get world.store key }
    ensures count { (world : World) (id : KeyCmd) (name : List ℕ) (keys : List (List ℕ)) → IsRemoval id
        → (n : ℕ) × ((key_row world id (name ∷ keys)).reply ≡ Reply.Int (pos n))
        × (finite.len (left_by world.store (key_row world id (name ∷ keys))) + n ≡ finite.len world.store) }
{}

/// EXISTS: each word that is a key counts one more, also where it was named before; other words count nothing.
pub fn exists_counts_each_word()
    ensures none { (world : World) (name : List ℕ)
        → key_row world KeyCmd.Exists (name ∷ []) ≡ answers (Reply.Int (pos 0)) }
    ensures there { (world : World) (name key : List ℕ) (keys : List (List ℕ)) → IsSome (finite.get world.store key)
        → (n : ℕ) × (key_row world KeyCmd.Exists (name ∷ keys) ≡ answers (Reply.Int (pos n)))
        × (key_row world KeyCmd.Exists (name ∷ key ∷ keys) ≡ answers (Reply.Int (pos (n + 1)))) }
    ensures absent { (world : World) (name key : List ℕ) (keys : List (List ℕ)) → finite.get world.store key ≡ None
        → key_row world KeyCmd.Exists (name ∷ key ∷ keys) ≡ key_row world KeyCmd.Exists (name ∷ keys) }
{}

/// TYPE: the name of the kind of value that a key holds, and none for a key that does not exist.
pub fn type_names_the_kind_of_a_value()
    ensures absent { (world : World) (name key : List ℕ) → finite.get world.store key ≡ None
        → key_row world KeyCmd.TypeOf (name ∷ key ∷ []) ≡ answers (Reply.Status (codes "none")) }
    ensures string { (world : World) (name key text : List ℕ) (entry : Entry)
        → finite.get world.store key ≡ Some entry → entry.value ≡ Value.Str text
        → key_row world KeyCmd.TypeOf (name ∷ key ∷ []) ≡ answers (Reply.Status (codes "string")) }
    ensures list { (world : World) (name key : List ℕ) (items : List (List ℕ)) (entry : Entry)
        → finite.get world.store key ≡ Some entry → entry.value ≡ Value.List items
        → key_row world KeyCmd.TypeOf (name ∷ key ∷ []) ≡ answers (Reply.Status (codes "list")) }
    ensures hash { (world : World) (name key : List ℕ) (pairs : List (List ℕ × List ℕ)) (entry : Entry)
        → finite.get world.store key ≡ Some entry → entry.value ≡ Value.Hash pairs
        → key_row world KeyCmd.TypeOf (name ∷ key ∷ []) ≡ answers (Reply.Status (codes "hash")) }
    ensures set { (world : World) (name key : List ℕ) (members : List (List ℕ)) (entry : Entry)
        → finite.get world.store key ≡ Some entry → entry.value ≡ Value.Set members
        → key_row world KeyCmd.TypeOf (name ∷ key ∷ []) ≡ answers (Reply.Status (codes "set")) }
    ensures sorted { (world : World) (name key : List ℕ) (scores : finite.FinMap bytes_cmp ℤ) (entry : Entry)
        → finite.get world.store key ≡ Some entry → entry.value ≡ Value.Sorted scores
        → key_row world KeyCmd.TypeOf (name ∷ key ∷ []) ≡ answers (Reply.Status (codes "zset")) }
{}

/// KEYS: just the keys that exist and that the pattern matches, each once and in byte order.
pub fn keys_lists_what_the_pattern_matches()
    ensures { (world : World) (name pattern : List ℕ)
        → (keys : List (List ℕ))
        × (key_row world KeyCmd.Keys (name ∷ pattern ∷ []) ≡ answers (array (map Reply.Bulk keys)))
        × ((key : List ℕ) → Contains keys key ↔ (IsSome (finite.get world.store key) × Matches (parts_of pattern) key))
        × IsStrictlySortedBy bytes_cmp keys }
{}

/// RANDOMKEY: a key that exists, by one draw. Null, and no draw, where there is none.
pub fn randomkey_gives_a_key()
    ensures some { (world : World) (name : List ℕ) → 1 ≤ finite.len world.store
        → (key : List ℕ) × ((key_row world KeyCmd.RandomKey (name ∷ [])).reply ≡ Reply.Bulk key)
        × IsSome (finite.get world.store key)
        × ((key_row world KeyCmd.RandomKey (name ∷ [])).draws ≡ 1) }
    ensures none { (world : World) (name : List ℕ) → world.store ≡ finite.empty
        → key_row world KeyCmd.RandomKey (name ∷ []) ≡ answers Reply.NullBulk }
{}

/// RENAME: the new name has the value and the deadline of the old one, which does not exist any longer, and every
/// other key is as it was. To rename a key to itself changes nothing. An error where the key does not exist.
pub fn rename_moves_a_key()
    ensures moves { (world : World) (name from to : List ℕ) (entry : Entry) → from ≢ to
        → finite.get world.store from ≡ Some entry
        → Moves world.store (left_by world.store (key_row world KeyCmd.Rename (name ∷ from ∷ to ∷ []))) from to entry }
    ensures itself { (world : World) (name key : List ℕ)
        → left_by world.store (key_row world KeyCmd.Rename (name ∷ key ∷ key ∷ [])) ≡ world.store }
    ensures answers_ok { (world : World) (name from to : List ℕ) (entry : Entry)
        → finite.get world.store from ≡ Some entry
        → (key_row world KeyCmd.Rename (name ∷ from ∷ to ∷ [])).reply ≡ ok }
    ensures absent { (world : World) (name from to : List ℕ) → finite.get world.store from ≡ None
        → key_row world KeyCmd.Rename (name ∷ from ∷ to ∷ []) ≡ refused Refusal.NoSuchKey }
{}

/// RENAMENX: as RENAME where the new name does not exist yet, and answers 1; else nothing is done, and it answers 0.
/// An error where the key does not exist.
pub fn renamenx_moves_a_key_to_a_new_name()
    ensures moves { (world : World) (name from to : List ℕ) (entry : Entry)
        → finite.get world.store from ≡ Some entry → finite.get world.store to ≡ None
        → ((key_row world KeyCmd.RenameNx (name ∷ from ∷ to ∷ [])).reply ≡ Reply.Int (pos 1))
        × Moves world.store (left_by world.store (key_row world KeyCmd.RenameNx (name ∷ from ∷ to ∷ []))) from to
        entry }
    ensures there { (world : World) (name from to : List ℕ) (entry other : Entry)
        → finite.get world.store from ≡ Some entry → finite.get world.store to ≡ Some other
        → key_row world KeyCmd.RenameNx (name ∷ from ∷ to ∷ []) ≡ answers (Reply.Int (pos 0)) }
    ensures absent { (world : World) (name from to : List ℕ) → finite.get world.store from ≡ None
        → key_row world KeyCmd.RenameNx (name ∷ from ∷ to ∷ []) ≡ refused Refusal.NoSuchKey }
{}

/// EXPIRE, PEXPIRE, EXPIREAT and PEXPIREAT: a key that exists has the deadline that the number means, and its value as
/// it was; where that is at or below the time, the key does not exist any longer. Every other key is as it was. They
/// answer 1, or 0 where the key does not exist. A word that spells no integer, and a time past 64 signed bits, are
/// refused, also where the key does not exist.
pub fn expire_gives_a_key_its_deadline()
    ensures later { (world : World) (id : KeyCmd) (name key word : List ℕ) (n : ℤ) (at : ℕ) (entry : Entry)
        → number word ≡ Ok n → Means id world.time n (pos at) → at < 2 ^ 63 → world.time < at
        → finite.get world.store key ≡ Some entry
        → ChangesKey world.store (key_row world id (name ∷ key ∷ word ∷ [])) key
        (Some (record entry { deadline = Some at })) }
    ensures at_once { (world : World) (id : KeyCmd) (name key word : List ℕ) (n : ℤ) (at : ℕ) (entry : Entry)
        → number word ≡ Ok n → Means id world.time n (pos at) → at < 2 ^ 63 → at ≤ world.time
        → finite.get world.store key ≡ Some entry
        → ChangesKey world.store (key_row world id (name ∷ key ∷ word ∷ [])) key None }
    ensures before_epoch { (world : World) (id : KeyCmd) (name key word : List ℕ) (n : ℤ) (m : ℕ) (entry : Entry)
        → number word ≡ Ok n → Means id world.time n (negsuc m) → m < 2 ^ 63
        → finite.get world.store key ≡ Some entry
        → ChangesKey world.store (key_row world id (name ∷ key ∷ word ∷ [])) key None }
    ensures absent { (world : World) (id : KeyCmd) (name key word : List ℕ) (n at : ℤ)
        → number word ≡ Ok n → Means id world.time n at → is_within_64 at ≡ true
        → finite.get world.store key ≡ None
        → key_row world id (name ∷ key ∷ word ∷ []) ≡ answers (Reply.Int (pos 0)) }
    ensures out_of_range { (world : World) (id : KeyCmd) (name key word : List ℕ) (n at : ℤ)
        → number word ≡ Ok n → Means id world.time n at → is_within_64 at ≡ false
        → key_row world id (name ∷ key ∷ word ∷ []) ≡ refused (Refusal.ExpireTime (CmdId.Keys id)) }
    ensures no_integer { (world : World) (id : KeyCmd) (name key word : List ℕ) (n at : ℤ) (why : Refusal)
        → Means id world.time n at → number word ≡ Err why
        → key_row world id (name ∷ key ∷ word ∷ []) ≡ refused why }
{}

/// PERSIST: a key that has a deadline has none any longer, and its value as it was, and PERSIST answers 1; else
/// nothing is done, and it answers 0.
pub fn persist_takes_the_deadline_away()
    ensures had { (world : World) (name key : List ℕ) (entry : Entry) (at : ℕ)
        → finite.get world.store key ≡ Some entry → entry.deadline ≡ Some at
        → ChangesKey world.store (key_row world KeyCmd.Persist (name ∷ key ∷ [])) key
        (Some (record entry { deadline = None })) }
    ensures had_none { (world : World) (name key : List ℕ) → deadline_at world.store key ≡ None
        → key_row world KeyCmd.Persist (name ∷ key ∷ []) ≡ answers (Reply.Int (pos 0)) }
{}

/// TTL and PTTL give what is left until the deadline, TTL in seconds to the nearest, and 0 where that is past.
/// EXPIRETIME and PEXPIRETIME give the deadline, EXPIRETIME in seconds to the nearest. All four give -1 for a key
/// without a deadline, and -2 for one that does not exist.
pub fn ttl_tells_the_deadline()
    ensures ttl { (world : World) (name key : List ℕ) (left n : ℕ)
        → deadline_at world.store key ≡ Some (world.time + left)
        → 1000 * n ≤ left + 500 → left + 500 < 1000 * (n + 1)
        → key_row world KeyCmd.Ttl (name ∷ key ∷ []) ≡ answers (Reply.Int (pos n)) }
    ensures pttl { (world : World) (name key : List ℕ) (left : ℕ)
        → deadline_at world.store key ≡ Some (world.time + left)
        → key_row world KeyCmd.PTtl (name ∷ key ∷ []) ≡ answers (Reply.Int (pos left)) }
    ensures past { (world : World) (name key : List ℕ) (at : ℕ)
        → deadline_at world.store key ≡ Some at → at ≤ world.time
        → (key_row world KeyCmd.Ttl (name ∷ key ∷ []) ≡ answers (Reply.Int (pos 0)))
        × (key_row world KeyCmd.PTtl (name ∷ key ∷ []) ≡ answers (Reply.Int (pos 0))) }
    ensures expiretime { (world : World) (name key : List ℕ) (at n : ℕ)
        → deadline_at world.store key ≡ Some at
        → 1000 * n ≤ at + 500 → at + 500 < 1000 * (n + 1)
        → key_row world KeyCmd.ExpireTime (name ∷ key ∷ []) ≡ answers (Reply.Int (pos n)) }
    ensures pexpiretime { (world : World) (name key : List ℕ) (at : ℕ)
        → deadline_at world.store key ≡ Some at
        → key_row world KeyCmd.PExpireTime (name ∷ key ∷ []) ≡ answers (Reply.Int (pos at)) }
    ensures forever { (world : World) (id : KeyCmd) (name key : List ℕ) (entry : Entry) → TellsDeadline id
        → finite.get world.store key ≡ Some entry → entry.deadline ≡ None
        → key_row world id (name ∷ key ∷ []) ≡ answers (Reply.Int (negsuc 0)) }
    ensures absent { (world : World) (id : KeyCmd) (name key : List ℕ) → TellsDeadline id
        → finite.get world.store key ≡ None
        → key_row world id (name ∷ key ∷ []) ≡ answers (Reply.Int (negsuc 1)) }
{}

/// Right after EXPIRE or PEXPIRE of so many seconds or milliseconds, TTL or PTTL gives them; right after EXPIREAT or
/// PEXPIREAT of a second or millisecond, EXPIRETIME or PEXPIRETIME gives that.
pub fn ttl_gives_what_expire_gave()
    ensures ttl { (world : World) (n : ℕ) (name other key word : List ℕ) (entry : Entry)
        → number word ≡ Ok (pos n) → 0 < n → world.time + n * 1000 < 2 ^ 63 → finite.get world.store key ≡ Some entry
        → key_row (record world {
          store = left_by world.store
              (key_row world KeyCmd.Expire (name ∷ key ∷ word ∷ []));
        }) KeyCmd.Ttl (other ∷ key ∷ [])
        ≡ answers (Reply.Int (pos n)) }
    ensures pttl { (world : World) (n : ℕ) (name other key word : List ℕ) (entry : Entry)
        → number word ≡ Ok (pos n) → 0 < n → world.time + n < 2 ^ 63 → finite.get world.store key ≡ Some entry
        → key_row (record world {
          store = left_by world.store
              (key_row world KeyCmd.PExpire (name ∷ key ∷ word ∷ []));
        }) KeyCmd.PTtl (other ∷ key ∷ [])
        ≡ answers (Reply.Int (pos n)) }
    ensures expiretime { (world : World) (n : ℕ) (name other key word : List ℕ) (entry : Entry)
        → number word ≡ Ok (pos n) → world.time < n * 1000 → n * 1000 < 2 ^ 63
        → finite.get world.store key ≡ Some entry
        → key_row (record world {
          store = left_by world.store
              (key_row world KeyCmd.ExpireAt (name ∷ key ∷ word ∷ []));
        }) KeyCmd.ExpireTime (other ∷ key ∷ [])
        ≡ answers (Reply.Int (pos n)) }
    ensures pexpiretime { (world : World) (n : ℕ) (name other key word : List ℕ) (entry : Entry)
        → number word ≡ Ok (pos n) → world.time < n → n < 2 ^ 63 → finite.get world.store key ≡ Some entry
        → key_row (record world {
          store = left_by world.store
              (key_row world KeyCmd.PExpireAt (name ∷ key ∷ word ∷ []));
        }) KeyCmd.PExpireTime (other ∷ key ∷ [])
        ≡ answers (Reply.Int (pos n)) }
{}

/// The records of a command are within the limits of a store, and give no deadline that is past.
pub fn key_records_are_within()
    ensures server { (world : World) (id : ServerCmd) (words : List (List ℕ))
        → AreTimelyWithin world.time (server_row world id words).records }
    ensures keys { (world : World) (id : KeyCmd) (words : List (List ℕ)) → AllByRecursion IsShort words
        → AreTimelyWithin world.time (key_row world id words).records }
{}

/// A key that a command does not name keeps its value and its deadline: a command on the server other than FLUSHALL
/// and FLUSHDB changes nothing, and one on keys names keys by the places of its words, so that `PEXPIRE k n` names `k`
/// alone, also where another key is `n`.
pub fn other_keys_stay()
    ensures server { (world : World) (id : ServerCmd) (words : List (List ℕ)) → ¬ (IsFlush id)
        → (server_row world id words).records ≡ [] }
    ensures keys { (world : World) (id : KeyCmd) (words : List (List ℕ)) (key : List ℕ)
        → ¬ (Contains (keys_named (CmdId.Keys id) words) key)
        → finite.get (left_by world.store (key_row world id words)) key ≡ finite.get world.store key }
{}

/// A command on keys or on the server that answers a fault does nothing, and takes no draw.
pub fn a_fault_does_nothing_to_keys()
    ensures server { (world : World) (id : ServerCmd) (words : List (List ℕ)) (text : List ℕ)
        → (server_row world id words).reply ≡ Reply.Fault text
        → ((server_row world id words).records ≡ []) × ((server_row world id words).draws ≡ 0) }
    ensures keys { (world : World) (id : KeyCmd) (words : List (List ℕ)) (text : List ℕ)
        → (key_row world id words).reply ≡ Reply.Fault text
        → ((key_row world id words).records ≡ []) × ((key_row world id words).draws ≡ 0) }
{}

/// Each command on keys and on the server has a row: with the fewest words that it takes, and so without options,
/// none is a syntax error.
pub fn each_command_on_keys_has_a_row()
    ensures server { (world : World) (id : ServerCmd) (words : List (List ℕ))
        → length words ≡ (command (CmdId.Server id)).least
        → (server_row world id words).reply ≢ Reply.Fault (refusal_text Refusal.Syntax) }
    ensures keys { (world : World) (id : KeyCmd) (words : List (List ℕ))
        → length words ≡ (command (CmdId.Keys id)).least
        → (key_row world id words).reply ≢ Reply.Fault (refusal_text Refusal.Syntax) }
{}
