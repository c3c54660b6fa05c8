ghost use Rattle.std.specs.Prelude.{◌≡◌, ◌≢◌, ℕ, ℤ, ◌+ℤ◌, ◌-ℤ◌, pos, ◌<◌, ◌≤◌, true, false, List, [], ◌∷◌, ◌++◌};
ghost use Rattle.std.specs.Prelude.{Option, Some, None, Ok, Err, codes, unwrap_or, length, Contains};
ghost use Rattle.std.specs.List.{AllByRecursion};
ghost use Rattle.std.specs.FinMap as finite;
ghost use Rattle.rs_whole.specs.Integers.{integer_text};
ghost use Rattle.resp_reply.specs.declared.reply.Reply.{Reply};
ghost use Rattle.ks_space.specs.declared.entry.Entry.{Entry};
ghost use Rattle.ks_space.specs.declared.entry.Value.{Value};
ghost use Rattle.ks_space.specs.Store.{IsShort, deadline_at};
ghost use Rattle.fx_record.specs.declared.record.Record.{Record};
ghost use Rattle.cmd_args.specs.declared.commands.CmdId.{CmdId};
ghost use Rattle.cmd_args.specs.declared.commands.StringCmd.{StringCmd};
ghost use Rattle.cmd_args.specs.declared.refusal.Refusal.{Refusal};
ghost use Rattle.cmd_args.specs.Keys.{keys_named};
ghost use Rattle.cmd_args.specs.Refusals.{refusal_text};
ghost use Rattle.cmd_args.specs.Table.{string_command};
ghost use Rattle.cmd_rows.specs.declared.times.Expiry.{Expiry};
ghost use Rattle.cmd_rows.specs.Bounds.{AreTimelyWithin};
ghost use Rattle.cmd_rows.specs.Numbers.{number, is_within_64};
ghost use Rattle.cmd_rows.specs.Outcomes.{answers, array, refused};
ghost use Rattle.cmd_rows.specs.Strings.{string_at, bulk_or_null};
ghost use Rattle.cmd_rows.specs.Times.{deadline};
ghost use Rattle.cmd_rows.specs.Worlds.{World};
ghost use Rattle.cmd_string.specs.Ranges.{written_over};
ghost use Rattle.cmd_string.specs.declared.getex.Change.{Change};
ghost use Rattle.cmd_string.specs.declared.options.SetOptions.{SetOptions};
ghost use Rattle.cmd_string.specs.Options.{set_options, set_effect, getex_change};
ghost use Rattle.cmd_string.specs.StringLaws.{after, Gives, IsOtherKind, expiry_word};
ghost use Rattle.cmd_string.specs.StringRows.{integer_at};
ghost use Rattle.cmd_string.specs.StringRows.{string_row};

/// What a command on strings does is within the limits of a store, and gives no deadline that is past.
pub fn string_records_are_within()
    ensures { (world : World) (id : StringCmd) (words : List (List ℕ)) → AllByRecursion IsShort words
        → AreTimelyWithin world.time (string_row world id words).records }
{}

/// A command on strings leaves each key that it does not name as it was: with its value and its deadline, or absent.
/// What it names goes by the places of its words: `SET k v` names `k` alone, also where another key is `v`.
pub fn other_keys_stay()
    ensures { (world : World) (id : StringCmd) (words : List (List ℕ)) (other : List ℕ)
        → ¬ (Contains (keys_named (CmdId.Strings id) words) other)
        → finite.get (after world id words) other ≡ finite.get world.store other }
{}

/// GETDEL and GETEX answer the string. After GETDEL the key does not exist. GETEX gives a string the deadline that it
/// is asked for, takes it away with PERSIST, and leaves it without an option; the string stays, unless the deadline
/// is not past the time: then the key does not exist. GETEX of a key that does not exist changes nothing.
pub fn getdel_and_getex()
    ensures getdel { (world : World) (name key : List ℕ) (text : Option (List ℕ)) → string_at world.store key ≡ Ok text
        → ((string_row world StringCmd.GetDel (name ∷ key ∷ [])).reply ≡ bulk_or_null text)
        × (finite.get (after world StringCmd.GetDel (name ∷ key ∷ [])) key ≡ None) }
    ensures getex { (world : World) (name key : List ℕ) (words : List (List ℕ)) (text : Option (List ℕ))
        (change : Change) → string_at world.store key ≡ Ok text
        → getex_change world.time words ≡ Ok change
        → (string_row world StringCmd.GetEx (name ∷ key ∷ words)).reply ≡ bulk_or_null text }
    ensures plain { (world : World) (name key text : List ℕ) → string_at world.store key ≡ Ok (Some text)
        → after world StringCmd.GetEx (name ∷ key ∷ []) ≡ world.store }
    ensures persist { (world : World) (name key text : List ℕ) → string_at world.store key ≡ Ok (Some text)
        → Gives (after world StringCmd.GetEx (name ∷ key ∷ codes "PERSIST" ∷ [])) key text None }
    ensures until { (world : World) (name key text : List ℕ) (kind : Expiry) (word : List ℕ) (n : ℤ) (at : ℕ)
        → string_at world.store key ≡ Ok (Some text) → number word ≡ Ok n
        → deadline (CmdId.Strings StringCmd.GetEx) kind world.time n ≡ Ok at → world.time < at
        → Gives (after world StringCmd.GetEx (name ∷ key ∷ expiry_word kind ∷ word ∷ [])) key text (Some at) }
    ensures past { (world : World) (name key text : List ℕ) (kind : Expiry) (word : List ℕ) (n : ℤ) (at : ℕ)
        → string_at world.store key ≡ Ok (Some text) → number word ≡ Ok n
        → deadline (CmdId.Strings StringCmd.GetEx) kind world.time n ≡ Ok at → at ≤ world.time
        → finite.get (after world StringCmd.GetEx (name ∷ key ∷ expiry_word kind ∷ word ∷ [])) key ≡ None }
    ensures absent { (world : World) (name key : List ℕ) (words : List (List ℕ)) → finite.get world.store key ≡ None
        → after world StringCmd.GetEx (name ∷ key ∷ words) ≡ world.store }
{}

/// After APPEND a GET gives the old string and the value behind it, and after SETRANGE the old string with the value
/// in it. The key keeps the deadline that it had, and the reply is the length. An APPEND that would make more than
/// 16,777,216 bytes is refused; SETRANGE without a value changes nothing.
pub fn strings_grow()
    ensures append { (world : World) (name key value : List ℕ) (old : Option (List ℕ))
        → string_at world.store key ≡ Ok old → IsShort (unwrap_or old [] ++ value)
        → ((string_row world StringCmd.Append (name ∷ key ∷ value ∷ [])).reply
        ≡ Reply.Int (pos (length (unwrap_or old [] ++ value))))
        × Gives (after world StringCmd.Append (name ∷ key ∷ value ∷ [])) key (unwrap_or old [] ++ value)
        (deadline_at world.store key) }
    ensures setrange { (world : World) (name key word value : List ℕ) (offset : ℕ) (old : Option (List ℕ))
        → string_at world.store key ≡ Ok old → number word ≡ Ok (pos offset)
        → value ≢ [] → IsShort (written_over (unwrap_or old []) offset value)
        → ((string_row world StringCmd.SetRange (name ∷ key ∷ word ∷ value ∷ [])).reply
        ≡ Reply.Int (pos (length (written_over (unwrap_or old []) offset value))))
        × Gives (after world StringCmd.SetRange (name ∷ key ∷ word ∷ value ∷ [])) key
        (written_over (unwrap_or old []) offset value) (deadline_at world.store key) }
    ensures too_long { (world : World) (name key value : List ℕ) (old : Option (List ℕ))
        → string_at world.store key ≡ Ok old → 16777216 < length (unwrap_or old [] ++ value)
        → string_row world StringCmd.Append (name ∷ key ∷ value ∷ []) ≡ refused Refusal.TooLong }
    ensures no_value { (world : World) (name key word : List ℕ) (offset : ℕ) (old : Option (List ℕ))
        → string_at world.store key ≡ Ok old → number word ≡ Ok (pos offset)
        → after world StringCmd.SetRange (name ∷ key ∷ word ∷ [] ∷ []) ≡ world.store }
{}

/// INCR adds 1, INCRBY its number, DECR and DECRBY subtract 1 and the number, in 64 bits: the reply says the result,
/// and after it a GET gives its digits. The key keeps the deadline that it had. An absent key counts as 0. Past 64 bits
/// they are refused, and so is a string that is no integer.
pub fn integers_are_counted()
    ensures incr { (world : World) (name key : List ℕ) (m : ℤ) → integer_at world.store key ≡ Ok m
        → is_within_64 (m +ℤ pos 1) ≡ true
        → ((string_row world StringCmd.Incr (name ∷ key ∷ [])).reply ≡ Reply.Int (m +ℤ pos 1))
        × Gives (after world StringCmd.Incr (name ∷ key ∷ [])) key (integer_text (m +ℤ pos 1))
        (deadline_at world.store key) }
    ensures decr { (world : World) (name key : List ℕ) (m : ℤ) → integer_at world.store key ≡ Ok m
        → is_within_64 (m -ℤ pos 1) ≡ true
        → ((string_row world StringCmd.Decr (name ∷ key ∷ [])).reply ≡ Reply.Int (m -ℤ pos 1))
        × Gives (after world StringCmd.Decr (name ∷ key ∷ [])) key (integer_text (m -ℤ pos 1))
        (deadline_at world.store key) }
    ensures incrby { (world : World) (name key word : List ℕ) (m n : ℤ) → integer_at world.store key ≡ Ok m
        → number word ≡ Ok n → is_within_64 (m +ℤ n) ≡ true
        → ((string_row world StringCmd.IncrBy (name ∷ key ∷ word ∷ [])).reply ≡ Reply.Int (m +ℤ n))
        × Gives (after world StringCmd.IncrBy (name ∷ key ∷ word ∷ [])) key (integer_text (m +ℤ n))
        (deadline_at world.store key) }
    ensures decrby { (world : World) (name key word : List ℕ) (m n : ℤ) → integer_at world.store key ≡ Ok m
        → number word ≡ Ok n → is_within_64 (m -ℤ n) ≡ true
        → ((string_row world StringCmd.DecrBy (name ∷ key ∷ word ∷ [])).reply ≡ Reply.Int (m -ℤ n))
        × Gives (after world StringCmd.DecrBy (name ∷ key ∷ word ∷ [])) key (integer_text (m -ℤ n))
        (deadline_at world.store key) }
    ensures incr_overflow { (world : World) (name key : List ℕ) (m : ℤ) → integer_at world.store key ≡ Ok m
        → is_within_64 (m +ℤ pos 1) ≡ false
        → string_row world StringCmd.Incr (name ∷ key ∷ []) ≡ refused Refusal.Overflow }
    ensures decr_underflow { (world : World) (name key : List ℕ) (m : ℤ) → integer_at world.store key ≡ Ok m
        → is_within_64 (m -ℤ pos 1) ≡ false
        → string_row world StringCmd.Decr (name ∷ key ∷ []) ≡ refused Refusal.Overflow }
    ensures incrby_overflow { (world : World) (name key word : List ℕ) (m n : ℤ) → integer_at world.store key ≡ Ok m
        → number word ≡ Ok n → is_within_64 (m +ℤ n) ≡ false
        → string_row world StringCmd.IncrBy (name ∷ key ∷ word ∷ []) ≡ refused Refusal.Overflow }
    ensures decrby_underflow { (world : World) (name key word : List ℕ) (m n : ℤ) → integer_at world.store key ≡ Ok m
        → number word ≡ Ok n → is_within_64 (m -ℤ n) ≡ false
        → string_row world StringCmd.DecrBy (name ∷ key ∷ word ∷ []) ≡ refused Refusal.Overflow }
    ensures absent { (world : World) (key : List ℕ) → finite.get world.store key ≡ None
        → integer_at world.store key ≡ Ok (pos 0) }
    ensures integer { (world : World) (key text : List ℕ) (n : ℤ) → string_at world.store key ≡ Ok (Some text)
        → number text ≡ Ok n → integer_at world.store key ≡ Ok n }
    ensures no_integer { (world : World) (name key text : List ℕ) → string_at world.store key ≡ Ok (Some text)
        → number text ≡ Err Refusal.NotInteger
        → (string_row world StringCmd.Incr (name ∷ key ∷ []) ≡ refused Refusal.NotInteger)
        × (string_row world StringCmd.Decr (name ∷ key ∷ []) ≡ refused Refusal.NotInteger) }
    ensures no_integer_by { (world : World) (name key word text : List ℕ) (n : ℤ) → number word ≡ Ok n
        → string_at world.store key ≡ Ok (Some text) → number text ≡ Err Refusal.NotInteger
        → (string_row world StringCmd.IncrBy (name ∷ key ∷ word ∷ []) ≡ refused Refusal.NotInteger)
        × (string_row world StringCmd.DecrBy (name ∷ key ∷ word ∷ []) ≡ refused Refusal.NotInteger) }
{}

/// GET answers the string of a key, and null for a key that does not exist. STRLEN answers how many bytes it has, and 0
/// for a key that does not exist. MGET answers for each key, in their order, its string, or null where it holds none.
pub fn strings_are_read()
    ensures get { (world : World) (name key text : List ℕ) (entry : Entry)
        → finite.get world.store key ≡ Some entry → entry.value ≡ Value.Str text
        → string_row world StringCmd.Get (name ∷ key ∷ []) ≡ answers (Reply.Bulk text) }
    ensures get_absent { (world : World) (name key : List ℕ) → finite.get world.store key ≡ None
        → string_row world StringCmd.Get (name ∷ key ∷ []) ≡ answers Reply.NullBulk }
    ensures strlen { (world : World) (name key text : List ℕ) (entry : Entry)
        → finite.get world.store key ≡ Some entry → entry.value ≡ Value.Str text
        → string_row world StringCmd.StrLen (name ∷ key ∷ []) ≡ answers (Reply.Int (pos (length text))) }
    ensures strlen_absent { (world : World) (name key : List ℕ) → finite.get world.store key ≡ None
        → string_row world StringCmd.StrLen (name ∷ key ∷ []) ≡ answers (Reply.Int (pos 0)) }
    ensures mget_of_none { (world : World) (name : List ℕ)
        → string_row world StringCmd.MGet (name ∷ []) ≡ answers (array []) }
    ensures mget { (world : World) (name key text : List ℕ) (keys : List (List ℕ)) (entry : Entry)
        → finite.get world.store key ≡ Some entry → entry.value ≡ Value.Str text
        → (others : List Reply) × (string_row world StringCmd.MGet (name ∷ keys) ≡ answers (array others))
        × (string_row world StringCmd.MGet (name ∷ key ∷ keys) ≡ answers (array (Reply.Bulk text ∷ others))) }
    ensures mget_absent { (world : World) (name key : List ℕ) (keys : List (List ℕ))
        → finite.get world.store key ≡ None
        → (others : List Reply) × (string_row world StringCmd.MGet (name ∷ keys) ≡ answers (array others))
        × (string_row world StringCmd.MGet (name ∷ key ∷ keys) ≡ answers (array (Reply.NullBulk ∷ others))) }
    ensures mget_other_kind { (world : World) (name key : List ℕ) (keys : List (List ℕ))
        → IsOtherKind world.store key
        → (others : List Reply) × (string_row world StringCmd.MGet (name ∷ keys) ≡ answers (array others))
        × (string_row world StringCmd.MGet (name ∷ key ∷ keys) ≡ answers (array (Reply.NullBulk ∷ others))) }
{}

/// A command that wants a string is refused where the key holds a value of another kind, and leaves it as it was: so is
/// SET with GET. Where a word is refused too, as one that is no integer, that comes first.
pub fn another_kind_is_refused()
    ensures get { (world : World) (name key : List ℕ) → IsOtherKind world.store key
        → string_row world StringCmd.Get (name ∷ key ∷ []) ≡ refused Refusal.WrongType }
    ensures strlen { (world : World) (name key : List ℕ) → IsOtherKind world.store key
        → string_row world StringCmd.StrLen (name ∷ key ∷ []) ≡ refused Refusal.WrongType }
    ensures getrange { (world : World) (name key start end : List ℕ) (first last : ℤ) → IsOtherKind world.store key
        → number start ≡ Ok first → number end ≡ Ok last
        → string_row world StringCmd.GetRange (name ∷ key ∷ start ∷ end ∷ []) ≡ refused Refusal.WrongType }
    ensures set_get { (world : World) (name key value : List ℕ) (words : List (List ℕ)) (options : SetOptions)
        (effect : Record) → IsOtherKind world.store key
        → set_options words ≡ Ok options → options.get ≡ true
        → set_effect world.time key value options.lasting ≡ Ok effect
        → string_row world StringCmd.Set (name ∷ key ∷ value ∷ words) ≡ refused Refusal.WrongType }
    ensures getset { (world : World) (name key value : List ℕ) → IsOtherKind world.store key
        → string_row world StringCmd.GetSet (name ∷ key ∷ value ∷ []) ≡ refused Refusal.WrongType }
    ensures getdel { (world : World) (name key : List ℕ) → IsOtherKind world.store key
        → string_row world StringCmd.GetDel (name ∷ key ∷ []) ≡ refused Refusal.WrongType }
    ensures getex { (world : World) (name key : List ℕ) (words : List (List ℕ)) (change : Change)
        → IsOtherKind world.store key → getex_change world.time words ≡ Ok change
        → string_row world StringCmd.GetEx (name ∷ key ∷ words) ≡ refused Refusal.WrongType }
    ensures append { (world : World) (name key value : List ℕ) → IsOtherKind world.store key
        → string_row world StringCmd.Append (name ∷ key ∷ value ∷ []) ≡ refused Refusal.WrongType }
    ensures setrange { (world : World) (name key word value : List ℕ) (offset : ℤ) → IsOtherKind world.store key
        → number word ≡ Ok offset
        → string_row world StringCmd.SetRange (name ∷ key ∷ word ∷ value ∷ []) ≡ refused Refusal.WrongType }
    ensures incr { (world : World) (name key : List ℕ) → IsOtherKind world.store key
        → string_row world StringCmd.Incr (name ∷ key ∷ []) ≡ refused Refusal.WrongType }
    ensures decr { (world : World) (name key : List ℕ) → IsOtherKind world.store key
        → string_row world StringCmd.Decr (name ∷ key ∷ []) ≡ refused Refusal.WrongType }
    ensures incrby { (world : World) (name key word : List ℕ) (n : ℤ) → IsOtherKind world.store key
        → number word ≡ Ok n
        → string_row world StringCmd.IncrBy (name ∷ key ∷ word ∷ []) ≡ refused Refusal.WrongType }
    ensures decrby { (world : World) (name key word : List ℕ) (n : ℤ) → IsOtherKind world.store key
        → number word ≡ Ok n
        → string_row world StringCmd.DecrBy (name ∷ key ∷ word ∷ []) ≡ refused Refusal.WrongType }
{}

/// A command on strings that answers a fault does nothing.
pub fn a_fault_does_nothing_to_strings()
    ensures { (world : World) (id : StringCmd) (words : List (List ℕ)) (text : List ℕ)
        → (string_row world id words).reply ≡ Reply.Fault text
        → ((string_row world id words).records ≡ []) × ((string_row world id words).draws ≡ 0) }
{}

/// Each command on strings has a row: with the fewest words that it takes, and so without options, none is a syntax
/// error.
pub fn each_command_on_strings_has_a_row()
    ensures { (world : World) (id : StringCmd) (words : List (List ℕ)) → length words ≡ (string_command id).least
        → (string_row world id words).reply ≢ Reply.Fault (refusal_text Refusal.Syntax) }
{}
