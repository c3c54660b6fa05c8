ghost use Rattle.std.specs.Prelude.{◌≡◌, ℕ, ℤ, pos, ◌<◌, ◌≤◌, true, false, List, [], ◌∷◌, Option, Some, None, Ok};
ghost use Rattle.std.specs.Prelude.{codes};
ghost use Rattle.std.specs.FinMap as finite;
ghost use Rattle.resp_reply.specs.declared.reply.Reply.{Reply};
ghost use Rattle.ks_space.specs.Store.{deadline_at};
ghost use Rattle.cmd_args.specs.declared.commands.CmdId.{CmdId};
ghost use Rattle.cmd_args.specs.declared.commands.StringCmd.{StringCmd};
ghost use Rattle.cmd_rows.specs.declared.times.Expiry.{Expiry};
ghost use Rattle.cmd_rows.specs.Numbers.{number};
ghost use Rattle.cmd_rows.specs.Outcomes.{answers, ok};
ghost use Rattle.cmd_rows.specs.Strings.{string_at, bulk_or_null};
ghost use Rattle.cmd_rows.specs.Times.{deadline};
ghost use Rattle.cmd_rows.specs.Worlds.{World};
ghost use Rattle.cmd_string.specs.declared.options.Lasting.{Lasting};
ghost use Rattle.cmd_string.specs.declared.options.SetOptions.{SetOptions};
ghost use Rattle.cmd_string.specs.Options.{set_options, is_met};
ghost use Rattle.cmd_string.specs.StringLaws.{after, Gives, Writes, written_reply, expiry_word, last_string};
ghost use Rattle.cmd_string.specs.StringRows.{has_any};
ghost use Rattle.cmd_string.specs.StringRows.{string_row};

/// After SET a GET gives the string. Without an option for it the key has no deadline, with KEEPTTL the one that it
/// had, and with EX, PX, EXAT or PXAT the one that its number gives; where that is not past the time, the key does
/// not exist.
pub fn set_then_get()
    ensures plain { (world : World) (name key value : List ℕ)
        → Gives (after world StringCmd.Set (name ∷ key ∷ value ∷ [])) key value None }
    ensures keepttl { (world : World) (name key value : List ℕ)
        → Gives (after world StringCmd.Set (name ∷ key ∷ value ∷ codes "KEEPTTL" ∷ [])) key value
        (deadline_at world.store key) }
    ensures until { (world : World) (name key value : List ℕ) (kind : Expiry) (word : List ℕ) (n : ℤ) (at : ℕ)
        → number word ≡ Ok n
        → deadline (CmdId.Strings StringCmd.Set) kind world.time n ≡ Ok at → world.time < at
        → Gives (after world StringCmd.Set (name ∷ key ∷ value ∷ expiry_word kind ∷ word ∷ [])) key value (Some at) }
    ensures past { (world : World) (name key value : List ℕ) (kind : Expiry) (word : List ℕ) (n : ℤ) (at : ℕ)
        → number word ≡ Ok n
        → deadline (CmdId.Strings StringCmd.Set) kind world.time n ≡ Ok at → at ≤ world.time
        → finite.get (after world StringCmd.Set (name ∷ key ∷ value ∷ expiry_word kind ∷ word ∷ [])) key ≡ None }
{}

/// SET with NX leaves a key that exists as it was, and SET with XX one that does not: they answer null. Else they set
/// the string, and answer OK. With GET the reply is the old string, and the key has the new one.
pub fn set_asks_first()
    ensures nx { (world : World) (name key value : List ℕ) → finite.contains_key world.store key ≡ true
        → string_row world StringCmd.Set (name ∷ key ∷ value ∷ codes "NX" ∷ []) ≡ answers Reply.NullBulk }
    ensures nx_writes { (world : World) (name key value : List ℕ) → finite.contains_key world.store key ≡ false
        → ((string_row world StringCmd.Set (name ∷ key ∷ value ∷ codes "NX" ∷ [])).reply ≡ ok)
        × Gives (after world StringCmd.Set (name ∷ key ∷ value ∷ codes "NX" ∷ [])) key value None }
    ensures xx { (world : World) (name key value : List ℕ) → finite.contains_key world.store key ≡ false
        → string_row world StringCmd.Set (name ∷ key ∷ value ∷ codes "XX" ∷ []) ≡ answers Reply.NullBulk }
    ensures xx_writes { (world : World) (name key value : List ℕ) → finite.contains_key world.store key ≡ true
        → ((string_row world StringCmd.Set (name ∷ key ∷ value ∷ codes "XX" ∷ [])).reply ≡ ok)
        × Gives (after world StringCmd.Set (name ∷ key ∷ value ∷ codes "XX" ∷ [])) key value None }
    ensures get { (world : World) (name key value : List ℕ) (old : Option (List ℕ))
        → string_at world.store key ≡ Ok old
        → ((string_row world StringCmd.Set (name ∷ key ∷ value ∷ codes "GET" ∷ [])).reply ≡ bulk_or_null old)
        × Gives (after world StringCmd.Set (name ∷ key ∷ value ∷ codes "GET" ∷ [])) key value None }
{}

/// SET with the options that its words give. Where NX and XX allow it, a GET gives the string after it; without an
/// option for it the key has no deadline, with KEEPTTL the one that it had, and with EX, PX, EXAT or PXAT the one
/// that its number gives; where that is not past the time, the key does not exist. The reply is OK, and with GET the
/// old string. Where NX or XX does not allow it, the store stays as it was.
pub fn set_does_as_its_options_say()
    ensures plain { (world : World) (name key value : List ℕ) (words : List (List ℕ)) (options : SetOptions)
        (old : Option (List ℕ))
        → Writes world.store key words options old → options.lasting ≡ None
        → ((string_row world StringCmd.Set (name ∷ key ∷ value ∷ words)).reply ≡ written_reply options old)
        × Gives (after world StringCmd.Set (name ∷ key ∷ value ∷ words)) key value None }
    ensures keepttl { (world : World) (name key value : List ℕ) (words : List (List ℕ)) (options : SetOptions)
        (old : Option (List ℕ))
        → Writes world.store key words options old → options.lasting ≡ Some Lasting.Keeping
        → ((string_row world StringCmd.Set (name ∷ key ∷ value ∷ words)).reply ≡ written_reply options old)
        × Gives (after world StringCmd.Set (name ∷ key ∷ value ∷ words)) key value (deadline_at world.store key) }
    ensures until { (world : World) (name key value : List ℕ) (words : List (List ℕ)) (options : SetOptions)
        (old : Option (List ℕ)) (kind : Expiry) (n : ℤ) (at : ℕ)
        → Writes world.store key words options old → options.lasting ≡ Some (Lasting.Until kind (Some n))
        → deadline (CmdId.Strings StringCmd.Set) kind world.time n ≡ Ok at → world.time < at
        → ((string_row world StringCmd.Set (name ∷ key ∷ value ∷ words)).reply ≡ written_reply options old)
        × Gives (after world StringCmd.Set (name ∷ key ∷ value ∷ words)) key value (Some at) }
    ensures past { (world : World) (name key value : List ℕ) (words : List (List ℕ)) (options : SetOptions)
        (old : Option (List ℕ)) (kind : Expiry) (n : ℤ) (at : ℕ)
        → Writes world.store key words options old → options.lasting ≡ Some (Lasting.Until kind (Some n))
        → deadline (CmdId.Strings StringCmd.Set) kind world.time n ≡ Ok at → at ≤ world.time
        → ((string_row world StringCmd.Set (name ∷ key ∷ value ∷ words)).reply ≡ written_reply options old)
        × (finite.get (after world StringCmd.Set (name ∷ key ∷ value ∷ words)) key ≡ None) }
    ensures skips { (world : World) (name key value : List ℕ) (words : List (List ℕ)) (options : SetOptions)
        → set_options words ≡ Ok options
        → is_met options.condition (finite.contains_key world.store key) ≡ false
        → after world StringCmd.Set (name ∷ key ∷ value ∷ words) ≡ world.store }
{}

/// SETNX of a key that did not exist answers 1, and GETSET the old string: after them a GET gives the new one, and the
/// key has no deadline. SETNX of a key that exists does nothing, and answers 0. After SETEX and PSETEX a GET gives the
/// string until the deadline, which SETEX counts in seconds and PSETEX in milliseconds.
pub fn other_sets_then_get()
    ensures setnx { (world : World) (name key value : List ℕ) → finite.contains_key world.store key ≡ false
        → ((string_row world StringCmd.SetNx (name ∷ key ∷ value ∷ [])).reply ≡ Reply.Int (pos 1))
        × Gives (after world StringCmd.SetNx (name ∷ key ∷ value ∷ [])) key value None }
    ensures setnx_there { (world : World) (name key value : List ℕ) → finite.contains_key world.store key ≡ true
        → string_row world StringCmd.SetNx (name ∷ key ∷ value ∷ []) ≡ answers (Reply.Int (pos 0)) }
    ensures getset { (world : World) (name key value : List ℕ) (old : Option (List ℕ))
        → string_at world.store key ≡ Ok old
        → ((string_row world StringCmd.GetSet (name ∷ key ∷ value ∷ [])).reply ≡ bulk_or_null old)
        × Gives (after world StringCmd.GetSet (name ∷ key ∷ value ∷ [])) key value None }
    ensures setex { (world : World) (name key time value : List ℕ) (n : ℤ) (at : ℕ) → number time ≡ Ok n
        → deadline (CmdId.Strings StringCmd.SetEx) Expiry.InSeconds world.time n ≡ Ok at → world.time < at
        → Gives (after world StringCmd.SetEx (name ∷ key ∷ time ∷ value ∷ [])) key value (Some at) }
    ensures psetex { (world : World) (name key time value : List ℕ) (n : ℤ) (at : ℕ) → number time ≡ Ok n
        → deadline (CmdId.Strings StringCmd.PSetEx) Expiry.InMillis world.time n ≡ Ok at → world.time < at
        → Gives (after world StringCmd.PSetEx (name ∷ key ∷ time ∷ value ∷ [])) key value (Some at) }
{}

/// After MSET a GET of each key gives the string of its last pair, and the key has no deadline. So it is after MSETNX
/// where none of the keys existed; where one does, nothing is set. MSET answers OK, and MSETNX 1 or 0.
pub fn mset_then_get()
    ensures mset { (world : World) (name key value : List ℕ) (pairs : List (List ℕ))
        → last_string key pairs ≡ Some value
        → ((string_row world StringCmd.MSet (name ∷ pairs)).reply ≡ ok)
        × Gives (after world StringCmd.MSet (name ∷ pairs)) key value None }
    ensures msetnx { (world : World) (name key value : List ℕ) (pairs : List (List ℕ))
        → has_any world.store pairs ≡ false
        → last_string key pairs ≡ Some value
        → ((string_row world StringCmd.MSetNx (name ∷ pairs)).reply ≡ Reply.Int (pos 1))
        × Gives (after world StringCmd.MSetNx (name ∷ pairs)) key value None }
    ensures msetnx_there { (world : World) (name : List ℕ) (pairs : List (List ℕ))
        → has_any world.store pairs ≡ true
        → string_row world StringCmd.MSetNx (name ∷ pairs) ≡ answers (Reply.Int (pos 0)) }
{}
