ghost use Rattle.std.specs.Prelude.{◌≡◌, ◌≢◌, ◌↔◌, ℕ, ◌≤◌, false, List, [], ◌∷◌, Some, None, length, Contains};
ghost use Rattle.std.specs.FinMap as finite;
ghost use Rattle.resp_reply.specs.declared.reply.Reply.{Reply};
ghost use Rattle.cmd_args.specs.declared.commands.CmdId.{CmdId};
ghost use Rattle.cmd_args.specs.declared.commands.ServerCmd.{ServerCmd};
ghost use Rattle.cmd_args.specs.declared.commands.Row.{Row};
ghost use Rattle.cmd_args.specs.declared.refusal.Refusal.{Refusal};
ghost use Rattle.cmd_args.specs.declared.turn.Mode.{Mode};
ghost use Rattle.cmd_args.specs.Keys.{keys_named};
ghost use Rattle.cmd_args.specs.Refusals.{refusal_text, shown};
ghost use Rattle.cmd_args.specs.Table.{row_named, fits};
ghost use Rattle.fx_record.specs.Records.{applied};
ghost use Rattle.cmd_rows.specs.Bounds.{AreTimelyWithin};
ghost use Rattle.cmd_rows.specs.Outcomes.{refused};
ghost use Rattle.cmd_rows.specs.Worlds.{World};
ghost use Rattle.cmd_exec.specs.Worlds.{IsWorld, begun, moved_by, empty_world};
ghost use Rattle.cmd_exec.specs.Exec.{reason, exec};

use cmd_keys::{
    a_fault_does_nothing_to_keys, each_command_on_keys_has_a_row, key_records_are_within,
};
use cmd_string::{
    a_fault_does_nothing_to_strings, each_command_on_strings_has_a_row, string_records_are_within,
};
use fx_record::{
    records_keep_to_the_limits, records_keep_to_the_time, settled_records_lead_to_the_same_store,
};

/// At the beginning of a turn and behind every command, the store is within its limits and no deadline in it is past.
/// The records of a command are within the limits, give no deadline that is past, and are none exactly where the
/// store stays the same.
pub fn commands_keep_the_world()
    ensures empty { IsWorld empty_world }
    ensures begun { (world : World) (clock word : ℕ) → IsWorld world → IsWorld (begun world clock word) }
    ensures command { (world : World) (mode : Mode) (words : List (List ℕ)) → IsWorld world
        → IsWorld (moved_by world (exec world mode words)) }
    ensures records { (world : World) (mode : Mode) (words : List (List ℕ)) → IsWorld world
        → AreTimelyWithin world.time (exec world mode words).records }
    ensures none { (world : World) (mode : Mode) (words : List (List ℕ))
        → ((exec world mode words).records ≡ []) ↔ (applied world.store (exec world mode words).records ≡ world.store) }
{
    string_records_are_within();
    key_records_are_within();
    records_keep_to_the_limits();
    records_keep_to_the_time();
    settled_records_lead_to_the_same_store();
}

/// A command whose reply is a fault does nothing: it has no records and takes no draws, and the world stays as it
/// was. Refused is one without a word, one that the table does not name, one with a number of words that it does not
/// take, and one that `reason` refuses for where it is called from, for what it may do there, or for its size.
pub fn a_refused_command_does_nothing()
    ensures nothing { (world : World) (mode : Mode) (words : List (List ℕ)) (text : List ℕ)
        → (exec world mode words).reply ≡ Reply.Fault text
        → ((exec world mode words).records ≡ []) × ((exec world mode words).draws ≡ 0)
        × (moved_by world (exec world mode words) ≡ world) }
    ensures no_word { (world : World) (mode : Mode) → exec world mode [] ≡ refused Refusal.NoWord }
    ensures unknown { (world : World) (mode : Mode) (name : List ℕ) (words : List (List ℕ)) → row_named name ≡ None
        → exec world mode (name ∷ words) ≡ refused (Refusal.UnknownCommand (shown name)) }
    ensures word_count { (world : World) (mode : Mode) (name : List ℕ) (words : List (List ℕ)) (row : Row)
        → row_named name ≡ Some row
        → fits row (name ∷ words) ≡ false
        → exec world mode (name ∷ words) ≡ refused (Refusal.WordCount row.id) }
    ensures reasons { (world : World) (mode : Mode) (name : List ℕ) (words : List (List ℕ)) (row : Row)
        (why : Refusal) → row_named name ≡ Some row
        → reason mode row (name ∷ words) ≡ Some why → exec world mode (name ∷ words) ≡ refused why }
{
    a_fault_does_nothing_to_strings();
    a_fault_does_nothing_to_keys();
}

/// Each command of the table has a row: with the fewest words that it takes, and so without options, none is a syntax
/// error. A command that clients alone may send, as QUIT, is the server's own and is refused here.
pub fn each_command_has_a_row()
    ensures { (world : World) (mode : Mode) (name : List ℕ) (words : List (List ℕ)) (row : Row)
        → row_named name ≡ Some row → length (name ∷ words) ≡ row.least
        → (exec world mode (name ∷ words)).reply ≢ Reply.Fault (refusal_text Refusal.Syntax) }
{
    each_command_on_strings_has_a_row();
    each_command_on_keys_has_a_row();
}

/// A command leaves every key that it does not name as it was, with its value and its deadline; only FLUSHALL and
/// FLUSHDB name none and take all. What a command names goes by the places of its words.
pub fn commands_leave_other_keys()
    ensures { (world : World) (mode : Mode) (name : List ℕ) (words : List (List ℕ)) (row : Row) (key : List ℕ)
        → row_named name ≡ Some row → row.id ≢ CmdId.Server ServerCmd.FlushAll
        → row.id ≢ CmdId.Server ServerCmd.FlushDb
        → ¬ (Contains (keys_named row.id (name ∷ words)) key)
        → finite.get (moved_by world (exec world mode (name ∷ words))).store key ≡ finite.get world.store key }
{
    cmd_string::other_keys_stay();
    cmd_keys::other_keys_stay();
    settled_records_lead_to_the_same_store();
}
