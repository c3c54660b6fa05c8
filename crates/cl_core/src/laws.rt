ghost use Rattle.std.specs.Prelude.{◌≡◌, ◌++◌, ℕ, ◌≤◌, List, fold};
ghost use Rattle.std.specs.List.{AllByRecursion};
ghost use Rattle.rs_outside.specs.declared.turn.Turn.{Turn};
ghost use Rattle.rs_outside.specs.declared.turn.What.TheVariants.{Piece};
ghost use Rattle.fx_record.specs.Records.{apply};
ghost use Rattle.fx_log.specs.Groups.{IsGroup};
ghost use Rattle.fx_log.specs.Dump.{records_in};
ghost use Rattle.cl_core.specs.Machine.{State, Run, beginning, step, with_turn, run_from};
ghost use Rattle.cl_core.specs.Valid.{IsValid};
ghost use Rattle.cl_core.specs.History.{IsHistory};

use cmd_exec::commands_keep_the_world;
use ks_space::purge_removes_the_keys_past_their_deadline;
use resp_read::reading_is_the_grammar;

/// The law of what stays: at the beginning and behind every turn no more clients are open than may be, the bytes that
/// are left of each hold no whole form and no bad place, the store is within its limits, no deadline in it is below
/// the time, and the time does not fall.
pub fn turns_keep_validity()
    ensures beginning { IsValid beginning }
    ensures turns { (state : State) (turn : Turn) → IsValid state → IsValid (step state turn).state }
    ensures time { (state : State) (turn : Turn) → state.time ≤ (step state turn).state.time }
{
    reading_is_the_grammar();
    commands_keep_the_world();
}

/// The law of cutting: bytes that come in one piece do just what they do in two, one behind the other at the same
/// clock, where the draws of the second turn go on from those of the first.
pub fn cutting_is_free()
    ensures { (run : Run) (clock word client : ℕ) (a b : List ℕ) → IsValid run.state
        → let first = with_turn run (record { clock = clock; word = word; client = client; what = Piece a }) in
        with_turn run (record { clock = clock; word = word; client = client; what = Piece (a ++ b) })
        ≡ with_turn first (record { clock = clock; word = first.state.draws; client = client; what = Piece b }) }
{
    turns_keep_validity();
    reading_is_the_grammar();
    purge_removes_the_keys_past_their_deadline();
}

/// The law of the reference machine in a user's words, for all turns from the beginning: what happens is told by the
/// bytes of the clients alone. The keys whose deadline is past leave at the beginning of each turn, and each command
/// answers, does and logs what it does on the world that all events before it left, in the order in which the
/// commands became whole.
pub fn store_follows_history()
    ensures { (turns : List Turn) → IsHistory (run_from beginning turns) turns }
{}

/// The law of the log: the groups of any turns from any state lead from its store to theirs, record by record, and
/// each can be written and read back where that state is valid: it has a record or more, and exactly one where it is
/// not wrapped, within the limits of commands.
pub fn log_gives_the_store()
    ensures leads { (state : State) (turns : List Turn)
        → (run_from state turns).state.store ≡ fold apply state.store (records_in (run_from state turns).groups) }
    ensures groups { (state : State) (turns : List Turn) → IsValid state
        → AllByRecursion IsGroup (run_from state turns).groups }
{
    commands_keep_the_world();
    purge_removes_the_keys_past_their_deadline();
}
