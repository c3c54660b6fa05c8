ghost use Rattle.std.specs.Prelude.{List};
ghost use Rattle.rs_outside.specs.declared.turn.Turn.{Turn};
ghost use Rattle.srv_loop.specs.Runs.{state, log_bytes};
ghost use Rattle.srv_loop.specs.Replaying.{ReplaysTo};

use cl_core::{log_gives_the_store, turns_keep_validity};
use fx_log::groups_are_read_back;

/// The log bytes of any turns from the beginning, replayed into an empty store, give the store that the turns leave.
pub fn log_replays()
    ensures { (turns : List Turn) → ReplaysTo (log_bytes turns) (state turns).store }
{
    turns_keep_validity();
    log_gives_the_store();
    groups_are_read_back();
}
