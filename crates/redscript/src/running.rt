ghost use Rattle.std.specs.Prelude.{◌≡◌, ◌⊎◌, ◌↔◌, ◌<◌, ◌≤◌, ℕ, List, length, Some};
ghost use Rattle.rs_outside.specs.Faults.{Rose};
ghost use Rattle.rs_outside.specs.declared.status.Status.{Status};
ghost use Rattle.rs_outside.specs.declared.turn.Turn.{Turn};
ghost use Rattle.srv_loop.specs.Session.{IsSession, IsBadLine};
ghost use Rattle.fx_log.specs.declared.stops.LogKind.{LogKind};
ghost use Rattle.fx_log.specs.Logs.{IsBadLog, HasBadPlace};
ghost use Rattle.redscript.specs.declared.reading.TheConstants.{MAX_INPUT_BYTES};
ghost use Rattle.redscript.specs.declared.replaying.TheConstants.{MAX_LOG_BYTES};
ghost use Rattle.redscript.specs.Run.{IsPlay, IsReplay, HasNoForm, PlaysToEnd, ReplaysToEnd, FindsBad, FindsBadLog};
ghost use Rattle.redscript.specs.Run.{PassesLimit, PassesLogLimit, IsRefusal, IsRunStatus, IsReplayStatus, StopsRun};
ghost use Rattle.redscript.specs.Run.{up_to_limit};

use crate::forms::{Form, form_of};
use crate::reading::read_all;
use crate::replaying::replay;
use rs_base::Words;
use rs_outside::{Log, Sink, Source, Status, Wire};
use srv_loop::play;
use std::alloc::Global;

/// Runs the program on the words of its command line, without its own name.
///
/// `play LOG`, where LOG is not empty, reads a session from `input` to its end, judges all of its lines, begins the log
/// under the name LOG, takes the turns, and writes, for many turns at a time, their bytes to `log` and then their
/// lines of the transcript to `out`, and at last the count of turns, keys and log bytes and the dump of the store.
///
/// `replay` reads an effect log from `input` to its end, carries out its whole groups on an empty store, and writes to
/// `out` the count of groups and keys and the dump of the store. It calls nothing of `log`.
pub fn run<W: Wire, S: Source, O: Sink, L: Log>(
    alloc: Global,
    words: &Words,
    wire: &mut W,
    input: &mut S,
    out: &mut O,
    log: &mut L,
) -> Status
    // The input was read to its end. For `play` it is a session; the log has the bytes of its turns, the output their
    // transcript. For `replay` it is a log, and the output has the count and the store of its groups.
    ensures done { result ≡ Status.Done → PlaysToEnd words.now (S.left input.old) (S.left input.new)
        (L.begun log.old) (L.begun log.new) (L.taken log.old) (L.taken log.new) (O.taken out.old) (O.taken out.new)
        ⊎ ReplaysToEnd words.now (S.left input.old) (S.left input.new) (O.taken out.old) (O.taken out.new) }

    // The words are no command line of the program, exactly then, and nothing was touched.
    ensures usage { (result ≡ Status.Usage) ↔ HasNoForm words.now }
    ensures usage_keeps { result ≡ Status.Usage → (input.new ≡ input.old) × (out.new ≡ out.old) × (log.new ≡ log.old) }

    // The input of `play` was read to its end, and this line is the first that is no session line; that of `replay` has
    // its first bad place here.
    ensures bad_input { (line : ℕ) → result ≡ Status.BadInput line
        → FindsBad words.now (S.left input.old) (S.left input.new) line }
    ensures bad_log { (place : ℕ) → result ≡ Status.BadLog place → IsReplay words.now
        × FindsBadLog (S.left input.old) (S.left input.new) place }
    ensures too_long { (bytes : ℕ) → result ≡ Status.InputTooLong bytes
        → ((name : List ℕ) × IsPlay words.now name × (bytes ≡ MAX_INPUT_BYTES)
        × PassesLimit (S.left input.old) (S.left input.new))
        ⊎ (IsReplay words.now × (bytes ≡ MAX_LOG_BYTES) × PassesLogLimit (S.left input.old) (S.left input.new)) }
    ensures refused_keeps { IsRefusal result → (log.new ≡ log.old) × (out.new ≡ out.old) }

    // The wire is not asked, so none of its statuses is answered; a replay does not ask the log either.
    ensures others { IsRunStatus result }
    ensures replay_status { IsReplay words.now → IsReplayStatus result }

    // A fault is answered only where that object's count rose in this call.
    ensures source_fault { result ≡ Status.SourceFault → Rose (S.faults input.old) (S.faults input.new) }
    ensures sink_fault { result ≡ Status.SinkFault → Rose (O.faults out.old) (O.faults out.new) }
    ensures log_fault { result ≡ Status.LogFault → Rose (L.faults log.old) (L.faults log.new) }
    ensures source_later { S.faults input.old ≤ S.faults input.new }
    ensures sink_later { O.faults out.old ≤ O.faults out.new }
    ensures log_later { L.faults log.old ≤ L.faults log.new }

    // What an input that is told gets: a session is played, a bad line is found, and the limit is kept.
    ensures plays_session { (text name : List ℕ) (turns : List Turn) → S.left input.old ≡ Some text
        → IsPlay words.now name
        → length text ≤ MAX_INPUT_BYTES → IsSession text turns
        → (result ≡ Status.Done) ⊎ (result ≡ Status.NoMemory) ⊎ Rose (S.faults input.old) (S.faults input.new)
        ⊎ Rose (O.faults out.old) (O.faults out.new) ⊎ Rose (L.faults log.old) (L.faults log.new) }
    ensures finds_bad { (text name : List ℕ) (line : ℕ) → S.left input.old ≡ Some text → IsPlay words.now name
        → length text ≤ MAX_INPUT_BYTES → IsBadLine text line
        → (result ≡ Status.BadInput line) ⊎ (result ≡ Status.NoMemory)
        ⊎ Rose (S.faults input.old) (S.faults input.new) }
    ensures keeps_limit { (text name : List ℕ) → S.left input.old ≡ Some text → IsPlay words.now name
        → MAX_INPUT_BYTES < length text
        → (result ≡ Status.InputTooLong MAX_INPUT_BYTES) ⊎ (result ≡ Status.NoMemory)
        ⊎ Rose (S.faults input.old) (S.faults input.new) }

    // The same for `replay`, of which a bad place up to the limit comes before the limit.
    ensures replays_log { (text : List ℕ) → S.left input.old ≡ Some text → IsReplay words.now
        → length text ≤ MAX_LOG_BYTES → (HasBadPlace text → ⊥)
        → (result ≡ Status.Done) ⊎ (result ≡ Status.NoMemory) ⊎ Rose (S.faults input.old) (S.faults input.new)
        ⊎ Rose (O.faults out.old) (O.faults out.new) }
    ensures finds_bad_log { (text : List ℕ) (place : ℕ) (kind : LogKind) → S.left input.old ≡ Some text
        → IsReplay words.now
        → IsBadLog (up_to_limit text) place kind
        → (result ≡ Status.BadLog place) ⊎ (result ≡ Status.NoMemory) ⊎ Rose (S.faults input.old) (S.faults input.new) }
    ensures keeps_log_limit { (text : List ℕ) → S.left input.old ≡ Some text → IsReplay words.now
        → MAX_LOG_BYTES < length text → (HasBadPlace (up_to_limit text) → ⊥)
        → (result ≡ Status.InputTooLong MAX_LOG_BYTES) ⊎ (result ≡ Status.NoMemory)
        ⊎ Rose (S.faults input.old) (S.faults input.new) }

    // Wherever the run ended: nothing was begun or taken, or the input was read to its end and what is written of it
    // was written up to somewhere.
    ensures anywhere { StopsRun words.now (S.left input.old) (S.left input.new)
        (L.begun log.old) (L.begun log.new) (L.taken log.old) (L.taken log.new) (O.taken out.old) (O.taken out.new) }
    ensures wire { wire.new ≡ wire.old }
    ensures replay_keeps_log { IsReplay words.now → log.new ≡ log.old }
{
    match form_of(words) {
        None => Status::Usage,
        Some(Form::Play(name)) => {
            let session = match read_all(alloc, input) {
                Ok(session) => session,
                Err(status) => return status,
            };
            play(alloc, &session, name, out, log)
        }
        Some(Form::Replay) => replay(alloc, input, out),
    }
}
