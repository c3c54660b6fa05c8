ghost use Rattle.std.specs.Prelude.{◌≡◌, ◌⊎◌, ℕ, ◌≤◌, List, OnOk, IfErr, IsErrAnd};
ghost use Rattle.rs_outside.specs.declared.status.Status.{Status};
ghost use Rattle.rs_outside.specs.Faults.{Rose};
ghost use Rattle.rs_outside.specs.Known.{known_then};
ghost use Rattle.rs_outside.specs.declared.turn.Turn.{Turn};
ghost use Rattle.srv_loop.specs.Session.{IsSession, IsBadLine};
ghost use Rattle.srv_loop.specs.Runs.{log_bytes};
ghost use Rattle.srv_loop.specs.Transcript.{transcript, ending};
ghost use Rattle.srv_loop.specs.Taking.{TookPrefix};
ghost use Rattle.srv_loop.specs.Play.{Plays, CutsPlay, StopsAnywhere, IsPlayStatus};
ghost use Rattle.srv_loop.specs.Stops.{Stops, Never};

use crate::gathering::Gathered;
use crate::laws::log_replays;
use crate::session::read_session;
use crate::transcript::put_ending;
use crate::writing::{begin, write_out};
use cl_core::Server;
use rs_base::Bytes;
use rs_outside::{Log, Sink, Status, Turns};
use std::alloc::Global;

/// Plays a session: judges all of its lines, begins the log under `name`, takes the turns, and writes the transcript to
/// `out`. Each turn's log bytes are written before its lines of the transcript, those of many turns at a time.
///
/// The status is `Done`; `BadInput` with the first line that is no session line, where nothing was written and no log
/// begun; `LogFault` or `SinkFault` where that object failed; or `NoMemory`. After a fault or `NoMemory` the log has a
/// prefix of the turns' log bytes, and the output a prefix of the transcript with no line of a turn whose log bytes are
/// not whole.
pub fn play<O: Sink, L: Log>(
    alloc: Global,
    session: &Bytes,
    name: &[u8],
    out: &mut O,
    log: &mut L,
) -> Status
    ensures done { result ≡ Status.Done → (turns : List Turn) × IsSession session.now turns
        × Plays name.now turns (L.begun log.old) (L.begun log.new) (L.taken log.old) (L.taken log.new)
        (O.taken out.old) (O.taken out.new) }
    ensures done_only { (turns : List Turn) → IsSession session.now turns → result ≡ Status.Done
        → Plays name.now turns (L.begun log.old) (L.begun log.new) (L.taken log.old) (L.taken log.new)
        (O.taken out.old) (O.taken out.new) }

    // A bad line is found, and no session is found bad.
    ensures bad { (line : ℕ) → result ≡ Status.BadInput line → IsBadLine session.now line × (log.new ≡ log.old)
        × (out.new ≡ out.old) }
    ensures bad_only { (line : ℕ) → IsBadLine session.now line → (result ≡ Status.BadInput line)
        ⊎ (result ≡ Status.NoMemory) }
    ensures good_only { (turns : List Turn) (line : ℕ) → IsSession session.now turns → result ≡ Status.BadInput line
        → ⊥ }

    // A fault is answered only where that object's count rose.
    ensures log_fault { result ≡ Status.LogFault → Rose (L.faults log.old) (L.faults log.new) }
    ensures sink_fault { result ≡ Status.SinkFault → Rose (O.faults out.old) (O.faults out.new) }
    ensures others { IsPlayStatus result }

    ensures anywhere { StopsAnywhere session.now name.now (L.begun log.old) (L.begun log.new) (L.taken log.old)
        (L.taken log.new) (O.taken out.old) (O.taken out.new) }
    ensures log_later { L.faults log.old ≤ L.faults log.new }
    ensures out_later { O.faults out.old ≤ O.faults out.new }
{
    match try_play(alloc, session.as_slice(), name, out, log) {
        Ok(()) => Status::Done,
        Err(status) => status,
    }
}

fn try_play<O: Sink, L: Log>(
    alloc: Global,
    session: &[u8],
    name: &[u8],
    out: &mut O,
    log: &mut L,
) -> Result<(), Status>
    ensures ok { OnOk result ((turns : List Turn) × IsSession session.now turns
        × Plays name.now turns (L.begun log.old) (L.begun log.new) (L.taken log.old) (L.taken log.new)
        (O.taken out.old) (O.taken out.new)) }
    ensures ok_only { (turns : List Turn) → IsSession session.now turns → OnOk result
        (Plays name.now turns (L.begun log.old) (L.begun log.new) (L.taken log.old) (L.taken log.new)
        (O.taken out.old) (O.taken out.new)) }
    ensures stop { IfErr result (Stops (λ line. IsBadLine session.now line × (log.new ≡ log.old) × (out.new ≡ out.old))
        (Rose (L.faults log.old) (L.faults log.new)) (Rose (O.faults out.old) (O.faults out.new)) ⊥) }
    ensures bad_only { (line : ℕ) → IsBadLine session.now line
        → IsErrAnd result (λ status. (status ≡ Status.BadInput line) ⊎ (status ≡ Status.NoMemory)) }
    ensures good_only { (turns : List Turn) (line : ℕ) → IsSession session.now turns
        → IfErr result (λ status. status ≡ Status.BadInput line → ⊥) }
    ensures anywhere { StopsAnywhere session.now name.now (L.begun log.old) (L.begun log.new) (L.taken log.old)
        (L.taken log.new) (O.taken out.old) (O.taken out.new) }
    ensures log_later { L.faults log.old ≤ L.faults log.new }
    ensures out_later { O.faults out.old ≤ O.faults out.new }
{
    let turns = read_session(alloc, session)?;
    begin(log, name)?;
    log_replays();
    play_turns(alloc, turns, out, log)
}

// Takes the turns of a session, and writes what they log and send, many turns at a time.
fn play_turns<O: Sink, L: Log>(
    alloc: Global,
    turns: Turns,
    out: &mut O,
    log: &mut L,
) -> Result<(), Status>
    ensures ok { OnOk result ((L.taken log.new ≡ known_then (L.taken log.old) (log_bytes turns))
        × (O.taken out.new ≡ known_then (O.taken out.old) (transcript turns))) }
    ensures stop { IfErr result (Stops Never (Rose (L.faults log.old) (L.faults log.new))
        (Rose (O.faults out.old) (O.faults out.new)) ⊥) }
    ensures names { L.begun log.new ≡ L.begun log.old }
    ensures cut { CutsPlay turns (L.taken log.old) (L.taken log.new) (O.taken out.old) (O.taken out.new) }
    ensures log_later { L.faults log.old ≤ L.faults log.new }
    ensures out_later { O.faults out.old ≤ O.faults out.new }
{
    let mut server = Server::new(alloc);
    let mut gathered = Gathered::new(alloc);
    let mut logged = 0u64;
    let count = turns.len() as u64;
    for turn in turns.into_vec() {
        let bytes = gathered.gather(alloc, &mut server, turn)?;
        gathered.flush_full(alloc, out, log)?;
        logged = logged.saturating_add(bytes);
    }
    gathered.flush(alloc, out, log)?;
    write_ending(alloc, &server, count, logged, out)
}

// Writes the last lines of the transcript.
fn write_ending<O: Sink>(
    alloc: Global,
    server: &Server,
    turns: u64,
    logged: u64,
    out: &mut O,
) -> Result<(), Status>
    ensures ok { OnOk result (O.taken out.new ≡ known_then (O.taken out.old) (ending turns logged server.now.store)) }
    ensures cut { TookPrefix (O.taken out.old) (O.taken out.new) (ending turns logged server.now.store) }
    ensures stop { IfErr result (Stops Never ⊥ (Rose (O.faults out.old) (O.faults out.new)) ⊥) }
    ensures later { O.faults out.old ≤ O.faults out.new }
{
    let mut lines = Bytes::new(alloc);
    put_ending(server.space(), turns, logged, &mut lines)?;
    write_out(out, lines.as_slice())
}
