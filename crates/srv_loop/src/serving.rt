ghost use Rattle.std.specs.Prelude.{◌≡◌, ◌⊎◌, ℕ, ◌<◌, ◌≤◌, ◌∷◌, [], ◌++◌, List, Some, length, IfOk, OnOk, OnErr};
ghost use Rattle.std.specs.Prelude.{IfErr, IsErrOf, MatchResult};
ghost use Rattle.rs_outside.specs.declared.status.Status.{Status};
ghost use Rattle.rs_outside.specs.declared.turn.Turn.{Turn};
ghost use Rattle.rs_outside.specs.Faults.{Rose};
ghost use Rattle.rs_outside.specs.Known.{known_then, NoneLeft};
ghost use Rattle.fx_log.specs.Groups.{log_text};
ghost use Rattle.cl_core.specs.Machine.{step};
ghost use Rattle.srv_loop.specs.Runs.{logged_in};
ghost use Rattle.srv_loop.specs.Taking.{TookPrefix, CutsTurn};
ghost use Rattle.srv_loop.specs.Serving.{Serves, CutsServe, IsServeStatus, TakesNext, EndsServed};
ghost use Rattle.srv_loop.specs.Stops.{Stops, Never};

use crate::laws::log_replays;
use crate::writing::write_log;
use cl_core::Server;
use fx_log::{Groups, write_group};
use rs_base::{Bytes, NoMemory};
use rs_outside::{IoStop, Log, OutRow, Outs, Status, Step, Turn, Wire};
use std::alloc::Global;

/// Serves the clients of a wire: takes its turns one by one, until it gives none or `turns` were taken. Each turn's log
/// bytes are written before its rows are sent.
///
/// The status is `Done` where the wire gave no more turn, `TurnsSpent` where that many were taken, after which the
/// wire is not asked again; `LogFault` or `WireFault` where that object failed; or `NoMemory`. After a fault or
/// `NoMemory` some turns were taken whole, and of one more a prefix of its log bytes and a prefix of its rows went
/// out, these only where its log bytes are whole. The server is then only good for dropping.
pub fn serve<W: Wire, L: Log>(
    alloc: Global,
    server: &mut Server,
    wire: &mut W,
    log: &mut L,
    turns: u64,
) -> Status
    // All turns that came were taken: fewer than the most that may be, and none is left.
    ensures done { result ≡ Status.Done → (taken : List Turn) × (length taken < turns) × NoneLeft (W.coming wire.new)
        × Serves taken server.old server.new (W.coming wire.old) (W.coming wire.new) (L.taken log.old)
        (L.taken log.new) (W.sent wire.old) (W.sent wire.new) }
    // Just so many turns were taken.
    ensures spent { (spent : ℕ) → result ≡ Status.TurnsSpent spent → (spent ≡ turns)
        × ((taken : List Turn) × (length taken ≡ turns)
        × Serves taken server.old server.new (W.coming wire.old) (W.coming wire.new) (L.taken log.old)
        (L.taken log.new) (W.sent wire.old) (W.sent wire.new)) }

    // A fault is answered only where that object's count rose, and that of the wire leaves no turn in part.
    ensures log_fault { result ≡ Status.LogFault → Rose (L.faults log.old) (L.faults log.new) }
    ensures wire_fault { result ≡ Status.WireFault → Rose (W.faults wire.old) (W.faults wire.new) }
    ensures wire_between { result ≡ Status.WireFault → (taken : List Turn) × (length taken < turns)
        × Serves taken server.old server.new (W.coming wire.old) (W.coming wire.new) (L.taken log.old)
        (L.taken log.new) (W.sent wire.old) (W.sent wire.new) }
    ensures others { IsServeStatus result }

    // Wherever it ended.
    ensures anywhere { CutsServe turns server.old (W.coming wire.old) (W.coming wire.new) (L.taken log.old)
        (L.taken log.new) (W.sent wire.old) (W.sent wire.new) }
    ensures starts { W.started wire.new ≡ W.started wire.old }
    ensures names { L.begun log.new ≡ L.begun log.old }
    ensures wire_later { W.faults wire.old ≤ W.faults wire.new }
    ensures log_later { L.faults log.old ≤ L.faults log.new }

    // What a wire that tells its turns gets.
    ensures serves_all { (coming : List Turn) → W.coming wire.old ≡ Some coming → length coming < turns
        → (result ≡ Status.Done) ⊎ (result ≡ Status.NoMemory) ⊎ Rose (W.faults wire.old) (W.faults wire.new)
        ⊎ Rose (L.faults log.old) (L.faults log.new) }
    ensures spends_all { (coming : List Turn) → W.coming wire.old ≡ Some coming → turns ≤ length coming
        → (result ≡ Status.TurnsSpent turns) ⊎ (result ≡ Status.NoMemory)
        ⊎ Rose (W.faults wire.old) (W.faults wire.new) ⊎ Rose (L.faults log.old) (L.faults log.new) }
{
    match serve_turns(alloc, server, wire, log, turns) {
        Ok(Served::ToEnd) => Status::Done,
        Ok(Served::Spent) => Status::TurnsSpent { turns },
        Err(status) => status,
    }
}

// How a service ended that was not stopped.
#[derive(Clone, Copy, Debug, PartialEq, Eq)]
enum Served {
    // The wire gave no more turn.
    ToEnd,
    // As many turns were taken as may be.
    Spent,
}

fn serve_turns<W: Wire, L: Log>(
    alloc: Global,
    server: &mut Server,
    wire: &mut W,
    log: &mut L,
    turns: u64,
) -> Result<Served, Status>
    ensures ok { IfOk result (λ served. (taken : List Turn) × EndsServed served taken turns (W.coming wire.new)
        × Serves taken server.old server.new (W.coming wire.old) (W.coming wire.new) (L.taken log.old)
        (L.taken log.new) (W.sent wire.old) (W.sent wire.new)) }
    ensures stop { IfErr result (Stops Never (Rose (L.faults log.old) (L.faults log.new)) ⊥
        (Rose (W.faults wire.old) (W.faults wire.new))) }
    ensures between { IsErrOf result Status.WireFault → (taken : List Turn) × (length taken < turns)
        × Serves taken server.old server.new (W.coming wire.old) (W.coming wire.new) (L.taken log.old)
        (L.taken log.new) (W.sent wire.old) (W.sent wire.new) }
    ensures anywhere { CutsServe turns server.old (W.coming wire.old) (W.coming wire.new) (L.taken log.old)
        (L.taken log.new) (W.sent wire.old) (W.sent wire.new) }
    ensures starts { W.started wire.new ≡ W.started wire.old }
    ensures names { L.begun log.new ≡ L.begun log.old }
    ensures wire_later { W.faults wire.old ≤ W.faults wire.new }
    ensures log_later { L.faults log.old ≤ L.faults log.new }
{
    log_replays();
    for _ in 0..turns {
        let Some(turn) = next_turn(wire)? else {
            return Ok(Served::ToEnd);
        };
        serve_turn(alloc, server, &turn, wire, log)?;
    }
    Ok(Served::Spent)
}

// The next turn of a wire.
fn next_turn<W: Wire>(wire: &mut W) -> Result<Option<Turn>, Status>
    ensures ok { IfOk result (λ next. TakesNext (W.coming wire.old) (W.coming wire.new) next) }
    ensures err { OnErr result (W.coming wire.new ≡ W.coming wire.old) }
    ensures stop { IfErr result (Stops Never ⊥ ⊥ (Rose (W.faults wire.old) (W.faults wire.new))) }
    ensures rows { W.sent wire.new ≡ W.sent wire.old }
    ensures starts { W.started wire.new ≡ W.started wire.old }
    ensures later { W.faults wire.old ≤ W.faults wire.new }
{
    match wire.next() {
        Ok(Step::Given(turn)) => Ok(Some(turn)),
        Ok(Step::End) => Ok(None),
        Err(IoStop::Failed) => Err(Status::WireFault),
        Err(IoStop::NoMemory) => Err(Status::NoMemory),
    }
}

// Takes one turn: its log bytes go to the log, and then its rows to the wire. Answers the number of the log bytes.
fn serve_turn<W: Wire, L: Log>(
    alloc: Global,
    server: &mut Server,
    turn: &Turn,
    wire: &mut W,
    log: &mut L,
) -> Result<u64, Status>
    ensures server { OnOk result (server.new ≡ (step server.old turn.now).state) }
    ensures count { IfOk result (λ n. n ≡ length (logged_in (step server.old turn.now))) }
    ensures logged { OnOk result (L.taken log.new
        ≡ known_then (L.taken log.old) (logged_in (step server.old turn.now))) }
    ensures sent { OnOk result (W.sent wire.new ≡ known_then (W.sent wire.old) (step server.old turn.now).rows) }
    ensures stop { IfErr result (Stops Never (Rose (L.faults log.old) (L.faults log.new)) ⊥ ⊥) }
    ensures cut { CutsTurn (logged_in (step server.old turn.now)) (step server.old turn.now).rows (L.taken log.old)
        (L.taken log.new) (W.sent wire.old) (W.sent wire.new) }
    ensures turns { W.coming wire.new ≡ W.coming wire.old }
    ensures starts { W.started wire.new ≡ W.started wire.old }
    ensures names { L.begun log.new ≡ L.begun log.old }
    ensures faultless { W.faults wire.new ≡ W.faults wire.old }
    ensures log_later { L.faults log.old ≤ L.faults log.new }
{
    let mut rows = Outs::new(alloc);
    let mut groups = Groups::new(alloc);
    server.turn(turn, &mut rows, &mut groups)?;
    let mut bytes = Bytes::new(alloc);
    write_groups(&groups, &mut bytes)?;
    write_log(log, bytes.as_slice())?;
    send_rows(wire, &rows)?;
    Ok(bytes.len() as u64)
}

/// Adds the bytes of groups, in order.
pub fn write_groups(groups: &Groups, out: &mut Bytes) -> Result<(), NoMemory>
    ensures { OnOk result (out.new ≡ out.old ++ log_text groups.now) }
{
    for group in groups.as_slice() {
        write_group(group, out)?;
    }
    Ok(())
}

// Gives rows to a wire, in order. Where memory runs out, a prefix of them was sent.
fn send_rows<W: Wire>(wire: &mut W, rows: &Outs) -> Result<(), NoMemory>
    ensures ok { OnOk result (W.sent wire.new ≡ known_then (W.sent wire.old) rows.now) }
    ensures prefix { TookPrefix (W.sent wire.old) (W.sent wire.new) rows.now }
    ensures turns { W.coming wire.new ≡ W.coming wire.old }
    ensures starts { W.started wire.new ≡ W.started wire.old }
    ensures faultless { W.faults wire.new ≡ W.faults wire.old }
{
    for row in rows.as_slice() {
        send_row(wire, row)?;
    }
    Ok(())
}

fn send_row<W: Wire>(wire: &mut W, row: &OutRow) -> Result<(), NoMemory>
    ensures sent { MatchResult result (λ _. W.sent wire.new ≡ known_then (W.sent wire.old) (row.now ∷ []))
        (λ _. W.sent wire.new ≡ W.sent wire.old) }
    ensures turns { W.coming wire.new ≡ W.coming wire.old }
    ensures starts { W.started wire.new ≡ W.started wire.old }
    ensures faultless { W.faults wire.new ≡ W.faults wire.old }
{
    match row {
        OutRow::Sent(client, bytes) => wire.send(*client, bytes.as_slice()),
        OutRow::Shut(client) => wire.shut(*client),
    }
}
