ghost use Rattle.std.specs.Prelude.{◌≡◌, ◌⊎◌, ◌+◌, ◌<◌, ◌≤◌, ◌++◌, ℕ, List, [], Option, Some, All, length, fold};
ghost use Rattle.std.specs.Prelude.{IfOk, IfErr, OnOk};
ghost use Rattle.rs_outside.specs.Faults.{Rose};
ghost use Rattle.rs_outside.specs.Known.{known_then};
ghost use Rattle.rs_outside.specs.declared.status.Status.{Status};
ghost use Rattle.fx_record.specs.Records.{apply};
ghost use Rattle.fx_log.specs.declared.stops.LogKind.{LogKind};
ghost use Rattle.fx_log.specs.Groups.{IsWithin};
ghost use Rattle.fx_log.specs.Logs.{IsBadLog, HasBadPlace};
ghost use Rattle.srv_loop.specs.Stops.{Stops, Never};
ghost use Rattle.srv_loop.specs.Taking.{TookPrefix};
ghost use Rattle.redscript.specs.Replay.{records_of, counts_line, log_ending, up_to_limit, ReadsLog, Replays};
ghost use Rattle.redscript.specs.Replay.{CutsReplay, Keeps, KeepsUpTo, StopsFeed, StopsTake, StopsLogReading};
ghost use Rattle.redscript.specs.Replay.{IsReplayStatus};
ghost use Rattle.redscript.specs.Run.{IsRefusal};

use crate::reading::{BUFFER_BYTES, zeros};
use fx_log::{
    Groups, LogReader, LogStop, dump, groups_are_read_back, log_reading_is_the_grammar, replay_into,
};
use ks_space::Space;
use rs_base::{Bytes, NoMemory, write_decimal};
use rs_outside::{Failed, Sink, Source, Status};
use srv_loop::write_out;
use std::alloc::Global;

/// The most bytes that the input of `replay` may have.
pub const MAX_LOG_BYTES: u64 = 1_099_511_627_776;

/// A log that is replayed as it is read. It keeps no older byte than those of the group that is open.
#[derive(Drop)]
pub struct Replaying {
    reader: LogReader,
    space: Space,
    groups: u64,
    room: u64,
}

/// Replays the log that `input` has to its end: writes to `out` how many groups it has, how many keys the store then,
/// and the dump of the store. Nothing is written before the input was read to its end.
pub fn replay<S: Source, O: Sink>(alloc: Global, input: &mut S, out: &mut O) -> Status
    ensures done { result ≡ Status.Done
        → Replays (S.left input.old) (S.left input.new) (O.taken out.old) (O.taken out.new) }
    ensures refused { IsRefusal result
        → StopsLogReading (S.left input.old) (S.left input.new)
        (Rose (S.faults input.old) (S.faults input.new)) result × (out.new ≡ out.old) }
    ensures sink_fault { result ≡ Status.SinkFault → Rose (O.faults out.old) (O.faults out.new) }
    ensures others { IsReplayStatus result }

    // What an input that is told gets: the first bad place up to the limit is found, the limit is kept, and a log is
    // replayed.
    ensures finds_bad { (text : List ℕ) (place : ℕ) (kind : LogKind) → S.left input.old ≡ Some text
        → IsBadLog (up_to_limit text) place kind
        → (result ≡ Status.BadLog place) ⊎ (result ≡ Status.NoMemory) ⊎ Rose (S.faults input.old) (S.faults input.new) }
    ensures keeps_limit { (text : List ℕ) → S.left input.old ≡ Some text → MAX_LOG_BYTES < length text
        → (HasBadPlace (up_to_limit text) → ⊥)
        → (result ≡ Status.InputTooLong MAX_LOG_BYTES) ⊎ (result ≡ Status.NoMemory)
        ⊎ Rose (S.faults input.old) (S.faults input.new) }
    ensures replays { (text : List ℕ) → S.left input.old ≡ Some text → length text ≤ MAX_LOG_BYTES
        → (HasBadPlace text → ⊥)
        → (result ≡ Status.Done) ⊎ (result ≡ Status.NoMemory) ⊎ Rose (S.faults input.old) (S.faults input.new)
        ⊎ Rose (O.faults out.old) (O.faults out.new) }

    ensures anywhere { (O.taken out.new ≡ O.taken out.old)
        ⊎ CutsReplay (S.left input.old) (S.left input.new) (O.taken out.old) (O.taken out.new) }
    ensures source_later { S.faults input.old ≤ S.faults input.new }
    ensures sink_later { O.faults out.old ≤ O.faults out.new }
{
    // What a text is as a log does not depend on how far it was read.
    log_reading_is_the_grammar();
    let replaying = match read_log(alloc, input) {
        Ok(replaying) => replaying,
        Err(status) => return status,
    };
    match write_replayed(alloc, &replaying, out) {
        Ok(()) => Status::Done,
        Err(status) => status,
    }
}

// Reads a log to its end, to its bad place or past the limit, and carries out its groups as they become whole.
fn read_log<S: Source>(alloc: Global, input: &mut S) -> Result<Replaying, Status>
    ensures ok { IfOk result (λ replaying. (text : List ℕ) × ReadsLog (S.left input.old) (S.left input.new) text
        × Keeps replaying text) }
    ensures stop { IfErr result (StopsLogReading (S.left input.old) (S.left input.new)
        (Rose (S.faults input.old) (S.faults input.new))) }
    ensures later { S.faults input.old ≤ S.faults input.new }
{
    let mut replaying = Replaying::new(alloc);
    let mut buffer = zeros(alloc, BUFFER_BYTES)?;
    'pieces: loop {
        let Ok(n) = input.read(&mut buffer) else {
            return Err(Status::SourceFault);
        };
        if n == 0 {
            return Ok(replaying);
        }
        let (piece, _) = buffer.split_at(n);
        replaying.take(piece)?;
    }
}

// Writes how many groups a log has, and what they lead to.
fn write_replayed<O: Sink>(alloc: Global, replaying: &Replaying, out: &mut O) -> Result<(), Status>
    ensures ok { OnOk result (O.taken out.new
        ≡ known_then (O.taken out.old) (log_ending replaying.now.groups replaying.now.space)) }
    ensures cut { TookPrefix (O.taken out.old) (O.taken out.new) (log_ending replaying.now.groups replaying.now.space) }
    ensures stop { IfErr result (Stops Never ⊥ (Rose (O.faults out.old) (O.faults out.new)) ⊥) }
    ensures later { O.faults out.old ≤ O.faults out.new }
{
    let mut lines = Bytes::new(alloc);
    replaying.put_ending(&mut lines)?;
    write_out(out, lines.as_slice())
}

impl Replaying {
    // A log of which nothing was read.
    fn new(alloc: Global) -> Replaying
        ensures { KeepsUpTo result [] }
    {
        // The empty text is a log of no groups.
        groups_are_read_back();
        Replaying {
            reader: LogReader::new(alloc),
            space: Space::new(alloc),
            groups: 0,
            room: MAX_LOG_BYTES,
        }
    }

    // Takes the bytes of a piece up to the limit.
    fn take(&mut self, piece: &[u8]) -> Result<(), Status>
        requires { (text : List ℕ) × KeepsUpTo self.old text }
        ensures ok { (text : List ℕ) → KeepsUpTo self.old text → OnOk result (KeepsUpTo self.new (text ++ piece.now)) }
        ensures stop { (text : List ℕ) → KeepsUpTo self.old text → IfErr result (StopsTake (text ++ piece.now)) }
        ensures room { OnOk result (self.new.room + length piece.now ≡ self.old.room) }
    {
        let within = self.room.min(piece.len() as u64);
        let (judged, _) = piece.split_at(within as usize);
        self.feed(judged)?;
        if within < piece.len() as u64 {
            return Err(Status::InputTooLong {
                bytes: MAX_LOG_BYTES,
            });
        }
        self.room -= within;
        Ok(())
    }

    // Judges the next bytes, and carries out the groups that are whole by them.
    fn feed(&mut self, piece: &[u8]) -> Result<(), Status>
        requires { (text : List ℕ) × Keeps self.old text }
        ensures ok { (text : List ℕ) → Keeps self.old text → OnOk result (Keeps self.new (text ++ piece.now)) }
        ensures stop { (text : List ℕ) → Keeps self.old text → IfErr result (StopsFeed (text ++ piece.now)) }
        ensures room { self.new.room ≡ self.old.room }
    {
        match self.reader.feed(piece) {
            Ok(groups) => {
                carry_out(&groups, &mut self.space)?;
                self.groups = self.groups.saturating_add(groups.len() as u64);
                Ok(())
            }
            Err(LogStop::Bad { place, .. }) => Err(Status::BadLog { place }),
            Err(LogStop::Failed) => unreachable!(),
            Err(LogStop::NoMemory) => Err(Status::NoMemory),
        }
    }

    // Adds `end groups=G keys=K`, and the dump of the store.
    fn put_ending(&self, out: &mut Bytes) -> Result<(), NoMemory>
        ensures { OnOk result (out.new ≡ out.old ++ log_ending self.now.groups self.now.space) }
    {
        put_counts(self.groups, self.space.len() as u64, out)?;
        dump(&self.space, out)
    }
}

// Adds `end groups=G keys=K`.
fn put_counts(groups: u64, keys: u64, out: &mut Bytes) -> Result<(), NoMemory>
    ensures { OnOk result (out.new ≡ out.old ++ counts_line groups keys) }
{
    out.append(b"end groups=")?;
    write_decimal(groups, out)?;
    out.append(b" keys=")?;
    write_decimal(keys, out)?;
    out.append(b"\n")?;
    Ok(())
}

// Does to a store what the records of groups say, in order.
fn carry_out(groups: &Groups, space: &mut Space) -> Result<(), NoMemory>
    requires { All IsWithin groups.now }
    ensures { OnOk result (space.new ≡ fold apply space.old (records_of groups.now)) }
{
    for group in groups.as_slice() {
        replay_into(space, group)?;
    }
    Ok(())
}
