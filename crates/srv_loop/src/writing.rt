ghost use Rattle.std.specs.Prelude.{◌≡◌, ◌⊎◌, ◌∷◌, [], ◌≤◌, IfErr, OnOk, OnErr, IsErrOf};
ghost use Rattle.rs_outside.specs.declared.status.Status.{Status};
ghost use Rattle.rs_outside.specs.Faults.{Rose};
ghost use Rattle.rs_outside.specs.Known.{known_then};
ghost use Rattle.srv_loop.specs.Taking.{TookPrefix};
ghost use Rattle.srv_loop.specs.Stops.{Stops, Never};

use rs_outside::{IoStop, Log, Sink, Status};

/// Gives all of `bytes` to a sink. Where it fails, a prefix of them was taken.
pub fn write_all<O: Sink>(out: &mut O, bytes: &[u8]) -> Result<(), IoStop>
    ensures ok { OnOk result (O.taken out.new ≡ known_then (O.taken out.old) bytes.now) }
    ensures prefix { TookPrefix (O.taken out.old) (O.taken out.new) bytes.now }
    ensures names { O.begun out.new ≡ O.begun out.old }
    ensures later { O.faults out.old ≤ O.faults out.new }
    ensures cause { IsErrOf result IoStop.Failed → Rose (O.faults out.old) (O.faults out.new) }
{
    let mut rest = bytes;
    while !rest.is_empty() {
        let n = out.write(rest)?;
        let (_, more) = rest.split_at(n);
        rest = more;
    }
    Ok(())
}

/// Gives all of `bytes` to the log.
pub fn write_log<L: Log>(log: &mut L, bytes: &[u8]) -> Result<(), Status>
    ensures ok { OnOk result (L.taken log.new ≡ known_then (L.taken log.old) bytes.now) }
    ensures prefix { TookPrefix (L.taken log.old) (L.taken log.new) bytes.now }
    ensures names { L.begun log.new ≡ L.begun log.old }
    ensures later { L.faults log.old ≤ L.faults log.new }
    ensures stop { IfErr result (Stops Never (Rose (L.faults log.old) (L.faults log.new)) ⊥ ⊥) }
{
    match write_all(log, bytes) {
        Ok(()) => Ok(()),
        Err(IoStop::Failed) => Err(Status::LogFault),
        Err(IoStop::NoMemory) => Err(Status::NoMemory),
    }
}

/// Gives all of `bytes` to the output.
pub fn write_out<O: Sink>(out: &mut O, bytes: &[u8]) -> Result<(), Status>
    ensures ok { OnOk result (O.taken out.new ≡ known_then (O.taken out.old) bytes.now) }
    ensures prefix { TookPrefix (O.taken out.old) (O.taken out.new) bytes.now }
    ensures later { O.faults out.old ≤ O.faults out.new }
    ensures stop { IfErr result (Stops Never ⊥ (Rose (O.faults out.old) (O.faults out.new)) ⊥) }
{
    match write_all(out, bytes) {
        Ok(()) => Ok(()),
        Err(IoStop::Failed) => Err(Status::SinkFault),
        Err(IoStop::NoMemory) => Err(Status::NoMemory),
    }
}

/// Begins the log under a name.
pub fn begin<L: Log>(log: &mut L, name: &[u8]) -> Result<(), Status>
    ensures ok { OnOk result (L.begun log.new ≡ known_then (L.begun log.old) (name.now ∷ [])) }
    ensures err { OnErr result (L.begun log.new ≡ L.begun log.old) }
    ensures bytes { L.taken log.new ≡ L.taken log.old }
    ensures later { L.faults log.old ≤ L.faults log.new }
    ensures stop { IfErr result (Stops Never (Rose (L.faults log.old) (L.faults log.new)) ⊥ ⊥) }
{
    match log.begin(name) {
        Ok(()) => Ok(()),
        Err(IoStop::Failed) => Err(Status::LogFault),
        Err(IoStop::NoMemory) => Err(Status::NoMemory),
    }
}
