use crate::outside::answers::{put_count, put_done, put_step};
use crate::outside::client;
use crate::words::{number, place};
use rs_base::{Bytes, NoMemory, escape};
use rs_outside::{Failed, IoStop, Log, Sink, Source, Wire};
use std::alloc::Global;

// Each of the following is `Ok(false)` where the words are no call of what it calls.

pub fn call_source<S: Source>(
    alloc: Global,
    source: &mut S,
    name: &[u8],
    args: &[Bytes],
    out: &mut Bytes,
) -> Result<bool, NoMemory> {
    let (b"read", [room]) = (name, args) else {
        return Ok(false);
    };
    let Some(room) = place(room) else {
        return Ok(false);
    };
    put_read(alloc, source, room, out)?;
    Ok(true)
}

fn put_read<S: Source>(
    alloc: Global,
    source: &mut S,
    room: usize,
    out: &mut Bytes,
) -> Result<(), NoMemory> {
    let mut buffer = vec![in alloc; 0u8; room]?;
    match source.read(buffer.as_mut_slice()) {
        Ok(n) => escape(&buffer.as_slice()[..n], out),
        Err(Failed) => out.append(b"failed"),
    }
}

pub fn call_sink<O: Sink>(
    sink: &mut O,
    name: &[u8],
    args: &[Bytes],
    out: &mut Bytes,
) -> Result<bool, NoMemory> {
    let (b"write", [text]) = (name, args) else {
        return Ok(false);
    };
    put_count(sink.write(text.as_slice()), out)?;
    Ok(true)
}

pub fn call_log<L: Log>(
    log: &mut L,
    name: &[u8],
    args: &[Bytes],
    out: &mut Bytes,
) -> Result<bool, NoMemory> {
    let (b"begin", [file]) = (name, args) else {
        return call_sink(log, name, args, out);
    };
    put_done(log.begin(file.as_slice()), out)?;
    Ok(true)
}

pub fn call_wire<W: Wire>(
    wire: &mut W,
    name: &[u8],
    args: &[Bytes],
    out: &mut Bytes,
) -> Result<bool, NoMemory> {
    if let (b"next", []) = (name, args) {
        put_step(wire.next(), out)?;
        return Ok(true);
    }
    match done(wire, name, args) {
        Some(outcome) => {
            put_done(outcome, out)?;
            Ok(true)
        }
        None => Ok(false),
    }
}

// Carries out a call that answers nothing.
fn done<W: Wire>(wire: &mut W, name: &[u8], args: &[Bytes]) -> Option<Result<(), IoStop>> {
    match (name, args) {
        (b"start", [port, word]) => {
            let port = u16::try_from(number(port)?).ok()?;
            Some(wire.start(port, number(word)?))
        }
        (b"send", [to, text]) => Some(or_stop(wire.send(client(to)?, text.as_slice()))),
        (b"shut", [whom]) => Some(or_stop(wire.shut(client(whom)?))),
        _ => None,
    }
}

fn or_stop(outcome: Result<(), NoMemory>) -> Result<(), IoStop> {
    outcome?;
    Ok(())
}
