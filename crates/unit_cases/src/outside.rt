//! The outside in memory. A call and its answer:
//!
//! - `turn CLOCK WORD CLIENT WHAT`: adds a turn for the next wire. WHAT is `opened`, `piece TEXT`, `closed` or `idle`.
//! - `sure_source TEXT`, `sure_sink`, `sure_log`, `sure_wire`: makes a double that never fails, for the next lines to
//!   call.
//! - `source TEXT failing N ..`, `sink failing N ..`, `log ..`, `wire ..`: makes one that fails at the calls of these
//!   numbers.
//! - `read ROOM`: the bytes of a read into a buffer of that length. `write TEXT`: how many bytes were taken.
//! - `begin NAME`, `start PORT WORD`, `send CLIENT TEXT`, `shut CLIENT`: `ok`. `next`: `given` and a turn, or `end`.
//! - `taken`: the bytes. `begun`: the names. `started`: the starts. `sent`: the rows, with `; ` between. `calls`: how
//!   many numbered calls there were.
//! - `status NAME`, `status NAME N`: code and text of a status. `error NAME`: the text of an error.
//!
//! A call that fails answers `failed`, and an empty list is `none`.

mod answers;
mod calls;
mod double;
mod errors;

use crate::answers::put_done;
use crate::words::number;
use double::Double;
use errors::{put_error, put_status};
use rs_base::{Bytes, NoMemory};
use rs_cases::Subject;
use rs_outside::{
    Calls, MemLog, MemSink, MemSource, MemWire, SureLog, SureSink, SureSource, SureWire, Turn,
    Turns, What,
};
use std::alloc::Global;

/// The double that the lines call, and the turns for the next wire.
#[derive(Drop)]
pub struct Outside {
    alloc: Global,
    turns: Turns,
    double: Option<Double>,
}

impl Outside {
    pub fn new(alloc: Global) -> Outside {
        Outside {
            alloc,
            turns: Turns::new(alloc),
            double: None,
        }
    }

    // Makes the double that the words say. `Ok(false)` where they say none.
    fn make(&mut self, name: &[u8], args: &[Bytes], out: &mut Bytes) -> Result<bool, NoMemory> {
        let made = match name.strip_prefix(b"sure_") {
            Some(kind) => self.sure_double(kind, args)?,
            None => self.mem_double(name, args)?,
        };
        if made.is_none() {
            return Ok(false);
        }
        self.double = made;
        put_done(out)
    }

    fn sure_double(&mut self, kind: &[u8], args: &[Bytes]) -> Result<Option<Double>, NoMemory> {
        let alloc = self.alloc;
        Ok(match (kind, args) {
            (b"source", [text]) => Some(Double::SureSource(SureSource::new(text.clone()?))),
            (b"sink", []) => Some(Double::SureSink(SureSink::new(alloc))),
            (b"log", []) => Some(Double::SureLog(SureLog::new(alloc))),
            (b"wire", []) => Some(Double::SureWire(SureWire::new(alloc, self.take_turns()))),
            _ => None,
        })
    }

    fn mem_double(&mut self, kind: &[u8], args: &[Bytes]) -> Result<Option<Double>, NoMemory> {
        if let (b"source", [text, args @ ..]) = (kind, args) {
            return mem_source(self.alloc, text, args);
        }
        let alloc = self.alloc;
        let Some(failing) = failing(alloc, args)? else {
            return Ok(None);
        };
        Ok(match kind {
            b"sink" => Some(Double::MemSink(MemSink::new(alloc, failing))),
            b"log" => Some(Double::MemLog(MemLog::new(alloc, failing))),
            b"wire" => {
                let wire = MemWire::new(alloc, self.take_turns(), failing);
                Some(Double::MemWire(wire))
            }
            _ => None,
        })
    }

    fn take_turns(&mut self) -> Turns {
        std::mem::replace(&mut self.turns, Turns::new(self.alloc))
    }

    // Adds the turn that the words say. `Ok(false)` where they say none.
    fn add_turn(&mut self, args: &[Bytes], out: &mut Bytes) -> Result<bool, NoMemory> {
        match turn(args)? {
            Some(turn) => {
                self.turns.push(turn)?;
                put_done(out)
            }
            None => Ok(false),
        }
    }

    fn call(&mut self, name: &[u8], args: &[Bytes], out: &mut Bytes) -> Result<bool, NoMemory> {
        let Some(double) = &mut self.double else {
            return Ok(false);
        };
        if args.is_empty() && double.tell(name, out)? {
            return Ok(true);
        }
        double.call(self.alloc, name, args, out)
    }
}

impl Subject for Outside {
    fn answer(&mut self, name: &[u8], args: &[Bytes], out: &mut Bytes) -> Result<bool, NoMemory> {
        match (name, args) {
            (b"status", args) => put_status(self.alloc, args, out),
            (b"error", [of]) => put_error(self.alloc, of.as_slice(), out),
            (b"turn", args) => self.add_turn(args, out),
            _ => Ok(self.make(name, args, out)? || self.call(name, args, out)?),
        }
    }

    fn begin(&mut self) {
        *self = Outside::new(self.alloc);
    }
}

fn mem_source(alloc: Global, text: &Bytes, args: &[Bytes]) -> Result<Option<Double>, NoMemory> {
    let Some(failing) = failing(alloc, args)? else {
        return Ok(None);
    };
    Ok(Some(Double::MemSource(MemSource::new(text.clone()?, failing))))
}

// The calls of `failing N ..`.
fn failing(alloc: Global, args: &[Bytes]) -> Result<Option<Calls>, NoMemory> {
    let Some((first, numbers)) = args.split_first() else {
        return Ok(None);
    };
    if first.as_slice() != b"failing".as_slice() {
        return Ok(None);
    }
    let mut calls = Calls::new(alloc);
    for word in numbers {
        let Some(call) = number(word) else {
            return Ok(None);
        };
        calls.push(call)?;
    }
    Ok(Some(calls))
}

// The turn `CLOCK WORD CLIENT WHAT`.
fn turn(args: &[Bytes]) -> Result<Option<Turn>, NoMemory> {
    let [clock, word, of, what @ ..] = args else {
        return Ok(None);
    };
    let Some(what) = what_of(what)? else {
        return Ok(None);
    };
    Ok(turn_of(clock, word, of, what))
}

fn turn_of(clock: &Bytes, word: &Bytes, of: &Bytes, what: What) -> Option<Turn> {
    Some(Turn {
        clock: number(clock)?,
        word: number(word)?,
        client: client(of)?,
        what,
    })
}

fn what_of(words: &[Bytes]) -> Result<Option<What>, NoMemory> {
    match words {
        [kind] => Ok(plain_what(kind.as_slice())),
        [kind, text] if kind.as_slice() == b"piece".as_slice() => Ok(Some(What::Piece(
            text.clone()?,
        ))),
        _ => Ok(None),
    }
}

fn plain_what(kind: &[u8]) -> Option<What> {
    match kind {
        b"opened" => Some(What::Opened),
        b"closed" => Some(What::Closed),
        b"idle" => Some(What::Idle),
        _ => None,
    }
}

// The client whose number the word writes.
fn client(word: &Bytes) -> Option<u32> {
    u32::try_from(number(word)?).ok()
}
