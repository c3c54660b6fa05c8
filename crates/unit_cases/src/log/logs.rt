ghost use Rattle.std.specs.Prelude.{All};
ghost use Rattle.fx_log.specs.Groups.{IsWithin};

use crate::answers::{put_gap, put_words};
use crate::cuts::{Pieces, put_cuts};
use crate::log::telling::put_dump;
use crate::words::copied;
use fx_log::{Group, LogKind, LogReader, LogStop, replay_into, write_group};
use fx_record::{Effects, Record};
use ks_space::Space;
use rs_base::{Bytes, NoMemory, escape, write_decimal};
use std::alloc::Global;

/// A reader of a log, and the store that its groups lead to.
#[derive(Drop)]
pub struct Logs {
    alloc: Global,
    reader: LogReader,
    space: Space,
}

impl Logs {
    pub fn new(alloc: Global) -> Logs {
        Logs {
            alloc,
            reader: LogReader::new(alloc),
            space: Space::new(alloc),
        }
    }

    /// The calls of logs.
    pub fn answer(
        &mut self,
        name: &[u8],
        args: &[Bytes],
        out: &mut Bytes,
    ) -> Result<bool, NoMemory> {
        match (name, args) {
            (b"feed", [piece]) => self.feed_one(piece.as_slice(), out)?,
            (b"replay", []) => put_dump(self.alloc, &self.space, out)?,
            (b"cut", [log]) => put_cuts::<Logs>(self.alloc, log.as_slice(), out)?,
            (b"back", [log]) => put_back(self.alloc, log.as_slice(), out)?,
            (b"group", [form, words @ ..]) => {
                return put_group_bytes(self.alloc, form.as_slice(), words, out);
            }
            _ => return Ok(false),
        }
        Ok(true)
    }

    fn feed_one(&mut self, piece: &[u8], out: &mut Bytes) -> Result<(), NoMemory> {
        if !self.feed(piece, out)? {
            return out.append(b"Failed");
        }
        if out.is_empty() {
            out.append(b"none")?;
        }
        Ok(())
    }
}

impl Pieces for Logs {
    fn start(alloc: Global) -> Logs {
        Logs::new(alloc)
    }

    // The groups of a piece are replayed.
    fn feed(&mut self, piece: &[u8], out: &mut Bytes) -> Result<bool, NoMemory> {
        match self.reader.feed(piece) {
            Ok(groups) => {
                replay_all(&mut self.space, groups.as_slice())?;
                put_groups(self.alloc, groups.as_slice(), out)?;
            }
            Err(
                LogStop::Bad {
                    before,
                    place,
                    kind,
                },
            ) => {
                put_groups(self.alloc, before.as_slice(), out)?;
                put_bad(place, kind, out)?;
            }
            Err(LogStop::Failed) => return Ok(false),
            Err(LogStop::NoMemory) => return Err(NoMemory),
        }
        Ok(true)
    }

    // The store that the groups lead to.
    fn put_rest(&self, out: &mut Bytes) -> Result<(), NoMemory> {
        put_gap(out)?;
        out.append(b"leads to ")?;
        put_dump(self.alloc, &self.space, out)
    }
}

fn replay_all(space: &mut Space, groups: &[Group]) -> Result<(), NoMemory>
    requires { All IsWithin groups.now }
{
    for group in groups {
        replay_into(space, group)?;
    }
    Ok(())
}

fn put_record(alloc: Global, record: &Record, out: &mut Bytes) -> Result<(), NoMemory> {
    put_gap(out)?;
    out.append(b"[")?;
    put_words(record.to_words(alloc)?.as_slice(), out)?;
    out.append(b"]")
}

fn put_group(alloc: Global, group: &Group, out: &mut Bytes) -> Result<(), NoMemory> {
    if group.wrapped {
        put_gap(out)?;
        out.append(b"MULTI")?;
    }
    for record in group.records.as_slice() {
        put_record(alloc, record, out)?;
    }
    out.append(if group.wrapped { b" EXEC;" } else { b";" })
}

fn put_groups(alloc: Global, groups: &[Group], out: &mut Bytes) -> Result<(), NoMemory> {
    for group in groups {
        put_group(alloc, group, out)?;
    }
    Ok(())
}

fn name_of(kind: LogKind) -> &'static [u8] {
    match kind {
        LogKind::Frame => b"Frame",
        LogKind::Row => b"Row",
        LogKind::Nest => b"Nest",
    }
}

fn put_bad(place: u64, kind: LogKind, out: &mut Bytes) -> Result<(), NoMemory> {
    put_gap(out)?;
    out.append(b"bad ")?;
    write_decimal(place, out)?;
    out.append(b" ")?;
    out.append(name_of(kind))
}

// Whether the groups of a log are written as it was.
fn put_back(alloc: Global, log: &[u8], out: &mut Bytes) -> Result<(), NoMemory> {
    let mut text = Bytes::new(alloc);
    if let Ok(groups) = LogReader::new(alloc).feed(log) {
        write_all(groups.as_slice(), &mut text)?;
    }
    out.append(if text.as_slice() == log {
        b"yes"
    } else {
        b"no"
    })
}

fn write_all(groups: &[Group], out: &mut Bytes) -> Result<(), NoMemory> {
    for group in groups {
        write_group(group, out)?;
    }
    Ok(())
}

// The records that stand between slashes, if all are records.
fn records_of(alloc: Global, words: &[Bytes]) -> Result<Option<Effects>, NoMemory> {
    let mut records = Effects::new(alloc);
    if words.is_empty() {
        return Ok(Some(records));
    }
    for record in words.split(|word| word.as_slice() == b"/".as_slice()) {
        let Some(record) = Record::from_words(copied(alloc, record)?) else {
            return Ok(None);
        };
        records.push(record)?;
    }
    Ok(Some(records))
}

fn put_group_bytes(
    alloc: Global,
    form: &[u8],
    words: &[Bytes],
    out: &mut Bytes,
) -> Result<bool, NoMemory> {
    let wrapped = match form {
        b"bare" => false,
        b"wrapped" => true,
        _ => return Ok(false),
    };
    let Some(records) = records_of(alloc, words)? else {
        return Ok(false);
    };
    let mut bytes = Bytes::new(alloc);
    write_group(&Group { records, wrapped }, &mut bytes)?;
    escape(bytes.as_slice(), out)?;
    Ok(true)
}
