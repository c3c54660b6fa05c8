ghost use Rattle.std.specs.Prelude.{◌≡◌, ◌∷◌, [], ◌++◌, OnOk};
ghost use Rattle.rs_base.specs.Escape.{spelling};
ghost use Rattle.ks_space.specs.Store.{IsKey, IsKept};

use crate::line::{Line, Opening, Turn};
use anyhow::{Result, bail};
use cmd_args::{Ctx, Mode};
use cmd_exec::{Desk, exec};
use fx_log::dump;
use fx_record::Record;
use ks_space::{Entry, Space, Value};
use ks_value::ListValue;
use resp_reply::{Reply, put};
use rs_base::{Bytes, NoMemory, Words, escape};
use std::alloc::Global;

/// The case that is open, and the text of all cases so far.
#[derive(Drop)]
pub struct Cases {
    alloc: Global,
    desk: Desk,
    text: Bytes,
}

impl Cases {
    pub fn new(alloc: Global) -> Cases {
        Cases {
            alloc,
            desk: Desk::new(alloc, Mode::Client),
            text: Bytes::new(alloc),
        }
    }

    /// What is written so far.
    pub fn text(&self) -> &[u8] {
        self.text.as_slice()
    }

    /// Takes a line of the input, without its end. An error where memory runs out, or where the line is spelled wrong.
    pub fn take(&mut self, text: &str) -> Result<()> {
        let Some(line) = Line::read(self.alloc, text)? else {
            bail!("bad line: {text}");
        };
        match line {
            Line::Empty => {
                self.end()?;
                self.text.append(b"\n")?;
            }
            Line::Note => self.copy(text)?,
            Line::Case(opening) => {
                self.end()?;
                self.open(opening)?;
            }
            Line::Turn(turn) => self.begin(turn)?,
            Line::Command(words) => {
                self.echo(text)?;
                self.carry_out(&words)?;
            }
        }
        Ok(())
    }

    /// Ends the case that is open: writes its store, and leaves an empty one.
    pub fn end(&mut self) -> Result<(), NoMemory> {
        let mut lines = Bytes::new(self.alloc);
        dump(self.desk.space(), &mut lines)?;
        self.desk = Desk::new(self.alloc, Mode::Client);
        put_indented(lines.as_slice(), &mut self.text)
    }

    fn open(&mut self, opening: Opening) -> Result<(), NoMemory> {
        self.desk = if opening.has_list {
            desk_with_list(self.alloc, opening.mode)?
        } else {
            Desk::new(self.alloc, opening.mode)
        };
        self.begin(opening.turn)
    }

    // Begins a turn, and writes the keys that leave at it.
    fn begin(&mut self, turn: Turn) -> Result<(), NoMemory> {
        let keys = self.desk.begin(turn.time, turn.word)?;
        for key in keys.as_slice() {
            put_line(b"left", key.as_slice(), &mut self.text)?;
        }
        Ok(())
    }

    // Writes a line as it was read.
    fn copy(&mut self, text: &str) -> Result<(), NoMemory> {
        self.text.append(text.as_bytes())?;
        self.text.append(b"\n")
    }

    // Writes a command beside its answer.
    fn echo(&mut self, text: &str) -> Result<(), NoMemory> {
        self.text.append(b"> ")?;
        self.copy(text)
    }

    // Carries out a command, and writes its reply and its records.
    fn carry_out(&mut self, words: &Words) -> Result<(), NoMemory> {
        let reply = exec(&mut self.desk, words)?;
        self.put_reply(&reply)?;
        for record in self.desk.take_effects().as_slice() {
            self.put_record(record)?;
        }
        Ok(())
    }

    fn put_reply(&mut self, reply: &Reply) -> Result<(), NoMemory> {
        let mut sent = Bytes::new(self.alloc);
        put(reply, &mut sent)?;
        put_line(b"reply", sent.as_slice(), &mut self.text)
    }

    fn put_record(&mut self, record: &Record) -> Result<(), NoMemory> {
        self.text.append(b"record")?;
        for word in record.to_words(self.alloc)?.as_slice() {
            self.text.append(b" ")?;
            escape(word.as_slice(), &mut self.text)?;
        }
        self.text.append(b"\n")
    }
}

// A desk over a store whose key `list` holds a list of one item.
fn desk_with_list(alloc: Global, mode: Mode) -> Result<Desk, NoMemory> {
    let mut items = ListValue::new(alloc);
    items.push_back(Bytes::from_slice(alloc, b"item")?)?;
    let entry = Entry {
        value: Value::List(items),
        deadline: None,
    };
    desk_with(alloc, mode, Bytes::from_slice(alloc, b"list")?, entry)
}

// A desk at time 0 over a store of one key.
fn desk_with(alloc: Global, mode: Mode, key: Bytes, entry: Entry) -> Result<Desk, NoMemory>
    requires key { IsKey key }
    requires entry { IsKept entry }
{
    let mut space = Space::new(alloc);
    space.put(key, entry)?;
    Ok(Desk::over(space, Ctx { time: 0 }, mode, 0))
}

// Writes a line of a name and a word, which is escaped.
fn put_line(name: &[u8], word: &[u8], out: &mut Bytes) -> Result<(), NoMemory>
    ensures { OnOk result (out.new ≡ out.old ++ name.now ++ 32 ∷ spelling word.now ++ 10 ∷ []) }
{
    out.append(name)?;
    out.append(b" ")?;
    escape(word, out)?;
    out.append(b"\n")
}

// Writes lines, each behind two spaces.
fn put_indented(lines: &[u8], out: &mut Bytes) -> Result<(), NoMemory> {
    for line in lines.split_inclusive(|byte| *byte == b'\n') {
        out.append(b"  ")?;
        out.append(line)?;
    }
    Ok(())
}
