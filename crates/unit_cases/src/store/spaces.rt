use crate::answers::{put_count, put_done, put_end, put_flag, put_item, put_taken};
use crate::words::{deadline_of, is_short, number, place};
use ks_space::{Entry, Space, Value};
use rs_base::{Bytes, NoMemory, escape, write_decimal};
use std::alloc::Global;

/// A store of strings, and the snapshot that was made last.
#[derive(Drop)]
pub struct Spaces {
    space: Space,
    snapshot: Space,
}

impl Spaces {
    pub fn new(alloc: Global) -> Spaces {
        Spaces {
            space: Space::new(alloc),
            snapshot: Space::new(alloc),
        }
    }

    pub fn answer(
        &mut self,
        name: &[u8],
        args: &[Bytes],
        out: &mut Bytes,
    ) -> Result<bool, NoMemory> {
        match (name, args) {
            (b"put", [key, text, deadline]) => self.put(key, text, deadline, out),
            (b"set_deadline", [key, deadline]) => self.set_deadline(key, deadline, out),
            (b"replace_value", [key, text]) => self.replace_value(key, text, out),
            (b"take", [key]) => put_left(self.space.take(key.as_slice())?, out),
            (b"purge", [time]) => self.purge(time, out),
            (b"snapshot", []) => {
                self.snapshot = self.space.snapshot()?;
                put_done(out)
            }
            (b"clear", []) => {
                self.space.clear();
                put_done(out)
            }
            _ => ask(&self.space, name, args, out),
        }
    }

    /// The calls that leave a store as it is, of the snapshot.
    pub fn answer_of_snapshot(
        &self,
        name: &[u8],
        args: &[Bytes],
        out: &mut Bytes,
    ) -> Result<bool, NoMemory> {
        ask(&self.snapshot, name, args, out)
    }

    fn put(
        &mut self,
        key: &Bytes,
        text: &Bytes,
        deadline: &Bytes,
        out: &mut Bytes,
    ) -> Result<bool, NoMemory> {
        let Some(deadline) = deadline_of(deadline) else {
            return Ok(false);
        };
        if !is_short(key) || !is_short(text) {
            return Ok(false);
        }
        let entry = Entry {
            value: Value::Str(text.clone()?),
            deadline,
        };
        let old = self.space.put(key.clone()?, entry)?;
        put_left(old, out)
    }

    fn set_deadline(
        &mut self,
        key: &Bytes,
        deadline: &Bytes,
        out: &mut Bytes,
    ) -> Result<bool, NoMemory> {
        let Some(deadline) = deadline_of(deadline) else {
            return Ok(false);
        };
        let is_there = self.space.set_deadline(key.as_slice(), deadline)?;
        put_flag(is_there, out)
    }

    fn replace_value(
        &mut self,
        key: &Bytes,
        text: &Bytes,
        out: &mut Bytes,
    ) -> Result<bool, NoMemory> {
        if !is_short(text) {
            return Ok(false);
        }
        let value = Value::Str(text.clone()?);
        match self.space.replace_value(key.as_slice(), value)? {
            Some(Value::Str(old)) => put_taken(Some(old), out),
            _ => put_taken(None, out),
        }
    }

    fn purge(&mut self, time: &Bytes, out: &mut Bytes) -> Result<bool, NoMemory> {
        let Some(time) = number(time) else {
            return Ok(false);
        };
        for key in self.space.purge(time)?.as_slice() {
            put_item(key.as_slice(), out)?;
        }
        put_end(out)
    }
}

fn ask(space: &Space, name: &[u8], args: &[Bytes], out: &mut Bytes) -> Result<bool, NoMemory> {
    match (name, args) {
        (b"get", [key]) => put_entry(space.get(key.as_slice()), out),
        (b"key_at", [at]) => put_key_at(space, at, out),
        (b"len", []) => put_count(space.len(), out),
        (b"is_empty", []) => put_flag(space.is_empty(), out),
        (b"keys", []) => put_keys(space, out),
        (b"all", []) => put_all(space, out),
        _ => Ok(false),
    }
}

fn put_left(entry: Option<Entry>, out: &mut Bytes) -> Result<bool, NoMemory> {
    put_entry(entry.as_ref(), out)
}

fn put_entry(entry: Option<&Entry>, out: &mut Bytes) -> Result<bool, NoMemory> {
    match entry {
        Some(entry) => write_entry(entry, out)?,
        None => out.append(b"none")?,
    }
    Ok(true)
}

fn write_entry(entry: &Entry, out: &mut Bytes) -> Result<(), NoMemory> {
    if let Value::Str(text) = &entry.value {
        escape(text.as_slice(), out)?;
    }
    match entry.deadline {
        Some(at) => {
            out.push(b'@')?;
            write_decimal(at, out)
        }
        None => Ok(()),
    }
}

fn put_key_at(space: &Space, at: &Bytes, out: &mut Bytes) -> Result<bool, NoMemory> {
    match place(at) {
        Some(at) => put_taken(space.key_at(at)?, out),
        None => Ok(false),
    }
}

fn put_keys(space: &Space, out: &mut Bytes) -> Result<bool, NoMemory> {
    for key in space.keys()?.as_slice() {
        put_item(key.as_slice(), out)?;
    }
    put_end(out)
}

// Each key with its entry.
fn put_all(space: &Space, out: &mut Bytes) -> Result<bool, NoMemory> {
    for key in space.keys()?.as_slice() {
        put_item(key.as_slice(), out)?;
        out.push(b'=')?;
        put_entry(space.get(key.as_slice()), out)?;
    }
    put_end(out)
}
