use crate::log::telling::put_dump;
use crate::log::values::value_of;
use crate::words::{copied, deadline_of, is_short};
use fx_log::apply;
use fx_record::{Effects, Record, carry_out};
use ks_space::{Entry, Space, Value};
use rs_base::{Bytes, NoMemory, write_decimal};
use std::alloc::Global;

/// A store on which records are carried out, and one to which they are applied.
#[derive(Drop)]
pub struct Stores {
    alloc: Global,
    space: Space,
    other: Space,
}

impl Stores {
    pub fn new(alloc: Global) -> Stores {
        Stores {
            alloc,
            space: Space::new(alloc),
            other: Space::new(alloc),
        }
    }

    /// The calls of records and stores.
    pub fn answer(
        &mut self,
        name: &[u8],
        args: &[Bytes],
        out: &mut Bytes,
    ) -> Result<bool, NoMemory> {
        match (name, args) {
            (b"record", words) => put_reading(self.alloc, words, out)?,
            (b"carry", words) => return self.carry(words, out),
            (b"put", [key, deadline, kind, items @ ..]) => {
                return self.put(key, deadline, kind.as_slice(), items, out);
            }
            (b"dump", []) => put_dump(self.alloc, &self.space, out)?,
            _ => return Ok(false),
        }
        Ok(true)
    }

    fn carry(&mut self, words: &[Bytes], out: &mut Bytes) -> Result<bool, NoMemory> {
        let words = copied(self.alloc, words)?;
        let Some(record) = Record::from_words(words.clone()?) else {
            return Ok(false);
        };
        let mut effects = Effects::new(self.alloc);
        apply(&mut self.other, &words)?;
        carry_out(&mut self.space, &mut effects, record)?;
        out.append(if effects.is_empty() { b"-" } else { b"+" })?;
        let keys = keys_of(self.alloc, &self.space)?;
        let others = keys_of(self.alloc, &self.other)?;
        out.append(keys.as_slice())?;
        if keys != others {
            out.append(b" but applied:")?;
            out.append(others.as_slice())?;
        }
        Ok(true)
    }

    fn put(
        &mut self,
        key: &Bytes,
        deadline: &Bytes,
        kind: &[u8],
        items: &[Bytes],
        out: &mut Bytes,
    ) -> Result<bool, NoMemory> {
        let Some(deadline) = deadline_of(deadline) else {
            return Ok(false);
        };
        let Some(value) = value_of(self.alloc, kind, items)? else {
            return Ok(false);
        };
        if !is_short(key) {
            return Ok(false);
        }
        self.space.put(key.clone()?, Entry { value, deadline })?;
        put_dump(self.alloc, &self.space, out)?;
        Ok(true)
    }
}

// Whether words are a record, which has those words again.
fn put_reading(alloc: Global, args: &[Bytes], out: &mut Bytes) -> Result<(), NoMemory> {
    let Some(record) = Record::from_words(copied(alloc, args)?) else {
        return out.append(b"no");
    };
    if record.to_words(alloc)? == copied(alloc, args)? {
        out.append(b"yes")
    } else {
        out.append(b"yes, in other words")
    }
}

// Each key behind a space, with its string and its deadline.
fn keys_of(alloc: Global, space: &Space) -> Result<Bytes, NoMemory> {
    let mut out = Bytes::new(alloc);
    for key in space.keys()?.as_slice() {
        out.append(b" ")?;
        out.append(key.as_slice())?;
        out.append(b":")?;
        if let Some(entry) = space.get(key.as_slice()) {
            put_entry(entry, &mut out)?;
        }
    }
    Ok(out)
}

fn put_entry(entry: &Entry, out: &mut Bytes) -> Result<(), NoMemory> {
    if let Value::Str(text) = &entry.value {
        out.append(text.as_slice())?;
    }
    if let Some(deadline) = entry.deadline {
        out.append(b"@")?;
        write_decimal(deadline, out)?;
    }
    Ok(())
}
