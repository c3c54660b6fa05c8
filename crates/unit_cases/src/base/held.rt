use crate::answers::{put_flag, put_words};
use crate::words::{copied, place};
use rs_base::{Bytes, NoMemory, Seq, Words, escape, write_decimal};
use std::alloc::Global;

/// A string of bytes with a copy of what it once was, and words.
#[derive(Drop)]
pub struct Held {
    alloc: Global,
    bytes: Bytes,
    kept: Bytes,
    words: Words,
}

impl Held {
    pub fn new(alloc: Global) -> Held {
        Held {
            alloc,
            bytes: Bytes::new(alloc),
            kept: Bytes::new(alloc),
            words: Words::new(alloc),
        }
    }

    /// The calls of strings of bytes and of words.
    pub fn answer(
        &mut self,
        name: &[u8],
        args: &[Bytes],
        out: &mut Bytes,
    ) -> Result<bool, NoMemory> {
        Ok(self.answer_bytes(name, args, out)? || self.answer_words(name, args, out)?)
    }

    fn answer_bytes(
        &mut self,
        name: &[u8],
        args: &[Bytes],
        out: &mut Bytes,
    ) -> Result<bool, NoMemory> {
        match (name, args) {
            (b"bytes", []) => {}
            (b"room", [number]) => return self.make_room(number, out),
            (b"push", [text]) => self.push_all(text.as_slice())?,
            (b"append", [text]) => self.bytes.append(text.as_slice())?,
            (b"keep", []) => self.kept = self.bytes.clone()?,
            (b"kept", []) => {
                put_bytes(&self.kept, out)?;
                return Ok(true);
            }
            (b"moved", []) => {
                let bytes = Bytes::from_slice(self.alloc, self.bytes.as_slice())?;
                self.bytes = Bytes::from_vec(bytes.into_vec());
            }
            _ => return Ok(false),
        }
        put_bytes(&self.bytes, out)?;
        Ok(true)
    }

    fn make_room(&mut self, number: &Bytes, out: &mut Bytes) -> Result<bool, NoMemory> {
        let Some(room) = place(number) else {
            return Ok(false);
        };
        self.bytes = Bytes::with_capacity(self.alloc, room)?;
        put_bytes(&self.bytes, out)?;
        Ok(true)
    }

    fn push_all(&mut self, text: &[u8]) -> Result<(), NoMemory> {
        for byte in text {
            self.bytes.push(*byte)?;
        }
        Ok(())
    }

    fn answer_words(
        &mut self,
        name: &[u8],
        args: &[Bytes],
        out: &mut Bytes,
    ) -> Result<bool, NoMemory> {
        match (name, args) {
            (b"words", []) => put_list(&self.words, out)?,
            (b"word", [text]) => {
                self.words.push(text.clone()?)?;
                put_list(&self.words, out)?;
            }
            (b"nth", [number]) => return self.put_nth(number, out),
            (b"same", words) => {
                let others = copied(self.alloc, words)?;
                return put_flag(self.words == others, out);
            }
            (b"copy", []) => {
                let copy = self.words.clone()?;
                return put_flag(Seq::from_vec(copy.into_vec()) == self.words, out);
            }
            _ => return Ok(false),
        }
        Ok(true)
    }

    fn put_nth(&self, number: &Bytes, out: &mut Bytes) -> Result<bool, NoMemory> {
        let Some(at) = place(number) else {
            return Ok(false);
        };
        match self.words.get(at) {
            Some(word) => escape(word.as_slice(), out)?,
            None => out.append(b"None")?,
        }
        Ok(true)
    }
}

fn put_bytes(bytes: &Bytes, out: &mut Bytes) -> Result<(), NoMemory> {
    if bytes.is_empty() {
        return out.append(b"empty");
    }
    write_decimal(bytes.len() as u64, out)?;
    out.append(b" ")?;
    escape(bytes.as_slice(), out)
}

fn put_list(words: &Words, out: &mut Bytes) -> Result<(), NoMemory> {
    if words.is_empty() {
        return out.append(b"empty");
    }
    write_decimal(words.len() as u64, out)?;
    out.append(b" ")?;
    put_words(words.as_slice(), out)
}
