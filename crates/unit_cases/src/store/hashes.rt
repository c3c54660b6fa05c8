use crate::answers::{
    put_count, put_done, put_end, put_flag, put_found, put_item, put_new, put_taken, put_text,
};
use crate::words::place;
use ks_value::HashValue;
use rs_base::{Bytes, NoMemory, escape};
use std::alloc::Global;

/// A hash, and the copy that was made last.
#[derive(Drop)]
pub struct Hashes {
    hash: HashValue,
    copy: HashValue,
}

impl Hashes {
    pub fn new(alloc: Global) -> Hashes {
        Hashes {
            hash: HashValue::new(alloc),
            copy: HashValue::new(alloc),
        }
    }

    pub fn answer(
        &mut self,
        name: &[u8],
        args: &[Bytes],
        out: &mut Bytes,
    ) -> Result<bool, NoMemory> {
        match (name, args) {
            (_, []) => self.answer_alone(name, out),
            (_, [field]) => self.answer_of(name, field, out),
            (b"set", [field, value]) => self.set(field, value, out),
            _ => Ok(false),
        }
    }

    fn set(&mut self, field: &Bytes, value: &Bytes, out: &mut Bytes) -> Result<bool, NoMemory> {
        let is_new = self.hash.set(field.clone()?, value.clone()?)?;
        put_new(is_new, out)
    }

    fn answer_of(&mut self, name: &[u8], field: &Bytes, out: &mut Bytes) -> Result<bool, NoMemory> {
        match name {
            b"get" => put_found(self.hash.get(field.as_slice()), out),
            b"remove" => put_taken(self.hash.remove(field.as_slice()), out),
            _ => self.answer_at(name, field, out),
        }
    }

    fn answer_at(&self, name: &[u8], at: &Bytes, out: &mut Bytes) -> Result<bool, NoMemory> {
        let Some(at) = place(at) else {
            return Ok(false);
        };
        match name {
            b"field" => put_text(self.hash.field(at), out),
            b"value" => put_found(self.hash.value(at), out),
            _ => Ok(false),
        }
    }

    fn answer_alone(&mut self, name: &[u8], out: &mut Bytes) -> Result<bool, NoMemory> {
        match name {
            b"len" => put_count(self.hash.len(), out),
            b"is_empty" => put_flag(self.hash.is_empty(), out),
            b"all" => put_all(&self.hash, out),
            b"copy" => {
                self.copy = self.hash.copy()?;
                put_done(out)
            }
            b"is_copy" => put_flag(self.hash == self.copy, out),
            _ => Ok(false),
        }
    }
}

fn put_all(hash: &HashValue, out: &mut Bytes) -> Result<bool, NoMemory> {
    for (field, value) in hash.iter() {
        put_item(field, out)?;
        out.push(b'=')?;
        escape(value.as_slice(), out)?;
    }
    put_end(out)
}
