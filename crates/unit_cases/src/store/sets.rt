use crate::answers::{put_count, put_done, put_end, put_flag, put_item, put_new, put_text};
use crate::words::place;
use ks_value::SetValue;
use rs_base::{Bytes, NoMemory};
use std::alloc::Global;

/// A set, and the copy that was made last.
#[derive(Drop)]
pub struct Sets {
    set: SetValue,
    copy: SetValue,
}

impl Sets {
    pub fn new(alloc: Global) -> Sets {
        Sets {
            set: SetValue::new(alloc),
            copy: SetValue::new(alloc),
        }
    }

    pub fn answer(
        &mut self,
        name: &[u8],
        args: &[Bytes],
        out: &mut Bytes,
    ) -> Result<bool, NoMemory> {
        match (name, args) {
            (_, []) => self.answer_alone(name, out),
            (b"at", [at]) => self.at(at, out),
            (_, [member]) => self.answer_of(name, member, out),
            _ => Ok(false),
        }
    }

    fn at(&self, at: &Bytes, out: &mut Bytes) -> Result<bool, NoMemory> {
        match place(at) {
            Some(at) => put_text(self.set.at(at), out),
            None => Ok(false),
        }
    }

    fn answer_of(
        &mut self,
        name: &[u8],
        member: &Bytes,
        out: &mut Bytes,
    ) -> Result<bool, NoMemory> {
        match name {
            b"insert" => {
                let is_new = self.set.insert(member.clone()?)?;
                put_new(is_new, out)
            }
            b"remove" => put_flag(self.set.remove(member.as_slice()), out),
            b"contains" => put_flag(self.set.contains(member.as_slice()), out),
            _ => Ok(false),
        }
    }

    fn answer_alone(&mut self, name: &[u8], out: &mut Bytes) -> Result<bool, NoMemory> {
        match name {
            b"len" => put_count(self.set.len(), out),
            b"is_empty" => put_flag(self.set.is_empty(), out),
            b"all" => put_all(&self.set, out),
            b"copy" => {
                self.copy = self.set.copy()?;
                put_done(out)
            }
            b"is_copy" => put_flag(self.set == self.copy, out),
            _ => Ok(false),
        }
    }
}

fn put_all(set: &SetValue, out: &mut Bytes) -> Result<bool, NoMemory> {
    for member in set.iter() {
        put_item(member, out)?;
    }
    put_end(out)
}
