use crate::answers::{put_count, put_done, put_end, put_flag, put_found, put_item, put_taken};
use crate::words::place;
use ks_value::ListValue;
use rs_base::{Bytes, NoMemory};
use std::alloc::Global;

/// A list, and the copy that was made last.
#[derive(Drop)]
pub struct Lists {
    list: ListValue,
    copy: ListValue,
}

impl Lists {
    pub fn new(alloc: Global) -> Lists {
        Lists {
            list: ListValue::new(alloc),
            copy: ListValue::new(alloc),
        }
    }

    pub fn answer(
        &mut self,
        name: &[u8],
        args: &[Bytes],
        out: &mut Bytes,
    ) -> Result<bool, NoMemory> {
        match (name, args) {
            (_, []) => self.answer_alone(name, out),
            (b"get", [at]) => self.get(at, out),
            (b"remove", [at]) => self.remove(at, out),
            (_, [item]) => self.push(name, item, out),
            (b"set", [at, item]) => self.set(at, item, out),
            _ => Ok(false),
        }
    }

    fn push(&mut self, name: &[u8], item: &Bytes, out: &mut Bytes) -> Result<bool, NoMemory> {
        match name {
            b"push_front" => self.list.push_front(item.clone()?)?,
            b"push_back" => self.list.push_back(item.clone()?)?,
            _ => return Ok(false),
        }
        put_done(out)
    }

    fn get(&self, at: &Bytes, out: &mut Bytes) -> Result<bool, NoMemory> {
        match place(at) {
            Some(at) => put_found(self.list.get(at), out),
            None => Ok(false),
        }
    }

    fn remove(&mut self, at: &Bytes, out: &mut Bytes) -> Result<bool, NoMemory> {
        match place(at) {
            Some(at) => put_taken(self.list.remove(at), out),
            None => Ok(false),
        }
    }

    fn set(&mut self, at: &Bytes, item: &Bytes, out: &mut Bytes) -> Result<bool, NoMemory> {
        match place(at) {
            Some(at) => put_taken(self.list.set(at, item.clone()?), out),
            None => Ok(false),
        }
    }

    fn answer_alone(&mut self, name: &[u8], out: &mut Bytes) -> Result<bool, NoMemory> {
        match name {
            b"pop_front" => put_taken(self.list.pop_front(), out),
            b"pop_back" => put_taken(self.list.pop_back(), out),
            b"copy" => {
                self.copy = self.list.copy()?;
                put_done(out)
            }
            _ => self.ask(name, out),
        }
    }

    fn ask(&self, name: &[u8], out: &mut Bytes) -> Result<bool, NoMemory> {
        match name {
            b"len" => put_count(self.list.len(), out),
            b"is_empty" => put_flag(self.list.is_empty(), out),
            b"all" => put_all(&self.list, out),
            b"is_copy" => put_flag(self.list == self.copy, out),
            _ => Ok(false),
        }
    }
}

fn put_all(list: &ListValue, out: &mut Bytes) -> Result<bool, NoMemory> {
    for item in list.iter() {
        put_item(item.as_slice(), out)?;
    }
    put_end(out)
}
