use crate::answers::{put_count, put_done, put_end, put_flag, put_gap};
use crate::words::{number, place};
use ks_tree::TreeList;
use rs_base::{Bytes, NoMemory, write_decimal};
use std::alloc::Global;

/// A tree of numbers.
#[derive(Drop)]
pub struct Trees {
    tree: TreeList<u64>,
}

impl Trees {
    pub fn new(alloc: Global) -> Trees {
        Trees {
            tree: TreeList::new(alloc),
        }
    }

    pub fn answer(
        &mut self,
        name: &[u8],
        args: &[Bytes],
        out: &mut Bytes,
    ) -> Result<bool, NoMemory> {
        match (name, args) {
            (b"insert", [at, item]) => self.insert(at, item, out),
            (b"remove", [at]) => self.remove(at, out),
            (b"get", [at]) => self.get(at, out),
            (b"below", [bound]) => self.below(bound, out),
            (b"range", [from, to]) => self.range(from, to, out),
            (_, []) => self.ask(name, out),
            _ => Ok(false),
        }
    }

    fn insert(&mut self, at: &Bytes, item: &Bytes, out: &mut Bytes) -> Result<bool, NoMemory> {
        let (Some(at), Some(item)) = (place(at), number(item)) else {
            return Ok(false);
        };
        if at > self.tree.len() {
            return Ok(false);
        }
        self.tree.insert(at, item)?;
        put_done(out)
    }

    fn remove(&mut self, at: &Bytes, out: &mut Bytes) -> Result<bool, NoMemory> {
        let Some(at) = place(at) else {
            return Ok(false);
        };
        if at >= self.tree.len() {
            return Ok(false);
        }
        put_number(Some(self.tree.remove(at)), out)
    }

    fn get(&self, at: &Bytes, out: &mut Bytes) -> Result<bool, NoMemory> {
        match place(at) {
            Some(at) => put_number(self.tree.get(at).copied(), out),
            None => Ok(false),
        }
    }

    fn below(&self, bound: &Bytes, out: &mut Bytes) -> Result<bool, NoMemory> {
        match number(bound) {
            Some(bound) => put_count(self.tree.partition_point(|item| *item < bound), out),
            None => Ok(false),
        }
    }

    fn range(&self, from: &Bytes, to: &Bytes, out: &mut Bytes) -> Result<bool, NoMemory> {
        let (Some(from), Some(to)) = (place(from), place(to)) else {
            return Ok(false);
        };
        put_range(&self.tree, from, to, out)
    }

    fn ask(&self, name: &[u8], out: &mut Bytes) -> Result<bool, NoMemory> {
        match name {
            b"len" => put_count(self.tree.len(), out),
            b"is_empty" => put_flag(self.tree.is_empty(), out),
            b"depth" => put_count(self.tree.depth(), out),
            b"copy" => put_range(&self.tree.clone()?, 0, usize::MAX, out),
            _ => Ok(false),
        }
    }
}

fn put_number(number: Option<u64>, out: &mut Bytes) -> Result<bool, NoMemory> {
    match number {
        Some(number) => write_decimal(number, out)?,
        None => out.append(b"none")?,
    }
    Ok(true)
}

fn put_range(
    tree: &TreeList<u64>,
    from: usize,
    to: usize,
    out: &mut Bytes,
) -> Result<bool, NoMemory> {
    for item in tree.copy_range(from, to)?.as_slice() {
        put_gap(out)?;
        write_decimal(*item, out)?;
    }
    put_end(out)
}
