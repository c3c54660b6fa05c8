//! The objects that a store is made of: a tree, a list, a hash, a set, a sorted set and a store itself. A word names
//! the object, which is empty behind an empty line, and the next word the call. Of the answers `ok` stands for nothing,
//! and `none` for `None` and for no items. Items are spelled by the escape, and pairs are written as `a=b`.
//!
//! Beside the calls of the library, `all` goes over the items, `copy` makes a copy, which `is_copy` compares with the
//! object, and `snapshot` in place of `space` asks the snapshot that was made last. `entry KIND ITEM ..` says whether
//! an entry is equal to its copy, and `laws` calls the theorems, which have no code.

mod entries;
mod hashes;
mod lists;
mod sets;
mod spaces;
mod trees;
mod zsets;

use crate::answers::put_laws;
use hashes::Hashes;
use ks_space::{purge_removes_the_keys_past_their_deadline, stores_with_equal_entries_are_equal};
use lists::Lists;
use rs_base::{Bytes, NoMemory};
use rs_cases::Subject;
use sets::Sets;
use spaces::Spaces;
use std::alloc::Global;
use trees::Trees;
use zsets::Zsets;

/// One object of each kind.
#[derive(Drop)]
pub struct Objects {
    alloc: Global,
    trees: Trees,
    lists: Lists,
    hashes: Hashes,
    sets: Sets,
    zsets: Zsets,
    spaces: Spaces,
}

impl Objects {
    /// Each without items.
    pub fn new(alloc: Global) -> Objects {
        Objects {
            alloc,
            trees: Trees::new(alloc),
            lists: Lists::new(alloc),
            hashes: Hashes::new(alloc),
            sets: Sets::new(alloc),
            zsets: Zsets::new(alloc),
            spaces: Spaces::new(alloc),
        }
    }

    fn answer_of(
        &mut self,
        kind: &[u8],
        name: &[u8],
        args: &[Bytes],
        out: &mut Bytes,
    ) -> Result<bool, NoMemory> {
        match kind {
            b"tree" => self.trees.answer(name, args, out),
            b"list" => self.lists.answer(name, args, out),
            b"hash" => self.hashes.answer(name, args, out),
            b"set" => self.sets.answer(name, args, out),
            b"zset" => self.zsets.answer(name, args, out),
            b"space" => self.spaces.answer(name, args, out),
            b"snapshot" => self.spaces.answer_of_snapshot(name, args, out),
            b"entry" => entries::answer(self.alloc, name, args, out),
            _ => Ok(false),
        }
    }
}

impl Subject for Objects {
    fn answer(&mut self, name: &[u8], args: &[Bytes], out: &mut Bytes) -> Result<bool, NoMemory> {
        match (name, args) {
            (b"laws", []) => {
                purge_removes_the_keys_past_their_deadline();
                stores_with_equal_entries_are_equal();
                put_laws(out)
            }
            (kind, [call, args @ ..]) => self.answer_of(kind, call.as_slice(), args, out),
            _ => Ok(false),
        }
    }

    fn begin(&mut self) {
        *self = Objects::new(self.alloc);
    }
}
