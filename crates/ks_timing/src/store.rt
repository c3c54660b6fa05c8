ghost use Rattle.std.specs.Prelude.{IfSome, IfOk};
ghost use Rattle.ks_space.specs.Store.{IsKept, IsDeadline};

use crate::items::{scattered, text};
use ks_space::{Entry, Space, Value};
use rs_base::NoMemory;
use std::alloc::Global;

/// Puts keys in scattered order, each with a string, and counts those that are new.
pub fn put(alloc: Global, space: &mut Space, items: u64) -> Option<u64> {
    let mut added = 0u64;
    for i in 0..items {
        let key = text(alloc, scattered(i)).ok()?;
        let entry = string(alloc, i, None).ok()?;
        if space.put(key, entry).ok()?.is_none() {
            added = added.saturating_add(1);
        }
    }
    Some(added)
}

/// Puts keys in scattered order, the key of turn i with the deadline i, below 2^32.
pub fn put_with_deadlines(alloc: Global, space: &mut Space, items: u64) -> Option<()> {
    for i in 0..items {
        let key = text(alloc, scattered(i)).ok()?;
        let entry = string(alloc, i, Some(i % 4_294_967_296)).ok()?;
        space.put(key, entry).ok()?;
    }
    Some(())
}

fn string(alloc: Global, i: u64, deadline: Option<u64>) -> Result<Entry, NoMemory>
    requires { IfSome deadline IsDeadline }
    ensures { IfOk result IsKept }
{
    Ok(Entry {
        value: Value::Str(text(alloc, i)?),
        deadline,
    })
}

/// Takes each key, and counts those that were there.
pub fn take(alloc: Global, space: &mut Space, items: u64) -> Option<u64> {
    let mut taken = 0u64;
    for i in 0..items {
        let key = text(alloc, scattered(i)).ok()?;
        if space.take(key.as_slice()).ok()?.is_some() {
            taken = taken.saturating_add(1);
        }
    }
    Some(taken)
}

/// Purges at ten milliseconds more each round, and counts the keys that left.
pub fn purge(space: &mut Space, rounds: u64) -> Option<u64> {
    let mut purged = 0u64;
    for round in 0..rounds {
        let time = round.saturating_mul(10).saturating_add(10);
        let keys = space.purge(time).ok()?;
        purged = purged.saturating_add(keys.len() as u64);
    }
    Some(purged)
}
