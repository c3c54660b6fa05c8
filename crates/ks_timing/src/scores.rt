use crate::items::{scattered, text};
use ks_zset::Zset;
use rs_whole::Whole;
use std::alloc::Global;

/// Gives members scores in scattered order, and counts those that are new.
pub fn fill(alloc: Global, set: &mut Zset, items: u64) -> Option<u64> {
    let mut added = 0u64;
    for i in 0..items {
        let score = Whole::new(i64::try_from(scattered(i)).ok()?)?;
        let old = set.insert(text(alloc, i).ok()?, score).ok()?;
        if old.is_none() {
            added = added.saturating_add(1);
        }
    }
    Some(added)
}

/// Asks for the rank of each member, and counts those that have one.
pub fn ranks(alloc: Global, set: &Zset, items: u64) -> Option<u64> {
    let mut found = 0u64;
    for i in 0..items {
        let member = text(alloc, i).ok()?;
        if set.rank(member.as_slice()).is_some() {
            found = found.saturating_add(1);
        }
    }
    Some(found)
}
