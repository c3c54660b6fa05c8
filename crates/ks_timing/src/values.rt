use crate::items::{scattered, text};
use ks_value::{HashValue, ListValue, SetValue};
use std::alloc::Global;

/// Pushes items at both ends of a list by turns, looks each up by its place, and pops them by turns. Counts those
/// that were found and those that were popped, two an item.
pub fn list(alloc: Global, items: u64) -> Option<u64> {
    let mut list = pushed(alloc, items)?;
    let found = found_at_places(&list);
    let popped = popped(&mut list, items);
    Some(found.saturating_add(popped))
}

fn pushed(alloc: Global, items: u64) -> Option<ListValue> {
    let mut list = ListValue::new(alloc);
    for i in 0..items {
        let item = text(alloc, i).ok()?;
        if i % 2 == 0 {
            list.push_back(item).ok()?;
        } else {
            list.push_front(item).ok()?;
        }
    }
    Some(list)
}

fn found_at_places(list: &ListValue) -> u64 {
    let mut found = 0u64;
    for at in 0..list.len() {
        if list.get(at).is_some() {
            found = found.saturating_add(1);
        }
    }
    found
}

fn popped(list: &mut ListValue, items: u64) -> u64 {
    let mut popped = 0u64;
    for i in 0..items {
        let item = if i % 2 == 0 {
            list.pop_front()
        } else {
            list.pop_back()
        };
        if item.is_some() {
            popped = popped.saturating_add(1);
        }
    }
    popped
}

/// Sets fields of a hash in scattered order, and looks each up. Counts those that were found, one an item.
pub fn hash(alloc: Global, items: u64) -> Option<u64> {
    let mut hash = HashValue::new(alloc);
    for i in 0..items {
        let field = text(alloc, scattered(i)).ok()?;
        let value = text(alloc, i).ok()?;
        hash.set(field, value).ok()?;
    }
    found_fields(alloc, &hash, items)
}

fn found_fields(alloc: Global, hash: &HashValue, items: u64) -> Option<u64> {
    let mut found = 0u64;
    for i in 0..items {
        let field = text(alloc, scattered(i)).ok()?;
        if hash.get(field.as_slice()).is_some() {
            found = found.saturating_add(1);
        }
    }
    Some(found)
}

/// Inserts members into a set in scattered order, looks each up by its place, and removes them. Counts those that
/// were found and those that were removed, two an item.
pub fn set(alloc: Global, items: u64) -> Option<u64> {
    let mut set = SetValue::new(alloc);
    for i in 0..items {
        let member = text(alloc, scattered(i)).ok()?;
        set.insert(member).ok()?;
    }
    let found = found_members(&set);
    let removed = removed(alloc, &mut set, items)?;
    Some(found.saturating_add(removed))
}

fn found_members(set: &SetValue) -> u64 {
    let mut found = 0u64;
    for at in 0..set.len() {
        if set.at(at).is_some() {
            found = found.saturating_add(1);
        }
    }
    found
}

fn removed(alloc: Global, set: &mut SetValue, items: u64) -> Option<u64> {
    let mut removed = 0u64;
    for i in 0..items {
        let member = text(alloc, scattered(i)).ok()?;
        if set.remove(member.as_slice()) {
            removed = removed.saturating_add(1);
        }
    }
    Some(removed)
}
