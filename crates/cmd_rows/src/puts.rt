ghost use Rattle.std.specs.Prelude.{◌≡◌, ◌↔◌, [], Some, None, IsTrue, IfOk};
ghost use Rattle.std.specs.FinMap as finite;
ghost use Rattle.std.specs.List.{AllByRecursion};
ghost use Rattle.ks_value.specs.Fields.{value_of};
ghost use Rattle.ks_space.specs.Store.{IsShort};
ghost use Rattle.fx_record.specs.Records.{applied, string_entry};
ghost use Rattle.cmd_rows.specs.Strings.{sets_in, sets_of};
ghost use Rattle.cmd_rows.specs.Sets.{IsSet, Agrees, strings_set};
ghost use Rattle.cmd_rows.specs.Given.{records_of, IsTold};

use crate::Changes;
use fx_record::{Effects, Record};
use ks_space::{Entry, Space, Value};
use ks_value::HashValue;
use rs_base::{Bytes, NoMemory, Words};
use std::alloc::Global;
use std::collections::VecDeque;

/// A SET for each pair of a key and a string behind the name, and whether they lead back to the same store.
pub fn sets(space: &Space, words: &Words) -> Result<Changes, NoMemory>
    requires { AllByRecursion IsShort words.now }
    ensures records { IfOk result (λ changes. records_of changes ≡ sets_in words.now) }
    ensures told { IfOk result (λ changes. IsTold space.now changes) }
{
    let alloc = space.alloc();
    let sets = sets_in(alloc, words)?;
    let leads_back = lead_back(alloc, space, &sets)?;
    Ok(Changes::Many(sets, leads_back))
}

fn sets_in(alloc: Global, words: &Words) -> Result<Effects, NoMemory>
    ensures { IfOk result (λ sets. sets ≡ sets_in words.now) }
{
    let mut left = VecDeque::from_vec(copied(words)?.into_vec());
    let Some(_name) = left.pop_front() else {
        return Ok(Effects::new(alloc));
    };
    let sets = sets_of(alloc, left)?;
    Ok(sets)
}

fn copied(words: &Words) -> Result<Words, NoMemory>
    ensures { IfOk result (λ copy. copy ≡ words.now) }
{
    Ok(words.clone()?)
}

fn sets_of(alloc: Global, words: VecDeque<Bytes>) -> Result<Effects, NoMemory>
    ensures { IfOk result (λ sets. sets ≡ sets_of words.items) }
{
    let mut left = words;
    let mut sets = Effects::new(alloc);
    while let Some(key) = left.pop_front() {
        let Some(value) = left.pop_front() else {
            break;
        };
        sets.push(Record::Set { key, value })?;
    }
    Ok(sets)
}

// Whether the SETs leave the store as it is. Each key is compared with what it is set to last.
fn lead_back(alloc: Global, space: &Space, sets: &Effects) -> Result<bool, NoMemory>
    requires { AllByRecursion IsSet sets.now }
    ensures { IfOk result (λ back. IsTrue back ↔ (applied space.now sets.now ≡ space.now)) }
{
    let last = last_strings(alloc, sets)?;
    Ok(all_agree(&last, space, sets))
}

// What each key is set to last.
fn last_strings(alloc: Global, sets: &Effects) -> Result<HashValue, NoMemory>
    ensures { IfOk result (λ last. last ≡ strings_set [] sets.now) }
{
    let mut last = HashValue::new(alloc);
    for set in sets.as_slice() {
        if let Record::Set { key, value } = set {
            last.set(key.clone()?, value.clone()?)?;
        }
    }
    Ok(last)
}

fn all_agree(last: &HashValue, space: &Space, sets: &Effects) -> bool
    ensures { IsTrue result ↔ AllByRecursion (Agrees last.now space.now) sets.now }
{
    for set in sets.as_slice() {
        if !agrees(last, space, set) {
            return false;
        }
    }
    true
}

fn agrees(last: &HashValue, space: &Space, set: &Record) -> bool
    ensures { IsTrue result ↔ Agrees last.now space.now set.now }
{
    match set {
        Record::Set { key, value } => {
            if is_last(last, key, value) {
                has_string(space, key, value)
            } else {
                true
            }
        }
        _ => true,
    }
}

fn is_last(last: &HashValue, key: &Bytes, value: &Bytes) -> bool
    ensures { IsTrue result ↔ (value_of last.now key.now ≡ Some value.now) }
{
    match last.get(key.as_slice()) {
        Some(text) => is_same(text, value),
        None => false,
    }
}

// Whether a key has this string, without a deadline.
fn has_string(space: &Space, key: &Bytes, value: &Bytes) -> bool
    ensures { IsTrue result ↔ (finite.get space.now key.now ≡ Some (string_entry value.now None)) }
{
    match space.get(key.as_slice()) {
        Some(entry) => is_string(entry, value),
        None => false,
    }
}

fn is_string(entry: &Entry, value: &Bytes) -> bool
    ensures { IsTrue result ↔ (entry.now ≡ string_entry value.now None) }
{
    match &entry.value {
        Value::Str(text) => entry.deadline.is_none() && is_same(text, value),
        _ => false,
    }
}

fn is_same(one: &Bytes, other: &Bytes) -> bool
    ensures { IsTrue result ↔ (one.now ≡ other.now) }
{
    one == other
}
