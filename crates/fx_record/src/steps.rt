ghost use Rattle.std.specs.Prelude.{◌≡◌, ◌↔◌, [], ◌∷◌, ◌++◌, Some, None, IsTrue, IfSome, OnOk};
ghost use Rattle.std.specs.FinMap as finite;
ghost use Rattle.ks_space.specs.Store.{IsKey, IsShort, IsDeadline, deadline_at, with_deadline};
ghost use Rattle.fx_record.specs.Records.{string_entry, renamed, apply};
ghost use Rattle.fx_record.specs.RecordWords.{IsRecord};
ghost use Rattle.fx_record.specs.Settled.{settled};

use crate::{Effects, Record};
use ks_space::{Entry, Space, Value};
use rs_base::{Bytes, NoMemory};

/// Does to the store what a record says. After `NoMemory` the store is only good for dropping.
pub fn apply(space: &mut Space, record: &Record) -> Result<(), NoMemory>
    requires { IsRecord «record».now }
    ensures { OnOk result (space.new ≡ apply space.old «record».now) }
{
    match record {
        Record::Set { key, value } => set(space, key, value, None),
        Record::SetUntil {
            key,
            value,
            deadline,
        } => set(space, key, value, Some(*deadline)),
        Record::SetKeeping { key, value } => set_keeping(space, key, value),
        Record::Del { key } => {
            space.take(key.as_slice())?;
            Ok(())
        }
        Record::ExpireAt { key, deadline } => expire(space, key, Some(*deadline)),
        Record::Persist { key } => expire(space, key, None),
        Record::Rename { from, to } => rename(space, from, to),
        Record::FlushAll => {
            space.clear();
            Ok(())
        }
    }
}

/// Does to the store what a record says, and adds the record to the effects, unless the store is as the record would
/// leave it already: then nothing is done or added. After `NoMemory` the store and the effects are only good for
/// dropping.
pub fn carry_out(space: &mut Space, effects: &mut Effects, record: Record) -> Result<(), NoMemory>
    requires { IsRecord «record» }
    ensures store { OnOk result (space.new ≡ apply space.old «record») }
    ensures effects { OnOk result (effects.new ≡ effects.old ++ settled space.old («record» ∷ [])) }
{
    if stays(space, &record) {
        return Ok(());
    }
    apply(space, &record)?;
    effects.push(record)
}

// Whether a record leaves the store as it is. Of all values only strings are compared.
fn stays(space: &Space, record: &Record) -> bool
    ensures { IsTrue result ↔ (apply space.now «record».now ≡ space.now) }
{
    match record {
        Record::Set { key, value } => has_string(space, key, value, None),
        Record::SetUntil {
            key,
            value,
            deadline,
        } => has_string(space, key, value, Some(*deadline)),
        Record::SetKeeping { key, value } => holds_string(space, key, value),
        Record::Del { key } => is_absent(space, key),
        Record::ExpireAt { key, deadline } => has_deadline(space, key, Some(*deadline)),
        Record::Persist { key } => has_deadline(space, key, None),
        Record::Rename { from, to } => is_absent(space, from) || is_same(from, to),
        Record::FlushAll => space.is_empty(),
    }
}

fn is_absent(space: &Space, key: &Bytes) -> bool
    ensures { IsTrue result ↔ (finite.get space.now key.now ≡ None) }
{
    space.get(key.as_slice()).is_none()
}

// Whether a key has this string, with this deadline, or none.
fn has_string(space: &Space, key: &Bytes, value: &Bytes, deadline: Option<u64>) -> bool
    ensures { IsTrue result ↔ (finite.get space.now key.now ≡ Some (string_entry value.now deadline)) }
{
    match space.get(key.as_slice()) {
        Some(entry) => is_string(entry, value, deadline),
        None => false,
    }
}

// Whether a key has this string, whatever its deadline.
fn holds_string(space: &Space, key: &Bytes, value: &Bytes) -> bool
    ensures { IsTrue result ↔ (finite.get space.now key.now
        ≡ Some (string_entry value.now (deadline_at space.now key.now))) }
{
    match space.get(key.as_slice()) {
        Some(entry) => is_string(entry, value, entry.deadline),
        None => false,
    }
}

fn is_string(entry: &Entry, value: &Bytes, deadline: Option<u64>) -> bool
    ensures { IsTrue result ↔ (entry.now ≡ string_entry value.now deadline) }
{
    match &entry.value {
        Value::Str(text) => is_same_deadline(entry.deadline, deadline) && is_same(text, value),
        _ => false,
    }
}

// Whether a key has this deadline, or none, already, or is absent.
fn has_deadline(space: &Space, key: &Bytes, deadline: Option<u64>) -> bool
    ensures { IsTrue result ↔ (with_deadline space.now key.now deadline ≡ space.now) }
{
    match space.get(key.as_slice()) {
        Some(entry) => is_same_deadline(entry.deadline, deadline),
        None => true,
    }
}

// `==` of two texts, with the fact that it decides.
fn is_same(one: &Bytes, other: &Bytes) -> bool
    ensures { IsTrue result ↔ (one.now ≡ other.now) }
{
    one == other
}

// `==` of two deadlines, with the fact that it decides.
fn is_same_deadline(one: Option<u64>, other: Option<u64>) -> bool
    ensures { IsTrue result ↔ (one ≡ other) }
{
    one == other
}

// Gives a key a string.
fn set(space: &mut Space, key: &Bytes, value: &Bytes, deadline: Option<u64>) -> Result<(), NoMemory>
    requires key { IsKey key.now }
    requires value { IsShort value.now }
    requires deadline { IfSome deadline IsDeadline }
    ensures { OnOk result (space.new ≡ finite.insert space.old key.now (string_entry value.now deadline)) }
{
    let entry = Entry {
        value: Value::Str(value.clone()?),
        deadline,
    };
    space.put(key.clone()?, entry)?;
    Ok(())
}

// Gives a key a string, and leaves it its deadline.
fn set_keeping(space: &mut Space, key: &Bytes, value: &Bytes) -> Result<(), NoMemory>
    requires key { IsKey key.now }
    requires value { IsShort value.now }
    ensures { OnOk result (space.new
        ≡ finite.insert space.old key.now (string_entry value.now (deadline_at space.old key.now))) }
{
    if is_absent(space, key) {
        return set(space, key, value, None);
    }
    space.replace_value(key.as_slice(), Value::Str(value.clone()?))?;
    Ok(())
}

// Gives a key that is there a deadline, or none.
fn expire(space: &mut Space, key: &Bytes, deadline: Option<u64>) -> Result<(), NoMemory>
    requires { IfSome deadline IsDeadline }
    ensures { OnOk result (space.new ≡ with_deadline space.old key.now deadline) }
{
    space.set_deadline(key.as_slice(), deadline)?;
    Ok(())
}

// Moves what a key holds to another key.
fn rename(space: &mut Space, from: &Bytes, to: &Bytes) -> Result<(), NoMemory>
    requires { IsKey to.now }
    ensures { OnOk result (space.new ≡ renamed space.old from.now to.now) }
{
    if let Some(entry) = space.take(from.as_slice())? {
        space.put(to.clone()?, entry)?;
    }
    Ok(())
}
