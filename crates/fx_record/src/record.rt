ghost use Rattle.std.specs.Prelude.{◌≡◌, map, IfOk, IfSome, decimal};
ghost use Rattle.std.specs.Str.{bytes_eq};
ghost use Rattle.fx_record.specs.RecordWords.{words_of, record_of, record_shaped, IsRecord, deadline_of};
ghost use Rattle.fx_record.specs.RecordWords.{alone, with_one, with_two, with_three, with_four};

use crate::are_within_limits;
use rs_base::{Bytes, NoMemory, Seq, Words, parse_decimal, write_decimal};
use std::alloc::Global;
use std::collections::VecDeque;

/// What a command did to the store: its effect, with no time and no chance left in it (Redis manual, replication of
/// effects).
#[derive(Debug, Drop, PartialEq, Eq)]
pub enum Record {
    /// The key holds this string, without a deadline.
    Set {
        key: Bytes,
        value: Bytes,
    },
    /// The key holds this string until the deadline, in milliseconds since the Unix epoch.
    SetUntil {
        key: Bytes,
        value: Bytes,
        deadline: u64,
    },
    /// The key holds this string, and keeps its deadline, if it has one.
    SetKeeping {
        key: Bytes,
        value: Bytes,
    },
    /// The key leaves.
    Del {
        key: Bytes,
    },
    /// The key, if it is there, has this deadline.
    ExpireAt {
        key: Bytes,
        deadline: u64,
    },
    /// The key, if it is there, has no deadline.
    Persist {
        key: Bytes,
    },
    /// What the one key holds, if it is there, goes to the other one with its deadline, in place of what that one held.
    Rename {
        from: Bytes,
        to: Bytes,
    },
    /// All keys leave.
    FlushAll,
}

/// Effect records in order.
pub type Effects = Seq<Record>;

/// The last deadline that there may be, in milliseconds since the Unix epoch.
pub const MAX_DEADLINE: u64 = 9_223_372_036_854_775_807;

impl Record {
    /// The record that these words are. `None` exactly where they are none: another name, in letters of another case,
    /// another number of words, a deadline that is no decimal from 0 to 2^63-1, or words beyond the limits of a
    /// command.
    pub fn from_words(words: Words) -> Option<Record>
        ensures value { result ≡ record_of words }
        ensures within { IfSome result IsRecord }
    {
        if are_within_limits(&words) {
            read(words)
        } else {
            None
        }
    }

    /// The words of the record.
    pub fn to_words(&self, alloc: Global) -> Result<Words, NoMemory>
        ensures { IfOk result (λ words. words ≡ words_of self.now) }
    {
        match self {
            Record::Set { key, value } => {
                copied(alloc, &[b"SET", key.as_slice(), value.as_slice()])
            }
            Record::SetUntil {
                key,
                value,
                deadline,
            } => {
                let number = spelled(alloc, *deadline)?;
                let words = [
                    b"SET".as_slice(),
                    key.as_slice(),
                    value.as_slice(),
                    b"PXAT",
                    number.as_slice(),
                ];
                copied(alloc, &words)
            }
            Record::SetKeeping { key, value } => copied(
                alloc,
                &[b"SET", key.as_slice(), value.as_slice(), b"KEEPTTL"],
            ),
            Record::Del { key } => copied(alloc, &[b"DEL", key.as_slice()]),
            Record::ExpireAt { key, deadline } => {
                let number = spelled(alloc, *deadline)?;
                copied(alloc, &[b"PEXPIREAT", key.as_slice(), number.as_slice()])
            }
            Record::Persist { key } => copied(alloc, &[b"PERSIST", key.as_slice()]),
            Record::Rename { from, to } => {
                copied(alloc, &[b"RENAME", from.as_slice(), to.as_slice()])
            }
            Record::FlushAll => copied(alloc, &[b"FLUSHALL"]),
        }
    }
}

// The record that words within the limits are.
fn read(words: Words) -> Option<Record>
    ensures { result ≡ record_shaped words }
{
    let mut left = VecDeque::from_vec(words.into_vec());
    let name = left.pop_front()?;
    let Some(key) = left.pop_front() else {
        return alone(&name);
    };
    let Some(word) = left.pop_front() else {
        return with_one(&name, key);
    };
    let Some(option) = left.pop_front() else {
        return with_two(&name, key, word);
    };
    let number = left.pop_front();
    if !left.is_empty() {
        return None;
    }
    match number {
        None => with_three(&name, key, word, &option),
        Some(number) => with_four(&name, key, word, &option, &number),
    }
}

fn is_named(word: &Bytes, name: &[u8]) -> bool
    ensures { result ≡ bytes_eq word.now name.now }
{
    word.as_slice() == name
}

fn alone(name: &Bytes) -> Option<Record>
    ensures { result ≡ alone name.now }
{
    if is_named(name, b"FLUSHALL") {
        Some(Record::FlushAll)
    } else {
        None
    }
}

fn with_one(name: &Bytes, key: Bytes) -> Option<Record>
    ensures { result ≡ with_one name.now key }
{
    if is_named(name, b"DEL") {
        Some(Record::Del { key })
    } else if is_named(name, b"PERSIST") {
        Some(Record::Persist { key })
    } else {
        None
    }
}

fn with_two(name: &Bytes, key: Bytes, word: Bytes) -> Option<Record>
    ensures { result ≡ with_two name.now key word }
{
    if is_named(name, b"SET") {
        Some(Record::Set { key, value: word })
    } else if is_named(name, b"RENAME") {
        Some(Record::Rename {
            from: key,
            to: word,
        })
    } else if is_named(name, b"PEXPIREAT") {
        let deadline = deadline_of(&word)?;
        Some(Record::ExpireAt { key, deadline })
    } else {
        None
    }
}

fn with_three(name: &Bytes, key: Bytes, value: Bytes, option: &Bytes) -> Option<Record>
    ensures { result ≡ with_three name.now key value option.now }
{
    if is_named(name, b"SET") && is_named(option, b"KEEPTTL") {
        Some(Record::SetKeeping { key, value })
    } else {
        None
    }
}

fn with_four(
    name: &Bytes,
    key: Bytes,
    value: Bytes,
    option: &Bytes,
    number: &Bytes,
) -> Option<Record>
    ensures { result ≡ with_four name.now key value option.now number.now }
{
    if !is_named(name, b"SET") || !is_named(option, b"PXAT") {
        return None;
    }
    let deadline = deadline_of(number)?;
    Some(Record::SetUntil {
        key,
        value,
        deadline,
    })
}

fn deadline_of(word: &Bytes) -> Option<u64>
    ensures { result ≡ deadline_of word.now }
{
    let deadline = parse_decimal(word.as_slice())?;
    if deadline <= MAX_DEADLINE {
        Some(deadline)
    } else {
        None
    }
}

fn spelled(alloc: Global, deadline: u64) -> Result<Bytes, NoMemory>
    ensures { IfOk result (λ text. text ≡ decimal deadline) }
{
    let mut text = Bytes::new(alloc);
    write_decimal(deadline, &mut text)?;
    Ok(text)
}

fn copied(alloc: Global, words: &[&[u8]]) -> Result<Words, NoMemory>
    ensures { IfOk result (λ copy. copy ≡ map (λ word. word.now) words.now) }
{
    let mut copy = Words::new(alloc);
    for word in words {
        copy.push(Bytes::from_slice(alloc, word)?)?;
    }
    Ok(copy)
}
