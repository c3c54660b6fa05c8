ghost use Rattle.std.specs.Prelude.{◌≡◌, ◌<◌, ◌^◌, is_some, IfSome};
ghost use Rattle.ks_space.specs.Store.{IsDeadline, deadline_at};
ghost use Rattle.cmd_rows.specs.Outcomes.{with_two_words};
ghost use Rattle.cmd_rows.specs.Given.{Follows};
ghost use Rattle.cmd_keys.specs.KeyRows.{expire_row, persist_row, seconds, told, told_of, deadline_row};

use crate::counting::is_there;
use cmd_args::{CmdId, KeyCmd};
use cmd_rows::{Expiry, Given, Stop, World, expire_at, expire_time, number, word};
use fx_record::Record;
use resp_reply::Reply;
use rs_base::{Bytes, Words};

/// EXPIRE, PEXPIRE, EXPIREAT and PEXPIREAT: the key, if it is there, expires at a time; where that is not later than
/// now, it leaves at once. Answers 1, or 0 where the key is absent. Refused where the second word spells no integer, or
/// the time is past 64 signed bits.
pub fn expire(
    world: &World<'_>,
    command: KeyCmd,
    kind: Expiry,
    words: &Words,
) -> Result<Given, Stop>
    ensures { Follows world.now.store (with_two_words words.now (expire_row world.now command kind)) result }
{
    let key = word(words, 1)?;
    let n = number(word(words, 2)?)?;
    let at = expire_time(CmdId::Keys(command), kind, world.time, n)?;
    if !is_there(world, key) {
        return Ok(Given::reply(Reply::Int(0)));
    }
    let expires = expire_at(key.clone()?, world.time, at);
    Ok(Given::one(Reply::Int(1), expires))
}

/// PERSIST: the key has no deadline any longer. Answers 1 where it had one, else 0.
pub fn persist(world: &World<'_>, key: &Bytes) -> Result<Given, Stop>
    ensures { Follows world.now.store (persist_row world.now key.now) result }
{
    if !has_deadline(world, key) {
        return Ok(Given::reply(Reply::Int(0)));
    }
    Ok(Given::one(Reply::Int(1), Record::Persist { key: key.clone()? }))
}

fn has_deadline(world: &World<'_>, key: &Bytes) -> bool
    ensures { result ≡ is_some (deadline_at world.now.store key.now) }
{
    match world.space.get(key.as_slice()) {
        Some(entry) => entry.deadline.is_some(),
        None => false,
    }
}

/// What is asked of a deadline.
#[derive(Clone, Copy, Debug, PartialEq, Eq)]
pub enum Asked {
    /// How many milliseconds are left.
    MillisLeft,
    /// How many seconds are left, to the nearest.
    SecondsLeft,
    /// When it is, in milliseconds since the Unix epoch.
    Millisecond,
    /// When it is, in seconds since the Unix epoch, to the nearest.
    Second,
}

/// PTTL, TTL, PEXPIRETIME and EXPIRETIME: what is asked of the deadline of a key. -2 where the key is absent, and -1
/// where it has no deadline.
pub fn deadline(world: &World<'_>, asked: Asked, key: &Bytes) -> Result<Given, Stop>
    ensures { Follows world.now.store (deadline_row world.now asked key.now) result }
{
    let told = match world.space.get(key.as_slice()) {
        Some(entry) => told_of(asked, world.time, entry.deadline),
        None => -2,
    };
    Ok(Given::reply(Reply::Int(told)))
}

fn told_of(asked: Asked, now: u64, deadline: Option<u64>) -> i64
    requires { IfSome deadline IsDeadline }
    ensures { result ≡ told_of asked now deadline }
{
    match deadline {
        Some(at) => told(asked, now, at) as i64,
        None => -1,
    }
}

fn told(asked: Asked, now: u64, at: u64) -> u64
    requires { IsDeadline at }
    ensures told { result ≡ told asked now at }
    ensures within { result < 2 ^ 63 }
{
    match asked {
        Asked::MillisLeft => at.saturating_sub(now),
        Asked::SecondsLeft => seconds(at.saturating_sub(now)),
        Asked::Millisecond => at,
        Asked::Second => seconds(at),
    }
}

fn seconds(millis: u64) -> u64
    requires { IsDeadline millis }
    ensures { result ≡ seconds millis }
{
    (millis + 500) / 1000
}
