ghost use Rattle.std.specs.Prelude.{◌≡◌, ◌<◌, ◌^◌, ◌*ℤ◌, ◌+ℤ◌, pos, IfOk, option_and_then, option_map, Some, None};
ghost use Rattle.ks_space.specs.Store.{IsDeadline};
ghost use Rattle.cmd_rows.specs.Times.{moment, deadline, expire_time, set_until, expire_at};

use cmd_args::{CmdId, Refusal};
use fx_record::{MAX_DEADLINE, Record};
use rs_base::Bytes;

/// What a number of an expiry counts.
#[derive(Clone, Copy, Debug, PartialEq, Eq)]
pub enum Expiry {
    /// Seconds from now on: EX, EXPIRE.
    InSeconds,
    /// Milliseconds from now on: PX, PEXPIRE.
    InMillis,
    /// Seconds since the Unix epoch: EXAT, EXPIREAT.
    AtSecond,
    /// Milliseconds since the Unix epoch: PXAT, PEXPIREAT.
    AtMillis,
}

/// The deadline, in milliseconds since the Unix epoch, of a string that is written or read with one, as by SET with
/// EX or PX. Refused where `n` is below 1 or the deadline past 2^63-1.
pub fn deadline(command: CmdId, kind: Expiry, now: u64, n: i64) -> Result<u64, Refusal>
    ensures value { result ≡ deadline command kind now n }
    ensures within { IfOk result IsDeadline }
{
    if n < 1 {
        return Err(Refusal::ExpireTime(command));
    }
    match u64::try_from(moment(kind, now, n)) {
        Ok(at) if at <= MAX_DEADLINE => Ok(at),
        _ => Err(Refusal::ExpireTime(command)),
    }
}

/// The time, in milliseconds since the Unix epoch, at which EXPIRE or one of its kin lets a key expire. Refused where
/// it is not within 64 signed bits.
pub fn expire_time(command: CmdId, kind: Expiry, now: u64, n: i64) -> Result<i64, Refusal>
    ensures { result ≡ expire_time command kind now n }
{
    i64::try_from(moment(kind, now, n))
        .ok()
        .ok_or(Refusal::ExpireTime(command))
}

/// A string until a deadline: where that is at or below `now`, the key leaves instead.
pub fn set_until(key: Bytes, value: Bytes, now: u64, deadline: u64) -> Record
    ensures { result ≡ set_until key value now deadline }
{
    if deadline <= now {
        Record::Del { key }
    } else {
        Record::SetUntil {
            key,
            value,
            deadline,
        }
    }
}

/// The key expires at this time: where that is at or below `now`, it leaves at once.
pub fn expire_at(key: Bytes, now: u64, at: i64) -> Record
    ensures { result ≡ expire_at key now at }
{
    match u64::try_from(at) {
        Ok(deadline) if deadline > now => Record::ExpireAt { key, deadline },
        _ => Record::Del { key },
    }
}

// No sum or product can pass 128 bits here.
fn moment(kind: Expiry, now: u64, n: i64) -> i128
    ensures { result ≡ moment kind now n }
{
    let now = i128::from(now);
    let n = i128::from(n);
    match kind {
        Expiry::InSeconds => now + n * 1000,
        Expiry::InMillis => now + n,
        Expiry::AtSecond => n * 1000,
        Expiry::AtMillis => n,
    }
}
