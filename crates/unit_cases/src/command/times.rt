use crate::command::refusals::put_refusal;
use crate::words::number as digits;
use cmd_args::{CmdId, KeyCmd, Refusal, StringCmd};
use cmd_rows::{Expiry, deadline, expire_time, number};
use itoa::{Buffer, Integer};
use rs_base::{Bytes, NoMemory};
use std::alloc::Global;

/// The calls of numbers and times.
pub fn answer(
    alloc: Global,
    name: &[u8],
    args: &[Bytes],
    out: &mut Bytes,
) -> Result<bool, NoMemory> {
    match (name, args) {
        (b"number", [word]) => put_number(alloc, number(word), out),
        (b"deadline", [kind, now, n]) => match asked(kind, now, n) {
            Some((kind, now, n)) => put_number(alloc, deadline(SET, kind, now, n), out),
            None => Ok(false),
        },
        (b"expire_time", [kind, now, n]) => match asked(kind, now, n) {
            Some((kind, now, n)) => put_number(alloc, expire_time(EXPIRE, kind, now, n), out),
            None => Ok(false),
        },
        _ => Ok(false),
    }
}

const SET: CmdId = CmdId::Strings(StringCmd::Set);

const EXPIRE: CmdId = CmdId::Keys(KeyCmd::Expire);

// The kind, the time and the number of a call.
fn asked(kind: &Bytes, now: &Bytes, n: &Bytes) -> Option<(Expiry, u64, i64)> {
    Some((expiry(kind.as_slice())?, digits(now)?, number(n).ok()?))
}

fn expiry(kind: &[u8]) -> Option<Expiry> {
    match kind {
        b"in_seconds" => Some(Expiry::InSeconds),
        b"in_millis" => Some(Expiry::InMillis),
        b"at_second" => Some(Expiry::AtSecond),
        b"at_millis" => Some(Expiry::AtMillis),
        _ => None,
    }
}

fn put_number<N: Integer>(
    alloc: Global,
    number: Result<N, Refusal>,
    out: &mut Bytes,
) -> Result<bool, NoMemory> {
    match number {
        Ok(n) => out.append(Buffer::new().format(n).as_bytes())?,
        Err(why) => put_refusal(alloc, &why, out)?,
    }
    Ok(true)
}
