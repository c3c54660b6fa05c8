ghost use Rattle.std.specs.Prelude.{◌≡◌, IfOk};
ghost use Rattle.rs_whole.specs.Integers.{integer_text};
ghost use Rattle.cmd_rows.specs.Given.{Follows};
ghost use Rattle.cmd_string.specs.StringRows.{incrby_row, decrby_row, add_row, subtract_row, integer_at, kept_row};

use cmd_args::Refusal;
use cmd_rows::{Given, Stop, World, number, string_at};
use fx_record::Record;
use itoa::Buffer;
use resp_reply::Reply;
use rs_base::{Bytes, NoMemory};
use std::alloc::Global;

/// The integer at the key, 0 where the key is absent, grows by the increment.
pub(crate) fn add(world: &World<'_>, key: &Bytes, increment: i64) -> Result<Given, Stop>
    ensures { Follows world.now.store (add_row world.now.store key.now increment) result }
{
    let sum = integer_at(world, key)?.checked_add(increment);
    keep(world, key, sum.ok_or(Refusal::Overflow)?)
}

/// The integer at the key, 0 where the key is absent, shrinks by the decrement.
pub(crate) fn subtract(world: &World<'_>, key: &Bytes, decrement: i64) -> Result<Given, Stop>
    ensures { Follows world.now.store (subtract_row world.now.store key.now decrement) result }
{
    let difference = integer_at(world, key)?.checked_sub(decrement);
    keep(world, key, difference.ok_or(Refusal::Overflow)?)
}

/// INCRBY: it grows by the integer that the word spells.
pub(crate) fn incrby(world: &World<'_>, key: &Bytes, increment: &Bytes) -> Result<Given, Stop>
    ensures { Follows world.now.store (incrby_row world.now.store key.now increment.now) result }
{
    let n = number(increment)?;
    let sum = integer_at(world, key)?.checked_add(n);
    keep(world, key, sum.ok_or(Refusal::Overflow)?)
}

/// DECRBY: it shrinks by the integer that the word spells.
pub(crate) fn decrby(world: &World<'_>, key: &Bytes, decrement: &Bytes) -> Result<Given, Stop>
    ensures { Follows world.now.store (decrby_row world.now.store key.now decrement.now) result }
{
    let n = number(decrement)?;
    let difference = integer_at(world, key)?.checked_sub(n);
    keep(world, key, difference.ok_or(Refusal::Overflow)?)
}

// The integer that the string at a key spells, 0 where the key is absent.
fn integer_at(world: &World<'_>, key: &Bytes) -> Result<i64, Refusal>
    ensures { result ≡ integer_at world.now.store key.now }
{
    match string_at(world, key)? {
        Some(text) => number(text),
        None => Ok(0),
    }
}

// An integer in place of the string at the key, which keeps its deadline.
fn keep(world: &World<'_>, key: &Bytes, n: i64) -> Result<Given, Stop>
    ensures { Follows world.now.store (kept_row key.now n) result }
{
    let effect = Record::SetKeeping {
        key: key.clone()?,
        value: spelled(world.alloc(), n)?,
    };
    Ok(Given::one(Reply::Int(n), effect))
}

fn spelled(alloc: Global, n: i64) -> Result<Bytes, NoMemory>
    ensures { IfOk result (λ text. text ≡ integer_text n) }
{
    let mut buffer = Buffer::new();
    Bytes::from_slice(alloc, buffer.format(n).as_bytes())
}
