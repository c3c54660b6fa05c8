ghost use Rattle.std.specs.Prelude.{◌≡◌, [], unwrap_or, option_copied, IfOk};
ghost use Rattle.ks_space.specs.Store.{IsShort};
ghost use Rattle.cmd_rows.specs.Given.{Follows};
ghost use Rattle.cmd_string.specs.StringRows.{grown_row, append_row, range_row, setrange_row};

use crate::ranges::written_over;
use cmd_args::Refusal;
use cmd_rows::{Given, Stop, World, number, string_at};
use fx_record::{MAX_TEXT_BYTES, Record};
use resp_reply::Reply;
use rs_base::{Bytes, NoMemory};
use std::alloc::Global;

/// APPEND: the string at the key, the empty one where the key is absent, goes on with the value.
pub(crate) fn append(world: &World<'_>, key: &Bytes, value: &Bytes) -> Result<Given, Stop>
    ensures { Follows world.now.store (append_row world.now.store key.now value.now) result }
{
    let old = string_at(world, key)?;
    let mut new = text_or_empty(world.alloc(), old)?;
    new.append(value.as_slice())?;
    grow(world, key, new)
}

/// SETRANGE: the value stands in the string at the key from the offset on.
pub(crate) fn setrange(
    world: &World<'_>,
    key: &Bytes,
    offset: &Bytes,
    value: &Bytes,
) -> Result<Given, Stop>
    ensures { Follows world.now.store (setrange_row world.now.store key.now offset.now value.now) result }
{
    let at = number(offset)?;
    let old = string_at(world, key)?;
    let text = text_or_empty(world.alloc(), old)?;
    write_over(world, key, text, at, value)
}

fn write_over(
    world: &World<'_>,
    key: &Bytes,
    old: Bytes,
    at: i64,
    value: &Bytes,
) -> Result<Given, Stop>
    requires { IsShort old }
    ensures { Follows world.now.store (range_row key.now old at value.now) result }
{
    if at < 0 {
        return Err(Stop::Refused(Refusal::Offset));
    }
    if value.is_empty() {
        return Ok(Given::reply(Reply::Int(old.len() as i64)));
    }
    let offset = at as usize;
    // So great an offset wants no memory.
    if offset > MAX_TEXT_BYTES {
        return Err(Stop::Refused(Refusal::TooLong));
    }
    let new = written_over(world.alloc(), old.as_slice(), offset, value.as_slice())?;
    grow(world, key, new)
}

fn text_or_empty(alloc: Global, text: Option<&Bytes>) -> Result<Bytes, NoMemory>
    ensures { IfOk result (λ copy. copy ≡ unwrap_or (option_copied text.entry) []) }
{
    match text {
        Some(text) => Ok(text.clone()?),
        None => Ok(Bytes::new(alloc)),
    }
}

// A string in place of the one at the key, which keeps its deadline.
fn grow(world: &World<'_>, key: &Bytes, new: Bytes) -> Result<Given, Stop>
    ensures { Follows world.now.store (grown_row key.now new) result }
{
    let count = new.len();
    if count > MAX_TEXT_BYTES {
        return Err(Stop::Refused(Refusal::TooLong));
    }
    let effect = Record::SetKeeping {
        key: key.clone()?,
        value: new,
    };
    Ok(Given::one(Reply::Int(count as i64), effect))
}
