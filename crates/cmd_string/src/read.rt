ghost use Rattle.std.specs.Prelude.{◌≡◌, [], unwrap_or, option_copied};
ghost use Rattle.cmd_rows.specs.Given.{Follows};
ghost use Rattle.cmd_string.specs.StringRows.{get_row, mget_row, strlen_row, getrange_row, string_or_none};

use crate::ranges::part;
use cmd_rows::{Given, Stop, World, bulk_or_null, number, string_at};
use resp_reply::{Replies, Reply};
use rs_base::Bytes;

/// GET: the string at the key, or null.
pub(crate) fn get(world: &World<'_>, key: &Bytes) -> Result<Given, Stop>
    ensures { Follows world.now.store (get_row world.now.store key.now) result }
{
    let text = string_at(world, key)?;
    Ok(Given::reply(bulk_or_null(text)?))
}

/// MGET: the strings at the keys, null for each key that holds none.
pub(crate) fn mget(world: &World<'_>, keys: &[Bytes]) -> Result<Given, Stop>
    ensures { Follows world.now.store (mget_row world.now.store keys.now) result }
{
    let mut texts = Replies::new(world.alloc());
    for key in keys {
        texts.push(bulk_or_null(string_or_none(world, key))?)?;
    }
    Ok(Given::reply(Reply::Array(texts)))
}

fn string_or_none<'a>(world: &World<'a>, key: &Bytes) -> Option<&'a Bytes>
    ensures { option_copied result ≡ string_or_none world.now.store key.now }
{
    string_at(world, key).unwrap_or(None)
}

/// STRLEN: how many bytes the string at the key has.
pub(crate) fn strlen(world: &World<'_>, key: &Bytes) -> Result<Given, Stop>
    ensures { Follows world.now.store (strlen_row world.now.store key.now) result }
{
    let text = string_at(world, key)?;
    Ok(Given::reply(Reply::Int(bytes_of(text).len() as i64)))
}

/// GETRANGE: the part of the string at the key from one place to another.
pub(crate) fn getrange(
    world: &World<'_>,
    key: &Bytes,
    start: &Bytes,
    end: &Bytes,
) -> Result<Given, Stop>
    ensures { Follows world.now.store (getrange_row world.now.store key.now start.now end.now) result }
{
    let first = number(start)?;
    let last = number(end)?;
    let text = string_at(world, key)?;
    let part = part(bytes_of(text), first, last);
    Ok(Given::reply(Reply::bulk(world.alloc(), part)?))
}

// The bytes of a string, none where there is no string.
fn bytes_of(text: Option<&Bytes>) -> &[u8]
    ensures { result.now ≡ unwrap_or (option_copied text.entry) [] }
{
    match text {
        Some(text) => text.as_slice(),
        None => &[],
    }
}
