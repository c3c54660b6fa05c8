ghost use Rattle.std.specs.Prelude.{◌≡◌, map, filter, IfOk, option_copied};
ghost use Rattle.resp_reply.specs.declared.reply.Reply.TheVariants.{Bulk};
ghost use Rattle.cmd_rows.specs.Given.{Follows};
ghost use Rattle.cmd_keys.specs.Globs.{is_match};
ghost use Rattle.cmd_keys.specs.KeyRows.{kind_in, type_row, keys_row, randomkey_row};

use cmd_glob::Glob;
use cmd_rows::{Changes, Given, Stop, World};
use ks_space::{Entry, Value};
use resp_reply::{Replies, Reply};
use rs_base::{Bytes, NoMemory};
use std::alloc::Global;

/// TYPE: of what kind the value of a key is.
pub fn type_of(world: &World<'_>, key: &Bytes) -> Result<Given, Stop>
    ensures { Follows world.now.store (type_row world.now key.now) result }
{
    let kind = kind_in(world.space.get(key.as_slice()));
    Ok(Given::reply(Reply::status(world.alloc(), kind)?))
}

fn kind_in(entry: Option<&Entry>) -> &'static [u8]
    ensures { result.now ≡ kind_in (option_copied entry.entry) }
{
    match entry {
        None => b"none",
        Some(entry) => match &entry.value {
            Value::Str(_) => b"string",
            Value::List(_) => b"list",
            Value::Hash(_) => b"hash",
            Value::Set(_) => b"set",
            Value::Sorted(_) => b"zset",
        },
    }
}

/// KEYS: the keys that a glob-style pattern matches, in byte order.
pub fn keys(world: &World<'_>, pattern: &Bytes) -> Result<Given, Stop>
    ensures { Follows world.now.store (keys_row world.now pattern.now) result }
{
    let glob = Glob::new(world.alloc(), pattern.as_slice())?;
    let keys = world.space.keys()?;
    let matching = matching(world.alloc(), &glob, keys.as_slice())?;
    Ok(Given::reply(Reply::Array(matching)))
}

fn matching(alloc: Global, glob: &Glob, keys: &[Bytes]) -> Result<Replies, NoMemory>
    ensures { IfOk result (λ replies. replies ≡ map Bulk (filter (is_match glob.now) keys.now)) }
{
    let mut replies = Replies::new(alloc);
    for key in keys {
        if is_match(glob, key) {
            replies.push(Reply::Bulk(key.clone()?))?;
        }
    }
    Ok(replies)
}

fn is_match(glob: &Glob, key: &Bytes) -> bool
    ensures { result ≡ is_match glob.now key.now }
{
    glob.matches(key.as_slice())
}

/// RANDOMKEY: one of the keys, by one draw. Null without a draw where there is no key.
pub fn random_key(world: &World<'_>) -> Result<Given, Stop>
    ensures { Follows world.now.store (randomkey_row world.now) result }
{
    let count = world.space.len();
    if count == 0 {
        return Ok(Given::reply(Reply::NullBulk));
    }
    let place = world.draws.copy()?.below(count as u64);
    match world.space.key_at(place as usize)? {
        None => Ok(Given::reply(Reply::NullBulk)),
        Some(key) => Ok(Given {
            reply: Reply::Bulk(key),
            changes: Changes::Nothing,
            draws: 1,
        }),
    }
}
