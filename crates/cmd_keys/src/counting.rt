ghost use Rattle.std.specs.Prelude.{◌≡◌, pos, IfOk};
ghost use Rattle.resp_reply.specs.declared.reply.Reply.{Reply};
ghost use Rattle.cmd_rows.specs.Given.{Follows};
ghost use Rattle.cmd_keys.specs.KeyRows.{is_there, exists_row};

use cmd_rows::{Given, Stop, World};
use resp_reply::Reply;
use rs_base::{Bytes, NoMemory};

/// Whether a key is there.
pub fn is_there(world: &World<'_>, key: &Bytes) -> bool
    ensures { result ≡ is_there world.now.store key.now }
{
    world.space.get(key.as_slice()).is_some()
}

/// How many there are. No memory holds more than an integer counts.
pub fn count(n: usize) -> Result<Reply, NoMemory>
    ensures { IfOk result (λ reply. reply ≡ Reply.Int (pos n)) }
{
    match i64::try_from(n) {
        Ok(n) => Ok(Reply::Int(n)),
        Err(_) => Err(NoMemory),
    }
}

/// EXISTS: how many of the keys are there, one that is named twice counted twice.
pub fn exists(world: &World<'_>, keys: &[Bytes]) -> Result<Given, Stop>
    ensures { Follows world.now.store (exists_row world.now keys.now) result }
{
    let there = keys.iter().filter(|key| is_there(world, key)).count();
    Ok(Given::reply(count(there)?))
}
