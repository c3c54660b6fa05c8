ghost use Rattle.cmd_rows.specs.Given.{Follows};
ghost use Rattle.cmd_keys.specs.KeyRows.{rename_row, renamenx_row};

use crate::counting::is_there;
use cmd_args::Refusal;
use cmd_rows::{Given, Stop, World, ok};
use fx_record::Record;
use resp_reply::Reply;
use rs_base::Bytes;

/// RENAME: what the one key holds goes to the other, with its deadline, in place of what that one held.
pub fn rename(world: &World<'_>, from: &Bytes, to: &Bytes) -> Result<Given, Stop>
    ensures { Follows world.now.store (rename_row world.now from.now to.now) result }
{
    if !is_there(world, from) {
        return Err(Refusal::NoSuchKey.into());
    }
    let renamed = Record::Rename {
        from: from.clone()?,
        to: to.clone()?,
    };
    Ok(Given::one(ok(world.alloc())?, renamed))
}

/// RENAMENX: as RENAME where the other key is not there; else nothing is done. Answers 1 or 0.
pub fn rename_nx(world: &World<'_>, from: &Bytes, to: &Bytes) -> Result<Given, Stop>
    ensures { Follows world.now.store (renamenx_row world.now from.now to.now) result }
{
    if !is_there(world, from) {
        return Err(Refusal::NoSuchKey.into());
    }
    if is_there(world, to) {
        return Ok(Given::reply(Reply::Int(0)));
    }
    let renamed = Record::Rename {
        from: from.clone()?,
        to: to.clone()?,
    };
    Ok(Given::one(Reply::Int(1), renamed))
}
