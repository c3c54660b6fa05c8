ghost use Rattle.std.specs.Prelude.{◌≡◌, ◌&&◌, map, not, IfOk};
ghost use Rattle.fx_record.specs.declared.record.Record.TheVariants.{Del};
ghost use Rattle.ks_value.specs.Members.{is_member};
ghost use Rattle.cmd_rows.specs.Given.{Follows};
ghost use Rattle.cmd_keys.specs.KeyRows.{is_there, leaving, del_row};

use crate::counting::{count, is_there};
use cmd_rows::{Changes, Given, Stop, World};
use fx_record::{Effects, Record};
use ks_value::SetValue;
use rs_base::{Bytes, NoMemory};

/// DEL and UNLINK: the keys leave. Answers how many were there.
pub fn del(world: &World<'_>, keys: &[Bytes]) -> Result<Given, Stop>
    ensures { Follows world.now.store (del_row world.now keys.now) result }
{
    let records = removals(world, keys)?;
    let reply = count(records.len())?;
    if records.is_empty() {
        return Ok(Given::reply(reply));
    }
    Ok(Given {
        reply,
        changes: Changes::Many(records, false),
        draws: 0,
    })
}

// A record for each key that is there. A key that is named again leaves once.
fn removals(world: &World<'_>, keys: &[Bytes]) -> Result<Effects, NoMemory>
    ensures { IfOk result (λ records. records ≡ map Del (leaving world.now.store keys.now)) }
{
    let mut records = Effects::new(world.alloc());
    let mut gone = SetValue::new(world.alloc());
    for key in keys {
        if !leaves(world, &gone, key) {
            continue;
        }
        gone.insert(key.clone()?)?;
        records.push(Record::Del { key: key.clone()? })?;
    }
    Ok(records)
}

fn leaves(world: &World<'_>, gone: &SetValue, key: &Bytes) -> bool
    ensures { result ≡ (is_there world.now.store key.now && not (is_member gone.now key.now)) }
{
    is_there(world, key) && !gone.contains(key.as_slice())
}
