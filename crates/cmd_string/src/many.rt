ghost use Rattle.std.specs.Prelude.{◌≡◌, drop};
ghost use Rattle.std.specs.List.{AllByRecursion};
ghost use Rattle.ks_space.specs.Store.{IsShort};
ghost use Rattle.cmd_rows.specs.Given.{Follows};
ghost use Rattle.cmd_string.specs.StringRows.{has_any, mset_row, msetnx_row};

use crate::set::is_there;
use cmd_rows::{Given, Stop, World, ok, sets};
use resp_reply::Reply;
use rs_base::{Bytes, Words};

/// MSET: gives each key the string behind it.
pub(crate) fn mset(world: &World<'_>, words: &Words) -> Result<Given, Stop>
    requires { AllByRecursion IsShort words.now }
    ensures { Follows world.now.store (mset_row words.now) result }
{
    Ok(Given {
        reply: ok(world.alloc())?,
        changes: sets(world.space, words)?,
        draws: 0,
    })
}

/// MSETNX: gives each key the string behind it where all of the keys are absent.
pub(crate) fn msetnx(world: &World<'_>, words: &Words) -> Result<Given, Stop>
    requires { AllByRecursion IsShort words.now }
    ensures { Follows world.now.store (msetnx_row world.now.store words.now) result }
{
    if has_any(world, words.as_slice()) {
        return Ok(Given::reply(Reply::Int(0)));
    }
    Ok(Given {
        reply: Reply::Int(1),
        changes: sets(world.space, words)?,
        draws: 0,
    })
}

// Whether a key of the pairs behind the name is there.
fn has_any(world: &World<'_>, words: &[Bytes]) -> bool
    ensures { result ≡ has_any world.now.store (drop 1 words.now) }
{
    let last = words.len().saturating_sub(1);
    let mut place = 1;
    while place < last {
        if is_there(world, &words[place]) {
            return true;
        }
        place += 2;
    }
    false
}
