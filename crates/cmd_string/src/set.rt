ghost use Rattle.std.specs.Prelude.{◌≡◌, Ok, Err, IfOk, MatchResult, option_copied};
ghost use Rattle.std.specs.FinMap as finite;
ghost use Rattle.cmd_args.specs.declared.commands.CmdId.{CmdId};
ghost use Rattle.fx_record.specs.declared.record.Record.{Record};
ghost use Rattle.cmd_rows.specs.Outcomes.{with_three_words};
ghost use Rattle.cmd_rows.specs.Given.{Follows};
ghost use Rattle.cmd_string.specs.Options.{is_met};
ghost use Rattle.cmd_string.specs.StringRows.{old_string, set_row, setnx_row, setex_row, getset_row, getdel_row};

use crate::options::{Condition, set_effect, set_options};
use cmd_args::{CmdId, Refusal, StringCmd};
use cmd_rows::{
    Expiry, Given, Stop, World, bulk_or_null, deadline, number, ok, set_until, string_at, word,
};
use fx_record::Record;
use resp_reply::Reply;
use rs_base::{Bytes, NoMemory, Words};

/// SET: gives the key the string, as its options say.
pub(crate) fn set(
    world: &World<'_>,
    key: &Bytes,
    value: &Bytes,
    words: &[Bytes],
) -> Result<Given, Stop>
    ensures { Follows world.now.store
        (set_row world.now.store world.now.time key.now value.now words.now) result }
{
    let options = set_options(words)?;
    let effect = set_effect(world.time, key.clone()?, value.clone()?, options.lasting)?;
    let text = old_string(world, key, options.get)?;
    let old = bulk_or_null(text)?;
    if !is_met(options.condition, world, key) {
        return Ok(Given::reply(old));
    }
    if options.get {
        Ok(Given::one(old, effect))
    } else {
        Ok(Given::one(ok(world.alloc())?, effect))
    }
}

// The string at a key where GET stands, and none where it does not. A key of another kind is refused where GET stands.
fn old_string<'a>(world: &World<'a>, key: &Bytes, get: bool) -> Result<Option<&'a Bytes>, Refusal>
    ensures { MatchResult result (λ text. old_string world.now.store key.now get ≡ Ok (option_copied text))
        (λ why. old_string world.now.store key.now get ≡ Err why) }
{
    if get { string_at(world, key) } else { Ok(None) }
}

// Whether the key is as SET asks for it to be. Without a condition it is not looked up.
fn is_met(condition: Option<Condition>, world: &World<'_>, key: &Bytes) -> bool
    ensures { result ≡ is_met condition (finite.contains_key world.now.store key.now) }
{
    match condition {
        None => true,
        Some(Condition::IfAbsent) => !is_there(world, key),
        Some(Condition::IfThere) => is_there(world, key),
    }
}

/// Whether a key is there, of whatever kind.
pub(crate) fn is_there(world: &World<'_>, key: &Bytes) -> bool
    ensures { result ≡ finite.contains_key world.now.store key.now }
{
    world.space.get(key.as_slice()).is_some()
}

/// SETNX: gives the key the string where the key is absent.
pub(crate) fn setnx(world: &World<'_>, key: &Bytes, value: &Bytes) -> Result<Given, Stop>
    ensures { Follows world.now.store (setnx_row world.now.store key.now value.now) result }
{
    if is_there(world, key) {
        return Ok(Given::reply(Reply::Int(0)));
    }
    Ok(Given::one(Reply::Int(1), set_to(key, value)?))
}

/// SETEX and PSETEX: gives the key the string until a deadline.
pub(crate) fn setex(
    world: &World<'_>,
    command: StringCmd,
    kind: Expiry,
    words: &Words,
) -> Result<Given, Stop>
    ensures { Follows world.now.store
        (with_three_words words.now (setex_row (CmdId.Strings command) kind world.now.time)) result }
{
    let key = word(words, 1)?;
    let time = word(words, 2)?;
    let value = word(words, 3)?;
    let n = number(time)?;
    let at = deadline(CmdId::Strings(command), kind, world.time, n)?;
    let effect = set_until(key.clone()?, value.clone()?, world.time, at);
    Ok(Given::one(ok(world.alloc())?, effect))
}

/// GETSET: gives the key the string, and answers the one that it held, or null.
pub(crate) fn getset(world: &World<'_>, key: &Bytes, value: &Bytes) -> Result<Given, Stop>
    ensures { Follows world.now.store (getset_row world.now.store key.now value.now) result }
{
    let old = string_at(world, key)?;
    Ok(Given::one(bulk_or_null(old)?, set_to(key, value)?))
}

/// GETDEL: the string at the key, or null; the key leaves.
pub(crate) fn getdel(world: &World<'_>, key: &Bytes) -> Result<Given, Stop>
    ensures { Follows world.now.store (getdel_row world.now.store key.now) result }
{
    let old = string_at(world, key)?;
    let effect = Record::Del { key: key.clone()? };
    Ok(Given::one(bulk_or_null(old)?, effect))
}

fn set_to(key: &Bytes, value: &Bytes) -> Result<Record, NoMemory>
    ensures { IfOk result (λ effect. effect ≡ Record.Set key.now value.now) }
{
    Ok(Record::Set {
        key: key.clone()?,
        value: value.clone()?,
    })
}
