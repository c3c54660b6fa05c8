ghost use Rattle.std.specs.Prelude.{◌≡◌, IfOk};
ghost use Rattle.cmd_rows.specs.Given.{Follows, records_of, IsTold};
ghost use Rattle.cmd_string.specs.Options.{getex_change, change_effects};
ghost use Rattle.cmd_string.specs.StringRows.{getex_row};
ghost use Rattle.cmd_string.specs.Within.{IsChange};

use crate::options::{deadline_read, expiry_named, is_word};
use cmd_args::{CmdId, Refusal, StringCmd};
use cmd_rows::{Changes, Given, Stop, World, bulk_or_null, expire_at, number, string_at};
use fx_record::Record;
use rs_base::{Bytes, NoMemory};

/// What GETEX does with the deadline of the key.
#[derive(Clone, Copy)]
pub(crate) enum Change {
    AsBefore,
    /// PERSIST: none.
    Persist,
    /// EX, PX, EXAT, PXAT: this one, in milliseconds since the Unix epoch.
    ExpireAt(u64),
}

/// What GETEX is asked for.
pub(crate) fn getex_change(now: u64, words: &[Bytes]) -> Result<Change, Refusal>
    ensures value { result ≡ getex_change now words.now }
    ensures within { IfOk result IsChange }
{
    match words {
        [] => Ok(Change::AsBefore),
        [word] if is_word(word, b"PERSIST") => Ok(Change::Persist),
        [word, time] => {
            let kind = expiry_named(word).ok_or(Refusal::Syntax)?;
            let command = CmdId::Strings(StringCmd::GetEx);
            let at = deadline_read(command, now, kind, number(time).ok())?;
            Ok(Change::ExpireAt(at))
        }
        _ => Err(Refusal::Syntax),
    }
}

/// GETEX: the string at the key, or null; the key's deadline is changed as asked for.
pub(crate) fn getex(world: &World<'_>, key: &Bytes, words: &[Bytes]) -> Result<Given, Stop>
    ensures { Follows world.now.store (getex_row world.now.store world.now.time key.now words.now) result }
{
    let change = getex_change(world.time, words)?;
    let text = string_at(world, key)?;
    let reply = bulk_or_null(text)?;
    let changes = changes(world, key, change)?;
    Ok(Given {
        reply,
        changes,
        draws: 0,
    })
}

fn changes(world: &World<'_>, key: &Bytes, change: Change) -> Result<Changes, NoMemory>
    requires { IsChange change }
    ensures records { IfOk result (λ changes. records_of changes ≡ change_effects world.now.time key.now change) }
    ensures told { IfOk result (λ changes. IsTold world.now.store changes) }
{
    match change {
        Change::AsBefore => Ok(Changes::Nothing),
        Change::Persist => Ok(Changes::One(Record::Persist { key: key.clone()? })),
        Change::ExpireAt(at) => Ok(Changes::One(expire_at(key.clone()?, world.time, at as i64))),
    }
}
