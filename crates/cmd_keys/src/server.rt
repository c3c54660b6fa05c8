ghost use Rattle.std.specs.Prelude.{◌≡◌, [], ◌∷◌, IfOk, MatchResult, option_copied, decimal};
ghost use Rattle.resp_reply.specs.declared.reply.Reply.{Reply};
ghost use Rattle.fx_record.specs.declared.record.Record.TheVariants.{FlushAll};
ghost use Rattle.cmd_rows.specs.Outcomes.{ok, does, refused};
ghost use Rattle.cmd_rows.specs.Given.{Follows};
ghost use Rattle.cmd_keys.specs.ServerRows.{ping_row, echo_row, select_row, time_row, dbsize_row, is_flush_mode};
ghost use Rattle.cmd_keys.specs.ServerRows.{flush_row};

use crate::counting::count;
use cmd_args::Refusal;
use cmd_rows::{Given, Stop, World, number, ok};
use fx_record::Record;
use resp_reply::{Replies, Reply};
use rs_base::{Bytes, NoMemory, write_decimal};
use std::alloc::Global;

/// PING: the status PONG, or the word that comes with it.
pub fn ping(world: &World<'_>, word: Option<&Bytes>) -> Result<Given, Stop>
    ensures { Follows world.now.store (ping_row (option_copied word.entry)) result }
{
    match word {
        None => Ok(Given::reply(Reply::status(world.alloc(), b"PONG")?)),
        Some(word) => Ok(Given::reply(Reply::Bulk(word.clone()?))),
    }
}

/// ECHO: the word.
pub fn echo(world: &World<'_>, word: &Bytes) -> Result<Given, Stop>
    ensures { Follows world.now.store (echo_row word.now) result }
{
    Ok(Given::reply(Reply::Bulk(word.clone()?)))
}

/// SELECT: there is no database but 0.
pub fn select(world: &World<'_>, word: &Bytes) -> Result<Given, Stop>
    ensures { Follows world.now.store (select_row word.now) result }
{
    if number(word)? != 0 {
        return Err(Refusal::DbIndex.into());
    }
    Ok(Given::reply(ok(world.alloc())?))
}

/// TIME: the seconds since the Unix epoch, and the microseconds behind them.
pub fn time(world: &World<'_>) -> Result<Given, Stop>
    ensures { Follows world.now.store (time_row world.now) result }
{
    let mut parts = Replies::new(world.alloc());
    parts.push(decimal(world.alloc(), world.time / 1000)?)?;
    parts.push(decimal(world.alloc(), world.time % 1000 * 1000)?)?;
    Ok(Given::reply(Reply::Array(parts)))
}

fn decimal(alloc: Global, n: u64) -> Result<Reply, NoMemory>
    ensures { IfOk result (λ reply. reply ≡ Reply.Bulk (decimal n)) }
{
    let mut digits = Bytes::new(alloc);
    write_decimal(n, &mut digits)?;
    Ok(Reply::Bulk(digits))
}

/// DBSIZE: how many keys there are.
pub fn dbsize(world: &World<'_>) -> Result<Given, Stop>
    ensures { Follows world.now.store (dbsize_row world.now) result }
{
    Ok(Given::reply(count(world.space.len())?))
}

/// FLUSHALL and FLUSHDB: all keys leave. A word other than ASYNC and SYNC is a syntax error.
pub fn flush(world: &World<'_>, mode: Option<&Bytes>) -> Result<Given, Stop>
    ensures { Follows world.now.store (flush_row (option_copied mode.entry)) result }
{
    flush_mode(mode)?;
    Ok(Given::one(ok(world.alloc())?, Record::FlushAll))
}

// No word, ASYNC or SYNC. Both mean the same here.
fn flush_mode(mode: Option<&Bytes>) -> Result<(), Refusal>
    ensures { MatchResult result (λ _. flush_row (option_copied mode.entry) ≡ does ok (FlushAll ∷ []))
        (λ why. flush_row (option_copied mode.entry) ≡ refused why) }
{
    match mode {
        Some(word) if !is_flush_mode(word) => Err(Refusal::Syntax),
        _ => Ok(()),
    }
}

fn is_flush_mode(word: &Bytes) -> bool
    ensures { result ≡ is_flush_mode word.now }
{
    word.as_slice().eq_ignore_ascii_case(b"async") || word.as_slice().eq_ignore_ascii_case(b"sync")
}
