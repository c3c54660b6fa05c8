ghost use Rattle.std.specs.Prelude.{◌≡◌, IfOk};
ghost use Rattle.std.specs.List.{AllByRecursion};
ghost use Rattle.ks_space.specs.Store.{IsShort};
ghost use Rattle.cmd_args.specs.declared.commands.CmdId.{CmdId};
ghost use Rattle.cmd_args.specs.declared.commands.ServerCmd.{ServerCmd};
ghost use Rattle.cmd_args.specs.declared.commands.KeyCmd.{KeyCmd};
ghost use Rattle.cmd_rows.specs.Worlds.{World};
ghost use Rattle.cmd_rows.specs.Given.{Follows, Did};
ghost use Rattle.cmd_keys.specs.Families.{IsOfKeys};
ghost use Rattle.cmd_keys.specs.ServerRows.{server_row};
ghost use Rattle.cmd_keys.specs.KeyRows.{key_row};

use crate::counting::exists;
use crate::expiring::{Asked, deadline, expire, persist};
use crate::listing::{keys, random_key, type_of};
use crate::removing::del;
use crate::renaming::{rename, rename_nx};
use crate::server::{dbsize, echo, flush, ping, select, time};
use cmd_args::{CmdId, Ctx, Draws, KeyCmd, Row, ServerCmd};
use cmd_rows::{Expiry, Given, Stop, World, settle, word, words_from};
use fx_record::Effects;
use ks_space::Space;
use resp_reply::Reply;
use rs_base::{NoMemory, Words};

/// Carries out a command on keys or on the server, as its row says: it answers the reply, changes the store, adds
/// what was done to it to the effects, unless the store is as before, and takes the draws. `words` fit the command
/// and are at most 16,777,216 bytes each. After `NoMemory` the store and the effects are only good for dropping.
pub fn run_keys(
    space: &mut Space,
    ctx: &Ctx,
    row: Row,
    words: &Words,
    draws: &mut Draws,
    effects: &mut Effects,
) -> Result<Reply, NoMemory>
    requires family { IsOfKeys row.id }
    requires words { AllByRecursion IsShort words.now }
    ensures server { (command : ServerCmd) → row.id ≡ CmdId.Server command → IfOk result (λ reply.
        let world : World = record { store = space.old; time = ctx.now.time; draws = draws.old } in
        Did world (server_row world command words.now) reply space.new effects.old effects.new draws.new) }
    ensures keys { (command : KeyCmd) → row.id ≡ CmdId.Keys command → IfOk result (λ reply.
        let world : World = record { store = space.old; time = ctx.now.time; draws = draws.old } in
        Did world (key_row world command words.now) reply space.new effects.old effects.new draws.new) }
{
    let world = World::new(space, ctx, draws);
    let gave = given(&world, row.id, words);
    settle(space, draws, effects, gave)
}

fn given(world: &World<'_>, id: CmdId, words: &Words) -> Result<Given, Stop>
    requires { IsOfKeys id }
    ensures server { (command : ServerCmd) → id ≡ CmdId.Server command
        → Follows world.now.store (server_row world.now command words.now) result }
    ensures keys { (command : KeyCmd) → id ≡ CmdId.Keys command
        → Follows world.now.store (key_row world.now command words.now) result }
{
    match id {
        CmdId::Server(command) => server(world, command, words),
        CmdId::Keys(command) => key(world, command, words),
        CmdId::Client(_) | CmdId::Strings(_) => unreachable!(),
    }
}

#[tactic(auto, unfolding(crate::specs::ServerRows::server_row))]
fn server(world: &World<'_>, command: ServerCmd, words: &Words) -> Result<Given, Stop>
    ensures { Follows world.now.store (server_row world.now command words.now) result }
{
    match command {
        ServerCmd::Ping => ping(world, words.get(1)),
        ServerCmd::Echo => echo(world, word(words, 1)?),
        ServerCmd::Select => select(world, word(words, 1)?),
        ServerCmd::Time => time(world),
        ServerCmd::DbSize => dbsize(world),
        ServerCmd::FlushAll | ServerCmd::FlushDb => flush(world, words.get(1)),
    }
}

#[tactic(auto, unfolding(crate::specs::KeyRows::key_row))]
fn key(world: &World<'_>, command: KeyCmd, words: &Words) -> Result<Given, Stop>
    ensures { Follows world.now.store (key_row world.now command words.now) result }
{
    match command {
        KeyCmd::Del | KeyCmd::Unlink => del(world, words_from(words, 1)),
        KeyCmd::Exists => exists(world, words_from(words, 1)),
        KeyCmd::TypeOf => type_of(world, word(words, 1)?),
        KeyCmd::Keys => keys(world, word(words, 1)?),
        KeyCmd::RandomKey => random_key(world),
        KeyCmd::Rename => rename(world, word(words, 1)?, word(words, 2)?),
        KeyCmd::RenameNx => rename_nx(world, word(words, 1)?, word(words, 2)?),
        KeyCmd::Expire => expire(world, command, Expiry::InSeconds, words),
        KeyCmd::PExpire => expire(world, command, Expiry::InMillis, words),
        KeyCmd::ExpireAt => expire(world, command, Expiry::AtSecond, words),
        KeyCmd::PExpireAt => expire(world, command, Expiry::AtMillis, words),
        KeyCmd::Persist => persist(world, word(words, 1)?),
        KeyCmd::PTtl => deadline(world, Asked::MillisLeft, word(words, 1)?),
        KeyCmd::Ttl => deadline(world, Asked::SecondsLeft, word(words, 1)?),
        KeyCmd::PExpireTime => deadline(world, Asked::Millisecond, word(words, 1)?),
        KeyCmd::ExpireTime => deadline(world, Asked::Second, word(words, 1)?),
    }
}
