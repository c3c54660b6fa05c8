ghost use Rattle.std.specs.Prelude.{◌≡◌, IfOk};
ghost use Rattle.std.specs.List.{AllByRecursion};
ghost use Rattle.ks_space.specs.Store.{IsShort};
ghost use Rattle.cmd_args.specs.declared.commands.CmdId.{CmdId};
ghost use Rattle.cmd_args.specs.declared.commands.StringCmd.{StringCmd};
ghost use Rattle.cmd_rows.specs.Given.{Follows, Did};
ghost use Rattle.cmd_rows.specs.Worlds.{World};
ghost use Rattle.cmd_string.specs.StringRows.{IsOfStrings, string_row};

use crate::count::{add, decrby, incrby, subtract};
use crate::getex::getex;
use crate::grow::{append, setrange};
use crate::many::{mset, msetnx};
use crate::read::{get, getrange, mget, strlen};
use crate::set::{getdel, getset, set, setex, setnx};
use cmd_args::{CmdId, Ctx, Draws, Row, StringCmd};
use cmd_rows::{Expiry, Given, Stop, World, settle, word, words_from};
use fx_record::Effects;
use ks_space::Space;
use resp_reply::Reply;
use rs_base::{NoMemory, Words};

/// Carries out a command on strings: the reply, the store and the effects are those of its row, and no draw is taken.
/// After `NoMemory` the store and the effects are only good for dropping.
pub fn run_string(
    space: &mut Space,
    ctx: &Ctx,
    row: Row,
    words: &Words,
    draws: &mut Draws,
    effects: &mut Effects,
) -> Result<Reply, NoMemory>
    requires family { IsOfStrings row.id }
    requires words { AllByRecursion IsShort words.now }
    ensures { (command : StringCmd) → row.id ≡ CmdId.Strings command → IfOk result (λ reply.
        let world : World = record { store = space.old; time = ctx.now.time; draws = draws.old } in
        Did world (string_row world command words.now) reply space.new effects.old effects.new draws.new) }
{
    let CmdId::Strings(command) = row.id else {
        unreachable!();
    };
    let gave = string_row(&World::new(space, ctx, draws), command, words);
    settle(space, draws, effects, gave)
}

#[tactic(auto, unfolding(crate::specs::StringRows::string_row))]
fn string_row(world: &World<'_>, command: StringCmd, words: &Words) -> Result<Given, Stop>
    requires { AllByRecursion IsShort words.now }
    ensures { Follows world.now.store (string_row world.now command words.now) result }
{
    match command {
        StringCmd::Get => get(world, word(words, 1)?),
        StringCmd::Set => set(
            world,
            word(words, 1)?,
            word(words, 2)?,
            words_from(words, 3),
        ),
        StringCmd::SetNx => setnx(world, word(words, 1)?, word(words, 2)?),
        StringCmd::SetEx => setex(world, command, Expiry::InSeconds, words),
        StringCmd::PSetEx => setex(world, command, Expiry::InMillis, words),
        StringCmd::GetSet => getset(world, word(words, 1)?, word(words, 2)?),
        StringCmd::GetDel => getdel(world, word(words, 1)?),
        StringCmd::GetEx => getex(world, word(words, 1)?, words_from(words, 2)),
        StringCmd::MGet => mget(world, words_from(words, 1)),
        StringCmd::MSet => mset(world, words),
        StringCmd::MSetNx => msetnx(world, words),
        StringCmd::Append => append(world, word(words, 1)?, word(words, 2)?),
        StringCmd::StrLen => strlen(world, word(words, 1)?),
        StringCmd::GetRange => getrange(world, word(words, 1)?, word(words, 2)?, word(words, 3)?),
        StringCmd::SetRange => setrange(world, word(words, 1)?, word(words, 2)?, word(words, 3)?),
        StringCmd::Incr => add(world, word(words, 1)?, 1),
        StringCmd::Decr => subtract(world, word(words, 1)?, 1),
        StringCmd::IncrBy => incrby(world, word(words, 1)?, word(words, 2)?),
        StringCmd::DecrBy => decrby(world, word(words, 1)?, word(words, 2)?),
    }
}
