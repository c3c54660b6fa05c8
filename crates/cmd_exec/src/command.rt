ghost use Rattle.std.specs.Prelude.{◌≡◌, IfOk};
ghost use Rattle.std.specs.List.{AllByRecursion};
ghost use Rattle.ks_space.specs.Store.{IsShort};
ghost use Rattle.cmd_rows.specs.Given.{Did};
ghost use Rattle.cmd_rows.specs.Outcomes.{refused};
ghost use Rattle.cmd_rows.specs.Worlds.{World};
ghost use Rattle.cmd_exec.specs.Exec.{is_barred, reason, row_outcome, given};

use cmd_args::{CmdId, Ctx, Draws, Mode, Refusal, Row, find};
use cmd_keys::run_keys;
use cmd_string::run_string;
use fx_record::{Effects, are_within_limits};
use ks_space::Space;
use resp_reply::Reply;
use rs_base::{NoMemory, Words};
use std::alloc::Global;

/// Carries out one command on a store, or refuses it. After `NoMemory` the store and the effects are only good for
/// dropping.
pub fn carry_out(
    space: &mut Space,
    ctx: &Ctx,
    mode: Mode,
    words: &Words,
    draws: &mut Draws,
    effects: &mut Effects,
) -> Result<Reply, NoMemory>
    ensures { IfOk result (λ reply.
        let world : World = record { store = space.old; time = ctx.now.time; draws = draws.old } in
        Did world (given world mode words.now) reply space.new effects.old effects.new draws.new) }
{
    let alloc = space.alloc();
    let Some(name) = words.get(0) else {
        return refuse(alloc, &Refusal::NoWord);
    };
    let Some(row) = find(name.as_slice()) else {
        let why = Refusal::unknown_command(alloc, name.as_slice())?;
        return refuse(alloc, &why);
    };
    if let Some(why) = reason(mode, &row, words) {
        return refuse(alloc, &why);
    }
    run(space, ctx, row, words, draws, effects)
}

fn refuse(alloc: Global, why: &Refusal) -> Result<Reply, NoMemory>
    ensures { IfOk result (λ reply. reply ≡ (refused why.now).reply) }
{
    Ok(Reply::Fault(why.text(alloc)?))
}

// Why a command is refused before it is carried out.
fn reason(mode: Mode, row: &Row, words: &Words) -> Option<Refusal>
    ensures { result ≡ reason mode row.now words.now }
{
    if !row.fits(words) {
        Some(Refusal::WordCount(row.id))
    } else if is_barred(mode, row) {
        Some(Refusal::NotInScript)
    } else if mode == Mode::ScriptRo && row.writes {
        Some(Refusal::ReadOnlyScript)
    } else if !are_within_limits(words) {
        Some(Refusal::TooLarge)
    } else {
        None
    }
}

// Whether the command may not be called from there.
fn is_barred(mode: Mode, row: &Row) -> bool
    ensures { result ≡ is_barred mode row.now }
{
    match mode {
        Mode::Client => row.client_only,
        Mode::Script | Mode::ScriptRo => row.client_only || !row.in_script,
    }
}

// Carries out a command that is not refused, in its family.
fn run(
    space: &mut Space,
    ctx: &Ctx,
    row: Row,
    words: &Words,
    draws: &mut Draws,
    effects: &mut Effects,
) -> Result<Reply, NoMemory>
    requires { AllByRecursion IsShort words.now }
    ensures { IfOk result (λ reply.
        let world : World = record { store = space.old; time = ctx.now.time; draws = draws.old } in
        Did world (row_outcome world row.id words.now) reply space.new effects.old effects.new draws.new) }
{
    match row.id {
        CmdId::Client(_) => refuse(space.alloc(), &Refusal::NotInScript),
        CmdId::Strings(_) => run_string(space, ctx, row, words, draws, effects),
        CmdId::Server(_) | CmdId::Keys(_) => run_keys(space, ctx, row, words, draws, effects),
    }
}
