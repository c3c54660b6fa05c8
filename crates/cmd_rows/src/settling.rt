ghost use Rattle.std.specs.Prelude.{◌≡◌, ◌++◌, IfOk, OnOk};
ghost use Rattle.std.specs.List.{AllByRecursion};
ghost use Rattle.ks_space.specs.Store.{Store};
ghost use Rattle.fx_record.specs.Records.{applied};
ghost use Rattle.fx_record.specs.RecordWords.{IsRecord};
ghost use Rattle.fx_record.specs.Settled.{settled};
ghost use Rattle.cmd_args.specs.Draws.{state_after};
ghost use Rattle.cmd_rows.specs.Outcomes.{Outcome};
ghost use Rattle.cmd_rows.specs.Given.{records_of, IsTold, Follows, CanSettle, Did};
ghost use Rattle.cmd_rows.specs.Worlds.{World};

use crate::{Changes, Given, Stop};
use cmd_args::Draws;
use fx_record::{Effects, apply, carry_out};
use ks_space::Space;
use resp_reply::Reply;
use rs_base::NoMemory;

/// Carries out what a row gave on this store and these draws: its records change the store, those that are kept of them
/// are added to the effects, and its draws are taken. A refusal changes nothing, and its reply is the fault that says
/// why. After `NoMemory` the store and the effects are only good for dropping.
pub fn settle(
    space: &mut Space,
    draws: &mut Draws,
    effects: &mut Effects,
    gave: Result<Given, Stop>,
) -> Result<Reply, NoMemory>
    requires { CanSettle space.now gave }
    ensures { (world : World) (row : Outcome) → world.store ≡ space.old → world.draws ≡ draws.old
        → Follows space.old row gave
        → IfOk result (λ reply. Did world row reply space.new effects.old effects.new draws.new) }
{
    match gave {
        Ok(given) => {
            carry_out_all(space, effects, given.changes)?;
            draws.skip(given.draws);
            Ok(given.reply)
        }
        Err(Stop::Refused(why)) => Ok(Reply::Fault(why.text(space.alloc())?)),
        Err(Stop::NoMemory) => Err(NoMemory),
    }
}

fn carry_out_all(space: &mut Space, effects: &mut Effects, changes: Changes) -> Result<(), NoMemory>
    requires records { AllByRecursion IsRecord (records_of changes) }
    requires told { IsTold space.now changes }
    ensures store { OnOk result (space.new ≡ applied space.old (records_of changes)) }
    ensures effects { OnOk result (effects.new ≡ effects.old ++ settled space.old (records_of changes)) }
{
    match changes {
        Changes::Nothing => Ok(()),
        Changes::One(effect) => carry_out(space, effects, effect),
        Changes::Many(records, leads_back) => {
            if leads_back {
                return Ok(());
            }
            apply_all(space, &records)?;
            append(effects, records)
        }
    }
}

/// Carries out each record.
pub(crate) fn apply_all(space: &mut Space, records: &Effects) -> Result<(), NoMemory>
    requires { AllByRecursion IsRecord records.now }
    ensures { OnOk result (space.new ≡ applied space.old records.now) }
{
    for record in records.as_slice() {
        apply(space, record)?;
    }
    Ok(())
}

fn append(effects: &mut Effects, records: Effects) -> Result<(), NoMemory>
    ensures { OnOk result (effects.new ≡ effects.old ++ records) }
{
    for record in records.into_vec() {
        effects.push(record)?;
    }
    Ok(())
}
