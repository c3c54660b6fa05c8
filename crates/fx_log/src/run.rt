ghost use Rattle.std.specs.Prelude.{◌≡◌, [], ◌∷◌, ◌++◌, IfOk, OnOk};
ghost use Rattle.fx_log.specs.Items.{wrapped_groups};
ghost use Rattle.fx_log.specs.LogCommands.{groups_at, open_after};
ghost use Rattle.fx_log.specs.Reading.{read_from, as_read};

use crate::command::LogCommand;
use crate::{Effects, Group, Groups, LogKind, Record};
use resp_read::{Command, Commands};
use rs_base::NoMemory;
use std::alloc::Global;

/// How commands of a log were taken.
#[derive(Debug, Drop)]
pub enum Run {
    /// All of them; these are the records of the group that is open then, if one is.
    Whole(Option<Effects>),
    /// Up to the one at this place, which may not stand there.
    Bad { place: u64, kind: LogKind },
}

/// Takes commands, where a group with these records is open, if one is, and adds the groups that they end.
pub fn take_all(
    alloc: Global,
    opened: Option<Effects>,
    commands: Commands,
    groups: &mut Groups,
) -> Result<Run, NoMemory>
    ensures { IfOk result (λ run. as_read groups.new run ≡ read_from groups.old opened commands) }
{
    let mut opened = opened;
    for command in commands.into_vec() {
        let Command { words, place } = command;
        let log_command = LogCommand::from_words(words);
        if !log_command.fits(opened.is_some()) {
            return Ok(Run::Bad {
                place,
                kind: log_command.kind(),
            });
        }
        opened = take(alloc, opened, log_command, groups)?;
    }
    Ok(Run::Whole(opened))
}

// Takes a command that may stand here, and adds the group that it ends. The records of the group that is open then.
fn take(
    alloc: Global,
    opened: Option<Effects>,
    command: LogCommand,
    groups: &mut Groups,
) -> Result<Option<Effects>, NoMemory>
    ensures groups { OnOk result (groups.new ≡ groups.old ++ groups_at opened command) }
    ensures opened { IfOk result (λ after. after ≡ open_after opened command) }
{
    match (opened, command) {
        (None, LogCommand::Multi) => Ok(Some(Effects::new(alloc))),
        (None, LogCommand::Record(record)) => {
            let records = single(alloc, record)?;
            groups.push(Group {
                records,
                wrapped: false,
            })?;
            Ok(None)
        }
        (Some(mut records), LogCommand::Record(record)) => {
            records.push(record)?;
            Ok(Some(records))
        }
        (Some(records), LogCommand::Exec) => {
            close(records, groups)?;
            Ok(None)
        }
        (opened, _) => Ok(opened),
    }
}

fn single(alloc: Global, record: Record) -> Result<Effects, NoMemory>
    ensures { IfOk result (λ records. records ≡ «record» ∷ []) }
{
    let mut records = Effects::new(alloc);
    records.push(record)?;
    Ok(records)
}

// Adds the group of these records, if there are any.
fn close(records: Effects, groups: &mut Groups) -> Result<(), NoMemory>
    ensures { OnOk result (groups.new ≡ groups.old ++ wrapped_groups records) }
{
    if !records.is_empty() {
        groups.push(Group {
            records,
            wrapped: true,
        })?;
    }
    Ok(())
}
