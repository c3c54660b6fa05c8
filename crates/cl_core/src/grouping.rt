ghost use Rattle.std.specs.Prelude.{◌≡◌, ◌++◌, map, OnOk};
ghost use Rattle.cl_core.specs.Machine.{group_of, removal};

use fx_log::{Effects, Group, Groups, Record};
use rs_base::{NoMemory, Words};
use std::alloc::Global;
use std::collections::VecDeque;

/// Adds a group for each key that left.
pub(crate) fn add_removals(alloc: Global, keys: Words, groups: &mut Groups) -> Result<(), NoMemory>
    ensures { OnOk result (groups.new ≡ groups.old ++ map removal keys) }
{
    let mut left = VecDeque::from_vec(keys.into_vec());
    while let Some(key) = left.pop_front() {
        let mut records = Effects::new(alloc);
        records.push(Record::Del { key })?;
        groups.push(Group {
            records,
            wrapped: false,
        })?;
    }
    Ok(())
}

/// Adds the records of a command as one group, where there are any.
pub(crate) fn add_group(records: Effects, groups: &mut Groups) -> Result<(), NoMemory>
    ensures { OnOk result (groups.new ≡ groups.old ++ group_of records) }
{
    match records.len() {
        0 => Ok(()),
        count => groups.push(Group {
            records,
            wrapped: count > 1,
        }),
    }
}
