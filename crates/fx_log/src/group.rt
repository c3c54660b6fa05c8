ghost use Rattle.std.specs.Prelude.{◌≡◌, ◌++◌, OnOk};
ghost use Rattle.fx_log.specs.Groups.{group_text, records_text, wrapped_text};

use crate::frames::{write_frame, write_record};
use fx_record::Effects;
use rs_base::{Bytes, NoMemory, Seq};

/// What one command did: its records in order, and whether they stand between MULTI and EXEC in the log.
#[derive(Debug, Drop, PartialEq, Eq)]
pub struct Group {
    pub records: Effects,
    pub wrapped: bool,
}

/// Groups in order.
pub type Groups = Seq<Group>;

/// Adds the bytes of a group: nothing where it has no record; the frame of a single record, unless the group is
/// wrapped; and otherwise the frames of its records between those of `MULTI` and `EXEC`.
pub fn write_group(group: &Group, out: &mut Bytes) -> Result<(), NoMemory>
    ensures { OnOk result (out.new ≡ out.old ++ group_text group.now) }
{
    match group.records.as_slice() {
        [] => Ok(()),
        [only] if !group.wrapped => write_record(only, out),
        _ => write_wrapped(&group.records, out),
    }
}

// Adds the frames of records between those of `MULTI` and `EXEC`.
fn write_wrapped(records: &Effects, out: &mut Bytes) -> Result<(), NoMemory>
    ensures { OnOk result (out.new ≡ out.old ++ wrapped_text records.now) }
{
    write_frame(&[b"MULTI"], out)?;
    write_records(records, out)?;
    write_frame(&[b"EXEC"], out)
}

// Adds the frames of records, in order.
fn write_records(records: &Effects, out: &mut Bytes) -> Result<(), NoMemory>
    ensures { OnOk result (out.new ≡ out.old ++ records_text records.now) }
{
    for record in records.as_slice() {
        write_record(record, out)?;
    }
    Ok(())
}
