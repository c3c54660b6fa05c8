ghost use Rattle.std.specs.Prelude.{◌≡◌, IsSome, IfSome, OnOk};
ghost use Rattle.fx_record.specs.Records.{apply, applied};
ghost use Rattle.fx_record.specs.RecordWords.{record_of};
ghost use Rattle.fx_log.specs.Groups.{IsWithin};

use crate::{Group, Record};
use ks_space::Space;
use rs_base::{NoMemory, Words};

/// Does to the store what the record says that has these words. After `NoMemory` the store is only good for dropping.
pub fn apply(space: &mut Space, words: &Words) -> Result<(), NoMemory>
    requires { IsSome (record_of words.now) }
    ensures { OnOk result (IfSome (record_of words.now) (λ r. space.new ≡ apply space.old r)) }
{
    let Some(record) = Record::from_words(words.clone()?) else {
        unreachable!()
    };
    fx_record::apply(space, &record)
}

/// Does to the store what the records of a group say, in order. After `NoMemory` the store is only good for dropping.
pub fn replay_into(space: &mut Space, group: &Group) -> Result<(), NoMemory>
    requires { IsWithin group.now }
    ensures { OnOk result (space.new ≡ applied space.old group.now.records) }
{
    for record in group.records.as_slice() {
        fx_record::apply(space, record)?;
    }
    Ok(())
}
