ghost use Rattle.std.specs.Prelude.{◌≡◌, find as first_of};
ghost use Rattle.cmd_args.specs.Table.{is_name, row_named};

use crate::commands::all_commands;
use crate::{CmdId, Row};

/// The row of the command that the word names, in letters of either case. `None` exactly where it names none.
pub fn find(name: &[u8]) -> Option<Row>
    ensures { result ≡ row_named name.now }
{
    let id = named_among(name, all_commands())?;
    Some(id.row())
}

fn named_among(word: &[u8], ids: &[CmdId]) -> Option<CmdId>
    ensures { result ≡ first_of (is_name word.now) ids.now }
{
    for id in ids {
        if id.is_named(word) {
            return Some(*id);
        }
    }
    None
}
