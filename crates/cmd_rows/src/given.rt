ghost use Rattle.std.specs.Prelude.{◌≡◌};
ghost use Rattle.cmd_rows.specs.Outcomes.{answers, does};
ghost use Rattle.cmd_rows.specs.Given.{outcome_of};

use fx_record::{Effects, Record};
use resp_reply::Reply;

/// What a row does to the store.
#[derive(Debug, Drop)]
pub enum Changes {
    Nothing,
    One(Record),
    /// Several records, and whether they lead back to the same store.
    Many(Effects, bool),
}

/// What a row gives: its reply, what it does to the store, and how many draws it takes.
#[derive(Debug, Drop)]
pub struct Given {
    pub reply: Reply,
    pub changes: Changes,
    pub draws: u64,
}

impl Given {
    /// A reply, and nothing is done.
    pub fn reply(reply: Reply) -> Given
        ensures { result ≡ record { reply = reply; changes = Changes.Nothing; draws = 0 } }
    {
        Given {
            reply,
            changes: Changes::Nothing,
            draws: 0,
        }
    }

    /// A reply, and one record is carried out.
    pub fn one(reply: Reply, effect: Record) -> Given
        ensures { result ≡ record { reply = reply; changes = Changes.One effect; draws = 0 } }
    {
        Given {
            reply,
            changes: Changes::One(effect),
            draws: 0,
        }
    }
}
