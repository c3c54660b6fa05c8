//! Effect records and the effect log.
//!
//! The calls, and what each answers. What is told of a store are the lines of its dump, each with a `;` at its end, or
//! `nothing`.
//!
//! - `record WORD ..`: whether the words are a record, which has those words again.
//! - `carry WORD ..`: carries a record out on a store that lives until the next empty line: `+` where it is kept and
//!   `-` where it is not, and then the keys, each with its string and its deadline. The record is applied to a second
//!   store: where its keys are others, they are told as well.
//! - `put KEY DEADLINE KIND ITEM ..`: gives a key of that store a value of any kind; the deadline is `-` where there is
//!   none. The items are a string, the items of a list, the fields of a hash with their values, the members of a set,
//!   or the members of a sorted set, each behind its score. Tells the store.
//! - `dump`: tells the store.
//! - `group bare|wrapped RECORD / RECORD ..`: the bytes of a group, in the escape.
//! - `feed PIECE`: what a reader of a log answers, which lives until the next empty line: each group as
//!   `[RECORD] ..;`, or as `MULTI [RECORD] .. EXEC;` where it was wrapped, and a bad place as `bad PLACE KIND`; `none`,
//!   or `Failed`.
//! - `replay`: the store that the groups lead to that `feed` gave.
//! - `cut LOG`: what is answered to the log in two pieces, and the store that it leads to. The log is cut at each place
//!   in turn, the second piece comes whole and byte by byte, and an answer that is another than the first stands behind
//!   its cut.
//! - `back LOG`: whether the groups of a log are written as it was.
//! - `laws`: the theorems are called, which have no code.

mod logs;
mod stores;
mod telling;
mod values;

use crate::answers::put_laws;
use fx_log::{groups_are_read_back, log_reading_is_the_grammar};
use fx_record::{
    each_record_has_its_own_words, records_change_their_key_alone, records_keep_to_the_limits,
    records_keep_to_the_time, settled_records_lead_to_the_same_store,
};
use logs::Logs;
use rs_base::{Bytes, NoMemory};
use rs_cases::Subject;
use std::alloc::Global;
use stores::Stores;

/// Stores on which records are carried out, and the reader of a log.
#[derive(Drop)]
pub struct Logging {
    alloc: Global,
    stores: Stores,
    logs: Logs,
}

impl Logging {
    pub fn new(alloc: Global) -> Logging {
        Logging {
            alloc,
            stores: Stores::new(alloc),
            logs: Logs::new(alloc),
        }
    }
}

impl Subject for Logging {
    fn answer(&mut self, name: &[u8], args: &[Bytes], out: &mut Bytes) -> Result<bool, NoMemory> {
        Ok(
            self.stores.answer(name, args, out)?
                || self.logs.answer(name, args, out)?
                || call_laws(name, args, out)?,
        )
    }

    fn begin(&mut self) {
        *self = Logging::new(self.alloc);
    }
}

fn call_laws(name: &[u8], args: &[Bytes], out: &mut Bytes) -> Result<bool, NoMemory> {
    match (name, args) {
        (b"laws", []) => {
            records_change_their_key_alone();
            each_record_has_its_own_words();
            records_keep_to_the_limits();
            records_keep_to_the_time();
            settled_records_lead_to_the_same_store();
            log_reading_is_the_grammar();
            groups_are_read_back();
            put_laws(out)
        }
        _ => Ok(false),
    }
}
