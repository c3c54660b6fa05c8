//! Effect records: what they do to a store, the words that they are written as, and the steps by which commands carry
//! them out.
#![tactic(auto)]

mod laws;
mod limits;
mod record;
mod steps;

pub use laws::{
    each_record_has_its_own_words, records_change_their_key_alone, records_keep_to_the_limits,
    records_keep_to_the_time, settled_records_lead_to_the_same_store,
};
pub use limits::{MAX_BYTES, MAX_TEXT_BYTES, MAX_WORDS, are_within_limits};
pub use record::{Effects, MAX_DEADLINE, Record};
pub use steps::{apply, carry_out};
