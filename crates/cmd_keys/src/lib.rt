//! The commands on keys of any kind and on the server (Redis manual: generic, connection and server): each is carried
//! out as its row says.
#![tactic(auto)]

mod counting;
mod dispatch;
mod expiring;
mod laws;
mod listing;
mod removing;
mod renaming;
mod server;

pub use dispatch::run_keys;
pub use laws::{
    a_fault_does_nothing_to_keys, dbsize_counts_the_keys, del_removes_the_keys,
    each_command_on_keys_has_a_row, echo_answers_its_word, exists_counts_each_word,
    expire_gives_a_key_its_deadline, flush_removes_every_key, key_records_are_within,
    keys_lists_what_the_pattern_matches, other_keys_stay, persist_takes_the_deadline_away,
    ping_answers_pong_or_its_word, randomkey_gives_a_key, rename_moves_a_key,
    renamenx_moves_a_key_to_a_new_name, select_takes_the_database_0_alone,
    time_is_in_seconds_and_microseconds, ttl_gives_what_expire_gave, ttl_tells_the_deadline,
    type_names_the_kind_of_a_value,
};
