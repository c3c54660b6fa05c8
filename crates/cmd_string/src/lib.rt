//! The commands on strings (Redis manual, strings), each carried out by its row.
#![tactic(auto)]

mod count;
mod dispatch;
mod getex;
mod grow;
mod laws;
mod many;
mod option_laws;
mod options;
mod ranges;
mod read;
mod set;
mod set_laws;
mod slice_laws;

pub use dispatch::run_string;
pub use laws::{
    a_fault_does_nothing_to_strings, another_kind_is_refused, each_command_on_strings_has_a_row,
    getdel_and_getex, integers_are_counted, other_keys_stay, string_records_are_within,
    strings_are_read, strings_grow,
};
pub use option_laws::options_stand_in_any_order;
pub use set_laws::{
    mset_then_get, other_sets_then_get, set_asks_first, set_does_as_its_options_say, set_then_get,
};
pub use slice_laws::{getrange_gives_a_slice, setrange_fills_with_zero_bytes};
