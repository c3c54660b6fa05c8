//! One command at a time on the world of a turn: the store, the time and the draws.
#![tactic(auto)]

mod command;
mod desk;
mod laws;

pub use desk::{Desk, exec};
pub use laws::{
    a_refused_command_does_nothing, commands_keep_the_world, commands_leave_other_keys,
    each_command_has_a_row,
};
