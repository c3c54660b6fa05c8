//! What every command is told before it runs: the table of commands, why one is refused, the draws of a turn, and the
//! turn's time.
#![tactic(auto)]

mod commands;
mod draws;
mod finding;
mod laws;
mod refusal;
mod table;
mod turn;

pub use commands::{ClientCmd, CmdId, KeyCmd, Row, ServerCmd, StringCmd};
pub use draws::Draws;
pub use finding::find;
pub use laws::{
    a_draw_is_within_its_range, a_name_is_found_in_letters_of_either_case,
    a_row_that_is_found_is_its_commands, draws_follow_one_another, each_name_stands_once,
};
pub use refusal::Refusal;
pub use turn::{Ctx, Mode};
