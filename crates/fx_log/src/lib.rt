//! The effect log: what commands did to the store, as records in groups, how they are written, and how a log is read
//! back.
#![tactic(auto)]

mod command;
mod dump_lines;
mod frames;
mod group;
mod laws;
mod reader;
mod replay;
mod run;
mod stops;

pub use dump_lines::dump;
pub use fx_record::{Effects, Record};
pub use group::{Group, Groups, write_group};
pub use laws::{groups_are_read_back, log_reading_is_the_grammar};
pub use reader::LogReader;
pub use replay::{apply, replay_into};
pub use stops::{LogKind, LogStop};
