//! RESP2 requests: the frames of commands, and how bytes are read as commands.
#![tactic(auto)]

mod command;
mod cursor;
mod laws;
mod parser;
mod phase;
mod reader;
mod stops;

pub use command::{Command, Commands, MAX_COMMAND_BYTES, MAX_WORD_BYTES, MAX_WORDS};
pub use laws::reading_is_the_grammar;
pub use reader::Reader;
pub use stops::{BadFrame, FeedStop};
