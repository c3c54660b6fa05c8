use rs_base::{Seq, Words};

/// The most words that a command may have.
pub const MAX_WORDS: u64 = 65_536;

/// The most bytes that a word may have.
pub const MAX_WORD_BYTES: u64 = 16_777_216;

/// The most bytes that the words of one command may have together.
pub const MAX_COMMAND_BYTES: u64 = 67_108_864;

/// A command as a client sent it: its words, at least one, and the place of its first byte among all bytes of that
/// client, counted from 0. A place past the last `u64` is given as that one.
#[derive(Debug, Drop, PartialEq, Eq)]
pub struct Command {
    pub words: Words,
    pub place: u64,
}

/// Commands in order.
pub type Commands = Seq<Command>;
