ghost use Rattle.std.specs.Prelude.{◌≡◌};
ghost use Rattle.cmd_args.specs.Table.{command, reads, writes, writes_pairs, serves_clients, suits};
ghost use Rattle.cmd_args.specs.Entries.{Enters};

use crate::CmdId;
use rs_base::Words;

/// What a command's words are like, its name counted.
#[derive(Clone, Copy)]
pub(crate) enum Shape {
    Any,
    /// Pairs stand behind the name, each of them whole.
    Pairs,
}

impl Shape {
    pub(crate) fn suits(self, words: &Words) -> bool
        ensures { result ≡ suits self words.now }
    {
        match self {
            Shape::Any => true,
            Shape::Pairs => words.len() % 2 == 1,
        }
    }
}

/// What the table has of a command.
#[derive(Clone, Copy)]
pub(crate) struct Entry {
    /// The name, in lower case.
    pub(crate) name: &'static [u8],
    /// The least number of words, the name counted.
    pub(crate) least: u32,
    /// The most words, the name counted; `u32::MAX` where the manual sets no limit.
    pub(crate) most: u32,
    /// What the words have to be like, beside their number.
    pub(crate) shape: Shape,
    /// Whether the command may change the store.
    pub(crate) writes: bool,
    /// Whether it is for clients alone, and not for scripts.
    pub(crate) client_only: bool,
}

impl CmdId {
    /// The table of commands: what it has of this one.
    pub(crate) fn entry(self) -> Entry
        ensures { Enters result (command self) }
    {
        match self {
            CmdId::Client(command) => command.entry(),
            CmdId::Server(command) => command.entry(),
            CmdId::Strings(command) => command.entry(),
            CmdId::Keys(command) => command.entry(),
        }
    }

    /// The command's name, in lower case.
    pub fn name(self) -> &'static [u8]
        ensures { result.now ≡ (command self).name }
    {
        self.entry().name
    }
}

// A command that only reads.
pub(crate) fn reads(name: &'static [u8], least: u32, most: u32) -> Entry
    ensures { Enters result (reads name.now least most) }
{
    Entry {
        name,
        least,
        most,
        shape: Shape::Any,
        writes: false,
        client_only: false,
    }
}

// One that may change the store.
pub(crate) fn writes(name: &'static [u8], least: u32, most: u32) -> Entry
    ensures { Enters result (writes name.now least most) }
{
    Entry {
        name,
        least,
        most,
        shape: Shape::Any,
        writes: true,
        client_only: false,
    }
}

// One that takes pairs of words behind its name, and may change the store.
pub(crate) fn writes_pairs(name: &'static [u8], least: u32, most: u32) -> Entry
    ensures { Enters result (writes_pairs name.now least most) }
{
    Entry {
        name,
        least,
        most,
        shape: Shape::Pairs,
        writes: true,
        client_only: false,
    }
}

// One that a client alone may send.
pub(crate) fn serves_clients(name: &'static [u8], least: u32, most: u32) -> Entry
    ensures { Enters result (serves_clients name.now least most) }
{
    Entry {
        name,
        least,
        most,
        shape: Shape::Any,
        writes: false,
        client_only: true,
    }
}
