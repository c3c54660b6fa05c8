ghost use Rattle.std.specs.Prelude.{◌≡◌, ◌++◌, IfOk};
ghost use Rattle.cmd_args.specs.declared.refusal.Refusal.{Refusal};
ghost use Rattle.cmd_args.specs.Refusals.{named, refusal_text, shown};

use crate::CmdId;
use rs_base::{Bytes, NoMemory};
use std::alloc::Global;

/// How many bytes of a word that names no command its refusal shows.
const MAX_SHOWN_BYTES: usize = 128;

/// Why a command is refused.
#[derive(Debug, Drop, PartialEq, Eq)]
pub enum Refusal {
    /// The first word names no command. It holds the first 128 bytes of that word, as they were sent.
    UnknownCommand(Bytes),
    /// The command does not take that many words.
    WordCount(CmdId),
    /// A script called a command without a word.
    NoWord,
    /// The command is for clients alone, or a script may not call it.
    NotInScript,
    /// A script that only reads may not call a command that writes.
    ReadOnlyScript,
    /// The words are too many, or have too many bytes.
    TooLarge,
    /// An option that the command lacks, that stands twice or beside one that excludes it, or without its number.
    Syntax,
    /// A word that should spell an integer of 64 bits does not.
    NotInteger,
    /// The time at which the key should expire is out of range.
    ExpireTime(CmdId),
    /// The key holds a value of another kind.
    WrongType,
    /// The key does not exist.
    NoSuchKey,
    /// The integer would pass 64 bits.
    Overflow,
    /// The offset of SETRANGE is negative.
    Offset,
    /// The string would pass 16,777,216 bytes.
    TooLong,
    /// There is no database but 0.
    DbIndex,
}

impl Refusal {
    /// The refusal of a word that names no command.
    pub fn unknown_command(alloc: Global, word: &[u8]) -> Result<Refusal, NoMemory>
        ensures { IfOk result (λ refusal. refusal ≡ Refusal.UnknownCommand (shown word.now)) }
    {
        let front = Bytes::from_slice(alloc, front(word))?;
        Ok(Refusal::UnknownCommand(front))
    }

    /// The text of the refusal, as a client reads it.
    pub fn text(&self, alloc: Global) -> Result<Bytes, NoMemory>
        ensures { IfOk result (λ text. text ≡ refusal_text self.now) }
    {
        let (front, back) = self.wording();
        let mut text = Bytes::from_slice(alloc, front)?;
        text.append(self.named())?;
        text.append(back)?;
        Ok(text)
    }

    // The word or the command that the refusal names.
    fn named(&self) -> &[u8]
        ensures { result.now ≡ named self.now }
    {
        match self {
            Refusal::UnknownCommand(word) => word.as_slice(),
            Refusal::WordCount(command) | Refusal::ExpireTime(command) => command.name(),
            _ => b"",
        }
    }

    // What it says before and behind what it names.
    fn wording(&self) -> (&'static [u8], &'static [u8])
        ensures { result.0.now ++ named self.now ++ result.1.now ≡ refusal_text self.now }
    {
        match self {
            Refusal::UnknownCommand(_) => (b"ERR unknown command '", b"'"),
            Refusal::WordCount(_) => (b"ERR wrong number of arguments for '", b"' command"),
            Refusal::NoWord => (
                b"ERR Please specify at least one argument for this redis.call()",
                b"",
            ),
            Refusal::NotInScript => (b"ERR This Redis command is not allowed from script", b""),
            Refusal::ReadOnlyScript => (
                b"ERR Write commands are not allowed from read-only scripts.",
                b"",
            ),
            Refusal::TooLarge => (b"ERR command too large", b""),
            Refusal::Syntax => (b"ERR syntax error", b""),
            Refusal::NotInteger => (b"ERR value is not an integer or out of range", b""),
            Refusal::ExpireTime(_) => (b"ERR invalid expire time in '", b"' command"),
            Refusal::WrongType => (
                b"WRONGTYPE Operation against a key holding the wrong kind of value",
                b"",
            ),
            Refusal::NoSuchKey => (b"ERR no such key", b""),
            Refusal::Overflow => (b"ERR increment or decrement would overflow", b""),
            Refusal::Offset => (b"ERR offset is out of range", b""),
            Refusal::TooLong => (b"ERR string exceeds maximum allowed size", b""),
            Refusal::DbIndex => (b"ERR DB index is out of range", b""),
        }
    }
}

fn front(word: &[u8]) -> &[u8]
    ensures { result.now ≡ shown word.now }
{
    if word.len() <= MAX_SHOWN_BYTES {
        return word;
    }
    let (front, _) = word.split_at(MAX_SHOWN_BYTES);
    front
}
