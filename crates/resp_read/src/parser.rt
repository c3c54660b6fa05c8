ghost use Rattle.std.specs.Prelude.{◌≡◌, IfOk, OnOk};
ghost use Rattle.resp_read.specs.Automaton.{fresh, next, next_in, out, out_in, words_of};

use crate::MAX_COMMAND_BYTES;
use crate::phase::Phase;
use rs_base::{Bytes, NoMemory, Words};
use std::alloc::Global;
use std::mem;

/// What is read of a request: its whole words, what is there of the next one, and how many bytes the words that are
/// not whole yet may have together.
#[derive(Debug, Drop)]
pub struct Parser {
    pub phase: Phase,
    pub words: Words,
    pub word: Bytes,
    pub room: u64,
}

impl Parser {
    /// At the start of a request.
    pub fn new(alloc: Global) -> Parser
        ensures { result ≡ fresh }
    {
        Parser {
            phase: Phase::AtStar,
            words: Words::new(alloc),
            word: Bytes::new(alloc),
            room: MAX_COMMAND_BYTES,
        }
    }

    /// Takes the next byte, and gives the words of the command that it ends.
    pub fn take(&mut self, alloc: Global, byte: u8) -> Result<Option<Words>, NoMemory>
        ensures state { OnOk result (self.new ≡ next self.old byte) }
        ensures command { IfOk result (λ command. command ≡ words_of (out self.old byte)) }
    {
        let phase = self.phase;
        self.phase = phase.after(self.room, byte);
        match phase {
            Phase::InWord(_, _) => {
                self.word.push(byte)?;
                Ok(None)
            }
            Phase::WordLf(behind) => self.end_word(alloc, behind, byte),
            _ => Ok(None),
        }
    }

    // Takes the byte behind the CR of a word, behind which so many more come.
    fn end_word(&mut self, alloc: Global, behind: u64, byte: u8) -> Result<Option<Words>, NoMemory>
        ensures state { OnOk result
            (self.new ≡ record (next_in (Phase.WordLf behind) self.old byte) { phase = self.old.phase }) }
        ensures command { IfOk result (λ command. command ≡ words_of (out_in (Phase.WordLf behind) self.old byte)) }
    {
        if byte != b'\n' {
            return Ok(None);
        }
        let word = mem::replace(&mut self.word, Bytes::new(alloc));
        self.room = self.room.saturating_sub(word.len() as u64);
        self.words.push(word)?;
        if behind > 0 {
            return Ok(None);
        }
        self.room = MAX_COMMAND_BYTES;
        Ok(Some(mem::replace(&mut self.words, Words::new(alloc))))
    }
}
