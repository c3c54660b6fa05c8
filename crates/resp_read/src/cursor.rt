ghost use Rattle.std.specs.Prelude.{◌≡◌, [], ◌++◌, List, true, false, IfOk, OnOk, IfSome, IfNone};
ghost use Rattle.resp_read.specs.Automaton.{fresh, next, out, words_of, kept, is_dead};
ghost use Rattle.resp_read.specs.Frames.{Form};
ghost use Rattle.resp_read.specs.Places.{start_after, waiting_after, moved, given_at, bad_byte, IsReady};
ghost use Rattle.resp_read.specs.Places.{StandsBehind, BreaksAt};

use crate::parser::Parser;
use crate::{BadFrame, Command, Commands};
use rs_base::{NoMemory, Words};
use std::alloc::Global;

/// A byte that cannot stand where it stands.
#[derive(Clone, Copy, Debug)]
pub struct BadByte {
    pub place: u64,
    pub kind: BadFrame,
}

/// Where a reader stands: in the unfinished request that begins at `start`, behind `waiting` bytes of it.
#[derive(Debug, Drop)]
pub struct Cursor {
    pub parser: Parser,
    pub start: u64,
    pub waiting: u64,
}

impl Cursor {
    /// Before the first byte.
    pub fn new(alloc: Global) -> Cursor
        ensures { result ≡ record { parser = fresh; start = 0; waiting = 0 } }
    {
        Cursor {
            parser: Parser::new(alloc),
            start: 0,
            waiting: 0,
        }
    }

    /// Takes the bytes of a piece, and adds the commands that end in it. `Some` exactly where one of them is bad.
    pub fn take_all(
        &mut self,
        alloc: Global,
        piece: &[u8],
        commands: &mut Commands,
    ) -> Result<Option<BadByte>, NoMemory>
        requires ready { IsReady self.old }
        requires none { commands.old ≡ [] }
        ensures good { IfOk result (λ bad. IfNone bad ((forms : List Form)
            × StandsBehind (kept self.old.parser ++ piece.now) self.old.start self.new commands.new forms)) }
        ensures bad { IfOk result (λ bad. IfSome bad (λ x.
            BreaksAt (kept self.old.parser ++ piece.now) self.old.start x commands.new)) }
    {
        for byte in piece {
            if let Some(bad) = self.take(alloc, *byte, commands)? {
                return Ok(Some(bad));
            }
        }
        Ok(None)
    }

    // Takes the next byte, and adds the command that it ends. `Some` exactly where the byte is bad.
    fn take(
        &mut self,
        alloc: Global,
        byte: u8,
        commands: &mut Commands,
    ) -> Result<Option<BadByte>, NoMemory>
        ensures good { IfOk result (λ bad. IfNone bad ((is_dead (next self.old.parser byte).phase ≡ false)
            × (self.new ≡ moved self.old byte)
            × (commands.new ≡ commands.old ++ given_at self.old.start (words_of (out self.old.parser byte))))) }
        ensures bad { IfOk result (λ bad. IfSome bad (λ x. (is_dead (next self.old.parser byte).phase ≡ true)
            × (x ≡ bad_byte self.old) × (commands.new ≡ commands.old))) }
    {
        let phase = self.parser.phase;
        let command = self.parser.take(alloc, byte)?;
        if self.parser.phase.is_dead() {
            return Ok(Some(BadByte {
                place: self.start.saturating_add(self.waiting),
                kind: phase.kind(),
            }));
        }
        give(command, self.start, commands)?;
        self.count(phase.ends_with(byte));
        Ok(None)
    }

    // Counts a byte, which ends a request or does not.
    fn count(&mut self, ends: bool)
        ensures { self.new ≡ record self.old {
          start = start_after ends self.old.start self.old.waiting;
          waiting = waiting_after ends self.old.waiting;
        } }
    {
        self.waiting = self.waiting.saturating_add(1);
        if ends {
            self.start = self.start.saturating_add(self.waiting);
            self.waiting = 0;
        }
    }
}

// Adds a command, if there is one.
fn give(command: Option<Words>, place: u64, commands: &mut Commands) -> Result<(), NoMemory>
    ensures { OnOk result (commands.new ≡ commands.old ++ given_at place command) }
{
    if let Some(words) = command {
        commands.push(Command { words, place })?;
    }
    Ok(())
}
