ghost use Rattle.std.specs.Prelude.{◌≡◌, List, ℕ, [], ◌++◌, length, Ok, Err, IfOk, IfErr};
ghost use Rattle.resp_read.specs.declared.stops.FeedStop.{FeedStop};
ghost use Rattle.resp_read.specs.Frames.{within_u64};
ghost use Rattle.resp_read.specs.Reading.{Waiting, Stopped, Spent, answer, after, unfinished, Stops, Took, RefusedBy};
ghost use Rattle.resp_read.specs.Reading.{HasRead, Goes, StopsAt};

use crate::cursor::Cursor;
use crate::{Commands, FeedStop};
use std::alloc::Global;
use std::marker::Model;
use std::mem;

/// What a reader still does.
#[derive(Clone, Copy, Debug)]
pub enum Fate {
    /// It reads.
    Open,
    /// It answers `Failed`.
    Failed,
    /// It answers `NoMemory`.
    OutOfMemory,
}

/// Reads the bytes of one client as commands, in whatever pieces they come (RESP2, arrays of bulk strings). Contracts
/// see what it keeps: the place and the bytes of the unfinished form, or that it has stopped.
#[derive(Debug, Drop)]
pub struct Reader {
    alloc: Global,
    fate: Fate,
    cursor: Cursor,
}

impl Model for Reader {
    ghost use Rattle.resp_read.specs.Reading.{ReaderState};

    ghost Value = { ReaderState };

    ghost use Rattle.resp_read.specs.Places.{seen, IsKept};

    ghost view = { λ r. seen r.fate r.cursor };

    ghost invariant = { λ r. IsKept r.fate r.cursor };
}

impl Reader {
    /// A reader before the first byte.
    pub fn new(alloc: Global) -> Reader
        ensures state { result ≡ Waiting 0 [] }
        ensures stands { HasRead result [] }
    {
        Reader {
            alloc,
            fate: Fate::Open,
            cursor: Cursor::new(alloc),
        }
    }

    /// Takes the next piece of the client's bytes, and gives the commands that are whole by it, each once, in order,
    /// with the places of their first bytes. Empty and negative arrays are no commands and are passed over. Memory is
    /// taken only for bytes that are there, whatever length was announced.
    ///
    /// # Errors
    ///
    /// `Bad` where the bytes so far begin no sequence of requests any longer, however they go on, and `Failed` in each
    /// call after that. `NoMemory` in each call from the first one in which memory ran out.
    pub fn feed(&mut self, piece: &[u8]) -> Result<Commands, FeedStop>
        ensures ok { IfOk result (λ commands. (answer self.old piece.now ≡ Ok commands)
            × (self.new ≡ after self.old piece.now)) }
        ensures err { IfErr result (λ stop. Stops self.old piece.now stop self.new) }
        // In the words of a caller that minds no places.
        ensures took { (start : ℕ) (rest : List ℕ) → self.old ≡ Waiting start rest
            → IfOk result (λ commands. Took rest piece.now commands self.new) }
        ensures refused { (start : ℕ) (rest : List ℕ) → self.old ≡ Waiting start rest
            → IfErr result (λ stop. RefusedBy rest piece.now stop) }
        ensures stopped { self.old ≡ Stopped → result ≡ Err FeedStop.Failed }
        ensures spent { self.old ≡ Spent → result ≡ Err FeedStop.NoMemory }
        // For all bytes of the client so far.
        ensures goes { (text : List ℕ) → HasRead self.old text
            → IfOk result (λ commands. Goes text piece.now commands self.new) }
        ensures stops { (text : List ℕ) → HasRead self.old text
            → IfErr result (λ stop. StopsAt text piece.now stop self.new) }
    {
        match self.fate {
            Fate::Open => {}
            Fate::Failed => return Err(FeedStop::Failed),
            Fate::OutOfMemory => return Err(FeedStop::NoMemory),
        }
        let mut cursor = mem::replace(&mut self.cursor, Cursor::new(self.alloc));
        self.fate = Fate::OutOfMemory;
        let mut commands = Commands::new(self.alloc);
        match cursor.take_all(self.alloc, piece, &mut commands)? {
            None => {
                self.fate = Fate::Open;
                self.cursor = cursor;
                Ok(commands)
            }
            Some(bad) => {
                self.fate = Fate::Failed;
                Err(FeedStop::Bad {
                    before: commands,
                    place: bad.place,
                    kind: bad.kind,
                })
            }
        }
    }

    /// How many bytes of the unfinished form have come. 0 after `Bad` and after `NoMemory`.
    pub fn waiting(&self) -> u64
        ensures { result ≡ within_u64 (length (unfinished self.now)) }
    {
        self.cursor.waiting
    }
}
