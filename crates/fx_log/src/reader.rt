ghost use Rattle.std.specs.Prelude.{◌≡◌, ℕ, List, [], ◌++◌, Option, All, IfOk, IfErr, IsErrAnd, Err, None};
ghost use Rattle.resp_read.specs.Reading.{Waiting};
ghost use Rattle.fx_record.specs.declared.record.Record.{Record};
ghost use Rattle.fx_log.specs.declared.stops.LogStop.{LogStop};
ghost use Rattle.fx_log.specs.Groups.{IsWithin};
ghost use Rattle.fx_log.specs.Items.{IsOpen};
ghost use Rattle.fx_log.specs.declared.reader.State.{State};
ghost use Rattle.fx_log.specs.Reading.{Reads, read_from, before_frame};
ghost use Rattle.fx_log.specs.LogReader.{HasReadLog, GoesOn, StopsLog, IsStopOf, IsStopWithin};

use crate::run::{Run, take_all};
use crate::{Effects, Groups, LogKind, LogStop};
use resp_read::{Commands, FeedStop, Reader, reading_is_the_grammar};
use std::alloc::Global;
use std::marker::Model;
use std::mem;

/// What a reader of a log still does.
#[derive(Debug, Drop)]
pub enum State {
    /// It reads; these are the records of the group that is open, if one is.
    Reading(Reader, Option<Effects>),
    /// It answers `Failed`.
    Failed,
    /// It answers `NoMemory`.
    OutOfMemory,
}

/// Reads the bytes of an effect log as groups, in whatever pieces they come. It keeps no older byte than those of the
/// frame that is not at its end, and the records of the group that is open.
#[derive(Debug, Drop)]
pub struct LogReader {
    alloc: Global,
    state: State,
}

impl Model for LogReader {
    ghost use Rattle.fx_log.specs.declared.reader.State.{State};

    ghost Value = { State };

    ghost use Rattle.fx_log.specs.Kept.{IsKept};

    ghost view = { λ r. r.state };

    ghost invariant = { λ r. IsKept r.state };
}

impl LogReader {
    /// A reader before the first byte.
    pub fn new(alloc: Global) -> LogReader
        ensures state { result ≡ State.Reading (Waiting 0 []) None }
        ensures stands { HasReadLog result [] }
    {
        LogReader {
            alloc,
            state: State::Reading(Reader::new(alloc), None),
        }
    }

    /// Takes the next piece of the log, and gives the groups that are whole by it, each once, in order. A group is a
    /// record that stands alone, or the records between `MULTI` and `EXEC`; where there is no record between the two,
    /// they are no group.
    ///
    /// # Errors
    ///
    /// `Bad` where the bytes so far are no log any longer, and `Failed` in each call after that. `NoMemory` in each
    /// call from the first one in which memory ran out.
    pub fn feed(&mut self, piece: &[u8]) -> Result<Groups, LogStop>
        ensures within { IfOk result (All IsWithin) }
        ensures before { IfErr result IsStopWithin }
        ensures failed { self.old ≡ State.Failed → (result ≡ Err LogStop.Failed) × (self.new ≡ State.Failed) }
        ensures spent { self.old ≡ State.OutOfMemory
            → (result ≡ Err LogStop.NoMemory) × (self.new ≡ State.OutOfMemory) }
        ensures goes { (text : List ℕ) → HasReadLog self.old text
            → IfOk result (λ groups. GoesOn text piece.now groups self.new) }
        ensures stops { (text : List ℕ) → HasReadLog self.old text
            → IfErr result (λ stop. StopsLog text piece.now stop self.old self.new) }
    {
        // A bad place stays one, whatever comes behind it.
        reading_is_the_grammar();
        match mem::replace(&mut self.state, State::OutOfMemory) {
            State::Reading(reader, opened) => self.go_on(reader, opened, piece),
            State::Failed => {
                self.state = State::Failed;
                Err(LogStop::Failed)
            }
            State::OutOfMemory => Err(LogStop::NoMemory),
        }
    }
}

impl LogReader {
    // Feeds the piece to the reader of frames, and takes the commands that it gives.
    fn go_on(
        &mut self,
        reader: Reader,
        opened: Option<Effects>,
        piece: &[u8],
    ) -> Result<Groups, LogStop>
        requires state { self.old ≡ State.OutOfMemory }
        requires opened { IsOpen opened }
        ensures within { IfOk result (All IsWithin) }
        ensures before { IfErr result IsStopWithin }
        ensures goes { (text : List ℕ) → HasReadLog (State.Reading reader opened) text
            → IfOk result (λ groups. GoesOn text piece.now groups self.new) }
        ensures stops { (text : List ℕ) → HasReadLog (State.Reading reader opened) text
            → IfErr result (λ stop. StopsLog text piece.now stop (State.Reading reader opened) self.new) }
    {
        // A text reads in one way only, so what a piece adds does not depend on how the bytes before it came.
        reading_is_the_grammar();
        let mut reader = reader;
        match reader.feed(piece) {
            Ok(commands) => self.take(reader, opened, commands),
            Err(
                FeedStop::Bad {
                    before,
                    place,
                    kind: _,
                },
            ) => self.take_last(opened, before, place),
            Err(FeedStop::Failed) => {
                self.state = State::Failed;
                Err(LogStop::Failed)
            }
            Err(FeedStop::NoMemory) => Err(LogStop::NoMemory),
        }
    }

    // Takes the commands of a piece, behind which the reader of frames goes on.
    fn take(
        &mut self,
        reader: Reader,
        opened: Option<Effects>,
        commands: Commands,
    ) -> Result<Groups, LogStop>
        requires state { self.old ≡ State.OutOfMemory }
        requires opened { IsOpen opened }
        ensures within { IfOk result (All IsWithin) }
        ensures ok { IfOk result (λ groups. (opened_then : Option (List Record))
            × (read_from [] opened commands ≡ Reads groups opened_then)
            × (self.new ≡ State.Reading reader opened_then)) }
        ensures err { IfErr result (λ stop. IsStopOf (read_from [] opened commands) stop self.new) }
    {
        let mut groups = Groups::new(self.alloc);
        match take_all(self.alloc, opened, commands, &mut groups)? {
            Run::Whole(opened) => {
                self.state = State::Reading(reader, opened);
                Ok(groups)
            }
            Run::Bad { place, kind } => Err(self.stop(groups, place, kind)),
        }
    }

    // Takes the commands before a bad frame at `place`.
    fn take_last(
        &mut self,
        opened: Option<Effects>,
        commands: Commands,
        place: u64,
    ) -> Result<Groups, LogStop>
        requires { self.old ≡ State.OutOfMemory }
        ensures { IsErrAnd result (λ stop. IsStopOf (before_frame place (read_from [] opened commands)) stop self.new) }
    {
        let mut groups = Groups::new(self.alloc);
        match take_all(self.alloc, opened, commands, &mut groups)? {
            Run::Whole(_) => Err(self.stop(groups, place, LogKind::Frame)),
            Run::Bad { place, kind } => Err(self.stop(groups, place, kind)),
        }
    }

    // What is answered to a bad place.
    fn stop(&mut self, before: Groups, place: u64, kind: LogKind) -> LogStop
        ensures answer { result ≡ LogStop.Bad before place kind }
        ensures state { self.new ≡ State.Failed }
    {
        self.state = State::Failed;
        LogStop::Bad {
            before,
            place,
            kind,
        }
    }
}
