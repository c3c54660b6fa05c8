ghost use Rattle.std.specs.Prelude.{◌≡◌, ◌⊎◌, ◌+◌, ◌<◌, ◌≤◌, ◌↔◌, ◌++◌, [], length, IsTrue, IfOk, OnOk, IfErr};
ghost use Rattle.rs_outside.specs.declared.status.Status.{Status};
ghost use Rattle.rs_outside.specs.Faults.{Rose};
ghost use Rattle.cl_core.specs.Machine.{step};
ghost use Rattle.srv_loop.specs.Runs.{logged_in};
ghost use Rattle.srv_loop.specs.Transcript.{row_lines};
ghost use Rattle.srv_loop.specs.Taking.{CutsTurn};
ghost use Rattle.srv_loop.specs.Gathering.{Flushes, Keeps};
ghost use Rattle.srv_loop.specs.Stops.{Stops, Never};

use crate::serving::write_groups;
use crate::transcript::put_rows;
use crate::writing::{write_log, write_out};
use cl_core::Server;
use fx_log::Groups;
use rs_base::{Bytes, NoMemory};
use rs_outside::{Log, Outs, Sink, Status, Turn};
use std::alloc::Global;

// So many bytes are a batch. A turn alone writes little, and each write asks the system.
const BATCH_BYTES: usize = 65_536;

/// The log bytes and the lines of the transcript of turns that were taken, as long as they are not written.
#[derive(Debug, Drop)]
pub struct Gathered {
    log: Bytes,
    lines: Bytes,
}

impl Gathered {
    /// Nothing is gathered.
    pub fn new(alloc: Global) -> Gathered
        ensures log { result.log ≡ [] }
        ensures lines { result.lines ≡ [] }
    {
        Gathered {
            log: Bytes::new(alloc),
            lines: Bytes::new(alloc),
        }
    }

    /// Takes a turn, and gathers its log bytes and its lines. Answers the number of its log bytes.
    pub fn gather(
        &mut self,
        alloc: Global,
        server: &mut Server,
        turn: Turn,
    ) -> Result<u64, NoMemory>
        ensures server { OnOk result (server.new ≡ (step server.old turn).state) }
        ensures count { IfOk result (λ n. n ≡ length (logged_in (step server.old turn))) }
        ensures log { OnOk result (self.new.log ≡ self.old.log ++ logged_in (step server.old turn)) }
        ensures lines { OnOk result (self.new.lines ≡ self.old.lines ++ row_lines (step server.old turn).rows) }
    {
        let mut rows = Outs::new(alloc);
        let mut groups = Groups::new(alloc);
        server.turn(&turn, &mut rows, &mut groups)?;
        let before = self.log.len();
        write_groups(&groups, &mut self.log)?;
        put_rows(&rows, &mut self.lines)?;
        Ok((self.log.len() - before) as u64)
    }

    /// Writes all that is gathered where it is a batch. Fewer than [`BATCH_BYTES`] bytes stay unwritten.
    pub fn flush_full<O: Sink, L: Log>(
        &mut self,
        alloc: Global,
        out: &mut O,
        log: &mut L,
    ) -> Result<(), Status>
        ensures ok { OnOk result (Flushes self.old self.new (L.taken log.old) (L.taken log.new) (O.taken out.old)
            (O.taken out.new)
            ⊎ Keeps self.old self.new (L.taken log.old) (L.taken log.new) (O.taken out.old) (O.taken out.new)) }
        ensures few { OnOk result (length self.new.log + length self.new.lines < BATCH_BYTES) }
        ensures cut { CutsTurn self.old.log self.old.lines (L.taken log.old) (L.taken log.new) (O.taken out.old)
            (O.taken out.new) }
        ensures stop { IfErr result (Stops Never (Rose (L.faults log.old) (L.faults log.new))
            (Rose (O.faults out.old) (O.faults out.new)) ⊥) }
        ensures names { L.begun log.new ≡ L.begun log.old }
        ensures log_later { L.faults log.old ≤ L.faults log.new }
        ensures out_later { O.faults out.old ≤ O.faults out.new }
    {
        if !self.is_full() {
            return Ok(());
        }
        self.flush(alloc, out, log)
    }

    fn is_full(&self) -> bool
        ensures { IsTrue result ↔ (BATCH_BYTES ≤ length self.now.log + length self.now.lines) }
    {
        self.log.len().saturating_add(self.lines.len()) >= BATCH_BYTES
    }

    /// Writes all that is gathered: the log bytes, and behind the last of them the lines.
    pub fn flush<O: Sink, L: Log>(
        &mut self,
        alloc: Global,
        out: &mut O,
        log: &mut L,
    ) -> Result<(), Status>
        ensures ok { OnOk result (Flushes self.old self.new (L.taken log.old) (L.taken log.new) (O.taken out.old)
            (O.taken out.new)) }
        ensures cut { CutsTurn self.old.log self.old.lines (L.taken log.old) (L.taken log.new) (O.taken out.old)
            (O.taken out.new) }
        ensures stop { IfErr result (Stops Never (Rose (L.faults log.old) (L.faults log.new))
            (Rose (O.faults out.old) (O.faults out.new)) ⊥) }
        ensures names { L.begun log.new ≡ L.begun log.old }
        ensures log_later { L.faults log.old ≤ L.faults log.new }
        ensures out_later { O.faults out.old ≤ O.faults out.new }
    {
        write_log(log, self.log.as_slice())?;
        write_out(out, self.lines.as_slice())?;
        self.log = Bytes::new(alloc);
        self.lines = Bytes::new(alloc);
        Ok(())
    }
}
