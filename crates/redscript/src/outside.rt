//! The real outside: standard input and output, and the log's file. They tell nothing of content, count their faults,
//! and keep the system's reason of the first.
ghost use Rattle.std.specs.Prelude.{◌≡◌, ℕ, ◌<◌, ◌≤◌, List, Option, None, Ok, IfOk};
ghost use Rattle.std.specs.Result.{ForOk};
ghost use Rattle.rs_outside.specs.Faults.{StopsByFault};

use crate::faults::Faults;
use crate::notes::Notes;
use rs_outside::{Failed, IoStop, Log, Sink, Source};
use std::fs::{File, OpenOptions};
use std::io::{self, Read, Write};
use std::os::fd::AsRawFd;

/// The objects of a run.
#[derive(Drop)]
pub struct Outside<'r> {
    pub input: StdSource<'r>,
    pub out: StdSink<'r>,
    pub log: FileLog<'r>,
}

impl<'r> Outside<'r> {
    /// The objects, of which none was called. The input's bytes go through `notes` as they come.
    pub fn new(rt: &'r HostRuntime, notes: Notes) -> Outside<'r> {
        Outside {
            input: StdSource::new(rt, notes),
            out: StdSink::new(rt),
            log: FileLog::new(rt),
        }
    }
}

/// Standard input.
#[derive(Drop)]
pub struct StdSource<'r> {
    rt: &'r HostRuntime,
    faults: Faults,
    notes: Notes,
}

impl<'r> StdSource<'r> {
    fn new(rt: &'r HostRuntime, notes: Notes) -> StdSource<'r> {
        StdSource {
            rt,
            faults: Faults::new(),
            notes,
        }
    }

    /// Why a read failed first, if one did.
    pub fn reason(&self) -> Option<io::Error> {
        self.faults.reason()
    }

    /// What was noted of the bytes so far.
    pub fn notes(&self) -> &Notes {
        &self.notes
    }
}

impl Source for StdSource<'_> {
    ghost left = { λ _. None };

    ghost faults = { λ s. s.faults.count };

    fn read(&mut self, into: &mut [u8]) -> Result<usize, Failed> {
        match self.rt.reader().read(into) {
            Ok(n) => {
                let (piece, _) = into.split_at(n);
                self.notes.take(piece);
                Ok(n)
            }
            Err(reason) => {
                self.faults.add(reason);
                Err(Failed)
            }
        }
    }
}

/// Standard output.
#[derive(Drop)]
pub struct StdSink<'r> {
    rt: &'r HostRuntime,
    faults: Faults,
}

impl<'r> StdSink<'r> {
    fn new(rt: &'r HostRuntime) -> StdSink<'r> {
        StdSink {
            rt,
            faults: Faults::new(),
        }
    }

    /// Why a write failed first, if one did.
    pub fn reason(&self) -> Option<io::Error> {
        self.faults.reason()
    }
}

impl Sink for StdSink<'_> {
    ghost taken = { λ _. None };

    ghost faults = { λ s. s.faults.count };

    fn write(&mut self, piece: &[u8]) -> Result<usize, IoStop> {
        let written = io::writer(self.rt).write(piece);
        judged(written, piece.len(), &mut self.faults)
    }
}

/// The effect log in a file that is made when the log begins, and was not there before.
#[derive(Drop)]
pub struct FileLog<'r> {
    rt: &'r HostRuntime,
    file: Option<File>,
    faults: Faults,
}

impl<'r> FileLog<'r> {
    fn new(rt: &'r HostRuntime) -> FileLog<'r> {
        FileLog {
            rt,
            file: None,
            faults: Faults::new(),
        }
    }

    /// Why the file was not made or a write failed, if so.
    pub fn reason(&self) -> Option<io::Error> {
        self.faults.reason()
    }
}

impl Sink for FileLog<'_> {
    ghost taken = { λ _. None };

    ghost faults = { λ s. s.faults.count };

    fn write(&mut self, piece: &[u8]) -> Result<usize, IoStop> {
        let Some(file) = &mut self.file else {
            // A log that has not begun takes nothing.
            self.faults.add(io::Error::from(io::ErrorKind::NotFound));
            return Err(IoStop::Failed);
        };
        let written = file.write(piece);
        judged(written, piece.len(), &mut self.faults)
    }
}

impl Log for FileLog<'_> {
    fn begin(&mut self, name: &[u8]) -> Result<(), IoStop> {
        match create(self.rt, name) {
            Ok(file) => {
                self.file = Some(file);
                Ok(())
            }
            Err(reason) => {
                self.faults.add(reason);
                Err(IoStop::Failed)
            }
        }
    }
}

// A new file of this name, which has to be UTF-8.
fn create(rt: &HostRuntime, name: &[u8]) -> io::Result<File> {
    let Ok(name) = str::from_utf8(name) else {
        return Err(io::Error::new(io::ErrorKind::InvalidInput, "the name is not UTF-8"));
    };
    let file = OpenOptions::new()
        .write(true)
        .create_new(true)
        .open(rt, name)?;
    beside_standard_streams(file)
}

// The last of the descriptors of the three standard streams.
const STANDARD_ERROR: i32 = 2;

// Where a standard stream is closed, the system gives its descriptor to the next file. A log that got it would take
// what is written to the stream, so it moves to another, and the stream is closed again.
fn beside_standard_streams(file: File) -> io::Result<File> {
    if file.as_raw_fd() > STANDARD_ERROR {
        Ok(file)
    } else {
        file.try_clone()
    }
}

// What a write of `len` bytes gave. An error is a fault, and so is a write of nothing where there was something.
fn judged(written: io::Result<usize>, len: usize, faults: &mut Faults) -> Result<usize, IoStop>
    requires { ForOk written (λ n. n ≤ len) }
    ensures count { IfOk result (λ n. n ≤ len) }
    ensures some { IfOk result (λ n. 0 < len → 0 < n) }
    ensures same { IfOk result (λ n. written ≡ Ok n) }
    ensures later { faults.old.count ≤ faults.new.count }
    ensures cause { StopsByFault faults.old.count faults.new.count result }
{
    match written {
        Ok(n) if 0 < n || len == 0 => Ok(n),
        Ok(_) => {
            faults.add(io::Error::from(io::ErrorKind::WriteZero));
            Err(IoStop::Failed)
        }
        Err(reason) => {
            faults.add(reason);
            Err(IoStop::Failed)
        }
    }
}
