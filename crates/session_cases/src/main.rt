//! Plays the recorded sessions of standard input, each on a server of its own, and writes what each one sent, what
//! was left in the store, and what was logged.
//!
//! A line that begins with `#` stands before each session, and is written before the transcript. Behind the
//! transcript stands a line `log WORDS` for each frame of the log.
#![tactic(auto)]

mod cases;

use cases::play_cases;
use rs_base::Bytes;
use rs_outside::Status;
use std::io::{self, Write};
use std::process::ExitCode;

fn main(rt: HostRuntime) -> ExitCode {
    match play_input(&rt) {
        Ok(()) => ExitCode::SUCCESS,
        Err(status) => {
            // A status line that cannot be written leaves the code to tell.
            let _ = eprintln!(rt; "session_cases: {status}");
            ExitCode::from(status.code())
        }
    }
}

fn play_input(rt: &HostRuntime) -> Result<(), Status> {
    let Ok(text) = io::read_to_string(rt.alloc(), rt.reader()) else {
        return Err(Status::SourceFault);
    };
    let mut out = Bytes::new(rt.alloc());
    play_cases(rt.alloc(), text.as_str(), &mut out)?;
    match io::writer(rt).write_all(out.as_slice()) {
        Ok(()) => Ok(()),
        Err(_) => Err(Status::SinkFault),
    }
}
