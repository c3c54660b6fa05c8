//! redscript: plays recorded sessions of Redis clients against a store of its own, and writes what was sent and logged;
//! and replays such a log.
#![tactic(auto)]

mod command_line;
mod faults;
mod forms;
mod messages;
mod notes;
mod outside;
mod reading;
mod replaying;
mod running;
mod tail;
#[cfg(test)]
mod tests;

use command_line::{HELP, Lone, VERSION, lone_word, words_of};
use messages::Message;
use notes::Notes;
use outside::Outside;
use rs_base::Words;
use rs_outside::{Status, SureWire, Turns};
use running::run;
use std::fmt::Display;
use std::process::ExitCode;

fn main(rt: HostRuntime) -> ExitCode {
    let Ok(words) = words_of(rt.alloc(), &rt) else {
        return end(&rt, Status::NoMemory);
    };
    match lone_word(&words) {
        Some(Lone::Help) => answer(&rt, HELP),
        Some(Lone::Version) => answer(&rt, VERSION),
        None => end(&rt, run_outside(&rt, &words)),
    }
}

// Runs over the real outside, and tells more of how it ended. There are no sockets yet, so the wire has no turns.
fn run_outside(rt: &HostRuntime, words: &Words) -> Status {
    let alloc = rt.alloc();
    let mut wire = SureWire::new(alloc, Turns::new(alloc));
    let mut outside = Outside::new(rt, Notes::of(words));
    let Outside { input, out, log } = &mut outside;
    let status = run(alloc, words, &mut wire, input, out, log);
    if let Some(message) = Message::of(status, words, &outside) {
        tell(rt, message);
    }
    status
}

// The status's line on standard error, where it has one, and its code.
fn end(rt: &HostRuntime, status: Status) -> ExitCode {
    if status != Status::Done {
        tell(rt, status);
    }
    ExitCode::from(status.code())
}

// A line on standard error. Where it cannot be written, the code alone tells.
fn tell(rt: &HostRuntime, line: impl Display + Drop) {
    let _ = eprintln!(rt; "redscript: {line}");
}

fn answer(rt: &HostRuntime, text: &str) -> ExitCode {
    match println!(rt; "{text}") {
        Ok(()) => ExitCode::SUCCESS,
        Err(reason) => {
            tell(rt, Message::Reason("standard output", reason));
            end(rt, Status::SinkFault)
        }
    }
}
