use crate::{Subject, judge};
use rs_base::{Bytes, NoMemory};
use std::io::{self, Write};
use std::process::ExitCode;

/// Judges the cases of standard input, and writes what `judge` says of them and how many there were. The status is a
/// failure only where input or output fails, or memory runs out, which standard error tells: what was written tells the
/// rest.
pub fn run_cases<S: Subject>(rt: &HostRuntime, subject: &mut S) -> ExitCode {
    let Ok(text) = io::read_to_string(rt.alloc(), rt.reader()) else {
        return failure(rt, "the cases cannot be read");
    };
    let Ok(told) = told(rt, text.as_str(), subject) else {
        return failure(rt, "out of memory");
    };
    match io::writer(rt).write_all(told.as_slice()) {
        Ok(()) => ExitCode::SUCCESS,
        Err(_) => failure(rt, "the verdict cannot be written"),
    }
}

// What is wrong, and the verdict.
fn told<S: Subject>(rt: &HostRuntime, text: &str, subject: &mut S) -> Result<Bytes, NoMemory> {
    let mut out = Bytes::new(rt.alloc());
    let verdict = judge(rt.alloc(), text, subject, &mut out)?;
    verdict.put(&mut out)?;
    Ok(out)
}

// Nothing more can be done where standard error fails as well.
fn failure(rt: &HostRuntime, why: &str) -> ExitCode {
    let _ = eprintln!(rt; "{why}");
    ExitCode::FAILURE
}
