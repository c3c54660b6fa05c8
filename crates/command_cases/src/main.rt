//! Reads cases of commands, and writes each command with what it answers, the records that it leaves, and the store
//! behind each case.
//!
//! A line `time T word W` begins a case: an empty store, a turn at time T whose draws begin at W, and a client that
//! calls. Behind it stands `script` where a script calls, `reader` where a script that may not write calls, and `list`
//! where a client calls and the key `list` holds a list, which no command makes yet. A line `at T word W` begins a
//! further turn on the same store, and each key that leaves at it is written. Any other line is a command: its words
//! are spelled by the escape and separated by one space, and `no words` is the command without any. An empty line ends
//! the case, and a line that begins with `#` is a note; both are copied.
#![tactic(auto)]

mod cases;
mod line;

use anyhow::Result;
use cases::Cases;
use std::io::{self, Write};

fn main(rt: HostRuntime) -> Result<()> {
    let mut cases = Cases::new(rt.alloc());
    for line in rt.lines(rt.alloc()) {
        let line = line?;
        cases.take(line.as_str())?;
    }
    cases.end()?;
    io::writer(&rt).write_all(cases.text())?;
    Ok(())
}
