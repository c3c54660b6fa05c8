use crate::reading::zeros;
use rs_base::{Bytes, NoMemory, Words};
use std::alloc::Global;
use std::env::{Env, FillError};

/// What `--help` answers.
pub const HELP: &str = "\
redscript plays recorded sessions of Redis clients, and replays their effect logs.

Usage:
  redscript play LOG    plays the session on standard input, writes its transcript
                        to standard output and its effect log to the new file LOG
  redscript replay      replays the effect log on standard input, and writes the store
                        that it leads to to standard output
  redscript --help      writes this text
  redscript --version   writes the version

LOG is any name in UTF-8 that is not empty, also one that begins with a dash. A file
that is there is not touched: remove the old log before you play again.

The last line on standard error names a status other than done, which has the code 0:
  2  usage                   5  source fault            10  out of memory
  3  bad input: line N       6  sink fault              12  input too long: N
  4  bad log: byte N         7  log fault";

/// What `--version` answers.
pub const VERSION: &str = "redscript 0.1.0";

/// A lone word that the program answers itself.
#[derive(Clone, Copy, Debug, PartialEq, Eq)]
pub enum Lone {
    Help,
    Version,
}

/// What a command line of this one word asks for.
pub fn lone_word(words: &Words) -> Option<Lone> {
    let [word] = words.as_slice() else {
        return None;
    };
    if word.as_slice() == b"--help".as_slice() {
        Some(Lone::Help)
    } else if word.as_slice() == b"--version".as_slice() {
        Some(Lone::Version)
    } else {
        None
    }
}

/// The words of the command line, without the program's own name. They may be any bytes.
pub fn words_of(alloc: Global, env: &impl Env) -> Result<Words, NoMemory> {
    let mut words = Words::new(alloc);
    for place in 1..usize::MAX {
        let Some(word) = word_at(alloc, env, place)? else {
            break;
        };
        words.push(word)?;
    }
    Ok(words)
}

// How much room a word of the command line is given first.
const WORD_BYTES: usize = 256;

// The word at this place of the command line, the program's own name being at 0. A word that does not fit is read again
// with twice the room.
fn word_at(alloc: Global, env: &impl Env, place: usize) -> Result<Option<Bytes>, NoMemory> {
    let mut room = WORD_BYTES;
    for _ in 0..usize::BITS {
        let mut buffer = zeros(alloc, room)?;
        match env.arg(place, &mut buffer) {
            Ok(len) => {
                buffer.truncate(len);
                return Ok(Some(Bytes::from_vec(buffer)));
            }
            Err(FillError::NotPresent) => return Ok(None),
            Err(FillError::TooLong) => room = room.saturating_add(room),
        }
    }
    Err(NoMemory)
}
