ghost use Rattle.std.specs.Prelude.{◌≡◌, ◌↔◌, IsTrue};

use crate::{Subject, Verdict};
use rs_base::{Bytes, NoMemory, Words, unescape, write_decimal};
use std::alloc::Global;

/// Judges the cases of a text one after another. Adds a line `line N: CALL => ANSWER` for each whose answer is
/// another, with the answer that was given, a line `line N: no call: CALL` for each whose words are no call, and a line
/// `line N: no case` for each line that is none. All three count as wrong.
pub fn judge<S: Subject>(
    alloc: Global,
    text: &str,
    subject: &mut S,
    out: &mut Bytes,
) -> Result<Verdict, NoMemory> {
    let mut verdict = Verdict::new();
    for (at, line) in text.lines().enumerate() {
        if line.is_empty() {
            subject.begin();
        } else if !line.starts_with('#') {
            let is_right = judge_line(alloc, at, line, subject, out)?;
            verdict.count(is_right);
        }
    }
    Ok(verdict)
}

fn judge_line<S: Subject>(
    alloc: Global,
    at: usize,
    line: &str,
    subject: &mut S,
    out: &mut Bytes,
) -> Result<bool, NoMemory> {
    let Some((call, wanted)) = line.split_once(" => ") else {
        put_wrong(at, b"no case", b"", out)?;
        return Ok(false);
    };
    let mut given = Bytes::new(alloc);
    if !is_called(alloc, call, subject, &mut given)? {
        put_wrong(at, b"no call: ", call.as_bytes(), out)?;
        return Ok(false);
    }
    if is_same(given.as_slice(), wanted.as_bytes()) {
        return Ok(true);
    }
    let mut answered = Bytes::from_slice(alloc, b" => ")?;
    answered.append(given.as_slice())?;
    put_wrong(at, call.as_bytes(), answered.as_slice(), out)?;
    Ok(false)
}

// Calls what the text says, if it says a call.
fn is_called<S: Subject>(
    alloc: Global,
    text: &str,
    subject: &mut S,
    given: &mut Bytes,
) -> Result<bool, NoMemory> {
    let mut words = Words::new(alloc);
    for spelled in text.split(' ') {
        let Some(word) = unescape(alloc, spelled.as_bytes())? else {
            return Ok(false);
        };
        words.push(word)?;
    }
    match words.as_slice() {
        [name, args @ ..] => subject.answer(name.as_slice(), args, given),
        [] => Ok(false),
    }
}

fn is_same(given: &[u8], wanted: &[u8]) -> bool
    ensures { IsTrue result ↔ (given.now ≡ wanted.now) }
{
    given == wanted
}

// Adds a line of a place and two texts. Lines count from 1.
fn put_wrong(at: usize, first: &[u8], second: &[u8], out: &mut Bytes) -> Result<(), NoMemory> {
    out.append(b"line ")?;
    write_decimal((at as u64).saturating_add(1), out)?;
    out.append(b": ")?;
    out.append(first)?;
    out.append(second)?;
    out.append(b"\n")
}
