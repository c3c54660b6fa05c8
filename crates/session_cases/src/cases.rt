ghost use Rattle.std.specs.Prelude.{◌≡◌, ◌∷◌, [], ◌++◌, ℕ, List, OnOk};
ghost use Rattle.rs_outside.specs.declared.turn.Turn.{Turn};
ghost use Rattle.srv_loop.specs.Session.{IsSession, IsBadLine};
ghost use Rattle.session_cases.specs.Frames.{frame_line, AddsFrames, AddsPlay, bad_line};

use resp_read::{FeedStop, Reader};
use rs_base::{Bytes, Words, escape, write_decimal};
use rs_outside::{Status, SureLog, SureSink};
use srv_loop::play;
use std::alloc::Global;

/// Plays the sessions of `text`, of which each stands behind a line that begins with `#`, and adds what they write to
/// `out`, each behind that line.
///
/// # Errors
///
/// `NoMemory`, and `LogFault` where what was logged is no row of frames.
pub fn play_cases(alloc: Global, text: &str, out: &mut Bytes) -> Result<(), Status> {
    let mut session: Option<Bytes> = None;
    for line in text.lines() {
        if line.starts_with('#') {
            if let Some(session) = &session {
                play_case(alloc, session, out)?;
            }
            put_line(line, out)?;
            session = Some(Bytes::new(alloc));
        } else if let Some(session) = &mut session {
            put_line(line, session)?;
        }
    }
    match &session {
        Some(session) => play_case(alloc, session, out),
        None => Ok(()),
    }
}

fn put_line(line: &str, out: &mut Bytes) -> Result<(), Status>
    ensures { OnOk result (out.new ≡ out.old ++ line.now ++ 10 ∷ []) }
{
    out.append(line.as_bytes())?;
    out.append(b"\n")?;
    Ok(())
}

// Plays a session on a new server. Adds its transcript and the frames of its log, or else which line is none of a
// session.
fn play_case(alloc: Global, session: &Bytes, out: &mut Bytes) -> Result<(), Status>
    ensures played { (turns : List Turn) → IsSession session.now turns → OnOk result (AddsPlay turns out.old out.new) }
    ensures refused { (line : ℕ) → IsBadLine session.now line → OnOk result (out.new ≡ out.old ++ bad_line line) }
{
    let mut transcript = SureSink::new(alloc);
    let mut log = SureLog::new(alloc);
    match play(alloc, session, b"log", &mut transcript, &mut log) {
        Status::Done => {
            out.append(transcript.taken().as_slice())?;
            put_frames(alloc, log.taken().as_slice(), out)
        }
        Status::BadInput { line } => put_bad_line(line, out),
        status => Err(status),
    }
}

fn put_bad_line(line: u64, out: &mut Bytes) -> Result<(), Status>
    ensures { OnOk result (out.new ≡ out.old ++ bad_line line) }
{
    out.append(b"bad input: line ")?;
    write_decimal(line, out)?;
    out.append(b"\n")?;
    Ok(())
}

// Adds a line for each frame of a log.
fn put_frames(alloc: Global, log: &[u8], out: &mut Bytes) -> Result<(), Status>
    ensures { OnOk result (AddsFrames log.now out.old out.new) }
{
    let frames = match Reader::new(alloc).feed(log) {
        Ok(frames) => frames,
        Err(FeedStop::NoMemory) => return Err(Status::NoMemory),
        Err(_) => return Err(Status::LogFault),
    };
    for frame in frames.as_slice() {
        put_frame(&frame.words, out)?;
    }
    Ok(())
}

// Adds the line `log WORDS` of a frame.
fn put_frame(words: &Words, out: &mut Bytes) -> Result<(), Status>
    ensures { OnOk result (out.new ≡ out.old ++ frame_line words.now) }
{
    out.append(b"log")?;
    for word in words.as_slice() {
        out.append(b" ")?;
        escape(word.as_slice(), out)?;
    }
    out.append(b"\n")?;
    Ok(())
}
