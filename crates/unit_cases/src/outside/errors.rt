use crate::words::number;
use rs_base::{Bytes, NoMemory, write_decimal};
use rs_outside::{Failed, IoStop, Status};
use std::alloc::Global;

/// Code and text of the status that the words name.
pub fn put_status(alloc: Global, words: &[Bytes], out: &mut Bytes) -> Result<bool, NoMemory> {
    let Some(status) = status(words) else {
        return Ok(false);
    };
    write_decimal(u64::from(status.code()), out)?;
    out.push(b' ')?;
    out.append(status.to_string(alloc)?.as_str().as_bytes())?;
    Ok(true)
}

fn status(words: &[Bytes]) -> Option<Status> {
    match words {
        [name] => plain_status(name.as_slice()),
        [name, of] => numbered_status(name.as_slice(), number(of)?),
        _ => None,
    }
}

fn plain_status(name: &[u8]) -> Option<Status> {
    match name {
        b"done" => Some(Status::Done),
        b"usage" => Some(Status::Usage),
        b"source_fault" => Some(Status::SourceFault),
        b"sink_fault" => Some(Status::SinkFault),
        b"log_fault" => Some(Status::LogFault),
        b"wire_fault" => Some(Status::WireFault),
        b"no_memory" => Some(Status::NoMemory),
        b"from_no_memory" => Some(Status::from(NoMemory)),
        _ => None,
    }
}

fn numbered_status(name: &[u8], number: u64) -> Option<Status> {
    match name {
        b"bad_input" => Some(Status::BadInput { line: number }),
        b"bad_log" => Some(Status::BadLog { place: number }),
        b"turns_spent" => Some(Status::TurnsSpent { turns: number }),
        b"input_too_long" => Some(Status::InputTooLong { bytes: number }),
        _ => None,
    }
}

/// The text of the error of this name.
pub fn put_error(alloc: Global, name: &[u8], out: &mut Bytes) -> Result<bool, NoMemory> {
    let text = match name {
        b"failed" => Failed.to_string(alloc)?,
        b"stop_failed" => IoStop::Failed.to_string(alloc)?,
        b"stop_no_memory" => IoStop::NoMemory.to_string(alloc)?,
        b"stop_from_no_memory" => IoStop::from(NoMemory).to_string(alloc)?,
        _ => return Ok(false),
    };
    out.append(text.as_str().as_bytes())?;
    Ok(true)
}
