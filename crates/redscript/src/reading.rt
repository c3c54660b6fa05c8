ghost use Rattle.std.specs.Prelude.{◌≡◌, ◌+◌, ◌≤◌, ◌<◌, ◌++◌, ℕ, List, length, vec_len, IfOk, IfErr};
ghost use Rattle.rs_outside.specs.Faults.{Rose};
ghost use Rattle.rs_outside.specs.Known.{items_then, NoneLeft};
ghost use Rattle.rs_outside.specs.declared.status.Status.{Status};
ghost use Rattle.redscript.specs.Input.{HasReadAll, StopsReading, StopsPiece};

use rs_base::{Bytes, NoMemory};
use rs_outside::{Failed, Source, Status};
use std::alloc::Global;

/// The most bytes that the input of `play` may have.
pub const MAX_INPUT_BYTES: u64 = 268_435_456;

/// How many bytes are asked of a source at a time.
pub const BUFFER_BYTES: usize = 65_536;

/// Reads a source to its end, or past the limit.
pub fn read_all<S: Source>(alloc: Global, input: &mut S) -> Result<Bytes, Status>
    ensures ok { IfOk result (HasReadAll (S.left input.old) (S.left input.new)) }
    ensures stop { IfErr result (StopsReading (S.left input.old) (S.left input.new)
        (Rose (S.faults input.old) (S.faults input.new))) }
    ensures later { S.faults input.old ≤ S.faults input.new }
{
    let mut text = Bytes::new(alloc);
    let mut buffer = zeros(alloc, BUFFER_BYTES)?;
    while text.len() as u64 <= MAX_INPUT_BYTES {
        if read_piece(input, &mut buffer, &mut text)? == 0 {
            return Ok(text);
        }
    }
    Err(Status::InputTooLong {
        bytes: MAX_INPUT_BYTES,
    })
}

/// This many zeros.
pub fn zeros(alloc: Global, len: usize) -> Result<Vec<u8>, NoMemory>
    ensures { IfOk result (λ bytes. vec_len bytes ≡ len) }
{
    Ok(vec![in alloc; 0u8; len]?)
}

// Reads once, and adds what came to `text`. Answers how many bytes came: 0 at the end.
fn read_piece<S: Source>(
    input: &mut S,
    buffer: &mut [u8],
    text: &mut Bytes,
) -> Result<usize, Status>
    requires { 0 < length buffer.old }
    ensures ok { IfOk result (λ n. (piece : List ℕ) × (length piece ≡ n) × (text.new ≡ text.old ++ piece)
        × (S.left input.old ≡ items_then piece (S.left input.new)) × (n ≡ 0 → NoneLeft (S.left input.new))) }
    ensures stop { IfErr result (StopsPiece (Rose (S.faults input.old) (S.faults input.new))) }
    ensures later { S.faults input.old ≤ S.faults input.new }
{
    let n = match input.read(buffer) {
        Ok(n) => n,
        Err(Failed) => return Err(Status::SourceFault),
    };
    let (piece, _) = buffer.split_at(n);
    text.append(piece)?;
    Ok(n)
}
