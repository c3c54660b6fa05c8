use cmd_args::{Refusal, find};
use rs_base::{Bytes, NoMemory};
use std::alloc::Global;

/// The calls of refusals.
pub fn answer(
    alloc: Global,
    name: &[u8],
    args: &[Bytes],
    out: &mut Bytes,
) -> Result<bool, NoMemory> {
    let refusal = match (name, args) {
        (b"refusal", [reason]) => plain(reason.as_slice()),
        (b"refusal", [reason, word]) => naming(alloc, reason.as_slice(), word.as_slice())?,
        _ => None,
    };
    match refusal {
        Some(refusal) => {
            put_refusal(alloc, &refusal, out)?;
            Ok(true)
        }
        None => Ok(false),
    }
}

/// Adds what the refusal says.
pub fn put_refusal(alloc: Global, refusal: &Refusal, out: &mut Bytes) -> Result<(), NoMemory> {
    out.append(refusal.text(alloc)?.as_slice())
}

fn plain(reason: &[u8]) -> Option<Refusal> {
    match reason {
        b"no_word" => Some(Refusal::NoWord),
        b"not_in_script" => Some(Refusal::NotInScript),
        b"read_only_script" => Some(Refusal::ReadOnlyScript),
        b"too_large" => Some(Refusal::TooLarge),
        b"syntax" => Some(Refusal::Syntax),
        b"not_integer" => Some(Refusal::NotInteger),
        b"wrong_type" => Some(Refusal::WrongType),
        b"no_such_key" => Some(Refusal::NoSuchKey),
        b"overflow" => Some(Refusal::Overflow),
        b"offset" => Some(Refusal::Offset),
        b"too_long" => Some(Refusal::TooLong),
        b"db_index" => Some(Refusal::DbIndex),
        _ => None,
    }
}

// A refusal that names a command, or a word that names none.
fn naming(alloc: Global, reason: &[u8], word: &[u8]) -> Result<Option<Refusal>, NoMemory> {
    match (reason, find(word)) {
        (b"unknown_command", None) => Ok(Some(Refusal::unknown_command(alloc, word)?)),
        (b"word_count", Some(row)) => Ok(Some(Refusal::WordCount(row.id))),
        (b"expire_time", Some(row)) => Ok(Some(Refusal::ExpireTime(row.id))),
        _ => Ok(None),
    }
}
