use crate::answers::put_flag;
use crate::words::number;
use cmd_glob::Glob;
use rs_base::{Bytes, NoMemory};
use std::alloc::Global;

/// The calls of patterns.
pub fn answer(
    alloc: Global,
    name: &[u8],
    args: &[Bytes],
    out: &mut Bytes,
) -> Result<bool, NoMemory> {
    match (name, args) {
        (b"glob", [pattern, text]) => put_match(alloc, pattern, text, out),
        (b"glob_many", [pattern, count, text]) => match number(count) {
            Some(count) => put_match(alloc, pattern, &repeated(alloc, count, text)?, out),
            None => Ok(false),
        },
        _ => Ok(false),
    }
}

fn put_match(
    alloc: Global,
    pattern: &Bytes,
    text: &Bytes,
    out: &mut Bytes,
) -> Result<bool, NoMemory> {
    let glob = Glob::new(alloc, pattern.as_slice())?;
    put_flag(glob.matches(text.as_slice()), out)
}

fn repeated(alloc: Global, count: u64, text: &Bytes) -> Result<Bytes, NoMemory> {
    let mut texts = Bytes::new(alloc);
    for _ in 0..count {
        texts.append(text.as_slice())?;
    }
    Ok(texts)
}
