//! The texts that the words of a case stand for. One that is too long counts as want of memory.

ghost use Rattle.std.specs.Prelude.{◌<◌, ◌^◌, length, IfOk};

use rs_base::{Bytes, NoMemory, decimal_prefix};
use std::alloc::Global;

const MAX_BYTES: usize = 1_000_000;

/// The words with a space between them.
pub fn joined(alloc: Global, words: &[Bytes]) -> Result<Bytes, NoMemory>
    ensures { IfOk result (λ text. length text < 2 ^ 31) }
{
    let mut text = Bytes::new(alloc);
    for (at, word) in words.iter().enumerate() {
        if at > 0 {
            text.push(b' ')?;
        }
        text.append(word.as_slice())?;
    }
    bounded(text)
}

/// The parts one behind another, each as often as it says.
pub fn repeated(alloc: Global, parts: &[Bytes]) -> Result<Bytes, NoMemory>
    ensures { IfOk result (λ text. length text < 2 ^ 31) }
{
    let mut text = Bytes::new(alloc);
    for part in parts {
        let (times, word) = repetition(part.as_slice());
        for _ in 0..times {
            text.append(word)?;
        }
    }
    bounded(text)
}

// How often a part has which word.
fn repetition(part: &[u8]) -> (u64, &[u8]) {
    match decimal_prefix(part) {
        Some((times, [b'*', word @ ..])) => (times, word),
        _ => (1, part),
    }
}

fn bounded(text: Bytes) -> Result<Bytes, NoMemory>
    ensures { IfOk result (λ text. length text < 2 ^ 31) }
{
    if text.len() > MAX_BYTES {
        return Err(NoMemory);
    }
    Ok(text)
}
