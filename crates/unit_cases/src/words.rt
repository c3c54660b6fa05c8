//! What the words of a call say.

ghost use Rattle.std.specs.Prelude.{IsTrue, ◌↔◌, IfSome};
ghost use Rattle.ks_space.specs.Store.{IsDeadline, IsShort};

use fx_record::{MAX_DEADLINE, MAX_TEXT_BYTES};
use rs_base::{Bytes, NoMemory, Words, parse_decimal};
use std::alloc::Global;

/// The number that the word writes in digits, if it does.
pub fn number(word: &Bytes) -> Option<u64> {
    parse_decimal(word.as_slice())
}

/// The place or number of items that the word writes in digits, if it does.
pub fn place(word: &Bytes) -> Option<usize> {
    usize::try_from(number(word)?).ok()
}

/// `-`, which stands for none, or a deadline in digits. `None` for any other word.
pub fn deadline_of(word: &Bytes) -> Option<Option<u64>>
    ensures { IfSome result (λ deadline. IfSome deadline IsDeadline) }
{
    if word.as_slice() == b"-".as_slice() {
        return Some(None);
    }
    let deadline = number(word)?;
    if deadline > MAX_DEADLINE {
        return None;
    }
    Some(Some(deadline))
}

/// Whether a store may hold the text.
pub fn is_short(text: &Bytes) -> bool
    ensures { IsTrue result ↔ IsShort text.now }
{
    text.len() <= MAX_TEXT_BYTES
}

/// A copy of words.
pub fn copied(alloc: Global, args: &[Bytes]) -> Result<Words, NoMemory> {
    let mut words = Words::new(alloc);
    for word in args {
        words.push(word.clone()?)?;
    }
    Ok(words)
}
