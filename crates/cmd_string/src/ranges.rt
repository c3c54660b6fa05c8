ghost use Rattle.std.specs.Prelude.{◌≡◌, ◌^◌, ◌<◌, IfOk, take, drop};
ghost use Rattle.cmd_string.specs.Ranges.{place_in, is_backward, between, part, written_over};

use rs_base::{Bytes, NoMemory};
use std::alloc::Global;

/// The part of a string from one place to another, that one too: counted from 0, or from the end where negative. It is
/// empty where both are counted from the end and the first is past the last.
pub(crate) fn part(text: &[u8], first: i64, last: i64) -> &[u8]
    ensures { result.now ≡ part text.now first last }
{
    if is_backward(first, last) {
        &text[..0]
    } else {
        between(
            text,
            place_in(text.len(), first),
            place_in(text.len(), last),
        )
    }
}

fn is_backward(first: i64, last: i64) -> bool
    ensures { result ≡ is_backward first last }
{
    first < 0 && last < 0 && last < first
}

fn place_in(count: usize, place: i64) -> usize
    requires { count < 2 ^ 63 }
    ensures value { result ≡ place_in count place }
    ensures within { result < 2 ^ 63 }
{
    let from_one_end = place.unsigned_abs() as usize;
    if place < 0 {
        count.saturating_sub(from_one_end)
    } else {
        from_one_end
    }
}

fn between(text: &[u8], first: usize, last: usize) -> &[u8]
    requires { last < 2 ^ 63 }
    ensures { result.now ≡ between text.now first last }
{
    front(behind(text, first), (last + 1).saturating_sub(first))
}

// The first so many bytes, or all where there are fewer.
fn front(text: &[u8], count: usize) -> &[u8]
    ensures { result.now ≡ take count text.now }
{
    if count < text.len() {
        &text[..count]
    } else {
        text
    }
}

/// The string in which `value` stands from `offset` on, with zero bytes up to there where `text` is shorter.
pub(crate) fn written_over(
    alloc: Global,
    text: &[u8],
    offset: usize,
    value: &[u8],
) -> Result<Bytes, NoMemory>
    ensures { IfOk result (λ new. new ≡ written_over text.now offset value.now) }
{
    let mut new = Vec::from_slice(alloc, text)?;
    new.resize(offset, 0)?;
    new.extend_from_slice(value)?;
    new.extend_from_slice(behind(text, new.len()))?;
    Ok(Bytes::from_vec(new))
}

// What of a string is behind so many bytes.
fn behind(text: &[u8], count: usize) -> &[u8]
    ensures { result.now ≡ drop count text.now }
{
    if count < text.len() {
        &text[count..]
    } else {
        &text[text.len()..]
    }
}
