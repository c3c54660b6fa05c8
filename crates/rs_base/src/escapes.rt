ghost use Rattle.std.specs.Prelude.{◌≡◌, ℕ, ◌<◌, ◌++◌, List, Some, option_map, IfOk, IfSome, IsTrue, ◌↔◌, OnOk};
ghost use Rattle.rs_base.specs.Bytes.{AreBytes};
ghost use Rattle.rs_base.specs.Escape.{spelling, spelling_of_byte, hex_digit};
ghost use Rattle.rs_base.specs.Unescape.{byte_at, escaped_at, digits_at, digits_value, hex_value};

use crate::{Bytes, NoMemory};
use std::alloc::Global;

/// Adds the spelling of `bytes` at the end of `out`: bytes from `!` to `~` other than the backslash as they are, then
/// `\\`, `\s` for a space, `\r`, `\n`, and `\xHH` in lower case for any other byte; `\e` for no bytes at all.
pub fn escape(bytes: &[u8], out: &mut Bytes) -> Result<(), NoMemory>
    ensures { OnOk result (out.new ≡ out.old ++ spelling bytes.now) }
{
    if bytes.is_empty() {
        out.append(b"\\e")?;
        return Ok(());
    }
    for byte in bytes {
        escape_byte(*byte, out)?;
    }
    Ok(())
}

fn escape_byte(byte: u8, out: &mut Bytes) -> Result<(), NoMemory>
    ensures { OnOk result (out.new ≡ out.old ++ spelling_of_byte byte) }
{
    match byte {
        b'\\' => out.append(b"\\\\")?,
        b' ' => out.append(b"\\s")?,
        b'\r' => out.append(b"\\r")?,
        b'\n' => out.append(b"\\n")?,
        b'!'..=b'~' => out.push(byte)?,
        _ => out.append(&[b'\\', b'x', hex(byte / 16), hex(byte % 16)])?,
    }
    Ok(())
}

/// The bytes whose spelling by `escape` is `text`. `Ok(None)` exactly where there are none: each string of bytes has
/// one spelling, and no other is read.
pub fn unescape(alloc: Global, text: &[u8]) -> Result<Option<Bytes>, NoMemory>
    ensures found { IfOk result (λ found. IfSome found (λ bytes. AreBytes bytes × (text.now ≡ spelling bytes))) }
    ensures only { (bytes : List ℕ) → AreBytes bytes → text.now ≡ spelling bytes
        → IfOk result (λ found. found ≡ Some bytes) }
{
    if text == b"\\e".as_slice() {
        return Ok(Some(Bytes::new(alloc)));
    }
    // A spelling is at least as long as what it spells.
    let mut bytes = Bytes::with_capacity(alloc, text.len())?;
    let mut rest = text;
    while !rest.is_empty() {
        let Some((byte, more)) = first_byte(rest) else {
            return Ok(None);
        };
        bytes.push(byte)?;
        rest = more;
    }
    if bytes.is_empty() {
        return Ok(None);
    }
    Ok(Some(bytes))
}

// The byte whose spelling `text` begins with, and what follows it.
fn first_byte(text: &[u8]) -> Option<(u8, &[u8])>
    ensures { option_map (λ x. (x.0, x.1.now)) result ≡ byte_at text.now }
{
    let (first, rest) = text.split_first()?;
    match *first {
        b'\\' => escaped_byte(rest),
        b'!'..=b'~' => Some((*first, rest)),
        _ => None,
    }
}

// The byte that `text` spells behind a backslash.
fn escaped_byte(text: &[u8]) -> Option<(u8, &[u8])>
    ensures { option_map (λ x. (x.0, x.1.now)) result ≡ escaped_at text.now }
{
    let (letter, rest) = text.split_first()?;
    match *letter {
        b'\\' => Some((b'\\', rest)),
        b's' => Some((b' ', rest)),
        b'r' => Some((b'\r', rest)),
        b'n' => Some((b'\n', rest)),
        b'x' => hex_byte(rest),
        _ => None,
    }
}

// The byte that `text` spells behind `\x`.
fn hex_byte(text: &[u8]) -> Option<(u8, &[u8])>
    ensures { option_map (λ x. (x.0, x.1.now)) result ≡ digits_at text.now }
{
    let (high, rest) = text.split_first()?;
    let (low, rest) = rest.split_first()?;
    let byte = hex_pair(*high, *low)?;
    Some((byte, rest))
}

// The byte of two digits, where no shorter spelling stands for it.
fn hex_pair(high: u8, low: u8) -> Option<u8>
    ensures { result ≡ digits_value high low }
{
    let high = value_of_hex(high)?;
    let low = value_of_hex(low)?;
    let byte = 16 * high + low;
    match byte {
        b'\r' | b'\n' | b' '..=b'~' => None,
        _ => Some(byte),
    }
}

fn value_of_hex(digit: u8) -> Option<u8>
    ensures value { result ≡ hex_value digit }
    ensures small { IfSome result (λ n. n < 16) }
{
    match digit {
        b'0'..=b'9' => Some(digit - b'0'),
        b'a'..=b'f' => Some(digit - b'a' + 10),
        _ => None,
    }
}

fn hex(digit: u8) -> u8
    requires { digit < 16 }
    ensures { result ≡ hex_digit digit }
{
    if digit < 10 {
        b'0' + digit
    } else {
        b'a' + (digit - 10)
    }
}
