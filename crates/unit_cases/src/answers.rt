//! Answers that several subjects give.

use rs_base::{Bytes, NoMemory, escape, write_decimal};

// Each of the following writes an answer, or the end of one, and is `Ok(true)` where it is written.

pub fn put_done(out: &mut Bytes) -> Result<bool, NoMemory> {
    out.append(b"ok")?;
    Ok(true)
}

/// Theorems hold where they are called.
pub fn put_laws(out: &mut Bytes) -> Result<bool, NoMemory> {
    out.append(b"hold")?;
    Ok(true)
}

pub fn put_flag(flag: bool, out: &mut Bytes) -> Result<bool, NoMemory> {
    out.append(if flag { b"yes" } else { b"no" })?;
    Ok(true)
}

pub fn put_new(is_new: bool, out: &mut Bytes) -> Result<bool, NoMemory> {
    out.append(if is_new { b"new" } else { b"old" })?;
    Ok(true)
}

pub fn put_count(count: usize, out: &mut Bytes) -> Result<bool, NoMemory> {
    write_decimal(count as u64, out)?;
    Ok(true)
}

pub fn put_text(found: Option<&[u8]>, out: &mut Bytes) -> Result<bool, NoMemory> {
    match found {
        Some(text) => escape(text, out)?,
        None => out.append(b"none")?,
    }
    Ok(true)
}

pub fn put_found(found: Option<&Bytes>, out: &mut Bytes) -> Result<bool, NoMemory> {
    match found {
        Some(bytes) => put_text(Some(bytes.as_slice()), out),
        None => put_text(None, out),
    }
}

pub fn put_taken(taken: Option<Bytes>, out: &mut Bytes) -> Result<bool, NoMemory> {
    put_found(taken.as_ref(), out)
}

/// The end of the items.
pub fn put_end(out: &mut Bytes) -> Result<bool, NoMemory> {
    if out.is_empty() {
        out.append(b"none")?;
    }
    Ok(true)
}

/// The next item, behind a space where it is not the first.
pub fn put_item(item: &[u8], out: &mut Bytes) -> Result<(), NoMemory> {
    put_gap(out)?;
    escape(item, out)
}

/// The space before an item that is not the first.
pub fn put_gap(out: &mut Bytes) -> Result<(), NoMemory> {
    if out.is_empty() {
        return Ok(());
    }
    out.push(b' ')
}

/// Words with a space between them.
pub fn put_words(words: &[Bytes], out: &mut Bytes) -> Result<(), NoMemory> {
    for (at, word) in words.iter().enumerate() {
        if at > 0 {
            out.push(b' ')?;
        }
        escape(word.as_slice(), out)?;
    }
    Ok(())
}
