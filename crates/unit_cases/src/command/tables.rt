use crate::answers::{put_flag, put_gap};
use crate::words::{number, place};
use cmd_args::{Draws, find};
use rs_base::{Bytes, NoMemory, Words, write_decimal};
use std::alloc::Global;

/// The calls of the table of commands and of draws.
pub fn answer(
    alloc: Global,
    name: &[u8],
    args: &[Bytes],
    out: &mut Bytes,
) -> Result<bool, NoMemory> {
    match (name, args) {
        (b"find", [word]) => put_name(word, out),
        (b"takes", [command, count]) => put_takes(alloc, command, count, out),
        (b"draws", [word, count]) => put_draws(word, count, out),
        (b"below", [word, bound]) => put_place(word, bound, out),
        _ => Ok(false),
    }
}

fn put_name(word: &Bytes, out: &mut Bytes) -> Result<bool, NoMemory> {
    match find(word.as_slice()) {
        Some(row) => out.append(row.id.name())?,
        None => out.append(b"none")?,
    }
    Ok(true)
}

fn put_takes(
    alloc: Global,
    command: &Bytes,
    count: &Bytes,
    out: &mut Bytes,
) -> Result<bool, NoMemory> {
    let (Some(row), Some(count)) = (find(command.as_slice()), place(count)) else {
        return Ok(false);
    };
    let mut words = Words::new(alloc);
    for _ in 0..count {
        words.push(Bytes::new(alloc))?;
    }
    put_flag(row.fits(&words), out)
}

fn put_draws(word: &Bytes, count: &Bytes, out: &mut Bytes) -> Result<bool, NoMemory> {
    let (Some(word), Some(count)) = (number(word), number(count)) else {
        return Ok(false);
    };
    let mut draws = Draws::new(word);
    for _ in 0..count {
        put_gap(out)?;
        write_decimal(draws.next(), out)?;
    }
    Ok(true)
}

fn put_place(word: &Bytes, bound: &Bytes, out: &mut Bytes) -> Result<bool, NoMemory> {
    let (Some(word), Some(bound)) = (number(word), number(bound)) else {
        return Ok(false);
    };
    if bound == 0 {
        return Ok(false);
    }
    write_decimal(Draws::new(word).below(bound), out)?;
    Ok(true)
}
